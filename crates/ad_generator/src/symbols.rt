//! The symbols of the modules that are built, and the relocations by them.

ghost use Rattle.std.specs.Prelude.{◌≡◌, IfOk, pos};
ghost use Rattle.ad_generator.specs.Modules.{exported, label, local_function, local_object, service};
ghost use Rattle.ad_generator.specs.Private.Named.{module_of};

use crate::names::BuiltModule;
use ad_base::{Name, OutOfMemory};
use ad_elf::{SHN_UNDEF, STB_GLOBAL, STT_FUNC, STT_NOTYPE};
use ad_kit::{KitRela, KitSymbol};
use std::alloc::Global;

/// The binding of a symbol that other objects don't see (gABI, "Symbol Table").
pub(crate) const STB_LOCAL: u8 = 0;

/// The type of a symbol that is an object of data (gABI, "Symbol Table").
pub(crate) const STT_OBJECT: u8 = 1;

/// The number of the section of instructions.
pub(crate) const TEXT: u16 = 1;

/// The number of the section of data. Between it and the instructions are the relocations of those.
pub(crate) const DATA: u16 = 3;

/// Numbers of symbols of the counter.
pub(crate) const COUNT: u64 = 1;

pub(crate) const COUNT_HIGH: u64 = 2;

/// Numbers of symbols of the device's module.
pub(crate) const K_OUT: u64 = 2;

pub(crate) const K_IN: u64 = 3;

/// Numbers of symbols of the module with a table.
pub(crate) const TABLE: u64 = 1;

pub(crate) const TABLE_HIGH: u64 = 2;

pub(crate) const TEN: u64 = 3;

pub(crate) const TWENTY: u64 = 4;

impl BuiltModule {
    /// The symbols of its object file.
    pub fn symbols(self, alloc: Global) -> Result<Vec<KitSymbol>, OutOfMemory>
        ensures { IfOk result (λ v. v.items ≡ (module_of self).symbols) }
    {
        match self {
            BuiltModule::Sum => sum_symbols(alloc),
            BuiltModule::Counter => counter_symbols(alloc),
            BuiltModule::Device => device_symbols(alloc),
            BuiltModule::Table => table_symbols(alloc),
        }
    }
}

fn sum_symbols(alloc: Global) -> Result<Vec<KitSymbol>, OutOfMemory>
    ensures { IfOk result (λ v. v.items ≡ (module_of BuiltModule.Sum).symbols) }
{
    Ok(vec![in alloc; exported(alloc, BuiltModule::Sum, 8)?]?)
}

fn counter_symbols(alloc: Global) -> Result<Vec<KitSymbol>, OutOfMemory>
    ensures { IfOk result (λ v. v.items ≡ (module_of BuiltModule.Counter).symbols) }
{
    Ok(vec![in alloc;
        local_object(alloc, b"count", 8)?,
        label(alloc, b".Lpcrel_hi0")?,
        exported(alloc, BuiltModule::Counter, 24)?,
    ]?)
}

fn device_symbols(alloc: Global) -> Result<Vec<KitSymbol>, OutOfMemory>
    ensures { IfOk result (λ v. v.items ≡ (module_of BuiltModule.Device).symbols) }
{
    Ok(vec![in alloc;
        exported(alloc, BuiltModule::Device, 24)?,
        service(alloc, b"k_out")?,
        service(alloc, b"k_in")?,
    ]?)
}

fn table_symbols(alloc: Global) -> Result<Vec<KitSymbol>, OutOfMemory>
    ensures { IfOk result (λ v. v.items ≡ (module_of BuiltModule.Table).symbols) }
{
    Ok(vec![in alloc;
        local_object(alloc, b"table", 16)?,
        label(alloc, b".Lpcrel_hi0")?,
        local_function(alloc, b"ten", 28, 8)?,
        local_function(alloc, b"twenty", 36, 8)?,
        exported(alloc, BuiltModule::Table, 28)?,
    ]?)
}

/// The function that a module exports, of so many bytes, at the start of the text.
fn exported(alloc: Global, module: BuiltModule, size: u64) -> Result<KitSymbol, OutOfMemory>
    ensures { IfOk result (λ y. y ≡ exported (module_of «module»).export size) }
{
    Ok(KitSymbol {
        name: Name::of(alloc, module.export().as_bytes())?,
        info: STB_GLOBAL * 16 + STT_FUNC,
        shndx: TEXT,
        value: 0,
        size,
    })
}

/// Another function, of so many bytes, at an offset of the text.
fn local_function(alloc: Global, name: &[u8], at: u64, size: u64) -> Result<KitSymbol, OutOfMemory>
    ensures { IfOk result (λ y. y ≡ local_function name.now at size) }
{
    Ok(KitSymbol {
        name: Name::of(alloc, name)?,
        info: STB_LOCAL * 16 + STT_FUNC,
        shndx: TEXT,
        value: at,
        size,
    })
}

/// The data, which are so many bytes.
fn local_object(alloc: Global, name: &[u8], size: u64) -> Result<KitSymbol, OutOfMemory>
    ensures { IfOk result (λ y. y ≡ local_object name.now size) }
{
    Ok(KitSymbol {
        name: Name::of(alloc, name)?,
        info: STB_LOCAL * 16 + STT_OBJECT,
        shndx: DATA,
        value: 0,
        size,
    })
}

/// A label at the start of the text.
fn label(alloc: Global, name: &[u8]) -> Result<KitSymbol, OutOfMemory>
    ensures { IfOk result (λ y. y ≡ label name.now) }
{
    Ok(KitSymbol {
        name: Name::of(alloc, name)?,
        info: STB_LOCAL * 16 + STT_NOTYPE,
        shndx: TEXT,
        value: 0,
        size: 0,
    })
}

/// A service, which isn't defined in the file.
fn service(alloc: Global, name: &[u8]) -> Result<KitSymbol, OutOfMemory>
    ensures { IfOk result (λ y. y ≡ service name.now) }
{
    Ok(KitSymbol {
        name: Name::of(alloc, name)?,
        info: STB_GLOBAL * 16 + STT_NOTYPE,
        shndx: SHN_UNDEF,
        value: 0,
        size: 0,
    })
}

/// A relocation of the field at an offset, by the number of its symbol.
pub(crate) fn relocation(offset: u64, symbol: u64, typ: u32) -> KitRela
    ensures { result ≡ record { offset = offset; symbol = symbol; typ = typ; addend = pos 0 } }
{
    KitRela {
        offset,
        symbol,
        typ,
        addend: 0,
    }
}
