//! The sections of the modules that are built.

ghost use Rattle.std.specs.Prelude.{◌≡◌, ◌++◌, ◌<◌, ◌^◌, IfOk, flat_map, length};
ghost use Rattle.ad_kit.specs.ObjectFile.{u32};
ghost use Rattle.ad_generator.specs.Modules.{addresses, text, zeros};
ghost use Rattle.ad_generator.specs.Private.Named.{module_of};

use crate::names::BuiltModule;
use crate::symbols::{COUNT, COUNT_HIGH, K_IN, K_OUT, TABLE, TABLE_HIGH, TEN, TWENTY, relocation};
use ad_base::{Name, OutOfMemory, Sequence, WORD_BYTES};
use ad_elf::{
    R_RISCV_64, R_RISCV_CALL_PLT, R_RISCV_PCREL_HI20, R_RISCV_PCREL_LO12_I, SHF_ALLOC,
    SHF_EXECINSTR, SHF_WRITE, SHT_NOBITS, SHT_PROGBITS,
};
use ad_kit::{KitRela, KitSection};
use std::alloc::Global;

/// `add a0, a0, a1; ret`.
const SUM_TEXT: [u32; 2] = [0x00b5_0533, 0x0000_8067];

/// `auipc t0, 0; addi t0, t0, 0; ld t1, 0(t0); add a0, a0, t1; sd a0, 0(t0); ret`.
const COUNTER_TEXT: [u32; 6] = [
    0x0000_0297,
    0x0002_8293,
    0x0002_b303,
    0x0065_0533,
    0x00a2_b023,
    0x0000_8067,
];

/// `addi t2, ra, 0`, twice `auipc ra, 0; jalr ra, 0(ra)`, and `jalr x0, 0(t2)`.
const DEVICE_TEXT: [u32; 6] = [
    0x0000_8393,
    0x0000_0097,
    0x0000_80e7,
    0x0000_0097,
    0x0000_80e7,
    0x0003_8067,
];

/// `auipc t0, 0; addi t0, t0, 0; andi a0, a0, 1; slli a0, a0, 3; add t0, t0, a0; ld t0, 0(t0); jalr x0, 0(t0)`, then
/// `addi a0, x0, 10; ret` and `addi a0, x0, 20; ret`.
const TABLE_TEXT: [u32; 11] = [
    0x0000_0297,
    0x0002_8293,
    0x0015_7513,
    0x0035_1513,
    0x00a2_82b3,
    0x0002_b283,
    0x0002_8067,
    0x00a0_0513,
    0x0000_8067,
    0x0140_0513,
    0x0000_8067,
];

impl BuiltModule {
    /// The sections of its object file.
    pub fn sections(self, alloc: Global) -> Result<Vec<KitSection>, OutOfMemory>
        ensures { IfOk result (λ v. v.items ≡ (module_of self).sections) }
    {
        match self {
            BuiltModule::Sum => sum_sections(alloc),
            BuiltModule::Counter => counter_sections(alloc),
            BuiltModule::Device => device_sections(alloc),
            BuiltModule::Table => table_sections(alloc),
        }
    }
}

fn sum_sections(alloc: Global) -> Result<Vec<KitSection>, OutOfMemory>
    ensures { IfOk result (λ v. v.items ≡ (module_of BuiltModule.Sum).sections) }
{
    Ok(vec![in alloc; text(alloc, &SUM_TEXT, &[])?]?)
}

fn counter_sections(alloc: Global) -> Result<Vec<KitSection>, OutOfMemory>
    ensures { IfOk result (λ v. v.items ≡ (module_of BuiltModule.Counter).sections) }
{
    let relas = [
        relocation(0, COUNT, R_RISCV_PCREL_HI20),
        relocation(4, COUNT_HIGH, R_RISCV_PCREL_LO12_I),
    ];
    Ok(vec![in alloc; text(alloc, &COUNTER_TEXT, &relas)?, zeros(alloc, 8)?]?)
}

fn device_sections(alloc: Global) -> Result<Vec<KitSection>, OutOfMemory>
    ensures { IfOk result (λ v. v.items ≡ (module_of BuiltModule.Device).sections) }
{
    let relas = [
        relocation(4, K_OUT, R_RISCV_CALL_PLT),
        relocation(12, K_IN, R_RISCV_CALL_PLT),
    ];
    Ok(vec![in alloc; text(alloc, &DEVICE_TEXT, &relas)?]?)
}

fn table_sections(alloc: Global) -> Result<Vec<KitSection>, OutOfMemory>
    ensures { IfOk result (λ v. v.items ≡ (module_of BuiltModule.Table).sections) }
{
    let relas = [
        relocation(0, TABLE, R_RISCV_PCREL_HI20),
        relocation(4, TABLE_HIGH, R_RISCV_PCREL_LO12_I),
    ];
    let pointers = [
        relocation(0, TEN, R_RISCV_64),
        relocation(8, TWENTY, R_RISCV_64),
    ];
    Ok(vec![in alloc;
        text(alloc, &TABLE_TEXT, &relas)?,
        addresses(alloc, &pointers)?,
    ]?)
}

/// A section of instructions.
fn text(alloc: Global, words: &[u32], relas: &[KitRela]) -> Result<KitSection, OutOfMemory>
    ensures { IfOk result (λ s. s ≡ text words.now relas.now) }
{
    Ok(KitSection {
        name: Name::of(alloc, b".text")?,
        typ: SHT_PROGBITS,
        flags: SHF_ALLOC + SHF_EXECINSTR,
        align: 4,
        bytes: Sequence::of(word_bytes(alloc, words)?),
        size: 0,
        relas: Sequence::of(Vec::from_slice(alloc, relas)?),
    })
}

/// A section of so many zeros that are written to.
fn zeros(alloc: Global, size: u64) -> Result<KitSection, OutOfMemory>
    ensures { IfOk result (λ s. s ≡ zeros size) }
{
    Ok(KitSection {
        name: Name::of(alloc, b".bss")?,
        typ: SHT_NOBITS,
        flags: SHF_ALLOC + SHF_WRITE,
        align: WORD_BYTES,
        bytes: Sequence::of(Vec::new(alloc)),
        size,
        relas: Sequence::of(Vec::new(alloc)),
    })
}

/// A section of addresses, one for each relocation.
fn addresses(alloc: Global, relas: &[KitRela]) -> Result<KitSection, OutOfMemory>
    requires { length relas.now < 2 ^ 32 }
    ensures { IfOk result (λ s. s ≡ addresses relas.now) }
{
    let bytes = WORD_BYTES as usize * relas.len();
    Ok(KitSection {
        name: Name::of(alloc, b".data.rel.ro")?,
        typ: SHT_PROGBITS,
        flags: SHF_ALLOC + SHF_WRITE,
        align: WORD_BYTES,
        bytes: Sequence::of(vec![in alloc; 0; bytes]?),
        size: 0,
        relas: Sequence::of(Vec::from_slice(alloc, relas)?),
    })
}

/// The bytes of instruction words, the lowest of each first.
fn word_bytes(alloc: Global, words: &[u32]) -> Result<Vec<u8>, OutOfMemory>
    ensures { IfOk result (λ v. v.items ≡ flat_map u32 words.now) }
{
    let mut bytes = Vec::new(alloc);
    for word in words {
        bytes.extend_from_slice(&word.to_le_bytes())?;
    }
    Ok(bytes)
}
