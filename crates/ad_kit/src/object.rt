//! What an object file is written of.

ghost use Rattle.std.specs.Prelude.{◌≡◌, length};
ghost use Rattle.ad_kit.specs.ObjectFile.{has_relas, size_of, stored};

use ad_base::{Name, Sequence};
use ad_elf::SHT_NOBITS;

/// A section that is written (gABI, "Sections").
#[derive(Debug, Drop)]
pub struct KitSection {
    pub name: Name,
    /// `SHT_PROGBITS`, `SHT_NOBITS` or another type.
    pub typ: u32,
    pub flags: u64,
    /// What its offset is a multiple of: a power of two up to 4,096.
    pub align: u64,
    /// The bytes of the section. Those of a section of zeros don't count.
    pub bytes: Sequence<u8>,
    /// How many bytes a section of zeros has. It counts for `SHT_NOBITS` alone.
    pub size: u64,
    /// The relocations that apply to it.
    pub relas: Sequence<KitRela>,
}

/// A relocation with an addend that is written (gABI, "Relocation").
#[derive(Clone, Copy, Debug, PartialEq, Eq)]
pub struct KitRela {
    /// The offset of its field in the section.
    pub offset: u64,
    /// The number of its symbol, below 2^32.
    pub symbol: u64,
    pub typ: u32,
    pub addend: i64,
}

/// A symbol that is written (gABI, "Symbol Table"). They are numbered from 1.
#[derive(Debug, Drop)]
pub struct KitSymbol {
    pub name: Name,
    /// The binding in bits 4 to 7, and the type in bits 0 to 3.
    pub info: u8,
    /// The number of its section in the section table, or what stands for one.
    pub shndx: u16,
    pub value: u64,
    pub size: u64,
}

impl KitSection {
    /// Its bytes in the file.
    pub(crate) fn stored(&self) -> &[u8]
        ensures { result.now ≡ stored self.now }
    {
        if self.typ == SHT_NOBITS {
            &[]
        } else {
            self.bytes.as_slice()
        }
    }

    /// Its size.
    pub(crate) fn full_size(&self) -> u64
        ensures { result ≡ size_of self.now }
    {
        if self.typ == SHT_NOBITS {
            self.size
        } else {
            self.bytes.len()
        }
    }

    /// Whether relocations apply to it.
    pub(crate) fn has_relas(&self) -> bool
        ensures { result ≡ has_relas self.now }
    {
        self.relas.len() != 0
    }
}
