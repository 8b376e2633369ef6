//! What an object file says.

use ad_base::{Name, Sequence};

/// What an object file says of the sections that are kept, of all symbols, and of the relocations of
/// the sections that are kept.
///
/// A section is kept if it is loaded, has the type of a part of the program or of zeros, and its name
/// doesn't begin with `.eh_frame`. A section of relocations is kept if the section that it applies to
/// is.
#[derive(Debug, Drop)]
pub struct Object {
    /// The sections that are kept, in the order of the file.
    pub sections: Sequence<Section>,
    /// All symbols, in the order of their table. They are numbered from 0.
    pub symbols: Sequence<Symbol>,
    /// The relocations of the sections that are kept, in the order of the file.
    pub relas: Sequence<Rela>,
}

/// A section that is kept (gABI, "Sections").
#[derive(Debug, Drop)]
pub struct Section {
    /// The number of its header in the section table, counted from 0.
    pub index: u64,
    pub name: Name,
    /// `SHT_PROGBITS` or `SHT_NOBITS`.
    pub typ: u32,
    pub flags: u64,
    /// Bytes of the section.
    pub size: u64,
    /// What its offset is a multiple of, as the file says it.
    pub align: u64,
    /// The bytes in the file: all of the section, or none of a section of zeros.
    pub bytes: Sequence<u8>,
}

/// A symbol (gABI, "Symbol Table").
#[derive(Debug, Drop)]
pub struct Symbol {
    pub name: Name,
    /// The binding, 0 to 15.
    pub bind: u8,
    /// The type, 0 to 15.
    pub kind: u8,
    /// The number of the section that it is defined in, or what stands for one.
    pub shndx: u16,
    /// The offset in that section, or a number.
    pub value: u64,
    pub size: u64,
}

/// A relocation with an addend (gABI, "Relocation").
#[derive(Clone, Copy, Debug, PartialEq, Eq)]
pub struct Rela {
    /// The number of the section that it stands in.
    pub section: u64,
    /// Its number in that section, counted from 0.
    pub entry: u64,
    /// The number of the section that it applies to.
    pub target: u64,
    /// The offset of its field in the section that it applies to.
    pub offset: u64,
    /// The number of its symbol.
    pub symbol: u64,
    pub typ: u32,
    pub addend: i64,
}
