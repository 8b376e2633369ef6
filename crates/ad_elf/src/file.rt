//! The fields of an object file, read where they stand.

ghost use Rattle.std.specs.Prelude.{◌≡◌, ◌+◌, ◌*◌, ◌<◌, ◌≤◌, IsTrue, length};
ghost use Rattle.ad_elf.specs.Fields.{header_at, header, i64_at, rela_at, rela_entry, section_count, symbol_at, symbol_entry, table_at, u16_at, u32_at, u64_at};
ghost use Rattle.ad_elf.specs.File.{content, is_stored};

use crate::elf::{
    FILE_HEADER_BYTES, RELA_BYTES, SECTION_HEADER_BYTES, SHT_NOBITS, SHT_NULL, SYMBOL_BYTES,
};
use ad_base::{field_i64, field_u16, field_u32, field_u64};

/// The header of a section, field by field (gABI, "Sections").
#[derive(Clone, Copy, Debug)]
pub(crate) struct SectionHeader {
    /// `sh_name`: where the name begins among the names of the sections.
    pub name: u32,
    /// `sh_type`
    pub typ: u32,
    /// `sh_flags`
    pub flags: u64,
    /// `sh_offset`
    pub offset: u64,
    /// `sh_size`
    pub size: u64,
    /// `sh_link`
    pub link: u32,
    /// `sh_info`
    pub info: u32,
    /// `sh_addralign`
    pub align: u64,
    /// `sh_entsize`
    pub entry_size: u64,
}

/// A symbol, field by field (gABI, "Symbol Table").
#[derive(Clone, Copy, Debug)]
pub(crate) struct SymbolEntry {
    /// `st_name`: where the name begins among the names of the symbols.
    pub name: u32,
    /// `st_info`: the binding in bits 4 to 7, and the type in bits 0 to 3.
    pub info: u8,
    /// `st_shndx`
    pub shndx: u16,
    /// `st_value`
    pub value: u64,
    /// `st_size`
    pub size: u64,
}

/// A relocation with an addend, field by field (gABI, "Relocation").
#[derive(Clone, Copy, Debug)]
pub(crate) struct RelaEntry {
    /// `r_offset`
    pub offset: u64,
    /// `r_info`: the symbol in bits 32 to 63, and the type in bits 0 to 31.
    pub info: u64,
    /// `r_addend`
    pub addend: i64,
}

#[tactic(auto, unfolding(crate::specs::Fields::u16_at))]
pub(crate) fn u16_at(file: &[u8], at: u64) -> u16
    requires { at + 2 ≤ length file.now }
    ensures { result ≡ u16_at file.now at }
{
    field_u16(file, at)
}

#[tactic(auto, unfolding(crate::specs::Fields::u32_at))]
pub(crate) fn u32_at(file: &[u8], at: u64) -> u32
    requires { at + 4 ≤ length file.now }
    ensures { result ≡ u32_at file.now at }
{
    field_u32(file, at)
}

#[tactic(auto, unfolding(crate::specs::Fields::u64_at))]
pub(crate) fn u64_at(file: &[u8], at: u64) -> u64
    requires { at + 8 ≤ length file.now }
    ensures { result ≡ u64_at file.now at }
{
    field_u64(file, at)
}

#[tactic(auto, unfolding(crate::specs::Fields::i64_at))]
fn i64_at(file: &[u8], at: u64) -> i64
    requires { at + 8 ≤ length file.now }
    ensures { result ≡ i64_at file.now at }
{
    field_i64(file, at)
}

/// The header of a section, which begins at a place.
#[tactic(auto, unfolding(crate::specs::Fields::header_at))]
fn header_at(file: &[u8], at: u64) -> SectionHeader
    requires { at + SECTION_HEADER_BYTES ≤ length file.now }
    ensures { result ≡ header_at file.now at }
{
    SectionHeader {
        name: u32_at(file, at),
        typ: u32_at(file, at + 4),
        flags: u64_at(file, at + 8),
        offset: u64_at(file, at + 24),
        size: u64_at(file, at + 32),
        link: u32_at(file, at + 40),
        info: u32_at(file, at + 44),
        align: u64_at(file, at + 48),
        entry_size: u64_at(file, at + 56),
    }
}

/// A symbol, which begins at a place.
#[tactic(auto, unfolding(crate::specs::Fields::symbol_at))]
fn symbol_at(file: &[u8], at: u64) -> SymbolEntry
    requires { at + SYMBOL_BYTES ≤ length file.now }
    ensures { result ≡ symbol_at file.now at }
{
    SymbolEntry {
        name: u32_at(file, at),
        info: file[at as usize + 4],
        shndx: u16_at(file, at + 6),
        value: u64_at(file, at + 8),
        size: u64_at(file, at + 16),
    }
}

/// A relocation with an addend, which begins at a place.
#[tactic(auto, unfolding(crate::specs::Fields::rela_at))]
fn rela_at(file: &[u8], at: u64) -> RelaEntry
    requires { at + RELA_BYTES ≤ length file.now }
    ensures { result ≡ rela_at file.now at }
{
    RelaEntry {
        offset: u64_at(file, at),
        info: u64_at(file, at + 8),
        addend: i64_at(file, at + 16),
    }
}

/// How many sections there are.
pub(crate) fn section_count(file: &[u8]) -> u64
    requires { FILE_HEADER_BYTES ≤ length file.now }
    ensures value { result ≡ section_count file.now }
    ensures small { result < 65536 }
{
    u64::from(u16_at(file, 60))
}

/// The header of section `i`.
pub(crate) fn header(file: &[u8], i: u64) -> SectionHeader
    requires begins { FILE_HEADER_BYTES ≤ length file.now }
    requires there { table_at file.now + SECTION_HEADER_BYTES * section_count file.now ≤ length file.now }
    requires number { i < section_count file.now }
    ensures { result ≡ header file.now i }
{
    header_at(file, u64_at(file, 40) + SECTION_HEADER_BYTES * i)
}

/// Symbol `j` of a section of symbols.
pub(crate) fn symbol_entry(file: &[u8], section: SectionHeader, j: u64) -> SymbolEntry
    requires there { section.offset + section.size ≤ length file.now }
    requires number { SYMBOL_BYTES * j + SYMBOL_BYTES ≤ section.size }
    ensures { result ≡ symbol_entry file.now section j }
{
    symbol_at(file, section.offset + SYMBOL_BYTES * j)
}

/// Relocation `j` of a section of relocations.
pub(crate) fn rela_entry(file: &[u8], section: SectionHeader, j: u64) -> RelaEntry
    requires there { section.offset + section.size ≤ length file.now }
    requires number { RELA_BYTES * j + RELA_BYTES ≤ section.size }
    ensures { result ≡ rela_entry file.now section j }
{
    rela_at(file, section.offset + RELA_BYTES * j)
}

impl SectionHeader {
    /// Tests whether the section has bytes in the file.
    pub(crate) fn is_stored(self) -> bool
        ensures { result ≡ is_stored self }
    {
        self.typ != SHT_NULL && self.typ != SHT_NOBITS
    }
}

/// The bytes of a section in the file.
#[tactic(auto, unfolding(crate::specs::File::content))]
pub(crate) fn content(file: &[u8], section: SectionHeader) -> &[u8]
    requires { IsTrue (is_stored section) → section.offset + section.size ≤ length file.now }
    ensures { result.now ≡ content file.now section }
{
    if section.is_stored() {
        &file[section.offset as usize..][..section.size as usize]
    } else {
        &[]
    }
}
