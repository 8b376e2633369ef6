//! Whether a file can be written of sections and symbols.

ghost use Rattle.std.specs.Prelude.{◌≡◌, ◌↔◌, ◌+◌, ◌-◌, ◌<◌, ◌==◌, ◌^◌, All, IsTrue, List, ℕ, length, min, not, sum_by, true};
ghost use Rattle.std.specs.List.{AllPairs, list_any};
ghost use Rattle.ad_kit.specs.declared.object.KitRela.{KitRela};
ghost use Rattle.ad_kit.specs.declared.object.KitSection.{KitSection};
ghost use Rattle.ad_kit.specs.declared.object.KitSymbol.{KitSymbol};
ghost use Rattle.ad_kit.specs.ObjectFile.{is_local};
ghost use Rattle.ad_kit.specs.Writable.{HasNoZero, IsWritable, powers};
ghost use Rattle.ad_kit.specs.Private.Written.{IsSectionWritable};

use crate::object::{KitRela, KitSection, KitSymbol};

/// Bytes of all names together are below this.
const MOST_NAME_BYTES: u64 = 1 << 30;

/// Sections, symbols and relocations together are fewer than this.
const MOST_ENTRIES: u64 = 10_000;

/// Tests whether a file can be written of these sections and symbols: the alignments are powers of two up
/// to 4,096, the symbols of relocations have 32 bits, no name has a zero byte, all names together have
/// fewer than 2^30 bytes, local symbols come first, and there are fewer than 10,000 sections, symbols
/// and relocations.
pub fn is_writable(sections: &[KitSection], symbols: &[KitSymbol]) -> bool
    ensures { IsTrue result ↔ IsWritable sections.now symbols.now }
{
    are_sections_writable(sections)
        && are_symbols_named(symbols)
        && are_locals_first(symbols)
        && name_bytes(sections, symbols) < MOST_NAME_BYTES
        && entries(sections, symbols) < MOST_ENTRIES
}

/// Tests each section.
fn are_sections_writable(sections: &[KitSection]) -> bool
    ensures { IsTrue result ↔ All IsSectionWritable sections.now }
{
    for k in 0..sections.len() {
        if !is_section_writable(&sections[k]) {
            return false;
        }
    }
    true
}

/// Tests the alignment, the name and the relocations of a section.
fn is_section_writable(section: &KitSection) -> bool
    ensures { IsTrue result ↔ IsSectionWritable section.now }
{
    is_power(section.align)
        && has_no_zero(section.name.bytes())
        && are_low(section.relas.as_slice())
}

/// Tests for a power of two up to 4,096.
fn is_power(align: u64) -> bool
    ensures { result ≡ list_any (λ a. a == align) powers }
{
    matches!(
        align,
        1 | 2 | 4 | 8 | 16 | 32 | 64 | 128 | 256 | 512 | 1024 | 2048 | 4096
    )
}

/// Tests whether a name has no zero byte.
fn has_no_zero(name: &[u8]) -> bool
    ensures { result ≡ not (list_any (λ b. b == 0) name.now) }
{
    !name.contains(&0)
}

/// Tests whether the symbols of relocations have 32 bits.
fn are_low(relas: &[KitRela]) -> bool
    ensures { IsTrue result ↔ All (λ (r : KitRela). r.symbol < 2 ^ 32) relas.now }
{
    for k in 0..relas.len() {
        if relas[k].symbol >= 1 << 32 {
            return false;
        }
    }
    true
}

/// Tests whether no symbol has a name with a zero byte.
fn are_symbols_named(symbols: &[KitSymbol]) -> bool
    ensures { IsTrue result ↔ All (λ (y : KitSymbol). HasNoZero y.name) symbols.now }
{
    for k in 0..symbols.len() {
        if !has_no_zero(symbols[k].name.bytes()) {
            return false;
        }
    }
    true
}

/// Tests whether no local symbol comes behind another one.
fn are_locals_first(symbols: &[KitSymbol]) -> bool
    ensures { IsTrue result ↔ AllPairs (λ (x y : KitSymbol). is_local y ≡ true → is_local x ≡ true) symbols.now }
{
    let mut only_locals = true;
    for k in 0..symbols.len() {
        let is_local = symbols[k].info / 16 == 0;
        if is_local && !only_locals {
            return false;
        }
        only_locals = is_local;
    }
    true
}

/// Bytes of all names, or the greatest number where there are more.
fn name_bytes(sections: &[KitSection], symbols: &[KitSymbol]) -> u64
    ensures { result ≡ min (sum_by (λ (s : KitSection). length s.name) sections.now + sum_by (λ (y : KitSymbol). length y.name) symbols.now) (2 ^ 64 - 1) }
{
    section_name_bytes(sections).saturating_add(symbol_name_bytes(symbols))
}

/// Bytes of the names of the sections, or the greatest number where there are more.
fn section_name_bytes(sections: &[KitSection]) -> u64
    ensures { result ≡ min (sum_by (λ (s : KitSection). length s.name) sections.now) (2 ^ 64 - 1) }
{
    let mut total: u64 = 0;
    for k in 0..sections.len() {
        total = total.saturating_add(sections[k].name.bytes().len() as u64);
    }
    total
}

/// Bytes of the names of the symbols, or the greatest number where there are more.
fn symbol_name_bytes(symbols: &[KitSymbol]) -> u64
    ensures { result ≡ min (sum_by (λ (y : KitSymbol). length y.name) symbols.now) (2 ^ 64 - 1) }
{
    let mut total: u64 = 0;
    for k in 0..symbols.len() {
        total = total.saturating_add(symbols[k].name.bytes().len() as u64);
    }
    total
}

/// How many sections, symbols and relocations there are, or the greatest number where there are more.
fn entries(sections: &[KitSection], symbols: &[KitSymbol]) -> u64
    ensures { result ≡ min (length sections.now + length symbols.now + sum_by (λ (s : KitSection). length s.relas) sections.now) (2 ^ 64 - 1) }
{
    (sections.len() as u64)
        .saturating_add(symbols.len() as u64)
        .saturating_add(rela_count(sections))
}

/// How many relocations there are, or the greatest number where there are more.
fn rela_count(sections: &[KitSection]) -> u64
    ensures { result ≡ min (sum_by (λ (s : KitSection). length s.relas) sections.now) (2 ^ 64 - 1) }
{
    let mut total: u64 = 0;
    for k in 0..sections.len() {
        total = total.saturating_add(sections[k].relas.len());
    }
    total
}
