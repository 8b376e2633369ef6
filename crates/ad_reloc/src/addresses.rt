//! Where symbols, fields, words and stubs are.

ghost use Rattle.std.specs.Prelude.{◌≡◌, ℕ, ◌^◌, ◌<◌, pos, ◌≤ℤ◌, ◌<ℤ◌, neg_ℤ};
ghost use Rattle.ad_base.specs.Place.{IsModulePlace};
ghost use Rattle.ad_parts.specs.Symbols.{AreInAreas, AreInOrder};
ghost use Rattle.ad_tables.specs.declared.resolved.Resolved.{Resolved};
ghost use Rattle.ad_reloc.specs.Addresses.{address_of, computed, local_from, part_base, stubs_from, table_from};
ghost use Rattle.ad_reloc.specs.Private.Small.{AreSmall, IsLow};

use crate::row::Formula;
use ad_base::{
    FIRST_SERVICE, PAGE_BYTES, Place, SERVICE_BYTES, STUB_PAGES, TABLE_PAGES, WORD_BYTES,
};
use ad_parts::Sizes;
use ad_tables::Resolved;

/// The address of a part's first byte; the movable part's addresses count from its start.
pub(crate) fn part_base(fixed: Place, movable: bool) -> u64
    ensures value { result ≡ part_base fixed movable }
    ensures small { result < 2 ^ 35 }
{
    if movable { 0 } else { fixed.base() }
}

/// The byte of its part at which the stubs begin.
pub(crate) fn stubs_from(sizes: Sizes, movable: bool) -> u64
    ensures value { result ≡ stubs_from sizes movable }
    ensures small { result < 2 ^ 35 }
{
    let pages = if movable {
        sizes.text_pages
    } else {
        sizes.fixed_text_pages
    };
    u64::from(pages) * PAGE_BYTES
}

/// The byte of its part at which the fixed table begins.
pub(crate) fn table_from(sizes: Sizes, movable: bool) -> u64
    ensures value { result ≡ table_from sizes movable }
    ensures small { result < 2 ^ 35 }
{
    let (text, read) = if movable {
        (sizes.text_pages, sizes.read_pages)
    } else {
        (sizes.fixed_text_pages, sizes.fixed_read_pages)
    };
    (u64::from(text) + u64::from(STUB_PAGES) + u64::from(read)) * PAGE_BYTES
}

/// The byte of the movable part at which the words of the local area begin that stand behind its sections.
pub(crate) fn local_from(sizes: Sizes) -> u64
    requires { sizes.local_bytes < 2 ^ 60 }
    ensures value { result ≡ local_from sizes }
    ensures small { result < 2 ^ 61 }
{
    let pages = u64::from(sizes.text_pages)
        + u64::from(STUB_PAGES)
        + u64::from(sizes.read_pages)
        + u64::from(TABLE_PAGES);
    pages * PAGE_BYTES + WORD_BYTES * ((sizes.local_bytes as u64 + (WORD_BYTES - 1)) / WORD_BYTES)
}

/// The address of what a symbol stands for.
pub(crate) fn address_of(fixed: Place, symbol: Resolved) -> u128
    requires { IsLow symbol }
    ensures value { result ≡ address_of fixed symbol }
    ensures small { result < 2 ^ 64 }
{
    match symbol {
        Resolved::Movable(offset) => offset,
        Resolved::Immovable(offset) => u128::from(fixed.base()) + offset,
        Resolved::Import(service) => {
            u128::from(FIRST_SERVICE + SERVICE_BYTES * u64::from(service))
        }
        Resolved::Number(value) => u128::from(value),
    }
}

/// The value that a row computes of the address of a symbol, that of the symbol's word, that of the field, and an
/// addend.
pub(crate) fn computed(formula: Formula, symbol: u128, word: u128, field: u128, addend: i64) -> i128
    requires symbol { symbol < 2 ^ 65 }
    requires word { word < 2 ^ 65 }
    requires field { field < 2 ^ 65 }
    ensures value { result ≡ computed formula symbol word field addend }
    ensures from { neg_ℤ (pos (2 ^ 70)) <ℤ result }
    ensures to { result <ℤ pos (2 ^ 70) }
{
    match formula {
        Formula::Address | Formula::Sum | Formula::Difference => {
            symbol as i128 + i128::from(addend)
        }
        Formula::Distance => symbol as i128 + i128::from(addend) - field as i128,
        Formula::EntryDistance => word as i128 + i128::from(addend) - field as i128,
        Formula::OfHigh => 0,
    }
}
