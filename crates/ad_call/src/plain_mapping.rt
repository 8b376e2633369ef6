//! The pages of a movable part that nothing else reaches.

ghost use Rattle.std.specs.Prelude.{◌≡◌, ◌*◌, ◌^◌, ◌<◌, map, slice_index_or};
ghost use Rattle.ad_base.specs.declared.layout.TheConstants.{PAGE_BYTES};
ghost use Rattle.ad_base.specs.Layout.{local_word};
ghost use Rattle.ad_base.specs.Place.{base_of};

use crate::pages::Pages;
use ad_base::{Cell, PAGE_BYTES, Place};

/// The pages of a movable part at a place, for a run on one thread. What they were asked isn't told.
#[derive(Clone, Copy, Debug)]
pub struct PlainMapping<'a> {
    /// Where the movable part lies.
    pub place: Place,
    /// The words of its local area.
    pub cells: &'a [Cell],
    /// The address of the place's first byte.
    base: u64,
    /// How many bytes the place has.
    bytes: u64,
    ghost based: { base ≡ base_of place },
    ghost long: { bytes ≡ place.pages * PAGE_BYTES },
    ghost low: { base < 2 ^ 35 },
    ghost short: { bytes < 2 ^ 35 },
}

impl<'a> PlainMapping<'a> {
    /// The pages of a movable part at a place, with these words in its local area.
    pub fn new(place: Place, cells: &'a [Cell]) -> PlainMapping<'a>
        ensures place { result.place ≡ place }
        ensures cells { result.cells.now ≡ cells.now }
    {
        PlainMapping {
            place,
            cells,
            base: place.base(),
            bytes: u64::from(place.pages) * PAGE_BYTES,
        }
    }
}

impl Pages for PlainMapping<'_> {
    ghost use Rattle.std.specs.Prelude.{None};

    type Origin = ();

    ghost view = { λ p. record { place = p.place; cells = p.cells.now; origin = record {}; asked = None } };

    #[inline(always)]
    fn page(&mut self, va: u64) -> Option<u64> {
        let offset = va.wrapping_sub(self.base);
        (offset < self.bytes).then_some(offset / PAGE_BYTES)
    }

    fn cell(&mut self, entry: u64) -> u64 {
        local_word_at(self.cells, self.base, entry)
    }
}

/// The word at a place in the local area of a movable part with this base, or 0 behind the last.
pub fn local_word_at(cells: &[Cell], base: u64, at: u64) -> u64
    ensures { result ≡ slice_index_or (map (local_word base) cells.now) at 0 }
{
    let at = at as usize;
    if at < cells.len() {
        local_word(base, cells[at])
    } else {
        0
    }
}

/// A word of the local area of a movable part with this base.
fn local_word(base: u64, cell: Cell) -> u64
    ensures { result ≡ local_word base cell }
{
    match cell {
        Cell::Off(offset) => base.wrapping_add(offset),
        Cell::Num(number) => number,
    }
}
