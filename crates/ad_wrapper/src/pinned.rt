//! The pages of the mapping that a worker is inside.

ghost use Rattle.std.specs.Prelude.{◌≡◌};

use ad_call::Pages;
use ad_maps::{Inside, Maps, Seat};

/// The mapping that a worker is inside, as the pages that a call asks. It can't be dropped: the worker must leave.
pub struct Pinned<'a> {
    pub maps: &'a Maps,
    pub inside: Inside,
    pub ghost same_table: { inside.seat.table ≡ maps.now.table },
}

/// They were made with the seat as it was when the worker had read the place: what it did since is what the pages
/// were asked.
impl Pages for Pinned<'_> {
    ghost use Rattle.std.specs.Prelude.{false, Some};
    ghost use Rattle.ad_maps.specs.MapPlace.{cells_of};
    ghost use Rattle.ad_wrapper.specs.Asking.{asking};

    type Origin = Seat;

    // Whether a seat is at rest is told of one that has left, and no call of a worker inside tells it: here it says nothing.
    ghost view = { λ p. record {
      place = p.inside.place;
      cells = cells_of p.maps.now.shape p.inside.of_module;
      origin = record p.inside.seat { acts = (asking p.inside.seat.acts).begun; at_rest = false };
      asked = Some (asking p.inside.seat.acts).asked;
    } };

    fn page(&mut self, va: u64) -> Option<u64> {
        self.maps.translate(&mut self.inside, va)
    }

    fn cell(&mut self, entry: u64) -> u64 {
        self.maps.cell(&mut self.inside, entry)
    }
}
