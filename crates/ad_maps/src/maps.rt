//! The mappings of the modules: the table, its handles, and the calls that take no memory.

ghost use Rattle.std.specs.Prelude.{◌≡◌, ◌≢◌, ◌/◌, ◌<◌, ◌≤◌, [], ◌∷◌, ◌++◌, true, length, IfNone, IfSome};
ghost use Rattle.ad_base.specs.declared.layout.TheConstants.{REGION_BYTES, REGIONS};
ghost use Rattle.ad_base.specs.declared.place.Place.{Place};
ghost use Rattle.ad_base.specs.Place.{base_of, packed, page_number, IsInside, IsPlace, place_at};
ghost use Rattle.ad_maps.specs.declared.view.Act.TheVariants as act;
ghost use Rattle.ad_maps.specs.declared.words.TheConstants.{CELLS};
ghost use Rattle.ad_maps.specs.Ledger.{reads_of, NeverFall};
ghost use Rattle.ad_maps.specs.MapPlace.{cell_word, cells_of, IsPlaceOf};
ghost use Rattle.ad_maps.specs.Seen.{AddsUnmaps};

use crate::free::pay_batches;
use crate::steps;
use crate::table::{MapTable, TableSeat};
use crate::view::Made;
use crate::words::ONE_PUSH;
use ad_base::{Place, REGION_BYTES, REGIONS};
use std::marker::{Brand, Model};

/// The mappings of the modules, on a table of atomic words. Threads share it by a `&`, and none of them waits for
/// another.
///
/// Each module has one current mapping. Workers enter and read it, and are inside it until they leave; the mover
/// makes new mappings, and switches a module to them. What contracts see of it is its identity, and the shape that
/// it was opened with.
#[derive(Drop)]
pub struct Maps {
    pub(crate) table: MapTable,
    pub(crate) frames: u64,
    pub(crate) slots: u64,
}

impl Model for Maps {
    ghost use Rattle.std.specs.Prelude.{◌≡◌};
    ghost use Rattle.ad_maps.specs.declared.words.TheConstants.{WORDS};
    ghost use Rattle.ad_maps.specs.MapPlace.{IsShape};
    ghost use Rattle.ad_maps.specs.Seen.{OpenMaps};

    ghost Value = { OpenMaps };

    ghost view = { λ s. record { table = s.table.shared.table_id; shape = s.table.shared.key } };

    ghost invariant = { λ s. (s.table.shared.table_id.words ≡ WORDS) × (s.table.shared.table_id.slots ≡ 0) × IsShape s.table.shared.key × (s.frames ≡ s.table.shared.key.frames) × (s.slots ≡ s.table.shared.key.slots) };
}

/// A worker's seat while it is away: it owes nothing.
#[derive(Drop)]
pub struct Seat {
    pub(crate) seat: TableSeat,
    pub(crate) slot: u64,
}

impl Model for Seat {
    ghost use Rattle.ad_maps.specs.declared.view.Stance.TheVariants.{Away};
    ghost use Rattle.ad_maps.specs.Private.Handles.{acts_of, worker_of, IsWorker};
    ghost use Rattle.ad_maps.specs.Steps.{is_at_rest};
    ghost use Rattle.ad_maps.specs.Seen.{SeatSeen};

    ghost Value = { SeatSeen };

    ghost view = { λ s. record { table = s.seat.table_id; worker = worker_of s.seat.me.0; acts = acts_of s.seat.me.0; at_rest = is_at_rest s.seat.me.0 } };

    ghost invariant = { λ s. IsWorker s.seat.me s.slot Away };
}

/// A worker that is inside a mapping, with its seat. It must leave: it can't be dropped.
pub struct Inside {
    seat: TableSeat,
    slot: u64,
    entry: u64,
    place: Place,
    /// The place as a word. It is kept, since each access to the pages compares with it.
    word: u64,
}

impl Model for Inside {
    ghost use Rattle.std.specs.Prelude.{◌≡◌, ◌<◌};
    ghost use Rattle.ad_base.specs.Place.{packed, IsPlace};
    ghost use Rattle.ad_maps.specs.declared.words.TheConstants.{FRAME_WORDS};
    ghost use Rattle.ad_maps.specs.Private.Handles.{acts_of, entry_in, module_in, stance_of, worker_of, IsPinned};
    ghost use Rattle.ad_maps.specs.Steps.{is_at_rest};
    ghost use Rattle.ad_maps.specs.Seen.{InsideSeen};

    ghost Value = { InsideSeen };

    ghost view = { λ s. record { seat = record { table = s.seat.table_id; worker = worker_of s.seat.me.0; acts = acts_of s.seat.me.0; at_rest = is_at_rest s.seat.me.0 }; of_module = module_in (stance_of s.seat.me.0); place = s.place } };

    ghost invariant = { λ s. IsPinned s.seat.me s.slot s.place × (s.entry ≡ entry_in (stance_of s.seat.me.0)) × IsPlace s.place × (s.place.frame < FRAME_WORDS) × (s.word ≡ packed s.place) };
}

/// The mover's seat.
#[derive(Drop)]
pub struct MoverSeat {
    pub(crate) seat: TableSeat,
    pub(crate) slots: u64,
    pub(crate) batches: u64,
}

impl Model for MoverSeat {
    ghost use Rattle.ad_maps.specs.Private.Handles.{plan_of, IsIdle};
    ghost use Rattle.ad_maps.specs.Steps.{is_at_rest};
    ghost use Rattle.ad_maps.specs.Seen.{MoverSeen};

    ghost Value = { MoverSeen };

    ghost view = { λ m. let q = plan_of m.seat.me.0 in record { table = m.seat.table_id; current = q.current; fresh = q.fresh; outs = q.outs; rooms = q.rooms; deeds = q.deeds; at_rest = is_at_rest m.seat.me.0 } };

    ghost invariant = { λ m. IsIdle m.seat.me m.slots m.batches };
}

/// A frame of a module, which had no owner when the mover looked at it.
#[derive(Clone, Copy, Debug)]
pub struct Room {
    pub(crate) of_module: u64,
    pub(crate) frame: u8,
}

impl Model for Room {
    ghost use Rattle.ad_maps.specs.Seen.{RoomSeen};

    ghost Value = { RoomSeen };

    ghost view = { λ r. record { of_module = r.of_module; frame = r.frame } };

    ghost inverse = { λ r. record { of_module = r.of_module; frame = r.frame } };
}

impl Room {
    /// The frame's number.
    pub fn frame(&self) -> u8
        ensures { result ≡ self.now.frame }
    {
        self.frame
    }
}

/// Each frame of the module had an owner; that of the last one is this mapping.
#[derive(Clone, Copy, Debug)]
pub struct Busy {
    pub owner: u16,
}

/// A mapping that was made, and isn't current yet. It can't be let go: `switch` takes it.
pub struct Mapped {
    pub(crate) made: Made,
}

impl Model for Mapped {
    ghost use Rattle.std.specs.Prelude.{◌<◌};
    ghost use Rattle.ad_base.specs.Place.{IsPlace};
    ghost use Rattle.ad_maps.specs.declared.view.Made.{Made};

    ghost Value = { Made };

    ghost view = { λ m. m.made };

    ghost invariant = { λ m. (m.made.of_module < 8) × IsPlace m.made.place };
}

/// A mapping that was current, and isn't retired yet.
#[derive(Drop)]
pub struct Out {
    pub(crate) made: Made,
}

impl Model for Out {
    ghost use Rattle.ad_maps.specs.declared.view.Made.{Made};

    ghost Value = { Made };

    ghost view = { λ o. o.made };
}

impl Out {
    /// Where the mapping is that was current.
    pub fn place(&self) -> Place
        ensures { result ≡ self.now.place }
    {
        self.made.place
    }
}

impl Inside {
    /// Where the mapping is that the worker is inside.
    pub fn place(&self) -> Place
        ensures { result ≡ self.now.place }
    {
        self.place
    }
}

impl Maps {
    /// Enters, and reads the module's current mapping. From here on the mapping's pages and cells are there, until
    /// the worker leaves.
    pub fn enter(&self, seat: Seat, module: u64) -> Inside
        requires table { seat.table ≡ self.now.table }
        requires in_range { «module» < length self.now.shape.modules }
        ensures table { result.seat.table ≡ seat.table }
        ensures worker { result.seat.worker ≡ seat.worker }
        ensures of_module { result.of_module ≡ «module» }
        ensures place { IsPlaceOf self.now.shape «module» result.place }
        ensures acts { result.seat.acts ≡ seat.acts ++ act.Enter ∷ act.Read «module» result.place ∷ [] }
        ensures falls { NeverFall (reads_of «module» result.seat.acts) }
    {
        let Seat { mut seat, slot } = seat;
        let entered = steps::enter(&self.table, &mut seat, slot);
        let word = steps::read::<Brand>(&self.table, &mut seat, slot, module);
        let place = place_of(word);
        Inside {
            seat,
            slot,
            entry: entered / ONE_PUSH,
            place,
            word,
        }
    }

    /// The page's number in the movable part, or `None` exactly where the address isn't of the mapping that the
    /// worker is inside.
    pub fn translate(&self, inside: &mut Inside, va: u64) -> Option<u64>
        requires table { inside.old.seat.table ≡ self.now.table }
        ensures inside { IfSome result (λ page. IsInside inside.old.place va) }
        ensures page { IfSome result (λ page. page ≡ page_number inside.old.place va) }
        ensures none { IfNone result (IsInside inside.old.place va → ⊥) }
        ensures table { inside.new.seat.table ≡ inside.old.seat.table }
        ensures worker { inside.new.seat.worker ≡ inside.old.seat.worker }
        ensures of_module { inside.new.of_module ≡ inside.old.of_module }
        ensures place { inside.new.place ≡ inside.old.place }
        ensures asked { va / REGION_BYTES < REGIONS → inside.new.seat.acts ≡ inside.old.seat.acts ++ act.Page va ∷ [] }
        ensures not_asked { REGIONS ≤ va / REGION_BYTES → inside.new.seat.acts ≡ inside.old.seat.acts }
    {
        let place = inside.place;
        if va / REGION_BYTES >= REGIONS {
            return None;
        }
        let word = steps::page::<Brand>(&self.table, &mut inside.seat, inside.slot, &place, va);
        page_in(word, inside.word, &place, va)
    }

    /// The word at an entry of the local area of the mapping that the worker is inside: for its own base, or the
    /// number, and 0 past its cells.
    pub fn cell(&self, inside: &mut Inside, entry: u64) -> u64
        requires table { inside.old.seat.table ≡ self.now.table }
        requires in_range { entry < CELLS }
        ensures word { result ≡ cell_word (cells_of self.now.shape inside.old.of_module) (base_of inside.old.place) entry }
        ensures table { inside.new.seat.table ≡ inside.old.seat.table }
        ensures worker { inside.new.seat.worker ≡ inside.old.seat.worker }
        ensures of_module { inside.new.of_module ≡ inside.old.of_module }
        ensures place { inside.new.place ≡ inside.old.place }
        ensures acts { inside.new.seat.acts ≡ inside.old.seat.acts ++ act.Cell entry ∷ [] }
    {
        let place = inside.place;
        steps::entry::<Brand>(&self.table, &mut inside.seat, inside.slot, &place, entry)
    }

    /// Leaves, and pays what it owes: the seat owes nothing then. A batch whose last debt it pays it frees: it unmaps
    /// the batch's mappings, and gives their frames back.
    pub fn leave(&self, inside: Inside) -> Seat
        requires { inside.seat.table ≡ self.now.table }
        ensures table { result.table ≡ inside.seat.table }
        ensures worker { result.worker ≡ inside.seat.worker }
        ensures acts { AddsUnmaps (inside.seat.acts ++ act.Leave ∷ []) result.acts }
        ensures owing_nothing { result.at_rest ≡ true }
    {
        let Inside {
            mut seat,
            slot,
            entry,
            place,
            word: _,
        } = inside;
        let word = steps::leave(&self.table, &mut seat, slot, &place);
        pay_batches(&self.table, &mut seat, slot, entry, word / ONE_PUSH);
        Seat { seat, slot }
    }
}

/// The place of a mapping's word.
pub(crate) fn place_of(word: u64) -> Place
    requires { IsPlace (place_at word) × (word ≡ packed (place_at word)) }
    ensures { result ≡ place_at word }
{
    Place::unpack(word).unwrap()
}

/// The page of an address, in the place of a mapping whose own word is in the directory at its own region.
fn page_in(word: u64, own: u64, place: &Place, va: u64) -> Option<u64>
    requires place { IsPlace place.now }
    requires packs { own ≡ packed place.now }
    requires here { va / REGION_BYTES ≡ place.now.region → word ≡ packed place.now }
    ensures inside { IfSome result (λ page. IsInside place.now va) }
    ensures page { IfSome result (λ page. page ≡ page_number place.now va) }
    ensures none { IfNone result (IsInside place.now va → ⊥) }
{
    if word != own {
        return None;
    }
    place.page_of(va)
}
