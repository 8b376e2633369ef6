//! The mover's calls.

ghost use Rattle.std.specs.Prelude.{◌≡◌, ◌≢◌, ◌+◌, ◌*◌, ◌<◌, ◌≤◌, [], ◌∷◌, ◌++◌, length, slice_index, slice_set, Contains, IfErr, IfOk};
ghost use Rattle.ad_base.specs.Layout.{local_word};
ghost use Rattle.ad_base.specs.declared.layout.TheConstants.{MAPPINGS};
ghost use Rattle.ad_base.specs.Place.{base_of, IsPlace};
ghost use Rattle.ad_maps.specs.declared.view.Deed.TheVariants as deed;
ghost use Rattle.ad_maps.specs.declared.view.Made.{Made};
ghost use Rattle.ad_maps.specs.declared.view.Stage.TheVariants as stage;
ghost use Rattle.ad_maps.specs.declared.view.Doing.TheVariants.{Mover};
ghost use Rattle.ad_maps.specs.Laws.{MayMap};
ghost use Rattle.ad_maps.specs.Ledger.{all_made};
ghost use Rattle.ad_maps.specs.MapPlace.{cells_of, IsPlaceOf};
ghost use Rattle.ad_maps.specs.Seen.{FoundNone, FoundRoom};
ghost use Rattle.ad_maps.specs.Steps.{but, made, without};
ghost use Rattle.ad_maps.specs.Private.Handles.{filled, mapped_plan, plan_of, FindsFrame, FindsNone, IsAt, IsMover};

use crate::maps::{Busy, Mapped, Maps, MoverSeat, Out, Room, place_of};
use crate::steps;
use crate::table::{MapTable, TableSeat};
use crate::view::Made;
use crate::words::{CELLS, FRAME_WORDS};
use ad_base::{Cell, Place};
use std::marker::Brand;

impl Maps {
    /// Looks at the module's frames in order of number, up to the first one that has no owner, which stays so until
    /// the mover takes it. `Busy` comes exactly where each of them had an owner at this call's look at it. The owner of
    /// a frame is the mapping that was made last in it.
    pub fn room(&self, mover: &mut MoverSeat, module: u64) -> Result<Room, Busy>
        requires table { mover.old.table ≡ self.now.table }
        requires in_range { «module» < length self.now.shape.modules }
        ensures found { IfOk result (λ room. FoundRoom self.now.shape («module» * self.now.shape.frames) self.now.shape.frames mover.old mover.new room) }
        ensures of_module { IfOk result (λ room. room.of_module ≡ «module») }
        ensures none { IfErr result (λ busy. FoundNone self.now.shape («module» * self.now.shape.frames) self.now.shape.frames mover.old mover.new busy.owner) }
        ensures table { mover.new.table ≡ mover.old.table }
        ensures current { mover.new.current ≡ mover.old.current }
        ensures fresh { mover.new.fresh ≡ mover.old.fresh }
        ensures outs { mover.new.outs ≡ mover.old.outs }
        ensures at_rest { mover.new.at_rest ≡ mover.old.at_rest }
    {
        let first = module * self.frames;
        match find(&self.table, &mut mover.seat, first, self.frames) {
            Ok(frame) => Ok(Room {
                of_module: module,
                frame,
            }),
            Err(owner) => Err(Busy { owner }),
        }
    }

    /// Makes a mapping of the room's module at this place, in the room's frame. Its cells are filled for its own base
    /// before it is in the directory. It isn't current yet.
    pub fn map(&self, mover: &mut MoverSeat, room: Room, place: Place, cells: &[Cell]) -> Mapped
        requires table { mover.old.table ≡ self.now.table }
        requires place { IsPlaceOf self.now.shape room.of_module place }
        requires frame { place.frame ≡ room.frame }
        requires room { Contains mover.old.rooms room.frame }
        requires above { (x : Made) → Contains (all_made self.now.shape mover.old.deeds) x → x.place.mapping < place.mapping }
        requires region { (x : Made) → Contains (all_made self.now.shape mover.old.deeds) x → x.place.region ≢ place.region }
        requires cells { cells.now ≡ cells_of self.now.shape room.of_module }
        ensures mapped { result ≡ made room.of_module place }
        ensures deeds { mover.new.deeds ≡ mover.old.deeds ++ deed.Map room.of_module place ∷ [] }
        ensures fresh { mover.new.fresh ≡ mover.old.fresh ++ result ∷ [] }
        ensures rooms { mover.new.rooms ≡ without room.frame mover.old.rooms }
        ensures table { mover.new.table ≡ mover.old.table }
        ensures current { mover.new.current ≡ mover.old.current }
        ensures outs { mover.new.outs ≡ mover.old.outs }
        ensures at_rest { mover.new.at_rest ≡ mover.old.at_rest }
    {
        let made = Made {
            of_module: room.of_module,
            place,
        };
        make(&self.table, &mut mover.seat, made, cells);
        Mapped { made }
    }

    /// Makes a mapping the current one of its module, and gives the one that was.
    pub fn switch(&self, mover: &mut MoverSeat, mapped: Mapped) -> Out
        requires table { mover.old.table ≡ self.now.table }
        requires fresh { Contains mover.old.fresh mapped }
        requires above { slice_index mover.old.current mapped.of_module < mapped.place.mapping }
        ensures of_module { result.of_module ≡ mapped.of_module }
        ensures number { result.place.mapping ≡ slice_index mover.old.current mapped.of_module }
        ensures place { IsPlaceOf self.now.shape mapped.of_module result.place }
        ensures deeds { mover.new.deeds ≡ mover.old.deeds ++ deed.Switch mapped.of_module mapped.place ∷ [] }
        ensures current { mover.new.current ≡ slice_set mover.old.current mapped.of_module mapped.place.mapping }
        ensures fresh { mover.new.fresh ≡ but mapped.place.mapping mover.old.fresh }
        ensures outs { mover.new.outs ≡ mover.old.outs ++ result ∷ [] }
        ensures new { (g : Made) → Contains mover.old.outs g → g.place.mapping ≢ result.place.mapping }
        ensures table { mover.new.table ≡ mover.old.table }
        ensures rooms { mover.new.rooms ≡ mover.old.rooms }
        ensures at_rest { mover.new.at_rest ≡ mover.old.at_rest }
    {
        let Mapped { made } = mapped;
        let word = steps::switch::<Brand>(&self.table, &mut mover.seat, made);
        let place = place_of(word);
        Out {
            made: Made {
                of_module: made.of_module,
                place,
            },
        }
    }
}

/// The first of so many frames that has no owner, or the owner of the last one.
fn find(table: &MapTable, seat: &mut TableSeat, first: u64, frames: u64) -> Result<u8, u16>
    requires at { IsAt table.now.shared.table_id seat.old.table_id }
    requires mover { IsMover seat.old.me }
    requires idle { (plan_of seat.old.me.0).stage ≡ stage.Idle }
    requires some { 0 < frames }
    requires frames { first + frames ≤ FRAME_WORDS }
    ensures at { seat.new.table_id ≡ seat.old.table_id }
    ensures found { IfOk result (λ frame. FindsFrame table.now.shared.key first frames frame (plan_of seat.old.me.0) seat.new.me) }
    ensures none { IfErr result (λ owner. FindsNone table.now.shared.key first frames owner (plan_of seat.old.me.0) seat.new.me) }
{
    let mut last = 0;
    for index in 0..frames {
        let frame = first + index;
        let owner = steps::look::<Brand>(table, seat, frame);
        if owner == 0 {
            return Ok(frame as u8);
        }
        last = owner as u16;
    }
    Err(last)
}

/// Makes the steps of a new mapping: its frame is taken, its cells are filled, and it is put into the directory.
fn make(table: &MapTable, seat: &mut TableSeat, made: Made, cells: &[Cell])
    requires at { IsAt table.now.shared.table_id seat.old.table_id }
    requires mover { IsMover seat.old.me }
    requires idle { (plan_of seat.old.me.0).stage ≡ stage.Idle }
    requires may { MayMap table.now.shared.key (plan_of seat.old.me.0) made }
    requires frame { made.place.frame < FRAME_WORDS }
    requires few { length cells.now ≤ CELLS }
    requires cells { cells.now ≡ cells_of table.now.shared.key made.of_module }
    ensures at { seat.new.table_id ≡ seat.old.table_id }
    ensures view { seat.new.me ≡ (Mover (mapped_plan made (plan_of seat.old.me.0)), []) }
{
    steps::take::<Brand>(table, seat, made);
    fill(table, seat, made, cells);
    steps::map(table, seat, made);
}

/// Fills the cells of the frame that was taken, for the new mapping's own base.
fn fill(table: &MapTable, seat: &mut TableSeat, made: Made, cells: &[Cell])
    requires at { IsAt table.now.shared.table_id seat.old.table_id }
    requires view { seat.old.me ≡ (Mover (filled made 0 (plan_of seat.old.me.0)), []) }
    requires frame { made.place.frame < FRAME_WORDS }
    requires few { length cells.now ≤ CELLS }
    requires cells { cells.now ≡ cells_of table.now.shared.key made.of_module }
    ensures at { seat.new.table_id ≡ seat.old.table_id }
    ensures view { seat.new.me ≡ (Mover (filled made (length cells.now) (plan_of seat.old.me.0)), []) }
{
    let base = made.place.base();
    for entry in 0..cells.len() {
        let word = word_of(&cells[entry], base);
        steps::fill(table, seat, made, entry as u64, word);
    }
}

/// The word of a cell, for a movable part that begins at this base.
pub(crate) fn word_of(cell: &Cell, base: u64) -> u64
    ensures { result ≡ local_word base cell.now }
{
    match cell {
        Cell::Off(offset) => base.wrapping_add(*offset),
        Cell::Num(number) => *number,
    }
}
