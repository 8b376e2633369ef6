//! The steps of the table, one function each.

ghost use Rattle.std.specs.Prelude.{◌≡◌, ◌≢◌, ◌<◌, [], ◌∷◌, ◌++◌, None, Some};
ghost use Rattle.ad_base.specs.Place.{packed, place_at};
ghost use Rattle.ad_stacks.specs.declared.view.Stance.TheVariants.{Rest, Holds};
ghost use Rattle.ad_stacks.specs.declared.view.Stage.TheVariants as stage;
ghost use Rattle.ad_stacks.specs.History.{NeverFall};
ghost use Rattle.ad_stacks.specs.Laws.{MayRecord};
ghost use Rattle.ad_stacks.specs.StackPlace.{lane_place, IsStackPlace, IsStackWord};
ghost use Rattle.ad_stacks.specs.Steps.{after_take, after_put, after_gone, after_record, after_refresh, after_mark, taken_by, to_mark_by};
ghost use Rattle.ad_stacks.specs.Private.Handles.{plan_of, IsAt, IsMover, IsOwing, IsWorker};

use crate::table::{Gone, Mark, Noted, Put, Record, Refresh, Seat, StackTable, Take};
use crate::view::Given;
use crate::words::{LANES, NUMBERS};
use ad_base::Place;

/// What the number of a lane is multiplied by in a record word: bits 48 to 55 have the lane.
pub(crate) const ONE_LANE: u64 = 1 << 48;

/// What one unmap step adds to a record word: bits 56 to 63 count them.
pub(crate) const ONE_UNMAP: u64 = 1 << 56;

/// Takes what is In the worker's lane, and answers its word.
pub(crate) fn take(table: &StackTable, seat: &mut Seat, worker: u64) -> u64
    requires at { IsAt table.now.shared.table_id seat.old.table_id }
    requires rest { IsWorker seat.old.me worker Rest }
    ensures at { seat.new.table_id ≡ seat.old.table_id }
    ensures view { seat.new.me ≡ (after_take seat.old.me.0 result, seat.old.me.1) }
    ensures word { IsStackWord result }
    ensures rises { NeverFall (taken_by seat.new.me.0) }
{
    table.shared.swap::<Take>(seat, worker as usize, 0)
}

/// Puts the stack back to the worker's lane where none is In. Answers the word that it found there.
pub(crate) fn put(table: &StackTable, seat: &mut Seat, worker: u64, place: &Place) -> u64
    requires at { IsAt table.now.shared.table_id seat.old.table_id }
    requires holds { IsWorker seat.old.me worker (Holds place.now) }
    requires place { IsStackPlace place.now }
    ensures at { seat.new.table_id ≡ seat.old.table_id }
    ensures view { seat.new.me ≡ (after_put seat.old.me.0 result, seat.old.me.1) }
{
    let word = place.pack();
    table
        .shared
        .compare_exchange::<Put>(seat, worker as usize, 0, word)
}

/// Counts the unmap step of a stack that the seat made Gone.
pub(crate) fn count(table: &StackTable, seat: &mut Seat, place: &Place)
    requires at { IsAt table.now.shared.table_id seat.old.table_id }
    requires owes { IsOwing seat.old.me.0 place.now × (seat.old.me.1 ≡ []) }
    requires place { IsStackPlace place.now }
    ensures at { seat.new.table_id ≡ seat.old.table_id }
    ensures view { seat.new.me ≡ (after_gone seat.old.me.0 0, []) }
{
    let record = LANES + usize::from(place.mapping);
    table.shared.fetch_add::<Gone>(seat, record, ONE_UNMAP);
}

/// Records the place of a new stack, with its lane.
pub(crate) fn record<N: Noted>(table: &StackTable, seat: &mut Seat, given: Given)
    requires noted { given ≡ N.given }
    requires at { IsAt table.now.shared.table_id seat.old.table_id }
    requires mover { IsMover seat.old.me }
    requires idle { (plan_of seat.old.me.0).stage ≡ stage.Idle }
    requires lane { given.lane < LANES }
    requires may { MayRecord table.now.shared.key.items (plan_of seat.old.me.0) given }
    ensures at { seat.new.table_id ≡ seat.old.table_id }
    ensures view { seat.new.me ≡ (after_record given seat.old.me.0 0, []) }
{
    let word = given.place.pack() + given.lane * ONE_LANE;
    let record = LANES + usize::from(given.place.mapping);
    table.shared.store::<Record<N>>(seat, record, word);
}

/// Puts a recorded stack into its lane, and answers the word of the one that was In, or 0.
pub(crate) fn replace(table: &StackTable, seat: &mut Seat, given: Given) -> u64
    requires at { IsAt table.now.shared.table_id seat.old.table_id }
    requires mover { IsMover seat.old.me }
    requires recorded { (plan_of seat.old.me.0).stage ≡ stage.Recorded given }
    requires place { IsStackPlace given.place }
    requires lane { given.lane < LANES }
    ensures at { seat.new.table_id ≡ seat.old.table_id }
    ensures view { seat.new.me ≡ (after_refresh seat.old.me.0 result, []) }
    ensures word { result ≢ 0 → IsStackWord result }
    ensures number { to_mark_by seat.new.me.0 < NUMBERS }
{
    let word = given.place.pack();
    table
        .shared
        .swap::<Refresh>(seat, given.lane as usize, word)
}

/// Marks the stack that was replaced with the line.
pub(crate) fn mark(table: &StackTable, seat: &mut Seat, number: u64, line: u64, word: u64)
    requires at { IsAt table.now.shared.table_id seat.old.table_id }
    requires mover { IsMover seat.old.me }
    requires replaced { (plan_of seat.old.me.0).stage ≡ stage.Replaced number line (lane_place word) }
    requires number { number < NUMBERS }
    ensures at { seat.new.table_id ≡ seat.old.table_id }
    ensures view { seat.new.me ≡ (after_mark seat.old.me.0 0, []) }
{
    let mark = LANES + NUMBERS + number as usize;
    table.shared.store::<Mark>(seat, mark, line);
}
