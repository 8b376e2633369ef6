//! The stacks of the workers: the table, its handles, and the calls that take no memory.

ghost use Rattle.std.specs.Prelude.{◌≡◌, ◌≢◌, ◌<◌, ◌≤◌, [], ◌∷◌, ◌++◌, slice_index, IfSome};
ghost use Rattle.ad_base.specs.Place.{place_at};
ghost use Rattle.ad_stacks.specs.declared.view.Stance.TheVariants.{Rest, Holds};
ghost use Rattle.ad_stacks.specs.declared.view.Doing.TheVariants.{Mover};
ghost use Rattle.ad_stacks.specs.declared.view.Stage.TheVariants as stage;
ghost use Rattle.ad_stacks.specs.History.{NeverFall, IsAbove};
ghost use Rattle.ad_stacks.specs.Laws.{MayRecord};
ghost use Rattle.ad_stacks.specs.StackPlace.{lane_place, IsStackPlace, IsStackWord};
ghost use Rattle.ad_stacks.specs.Steps.{taken_by};
ghost use Rattle.ad_stacks.specs.Private.Handles.{plan_of, refreshed_plan, IsAt, IsMover, IsWorker};

use crate::steps;
use crate::table::{Seat, StackTable};
use crate::view::Given;
use crate::words::LANES;
use ad_base::Place;
use std::marker::{Brand, Model};

/// The stacks of the workers, on a table of atomic words. Threads share it by a `&`, and none of them
/// waits for another.
///
/// Each worker has a lane. A stack is In its lane, Held by the lane's worker, or Gone. What contracts see
/// of it is its identity and the places that it was opened with, one for each lane.
#[derive(Drop)]
pub struct Stacks {
    pub(crate) table: StackTable,
}

impl Model for Stacks {
    ghost use Rattle.std.specs.Prelude.{◌≡◌};
    ghost use Rattle.ad_stacks.specs.declared.words.TheConstants.{WORDS};
    ghost use Rattle.ad_stacks.specs.Seen.{OpenStacks};

    ghost Value = { OpenStacks };

    ghost view = { λ s. record { table = s.table.shared.table_id; openings = s.table.shared.key.items } };

    ghost invariant = { λ s. (s.table.shared.table_id.words ≡ WORDS) × (s.table.shared.table_id.slots ≡ 0) };
}

/// A worker's seat while it holds no stack.
#[derive(Drop)]
pub struct StackSeat {
    pub(crate) seat: Seat,
    pub(crate) worker: u64,
}

impl Model for StackSeat {
    ghost use Rattle.ad_stacks.specs.declared.view.Stance.TheVariants.{Rest};
    ghost use Rattle.ad_stacks.specs.Private.Handles.{IsWorker};
    ghost use Rattle.ad_stacks.specs.Seen.{SeatSeen};
    ghost use Rattle.ad_stacks.specs.Steps.{taken_by};

    ghost Value = { SeatSeen };

    ghost view = { λ s. record { table = s.seat.table_id; worker = s.worker; taken = taken_by s.seat.me.0 } };

    ghost invariant = { λ s. IsWorker s.seat.me s.worker Rest };
}

/// A stack that a worker holds, with the worker's seat. It must be put back: it can't be dropped.
pub struct Stack {
    seat: Seat,
    worker: u64,
    place: Place,
}

impl Model for Stack {
    ghost use Rattle.ad_stacks.specs.declared.view.Stance.TheVariants.{Holds};
    ghost use Rattle.ad_stacks.specs.Private.Handles.{IsWorker};
    ghost use Rattle.ad_stacks.specs.Seen.{StackSeen};
    ghost use Rattle.ad_stacks.specs.StackPlace.{IsStackPlace};
    ghost use Rattle.ad_stacks.specs.Steps.{taken_by};

    ghost Value = { StackSeen };

    ghost view = { λ s. record { seat = record { table = s.seat.table_id; worker = s.worker; taken = taken_by s.seat.me.0 }; place = s.place } };

    ghost invariant = { λ s. IsWorker s.seat.me s.worker (Holds s.place) × IsStackPlace s.place };
}

/// The mover's seat, while it makes no refresh.
#[derive(Drop)]
pub struct StackMover {
    pub(crate) seat: Seat,
    /// The number of the mapping that each lane was given last.
    pub(crate) newest: Vec<u64>,
}

impl Model for StackMover {
    ghost use Rattle.std.specs.Prelude.{◌≤◌, vec_len};
    ghost use Rattle.ad_stacks.specs.declared.words.TheConstants.{LANES};
    ghost use Rattle.ad_stacks.specs.Private.Handles.{plan_of, IsIdle};
    ghost use Rattle.ad_stacks.specs.Seen.{MoverSeen};

    ghost Value = { MoverSeen };

    ghost view = { λ m. record { table = m.seat.table_id; lanes = vec_len m.newest; refreshes = (plan_of m.seat.me.0).made } };

    ghost invariant = { λ m. IsIdle m.seat.me m.newest.items × (vec_len m.newest ≤ LANES) };
}

impl Stack {
    /// Where the stack is.
    pub fn place(&self) -> Place
        ensures value { result ≡ self.now.place }
        ensures form { IsStackPlace result }
    {
        self.place
    }
}

impl Stacks {
    /// Takes the stack that is In the worker's lane. There always is one.
    pub fn take(&self, seat: StackSeat) -> Stack
        requires { seat.table ≡ self.now.table }
        ensures place { IsStackPlace result.place }
        ensures table { result.seat.table ≡ seat.table }
        ensures worker { result.seat.worker ≡ seat.worker }
        ensures taken { result.seat.taken ≡ seat.taken ++ result.place ∷ [] }
        ensures rises { NeverFall result.seat.taken }
    {
        let StackSeat { mut seat, worker } = seat;
        let word = steps::take(&self.table, &mut seat, worker);
        let place = place_of(word);
        Stack {
            seat,
            worker,
            place,
        }
    }

    /// Puts the stack back into its lane, or counts its unmap step where it was replaced meanwhile.
    pub fn put(&self, stack: Stack) -> StackSeat
        requires { stack.seat.table ≡ self.now.table }
        ensures { result ≡ stack.seat }
    {
        let Stack {
            mut seat,
            worker,
            place,
        } = stack;
        put_back(&self.table, &mut seat, worker, &place);
        StackSeat { seat, worker }
    }

    /// Gives the lane a new stack, in this line of the script: it is what the next take gives, unless another
    /// refresh comes before it. The one that is In the lane is unmapped here, and one that is held by its
    /// worker's put. The mapping that the lane was given last is marked with the line.
    pub fn refresh(&self, mover: &mut StackMover, lane: u64, place: Place, line: u64)
        requires table { mover.old.table ≡ self.now.table }
        requires lane { lane < mover.old.lanes }
        requires place { IsStackPlace place }
        requires above { IsAbove self.now.openings mover.old.refreshes place.mapping }
        requires from_line { 0 < line }
        ensures table { mover.new.table ≡ mover.old.table }
        ensures lanes { mover.new.lanes ≡ mover.old.lanes }
        ensures refreshes { mover.new.refreshes ≡ mover.old.refreshes ++ record { lane = lane; place = place; line = line } ∷ [] }
    {
        let given = Given { lane, place, line };
        let at = lane as usize;
        let before = mover.newest[at];
        replace(&self.table, &mut mover.seat, given, before);
        mover.newest[at] = u64::from(place.mapping);
    }
}

/// The place of a stack's word.
fn place_of(word: u64) -> Place
    requires { IsStackWord word }
    ensures { result ≡ place_at word }
{
    Place::unpack(word).unwrap()
}

/// Puts a stack back, and counts it where it finds another In the lane.
fn put_back(table: &StackTable, seat: &mut Seat, worker: u64, place: &Place)
    requires at { IsAt table.now.shared.table_id seat.old.table_id }
    requires holds { IsWorker seat.old.me worker (Holds place.now) }
    requires place { IsStackPlace place.now }
    ensures at { seat.new.table_id ≡ seat.old.table_id }
    ensures rest { IsWorker seat.new.me worker Rest }
    ensures taken { taken_by seat.new.me.0 ≡ taken_by seat.old.me.0 }
{
    let found = steps::put(table, seat, worker, place);
    if found == 0 {
        return;
    }
    steps::count(table, seat, place);
}

/// Makes the steps of a refresh: record, swap, mark, and the count of the stack that was In.
fn replace(table: &StackTable, seat: &mut Seat, given: Given, before: u64)
    requires at { IsAt table.now.shared.table_id seat.old.table_id }
    requires mover { IsMover seat.old.me }
    requires idle { (plan_of seat.old.me.0).stage ≡ stage.Idle }
    requires may { MayRecord table.now.shared.key.items (plan_of seat.old.me.0) given }
    requires lane { given.lane < LANES }
    requires before { before ≡ slice_index (plan_of seat.old.me.0).newest given.lane }
    ensures at { seat.new.table_id ≡ seat.old.table_id }
    ensures view { seat.new.me ≡ (Mover (refreshed_plan given (plan_of seat.old.me.0)), []) }
{
    steps::record::<Brand>(table, seat, given);
    let word = steps::replace(table, seat, given);
    steps::mark(table, seat, before, given.line, word);
    let Some(old) = found_place(word) else {
        return;
    };
    steps::count(table, seat, &old);
}

/// The place of the stack that was In a lane, or `None` where its word is 0.
fn found_place(word: u64) -> Option<Place>
    requires { word ≢ 0 → IsStackWord word }
    ensures value { result ≡ lane_place word }
    ensures form { IfSome result IsStackPlace }
{
    Place::unpack(word)
}
