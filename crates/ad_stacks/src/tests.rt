//! What no clause says: worked examples, each call once with ample memory, and threads beside one another.
//! The expected rows are those of the histories, written by hand.

ghost use Rattle.std.specs.Prelude.{◌≡◌, ◌≢◌, ◌+◌, ◌<◌, ◌≤◌, length, vec_len, All, AllPairs, IfOk, IfSome, slice_get};
ghost use Rattle.std.specs.Thread.{IsSync};
ghost use Rattle.ad_base.specs.declared.place.Place.{Place};
ghost use Rattle.ad_stacks.specs.History.{IsAbove};
ghost use Rattle.ad_stacks.specs.Ledger.{AreAll};
ghost use Rattle.ad_stacks.specs.StackPlace.{IsStackPlace};

use crate::{StackMover, StackSeat, Stacks};
use ad_base::{OutOfMemory, Place, Row, STACK_PAGES};
use std::alloc::{AllocError, Global};
use std::process::Abort;
use std::test::Fail;
use std::thread;
use std::thread::Threads;

/// The place of a stack of this mapping number.
fn stack_place(mapping: u16) -> Place
    requires from { 1 ≤ mapping }
    requires to { mapping ≤ 4095 }
    ensures form { IsStackPlace result }
    ensures mapping { result.mapping ≡ mapping }
{
    Place {
        region: 32_768 + mapping,
        start: 1,
        pages: STACK_PAGES,
        mapping,
        frame: 0,
    }
}

/// The places of so many stacks, numbered from 1.
fn stack_places(alloc: Global, lanes: u16) -> Result<Vec<Place>, OutOfMemory>
    requires { lanes ≤ 64 }
    ensures len { IfOk result (λ places. vec_len places ≡ lanes) }
    ensures places { IfOk result (λ places. All IsStackPlace places.items) }
    ensures below { IfOk result (λ places. All (λ (p : Place). p.mapping < lanes + 1) places.items) }
    ensures differ { IfOk result (λ places. AllPairs (λ (p q : Place). p.mapping ≢ q.mapping) places.items) }
{
    let mut places = Vec::new(alloc);
    for lane in 0..lanes {
        places.push(stack_place(lane + 1))?;
    }
    Ok(places)
}

/// Gives a lane a new stack of this number, which is above all given before.
fn renew(stacks: &Stacks, mover: &mut StackMover, lane: u64, number: u16, line: u64)
    requires table { mover.old.table ≡ stacks.now.table }
    requires lane { lane < mover.old.lanes }
    requires from { 1 ≤ number }
    requires to { number ≤ 4095 }
    requires above { IsAbove stacks.now.openings mover.old.refreshes number }
    requires line { 0 < line }
    ensures table { mover.new.table ≡ mover.old.table }
    ensures lanes { mover.new.lanes ≡ mover.old.lanes }
    ensures above { IsAbove stacks.now.openings mover.new.refreshes (number + 1) }
{
    stacks.refresh(mover, lane, stack_place(number), line);
}

/// Gives lane 0 so many new stacks, numbered from this number on, each in the line of twice its number.
fn renew_from(stacks: &Stacks, mover: &mut StackMover, first: u16, times: u16)
    requires table { mover.old.table ≡ stacks.now.table }
    requires lane { 0 < mover.old.lanes }
    requires from { 1 ≤ first }
    requires to { first + times ≤ 4095 }
    requires above { IsAbove stacks.now.openings mover.old.refreshes first }
    ensures table { mover.new.table ≡ mover.old.table }
    ensures lanes { mover.new.lanes ≡ mover.old.lanes }
    ensures above { IsAbove stacks.now.openings mover.new.refreshes (first + times) }
{
    for more in 0..times {
        let number = first + more;
        renew(stacks, mover, 0, number, u64::from(number) * 2);
    }
}

/// A table of one lane, whose stack is mapping 1.
fn open_one(rt: &impl Abort, alloc: Global) -> Result<(Stacks, StackMover, StackSeat), OutOfMemory>
    ensures openings { IfOk result (λ opened. length opened.0.openings ≡ 1) }
    ensures above { IfOk result (λ opened. IsAbove opened.0.openings opened.1.refreshes 2) }
    ensures mover { IfOk result (λ opened. (opened.1.table ≡ opened.0.table) × (opened.1.lanes ≡ 1)) }
    ensures seat { IfOk result (λ opened. (opened.2.table ≡ opened.0.table) × (opened.2.worker ≡ 0)) }
{
    let places = stack_places(alloc, 1)?;
    let (stacks, mover, mut seats) = Stacks::open(alloc, places.as_slice())?;
    let seat = seats.pop().expect(rt, "a seat");
    Ok((stacks, mover, seat))
}

/// Closes a table of one lane.
fn close_one(
    alloc: Global,
    stacks: Stacks,
    mover: StackMover,
    seat: StackSeat,
) -> Result<Vec<Row>, OutOfMemory>
    requires openings { length stacks.openings ≡ 1 }
    requires mover { mover.table ≡ stacks.table }
    requires seat { seat.table ≡ stacks.table }
    requires worker { seat.worker ≡ 0 }
{
    let mut seats = Vec::new(alloc);
    seats.push(seat)?;
    stacks.close(alloc, mover, seats)
}

/// A worker's two takes on one lane: so many refreshes come before the first, while its stack is held,
/// and after its put.
fn two_takes(
    rt: &impl Abort,
    alloc: Global,
    before: u16,
    during: u16,
    after: u16,
) -> Result<Vec<Row>, Fail>
    requires { before + during + after ≤ 100 }
{
    let (stacks, mut mover, seat) = open_one(rt, alloc)?;
    renew_from(&stacks, &mut mover, 2, before);
    let stack = stacks.take(seat);
    assert_eq!(rt; stack.place().mapping, 1 + before);
    renew_from(&stacks, &mut mover, 2 + before, during);
    assert_eq!(rt; stack.place().mapping, 1 + before);
    let seat = stacks.put(stack);
    renew_from(&stacks, &mut mover, 2 + before + during, after);
    let stack = stacks.take(seat);
    assert_eq!(rt; stack.place().mapping, 1 + before + during + after);
    let seat = stacks.put(stack);
    Ok(close_one(alloc, stacks, mover, seat)?)
}

/// Numbers of refreshes before the first take, while held, and after the put. In the second case mapping 1
/// is replaced by mapping 2 in line 4, while it is held.
const CASES: [(u16, u16, u16); 7] = [
    (0, 0, 0),
    (0, 1, 0),
    (0, 2, 0),
    (1, 0, 0),
    (0, 0, 1),
    (2, 3, 1),
    (3, 1, 2),
];

#[test]
fn each_replaced_stack_is_unmapped_once(rt: HostRuntime) -> Result<(), Fail> {
    for (before, during, after) in CASES {
        assert!(rt; before < 9 && during < 9 && after < 9);
        let rows = two_takes(&rt, rt.alloc(), before, during, after)?;
        let made = 1 + before + during + after;
        assert_eq!(rt; rows.len(), usize::from(made));
        let mut number = 0u16;
        for row in rows {
            number = number.saturating_add(1);
            let replaced = number < made;
            assert_eq!(rt; row.mapping, number);
            assert_eq!(rt; row.who, 0);
            assert_eq!(rt;
                row.line,
                if replaced {
                    (u64::from(number) + 1) * 2
                } else {
                    0
                }
            );
            assert_eq!(rt; row.unmaps, u64::from(replaced));
        }
    }
    Ok(())
}

/// Takes the worker's stack so often, and puts it back.
fn many_takes(stacks: &Stacks, seat: StackSeat, rounds: u64) -> StackSeat
    requires { seat.table ≡ stacks.now.table }
    ensures table { result.table ≡ seat.table }
    ensures worker { result.worker ≡ seat.worker }
{
    let mut seat = seat;
    for _round in 0..rounds {
        seat = stacks.put(stacks.take(seat));
    }
    seat
}

/// Takes and puts back in a thread for each seat.
fn all_take<R: Threads + Sync>(
    rt: &R,
    stacks: &Stacks,
    seats: Vec<StackSeat>,
    rounds: u64,
) -> Result<Vec<StackSeat>, AllocError>
    requires { AreAll stacks.now.table (length seats.items) seats.items }
    ensures { IfOk result (λ after. AreAll stacks.now.table (length seats.items) after.items) }
{
    thread::map_vec(
        rt,
        seats,
        &|seat: StackSeat| -> StackSeat
            requires { seat.table ≡ stacks.now.table }
            ensures table { result.table ≡ seat.table }
            ensures worker { result.worker ≡ seat.worker }
        { many_takes(stacks, seat, rounds) },
    )
}

/// Renews the lanes in turn, so many times.
fn all_renewed(stacks: &Stacks, mover: StackMover, lanes: u16, times: u16) -> StackMover
    requires table { mover.table ≡ stacks.now.table }
    requires lanes { mover.lanes ≡ lanes }
    requires some_lane { 1 ≤ lanes }
    requires to { lanes + 1 + times ≤ 4095 }
    requires above { IsAbove stacks.now.openings mover.refreshes (lanes + 1) }
    ensures { result.table ≡ mover.table }
{
    let mut mover = mover;
    for more in 0..times {
        let number = lanes + 1 + more;
        renew(
            stacks,
            &mut mover,
            u64::from(more % lanes),
            number,
            u64::from(number),
        );
    }
    mover
}

/// A table of so many lanes, whose stacks are numbered from 1.
#[tactic(auto, using(crate::proofs::Openings::all_of_new))]
fn open_lanes(
    alloc: Global,
    lanes: u16,
) -> Result<(Stacks, StackMover, Vec<StackSeat>), OutOfMemory>
    requires { lanes ≤ 64 }
    ensures openings { IfOk result (λ opened. length opened.0.openings ≡ lanes) }
    ensures above { IfOk result (λ opened. IsAbove opened.0.openings opened.1.refreshes (lanes + 1)) }
    ensures table { IfOk result (λ opened. opened.1.table ≡ opened.0.table) }
    ensures lanes { IfOk result (λ opened. opened.1.lanes ≡ lanes) }
    ensures seats { IfOk result (λ opened. AreAll opened.0.table (length opened.2.items) opened.2.items) }
    ensures count { IfOk result (λ opened. length opened.2.items ≡ lanes) }
{
    let places = stack_places(alloc, lanes)?;
    Stacks::open(alloc, places.as_slice())
}

/// Workers take and put back beside a mover that renews their lanes. Gives the rows of the closed table.
fn beside_one_another<R: Threads + Sync>(
    rt: &R,
    alloc: Global,
    lanes: u16,
    rounds: u64,
    times: u16,
) -> Result<Vec<Row>, OutOfMemory>
    requires some_lane { 1 ≤ lanes }
    requires few { lanes ≤ 64 }
    requires to { times ≤ 4000 }
{
    let (stacks, mover, seats) = open_lanes(alloc, lanes)?;
    let table = &stacks;
    let (seats, mover) = thread::join(
        rt,
        move || -> Result<Vec<StackSeat>, AllocError>
            requires { IsSync R.row × AreAll table.now.table (length seats.items) seats.items }
            ensures { IfOk result (λ after. AreAll table.entry.now.table (length seats.items) after.items) }
        { all_take(rt, table, seats, rounds) },
        move || -> StackMover
            requires table { mover.table ≡ table.now.table }
            requires lanes { mover.lanes ≡ lanes }
            requires some_lane { 1 ≤ lanes }
            requires to { lanes + 1 + times ≤ 4095 }
            requires above { IsAbove table.now.openings mover.refreshes (lanes + 1) }
            ensures { result.table ≡ table.entry.now.table }
        { all_renewed(table, mover, lanes, times) },
    );
    stacks.close(alloc, mover, seats?)
}

/// Takes that each worker makes in a test. `bench/stacks` says how to make more.
const ROUNDS: u64 = 300;

/// Lanes, takes of each worker, and refreshes.
const RUNS: [(u16, u64, u16); 2] = [(8, ROUNDS, 400), (64, 20, 200)];

/// A stress run is no proof: it shows that threads run beside one another, and what they leave.
#[test]
fn threads_leave_each_replaced_stack_unmapped_once(rt: HostRuntime) -> Result<(), Fail> {
    for (lanes, rounds, times) in RUNS {
        assert!(rt; 1 <= lanes && lanes <= 64 && times <= 4000);
        let rows = beside_one_another(&rt, rt.alloc(), lanes, rounds, times)?;
        assert_eq!(rt; rows.len(), usize::from(lanes + times));
        for row in rows {
            let replaced = row.mapping <= times;
            assert_eq!(rt;
                row.line,
                if replaced {
                    u64::from(lanes) + u64::from(row.mapping)
                } else {
                    0
                }
            );
            assert_eq!(rt; row.unmaps, u64::from(replaced));
            assert_eq!(rt;
                row.who,
                (u64::from(row.mapping).saturating_sub(1)) % u64::from(lanes)
            );
        }
    }
    Ok(())
}
