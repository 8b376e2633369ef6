//! The mover retires mappings: it lists them in a batch, and passes the batch on each slot.

ghost use Rattle.std.specs.Prelude.{◌≡◌, ◌≢◌, ◌+◌, ◌<◌, ◌≤◌, [], true, length, take, vec_capacity, AllPairs, Contains};
ghost use Rattle.ad_maps.specs.declared.view.Freeing.TheVariants as freeing;
ghost use Rattle.ad_maps.specs.declared.view.Passing.TheVariants as passing;
ghost use Rattle.ad_maps.specs.declared.view.Doing.TheVariants.{Mover};
ghost use Rattle.ad_maps.specs.Seen.{AddsRetires, AreOuts};
ghost use Rattle.ad_maps.specs.Steps.{but_all, opened, settled_on};
ghost use Rattle.ad_maps.specs.Private.Handles.{listed_all, plan_of, HasRoom, IsAt, IsMover, Passes};

use crate::free::free;
use crate::maps::{Maps, MoverSeat, Out};
use crate::steps;
use crate::table::{MapTable, TableSeat};
use crate::words::{LINES, MEMBERS, NUMBERS, ONE_PUSH, SLOTS};
use std::marker::Brand;

impl Maps {
    /// Retires the mappings, 1 to 8, under a line, from 1 to 20,000, as one batch: nobody enters them any more. Each
    /// worker that is inside a slot as the batch passes it owes the batch, whatever mapping it is inside, and pays as
    /// it leaves; whoever pays last, a worker or this call, unmaps them all. The mover owes nothing then. `outs` is
    /// empty after it, with the spare room of all that it had.
    pub fn retire(&self, mover: &mut MoverSeat, line: u64, outs: &mut Vec<Out>)
        requires table { mover.old.table ≡ self.now.table }
        requires some_line { 1 ≤ line }
        requires few_lines { line ≤ LINES }
        requires some { 1 ≤ length outs.old.items }
        requires few { length outs.old.items ≤ MEMBERS }
        requires outs { AreOuts mover.old.outs outs.old.items }
        ensures deeds { AddsRetires outs.old.items line mover.old.deeds mover.new.deeds }
        ensures outs { mover.new.outs ≡ but_all outs.old.items mover.old.outs }
        ensures owing_nothing { mover.new.at_rest ≡ true }
        ensures empty { outs.new.items ≡ [] }
        ensures spare { vec_capacity outs.old ≤ vec_capacity outs.new }
        ensures table { mover.new.table ≡ mover.old.table }
        ensures current { mover.new.current ≡ mover.old.current }
        ensures fresh { mover.new.fresh ≡ mover.old.fresh }
        ensures rooms { mover.new.rooms ≡ mover.old.rooms }
    {
        let batch = mover.batches + 1;
        let seat = &mut mover.seat;
        list_all(&self.table, seat, line, batch, outs);
        let members = outs.len() as u64;
        outs.clear();
        steps::open(&self.table, seat, self.slots, batch, members);
        pass(&self.table, seat, batch, mover.slots);
        mover.batches = batch;
    }
}

/// Lists the mappings in the mover's next batch, in order.
fn list_all(table: &MapTable, seat: &mut TableSeat, line: u64, batch: u64, outs: &Vec<Out>)
    requires at { IsAt table.now.shared.table_id seat.old.table_id }
    requires mover { IsMover seat.old.me }
    requires rest { (plan_of seat.old.me.0).passing ≡ passing.Rest }
    requires batch { batch ≡ (plan_of seat.old.me.0).batches + 1 }
    requires few_batches { batch < NUMBERS }
    requires some_line { 0 < line }
    requires few_lines { line ≤ LINES }
    requires few { length outs.now.items ≤ MEMBERS }
    requires outs { AreOuts (plan_of seat.old.me.0).outs outs.now.items }
    ensures at { seat.new.table_id ≡ seat.old.table_id }
    ensures view { seat.new.me ≡ (Mover (listed_all line outs.now.items (plan_of seat.old.me.0)), []) }
{
    for member in 0..outs.len() {
        let made = outs[member].made;
        steps::list::<Brand>(table, seat, made, line, batch, member);
    }
}

/// Passes the batch, which was opened, on each slot in turn.
fn pass(table: &MapTable, seat: &mut TableSeat, batch: u64, slots: u64)
    requires at { IsAt table.now.shared.table_id seat.old.table_id }
    requires mover { IsMover seat.old.me }
    requires batch { batch ≡ (plan_of seat.old.me.0).batches }
    requires few { batch < NUMBERS }
    requires slots { slots ≡ (plan_of seat.old.me.0).slots }
    requires some_slot { 1 ≤ slots }
    requires few_slots { slots ≤ SLOTS }
    requires settled { (plan_of seat.old.me.0).passing ≡ passing.Settled 0 }
    requires free { (plan_of seat.old.me.0).freeing ≡ freeing.Nothing }
    requires given { (plan_of seat.old.me.0).gives ≡ [] }
    ensures at { seat.new.table_id ≡ seat.old.table_id }
    ensures passed { Passes (plan_of seat.old.me.0) slots seat.new.me }
{
    for slot in 0..slots {
        pass_slot(table, seat, batch, slot);
    }
}

/// Pushes the batch on the next slot, and settles it there: those that were inside are to pay. Frees the batch where
/// nobody owes it any more.
fn pass_slot(table: &MapTable, seat: &mut TableSeat, batch: u64, slot: u64)
    requires at { IsAt table.now.shared.table_id seat.old.table_id }
    requires mover { IsMover seat.old.me }
    requires batch { batch ≡ (plan_of seat.old.me.0).batches }
    requires few { batch < NUMBERS }
    requires slot { slot < SLOTS }
    requires settled { (plan_of seat.old.me.0).passing ≡ passing.Settled slot }
    requires free { (plan_of seat.old.me.0).freeing ≡ freeing.Nothing }
    requires given { (plan_of seat.old.me.0).gives ≡ [] }
    ensures at { seat.new.table_id ≡ seat.old.table_id }
    ensures passed { Passes (plan_of seat.old.me.0) (slot + 1) seat.new.me }
{
    let inside = steps::push(table, seat, slot) % ONE_PUSH;
    let count = steps::settle(table, seat, batch, slot, inside);
    if count == ONE_PUSH - inside {
        free(table, seat, batch);
    }
}
