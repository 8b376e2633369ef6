//! What a worker owes that has left, and the batch that a worker or the mover frees.

ghost use Rattle.std.specs.Prelude.{◌≡◌, ◌+◌, ◌<◌};
ghost use Rattle.ad_maps.specs.declared.view.Freeing.TheVariants as freeing;
ghost use Rattle.ad_maps.specs.declared.view.Stance.TheVariants as stance;
ghost use Rattle.ad_maps.specs.Seen.{AddsUnmaps};
ghost use Rattle.ad_maps.specs.Steps.{left_with, next_member};
ghost use Rattle.ad_maps.specs.Private.Handles.{acts_of, worker_of, Frees, IsAt, IsToFree, IsWorker};

use crate::maps::place_of;
use crate::steps;
use crate::table::{MapTable, TableSeat};
use crate::words::{MEMBERS, NUMBERS};

/// Pays each batch above its entry number up to the last one that was pushed on its slot, and frees those that it
/// brings to zero.
pub(crate) fn pay_batches(table: &MapTable, seat: &mut TableSeat, slot: u64, entry: u64, last: u64)
    requires at { IsAt table.now.shared.table_id seat.old.table_id }
    requires left { IsWorker seat.old.me slot (left_with entry last) }
    requires few { last < NUMBERS }
    ensures at { seat.new.table_id ≡ seat.old.table_id }
    ensures away { IsWorker seat.new.me slot stance.Away }
    ensures worker { worker_of seat.new.me.0 ≡ worker_of seat.old.me.0 }
    ensures acts { AddsUnmaps (acts_of seat.old.me.0) (acts_of seat.new.me.0) }
{
    for paid in entry..last {
        pay_batch(table, seat, slot, paid, last);
    }
}

/// Pays the first batch that it still owes, and frees it where it brings it to zero.
fn pay_batch(table: &MapTable, seat: &mut TableSeat, slot: u64, paid: u64, last: u64)
    requires at { IsAt table.now.shared.table_id seat.old.table_id }
    requires paying { IsWorker seat.old.me slot (stance.Paying paid last) }
    requires few { paid + 1 < NUMBERS }
    ensures at { seat.new.table_id ≡ seat.old.table_id }
    ensures paid { IsWorker seat.new.me slot (left_with (paid + 1) last) }
    ensures worker { worker_of seat.new.me.0 ≡ worker_of seat.old.me.0 }
    ensures acts { AddsUnmaps (acts_of seat.old.me.0) (acts_of seat.new.me.0) }
{
    let count = steps::pay(table, seat, slot, paid, last);
    if count == 1 {
        free(table, seat, paid + 1);
    }
}

/// Unmaps the members of a batch whose count the seat brought to zero, and gives their frames back.
pub(crate) fn free(table: &MapTable, seat: &mut TableSeat, batch: u64)
    requires at { IsAt table.now.shared.table_id seat.old.table_id }
    requires frees { IsToFree seat.old.me (freeing.Batch batch 0) }
    requires few { batch < NUMBERS }
    ensures at { seat.new.table_id ≡ seat.old.table_id }
    ensures freed { Frees seat.old.me.0 freeing.Nothing seat.new.me }
{
    for member in 0..MEMBERS {
        free_member(table, seat, batch, member);
    }
}

/// Unmaps a member of the batch and gives its frame back, if there is such a member.
fn free_member(table: &MapTable, seat: &mut TableSeat, batch: u64, member: usize)
    requires at { IsAt table.now.shared.table_id seat.old.table_id }
    requires frees { IsToFree seat.old.me (freeing.Batch batch member) }
    requires few { batch < NUMBERS }
    requires in_range { member < MEMBERS }
    ensures at { seat.new.table_id ≡ seat.old.table_id }
    ensures freed { Frees seat.old.me.0 (next_member batch member) seat.new.me }
{
    let word = steps::member(table, seat, batch, member);
    if word == 0 {
        return;
    }
    let found = steps::unmap(table, seat, batch, member, word);
    let place = place_of(found);
    steps::give(table, seat, &place);
}
