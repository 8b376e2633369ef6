//! The stack table is closed.

ghost use Rattle.std.specs.Prelude.{◌≡◌, ◌≢◌, ◌%◌, ◌^◌, ◌<◌, [], ◌∷◌, length, map, All, IfOk};
ghost use Rattle.std.specs.Mem.Slots.{slots_items, slots_len, IsFull};
ghost use Rattle.ad_stacks.specs.declared.view.Doing.TheVariants.{Mover};
ghost use Rattle.ad_base.specs.Ledger.{IsUnmappedOnce};
ghost use Rattle.ad_stacks.specs.Ledger.{AreAll, AreRows, HaveHistory, HaveRows};
ghost use Rattle.ad_stacks.specs.StackPlace.{IsStackWord};
ghost use Rattle.ad_stacks.specs.Private.Handles.{plan_of, gathered_plan, IsAt, IsMover};
ghost use Rattle.ad_stacks.specs.Private.Rows.{hand_of, row_at, rows_in, AreRecords};

use crate::stacks::{StackMover, StackSeat, Stacks};
use crate::steps::{ONE_LANE, ONE_UNMAP};
use crate::table::{Gather, Seat, StackTable};
use crate::words::{LANES, NUMBERS, WORDS};
use ad_base::{Kind, OutOfMemory, Place, Row};
use atomic_table::Closed;
use std::alloc::Global;

impl Stacks {
    /// Closes the table, with the mover's seat and all worker's seats, in order of worker. Gives one row
    /// for each stack, in order of mapping number. Where there is no memory, table and seats are given up.
    pub fn close(
        self,
        alloc: Global,
        mover: StackMover,
        seats: Vec<StackSeat>,
    ) -> Result<Vec<Row>, OutOfMemory>
        requires mover { mover.table ≡ self.table }
        requires seats { AreAll self.table (length self.openings) seats.items }
        ensures rows { IfOk result (λ rows. AreRows self.openings mover.refreshes rows.items) }
        ensures unmapped { IfOk result (λ rows. All IsUnmappedOnce rows.items) }
        ensures taken { IfOk result (λ rows. HaveRows rows.items seats.items) }
        ensures history { HaveHistory self.openings mover.refreshes seats.items }
    {
        let Stacks { table } = self;
        let StackMover { mut seat, newest } = mover;
        drop(newest);
        gather(&table, &mut seat, seats);
        let closed = table.close_with(seat);
        let rows = rows_of(alloc, &closed);
        closed.free();
        rows
    }
}

/// Joins the worker's seats to the mover's, in order.
fn gather(table: &StackTable, mover: &mut Seat, seats: Vec<StackSeat>)
    requires at { IsAt table.now.shared.table_id mover.old.table_id }
    requires mover { IsMover mover.old.me }
    requires none { (plan_of mover.old.me.0).back ≡ [] }
    requires seats { AreAll table.now.shared.table_id (length seats.items) seats.items }
    ensures at { mover.new.table_id ≡ mover.old.table_id }
    ensures view { mover.new.me ≡ (Mover (gathered_plan (plan_of mover.old.me.0) (map hand_of seats.items)), []) }
{
    for one in seats {
        let StackSeat { seat, worker: _ } = one;
        table.shared.join_seat::<Gather>(mover, seat);
    }
}

/// The rows that the words say, in order of number.
fn rows_of(alloc: Global, closed: &Closed<(), Global>) -> Result<Vec<Row>, OutOfMemory>
    requires words { slots_len closed.now.words ≡ WORDS }
    requires full { IsFull closed.now.words }
    requires records { AreRecords (slots_items closed.now.words) }
    ensures { IfOk result (λ rows. rows.items ≡ rows_in (slots_items closed.now.words) NUMBERS) }
{
    let mut rows = Vec::new(alloc);
    for number in 0..NUMBERS {
        let word = closed.word(LANES + number);
        if word == 0 {
            continue;
        }
        let mark = closed.word(LANES + NUMBERS + number);
        rows.push(row_of(word, mark))?;
    }
    Ok(rows)
}

/// The row of a record word and a mark.
fn row_of(word: u64, mark: u64) -> Row
    requires { IsStackWord (word % 2 ^ 48) }
    ensures { result ≡ row_at word mark }
{
    let place = Place::unpack(word % ONE_LANE).unwrap();
    Row {
        mapping: place.mapping,
        kind: Kind::Stack,
        who: word / ONE_LANE % 256,
        place,
        line: mark,
        unmaps: word / ONE_UNMAP,
    }
}
