//! The turn table is closed.

ghost use Rattle.std.specs.Prelude.{◌≡◌, ◌<◌, ◌≤◌, [], ◌∷◌, length, map, All, IfOk, IsTrue, OnOk, Option, is_some};
ghost use Rattle.std.specs.Mem.Slots.{slots_items, slots_len, IsFull};
ghost use Rattle.std.specs.Vec.{vec_capacity};
ghost use Rattle.ad_turns.specs.declared.view.Doing.TheVariants.{Gatherer};
ghost use Rattle.ad_turns.specs.Merged.{AreOwnTurns, AreReached, HaveAllLengths};
ghost use Rattle.ad_turns.specs.Seen.{AreAll};
ghost use Rattle.ad_turns.specs.Private.Handles.{back_of, book_in, turns_in, turns_shown, IsAt, IsGatherer};

use crate::boxed::BoxedBook;
use crate::table::{Enter, Gather, Seat, TurnTable};
use crate::turns::{TurnSeat, Turns};
use ad_base::{Book, OutOfMemory};
use atomic_table::Closed;
use std::alloc::Global;

impl Turns {
    /// Closes the table, with all workers' seats, in order of worker, and hands out the books, one for each module.
    /// Where there is no memory, table, books and seats are given up.
    pub fn close(self, alloc: Global, seats: Vec<TurnSeat>) -> Result<Vec<Book>, OutOfMemory>
        requires seats { AreAll self.table (length self.calls) seats.items }
        ensures count { IfOk result (λ books. length books.items ≡ length self.openings) }
        ensures reached { IfOk result (λ books. AreReached self.openings books.items seats.items) }
        ensures lengths { IfOk result (λ books. HaveAllLengths self.openings books.items) }
        ensures turns { OnOk result (AreOwnTurns self.openings seats.items) }
    {
        let Turns { table } = self;
        let (_, mut gatherer) = table.shared.load_new_seat::<Enter>(0);
        gather(&table, &mut gatherer, seats);
        let books = Vec::with_capacity(alloc, table.slot_count())?;
        let closed = table.close_with(gatherer);
        Ok(books_of(closed, books))
    }
}

/// Joins the workers' seats to the gatherer's, in order.
fn gather(table: &TurnTable, gatherer: &mut Seat, seats: Vec<TurnSeat>)
    requires at { IsAt table.now.shared.table_id gatherer.old.table_id }
    requires none { gatherer.old.me ≡ (Gatherer [], []) }
    requires seats { AreAll table.now.shared.table_id (length seats.items) seats.items }
    ensures at { gatherer.new.table_id ≡ gatherer.old.table_id }
    ensures gatherer { IsGatherer gatherer.new.me }
    ensures turns { map turns_in (back_of gatherer.new.me.0) ≡ map turns_shown seats.items }
{
    for one in seats {
        let TurnSeat {
            seat,
            worker: _,
            left,
        } = one;
        drop(left);
        table.shared.join_seat::<Gather>(gatherer, seat);
    }
}

/// Takes the books out of their slots, in order, into the room for them, and gives the table's memory back.
fn books_of(mut closed: Closed<Option<BoxedBook>, Global>, mut books: Vec<Book>) -> Vec<Book>
    requires full { IsFull closed.slots }
    requires each { All (λ (slot : Option Book). IsTrue (is_some slot)) (slots_items closed.slots) }
    requires room { slots_len closed.slots ≤ vec_capacity books }
    requires empty { books.items ≡ [] }
    ensures { result.items ≡ map book_in (slots_items closed.slots) }
{
    for module in 0..closed.slot_count() {
        let book = closed.take(module).unwrap();
        books.push_reserved(book.into_book());
    }
    closed.free();
    books
}
