//! The steps of the table, one function each.

ghost use Rattle.std.specs.Prelude.{◌≡◌, ◌≢◌, ◌+◌, ◌<◌, ◌≤◌, [], ◌∷◌, ◌++◌, length, slice_index, MatchBool, None, Some};
ghost use Rattle.atomic_table.specs.Table.{rest};
ghost use Rattle.ad_turns.specs.declared.view.Stage.TheVariants.{Rests, Waits, Holds, Gives};
ghost use Rattle.ad_turns.specs.declared.words.TheConstants.{BOOKS};
ghost use Rattle.ad_turns.specs.Laws.{MayGive};
ghost use Rattle.ad_turns.specs.Turns.{AreRising};
ghost use Rattle.ad_turns.specs.Steps.{after_draw, after_note, staged, turns_of_view, Has, IsServed};
ghost use Rattle.ad_turns.specs.Private.Handles.{held_by, left_of, worker_of, IsAt, IsDoing};

use crate::boxed::BoxedBook;
use crate::table::{Draw, Look, Note, Noted, Opened, Pass, Seat, TurnTable};
use crate::words::BOOKS;
use ad_base::Book;
use crossbeam_utils::Backoff;
use std::marker::Brand;
use std::sync::Wait;

/// Draws a ticket of the module, and answers its number.
pub(crate) fn draw(table: &TurnTable, seat: &mut Seat, module: u64) -> u64
    requires at { IsAt table.now.shared.table_id seat.old.table_id }
    requires rests { IsDoing seat.old.me Rests [] }
    requires left { 0 < slice_index (left_of seat.old.me.0) «module» }
    requires of_module { «module» < BOOKS }
    ensures at { seat.new.table_id ≡ seat.old.table_id }
    ensures view { seat.new.me ≡ (after_draw «module» seat.old.me.0 result, []) }
{
    table.shared.fetch_add::<Draw>(seat, 1 + module as usize, 1)
}

/// Looks whether the ticket is served. If it is, the seat has the module's slot.
pub(crate) fn look<N: Opened>(table: &TurnTable, seat: &mut Seat, module: u64, ticket: u64) -> bool
    requires openings { N.openings ≡ table.now.shared.key.books.value.items }
    requires at { IsAt table.now.shared.table_id seat.old.table_id }
    requires waits { IsDoing seat.old.me (Waits «module» ticket) [] }
    requires of_module { «module» < BOOKS }
    ensures at { seat.new.table_id ≡ seat.old.table_id }
    ensures told { MatchBool result (Has table.now.shared.key.books.value.items seat.old.me seat.new.me) (seat.new.me ≡ seat.old.me) }
{
    let serving = table
        .shared
        .load::<Look<N>>(seat, 1 + BOOKS + module as usize);
    serving == ticket
}

/// Looks until the ticket is served, and pauses between two looks.
pub(crate) fn await_turn<R: Wait>(
    rt: &R,
    table: &TurnTable,
    seat: &mut Seat,
    module: u64,
    ticket: u64,
)
    requires at { IsAt table.now.shared.table_id seat.old.table_id }
    requires waits { IsDoing seat.old.me (Waits «module» ticket) [] }
    requires of_module { «module» < BOOKS }
    ensures at { seat.new.table_id ≡ seat.old.table_id }
    ensures has { Has table.now.shared.key.books.value.items seat.old.me seat.new.me }
{
    let backoff = Backoff::new();
    for _ in rt.forever() {
        if look::<Brand>(table, seat, module, ticket) {
            return;
        }
        backoff.snooze();
    }
    unreachable!()
}

/// Takes the book out of the slot that the seat has.
pub(crate) fn take_out(table: &TurnTable, seat: &mut Seat, module: u64) -> BoxedBook
    requires at { IsAt table.now.shared.table_id seat.old.table_id }
    requires slot { seat.old.me.1 ≡ («module», Some (held_by seat.old.me.0)) ∷ [] }
    ensures at { seat.new.table_id ≡ seat.old.table_id }
    ensures view { seat.new.me ≡ (seat.old.me.0, («module», None) ∷ []) }
    ensures book { result ≡ held_by seat.old.me.0 }
{
    let found = table.shared.exchange(seat, module as usize, None);
    found.unwrap()
}

/// Notes the turn, which leaves this book.
pub(crate) fn note<N: Noted>(
    table: &TurnTable,
    seat: &mut Seat,
    module: u64,
    number: u64,
    book: &Book,
)
    requires noted { book.now ≡ N.after }
    requires at { IsAt table.now.shared.table_id seat.old.table_id }
    requires holds { IsDoing seat.old.me (Holds «module» number (held_by seat.old.me.0)) ((«module», None) ∷ []) }
    requires of_module { «module» < BOOKS }
    requires may { MayGive (worker_of seat.old.me.0) (held_by seat.old.me.0) book.now }
    ensures at { seat.new.table_id ≡ seat.old.table_id }
    ensures view { seat.new.me ≡ (after_note book.now seat.old.me.0, seat.old.me.1) }
    ensures rising { AreRising (turns_of_view seat.new.me.0) }
{
    table
        .shared
        .load::<Note<N>>(seat, 1 + BOOKS + module as usize);
}

/// Puts the book back into the slot that the seat has.
pub(crate) fn put_back(table: &TurnTable, seat: &mut Seat, module: u64, book: BoxedBook)
    requires at { IsAt table.now.shared.table_id seat.old.table_id }
    requires slot { seat.old.me.1 ≡ («module», None) ∷ [] }
    ensures at { seat.new.table_id ≡ seat.old.table_id }
    ensures view { seat.new.me ≡ (seat.old.me.0, («module», Some book) ∷ []) }
{
    table.shared.exchange(seat, module as usize, Some(book));
}

/// Passes the module on: the next ticket is served.
pub(crate) fn pass(table: &TurnTable, seat: &mut Seat, module: u64, number: u64)
    requires at { IsAt table.now.shared.table_id seat.old.table_id }
    requires gives { IsDoing seat.old.me (Gives «module» number (held_by seat.old.me.0)) ((«module», Some (held_by seat.old.me.0)) ∷ []) }
    requires of_module { «module» < BOOKS }
    ensures at { seat.new.table_id ≡ seat.old.table_id }
    ensures view { seat.new.me ≡ (staged Rests seat.old.me.0, []) }
{
    table
        .shared
        .fetch_add::<Pass>(seat, 1 + BOOKS + module as usize, 1);
}
