//! The turns at the books: the table, its handles, and the calls that take no memory.

ghost use Rattle.std.specs.Prelude.{◌≡◌, ◌+◌, ◌-◌, ◌<◌, ◌≤◌, [], ◌∷◌, ◌++◌, length, slice_get, slice_index, slice_set, IsSomeAnd};
ghost use Rattle.ad_turns.specs.Turns.{AddsOne, AreRising, HaveLengths};
ghost use Rattle.ad_turns.specs.Seen.{turn_of};

use crate::boxed::BoxedBook;
use crate::counts::Counts;
use crate::steps;
use crate::table::{Seat, TurnTable};
use ad_base::Book;
use std::marker::{Brand, Model};
use std::sync::Wait;

/// The books of the modules, on a table of atomic words. Threads share it by a `&`. A worker draws a ticket of a
/// module, waits until it is served, has the module's book, and gives it back: then the next ticket is served.
///
/// What contracts see of it is its identity, the books that it was opened with, one for each module, and the draws
/// that each worker might make of each.
#[derive(Drop)]
pub struct Turns {
    pub(crate) table: TurnTable,
}

impl Model for Turns {
    ghost use Rattle.std.specs.Prelude.{◌≡◌};
    ghost use Rattle.ad_turns.specs.declared.words.TheConstants.{WORDS};
    ghost use Rattle.ad_turns.specs.Seen.{OpenTurns};

    ghost Value = { OpenTurns };

    ghost view = { λ t. record { table = t.table.shared.table_id; openings = t.table.shared.key.books.value.items; calls = t.table.shared.key.calls.value.items } };

    ghost invariant = { λ t. t.table.shared.table_id.words ≡ WORDS };
}

/// A worker's seat while it has no ticket.
#[derive(Drop)]
pub struct TurnSeat {
    pub(crate) seat: Seat,
    pub(crate) worker: u64,
    pub(crate) left: Counts,
}

impl Model for TurnSeat {
    ghost use Rattle.std.specs.Prelude.{[]};
    ghost use Rattle.ad_turns.specs.declared.view.Stage.TheVariants.{Rests};
    ghost use Rattle.ad_turns.specs.Private.Handles.{IsWorker};
    ghost use Rattle.ad_turns.specs.Seen.{SeatSeen};
    ghost use Rattle.ad_turns.specs.Steps.{turns_of_view};

    ghost Value = { SeatSeen };

    ghost view = { λ s. record { table = s.seat.table_id; worker = s.worker; left = s.left; turns = turns_of_view s.seat.me.0 } };

    ghost invariant = { λ s. IsWorker s.seat.me s.worker Rests s.left [] };
}

/// A ticket of a module, with the seat of the worker that drew it. It must be waited for: it can't be dropped.
pub struct Ticket {
    seat: Seat,
    worker: u64,
    left: Counts,
    module: u64,
    pub(crate) number: u64,
}

impl Model for Ticket {
    ghost use Rattle.std.specs.Prelude.{◌<◌, []};
    ghost use Rattle.ad_turns.specs.declared.view.Stage.TheVariants.{Waits};
    ghost use Rattle.ad_turns.specs.declared.words.TheConstants.{BOOKS};
    ghost use Rattle.ad_turns.specs.Private.Handles.{IsWorker};
    ghost use Rattle.ad_turns.specs.Seen.{TicketSeen};
    ghost use Rattle.ad_turns.specs.Steps.{turns_of_view};

    ghost Value = { TicketSeen };

    ghost view = { λ t. record { seat = record { table = t.seat.table_id; worker = t.worker; left = t.left; turns = turns_of_view t.seat.me.0 }; «module» = t.module; ticket = t.number } };

    ghost invariant = { λ t. IsWorker t.seat.me t.worker (Waits t.module t.number) t.left [] × (t.module < BOOKS) };
}

/// The book of a module, with the seat of the worker whose turn it is. It must be given back: it can't be dropped.
pub struct Held {
    seat: Seat,
    worker: u64,
    left: Counts,
    module: u64,
    number: u64,
    book: BoxedBook,
}

impl Model for Held {
    ghost use Rattle.std.specs.Prelude.{◌<◌, [], ◌∷◌, None};
    ghost use Rattle.ad_turns.specs.declared.view.Stage.TheVariants.{Holds};
    ghost use Rattle.ad_turns.specs.declared.words.TheConstants.{BOOKS};
    ghost use Rattle.ad_turns.specs.Private.Handles.{held_by, IsWorker};
    ghost use Rattle.ad_turns.specs.Seen.{HeldSeen};
    ghost use Rattle.ad_turns.specs.Steps.{turns_of_view};

    ghost Value = { HeldSeen };

    ghost view = { λ h. record { seat = record { table = h.seat.table_id; worker = h.worker; left = h.left; turns = turns_of_view h.seat.me.0 }; «module» = h.module; ticket = h.number; before = held_by h.seat.me.0; book = h.book } };

    ghost invariant = { λ h. IsWorker h.seat.me h.worker (Holds h.module h.number (held_by h.seat.me.0)) h.left ((h.module, None) ∷ []) × (h.module < BOOKS) };
}

impl TurnSeat {
    /// The draws of a module that are left to the worker. The module must be one of the table's.
    pub fn left(&self, module: u64) -> u64
        requires { «module» < length self.now.left }
        ensures { result ≡ slice_index self.now.left «module» }
    {
        self.left.get(module)
    }
}

impl Held {
    ghost use Rattle.std.specs.Borrow.{sem};
    ghost use Rattle.ad_turns.specs.Lending.{LendsBook};

    /// The book. What is written to it is in the book that is given back.
    pub fn book(&mut self) -> &mut Book
        ensures* writes_back { sem 𝓛 (LendsBook self.entry result) }
        ensures value { result.now ≡ self.old.book }
    {
        self.book.as_mut()
    }
}

impl Turns {
    /// Draws the next ticket of a module, of which the worker must have a draw left. That is one less then.
    pub fn draw(&self, seat: TurnSeat, module: u64) -> Ticket
        requires table { seat.table ≡ self.now.table }
        requires left { 0 < slice_index seat.left «module» }
        ensures seat { result.seat ≡ record seat { left = slice_set seat.left «module» (slice_index seat.left «module» - 1) } }
        ensures of_module { result.module ≡ «module» }
    {
        let TurnSeat {
            mut seat,
            worker,
            mut left,
        } = seat;
        let number = steps::draw(&self.table, &mut seat, module);
        left.lower(module);
        Ticket {
            seat,
            worker,
            left,
            module,
            number,
        }
    }

    /// Waits until the ticket is served. It needn't return; it returns only once all tickets before this one were
    /// served and given back, with the module's book, which has as many entries as the ticket says, room for one
    /// more, and as much data of both kinds as the module's opening book.
    pub fn wait<R: Wait>(&self, rt: &R, ticket: Ticket) -> Held
        requires table { ticket.seat.table ≡ self.now.table }
        ensures seat { result.seat ≡ ticket.seat }
        ensures of_module { result.module ≡ ticket.module }
        ensures ticket { result.ticket ≡ ticket.ticket }
        ensures untouched { result.before ≡ result.book }
        ensures entries { length result.book.history.entries ≡ ticket.ticket }
        ensures room { 0 < result.book.history.room }
        ensures lengths { IsSomeAnd (slice_get self.now.openings ticket.module) (λ opening. HaveLengths opening result.book) }
    {
        let Ticket {
            mut seat,
            worker,
            left,
            module,
            number,
        } = ticket;
        steps::await_turn(rt, &self.table, &mut seat, module, number);
        let book = steps::take_out(&self.table, &mut seat, module);
        Held {
            seat,
            worker,
            left,
            module,
            number,
            book,
        }
    }

    /// Gives the book back, and passes the module on. The turn is added to the seat's list. The book must have one
    /// entry of this worker more than when the turn began, room for at most one entry less, and as many bytes of
    /// data of both kinds.
    pub fn give(&self, held: Held) -> TurnSeat
        requires table { held.seat.table ≡ self.now.table }
        requires entry { AddsOne held.seat.worker held.before.history.entries held.book.history.entries }
        requires room { held.before.history.room ≤ held.book.history.room + 1 }
        requires lengths { HaveLengths held.before held.book }
        ensures seat { result ≡ record held.seat { turns = held.seat.turns ++ turn_of held ∷ [] } }
        ensures rising { AreRising result.turns }
    {
        let Held {
            mut seat,
            worker,
            left,
            module,
            number,
            book,
        } = held;
        steps::note::<Brand>(&self.table, &mut seat, module, number, book.as_book());
        steps::put_back(&self.table, &mut seat, module, book);
        steps::pass(&self.table, &mut seat, module, number);
        TurnSeat { seat, worker, left }
    }
}
