//! The turn table is opened.

ghost use Rattle.std.specs.Prelude.{◌≡◌, ℕ, ◌+◌, ◌^◌, ◌<◌, ◌≤◌, [], ◌∷◌, length, map, slice_get, All, IfOk, IfSome, IsTrue, OnOk, Some};
ghost use Rattle.ad_base.specs.declared.book.Book.{Book};
ghost use Rattle.ad_base.specs.declared.layout.TheConstants.{MODULES, WORKERS};
ghost use Rattle.ad_turns.specs.declared.view.Doing.TheVariants.{Dealer};
ghost use Rattle.ad_turns.specs.Turns.{draws_of};
ghost use Rattle.ad_turns.specs.Seen.{AreNew};
ghost use Rattle.ad_turns.specs.Private.Handles.{some_book, IsAt};

use crate::boxed::BoxedBook;
use crate::counts::Counts;
use crate::table::{Deal, Opening, Seat, TurnTable};
use crate::turns::{TurnSeat, Turns};
use crate::words::WORDS;
use ad_base::{Book, OutOfMemory, zero_words};
use std::alloc::Global;
use std::snapshot::Snapshot;

impl Turns {
    /// Opens the table with a book for each module, and gives one seat for each list of draws, in order: that of a
    /// worker who may draw as often. There are 1 to 64 workers and at most 8 modules. Each list has a number for
    /// each module. Each book has no entries, and room for all draws of its module together. The one error is want
    /// of memory: then the books are given up.
    pub fn open(
        alloc: Global,
        books: Vec<Book>,
        calls: &[Counts],
    ) -> Result<(Turns, Vec<TurnSeat>), OutOfMemory>
        requires workers_from { 1 ≤ length calls.now }
        requires workers_to { length calls.now ≤ WORKERS }
        requires modules { length books.items ≤ MODULES }
        requires wide { All (λ left. length left ≡ length books.items) calls.now }
        requires empty { All (λ (b : Book). b.history.entries ≡ []) books.items }
        requires room { (m : ℕ) → IfSome (slice_get books.items m) (λ b. draws_of calls.now m ≤ b.history.room) }
        ensures openings { IfOk result (λ opened. opened.0.openings ≡ books.items) }
        ensures calls { IfOk result (λ opened. opened.0.calls ≡ calls.now) }
        ensures seats { IfOk result (λ opened. AreNew opened.0.table calls.now opened.1.items) }
    {
        if !do_fit(calls, books.len()) {
            // No history has room for so many draws.
            return Err(OutOfMemory);
        }
        let words = zero_words(alloc, WORDS)?;
        let left = copied(alloc, calls)?;
        let opening = Opening {
            books: Snapshot::of(&books),
            calls: Snapshot::of(&left),
        };
        let slots = slots_of(alloc, books)?;
        let Ok((table, mut dealer)) = TurnTable::new(alloc, words.as_slice(), slots, &opening)
        else {
            return Err(OutOfMemory);
        };
        let seats = deal(alloc, &table, &mut dealer, left)?;
        Ok((Turns { table }, seats))
    }
}

/// The draws again.
fn copied(alloc: Global, calls: &[Counts]) -> Result<Vec<Counts>, OutOfMemory>
    ensures { IfOk result (λ copy. copy.items ≡ calls.now) }
{
    let mut copy = Vec::with_capacity(alloc, calls.len())?;
    for left in calls {
        copy.push(left.copy(alloc)?)?;
    }
    Ok(copy)
}

/// The sum of the draws of a module, or `None` where that isn't below 2^64.
fn draws(calls: &[Counts], module: usize) -> Option<u64>
    requires { All (λ left. «module» < length left) calls.now }
    ensures { IfSome result (λ sum. sum ≡ draws_of calls.now «module») }
{
    let mut sum = 0u64;
    for left in calls {
        sum = sum.checked_add(left.get(module as u64))?;
    }
    Some(sum)
}

/// Tests whether the sums of the draws of all modules are below 2^64.
fn do_fit(calls: &[Counts], modules: usize) -> bool
    requires { All (λ left. length left ≡ modules) calls.now }
    ensures { IsTrue result → (m : ℕ) → m < modules → draws_of calls.now m < 2 ^ 64 }
{
    for module in 0..modules {
        if draws(calls, module).is_none() {
            return false;
        }
    }
    true
}

/// A slot for each book, with the book in it, in memory of its own.
fn slots_of(alloc: Global, books: Vec<Book>) -> Result<Vec<Option<BoxedBook>>, OutOfMemory>
    ensures { IfOk result (λ slots. slots.items ≡ map some_book books.items) }
{
    let mut slots = Vec::with_capacity(alloc, books.len())?;
    for book in books {
        slots.push(Some(BoxedBook::new(alloc, book)?))?;
    }
    Ok(slots)
}

/// Splits off a seat for each of the workers.
fn deal(
    alloc: Global,
    table: &TurnTable,
    dealer: &mut Seat,
    calls: Vec<Counts>,
) -> Result<Vec<TurnSeat>, OutOfMemory>
    requires at { IsAt table.now.shared.table_id dealer.old.table_id }
    requires calls { calls.items ≡ table.now.shared.key.calls.value.items }
    requires wide { All (λ left. length left ≤ MODULES) calls.items }
    requires none { dealer.old.me ≡ (Dealer 0 calls.items, []) }
    ensures { IfOk result (λ seats. AreNew table.now.shared.table_id calls.items seats.items) }
{
    let mut seats = Vec::with_capacity(alloc, calls.len())?;
    let mut worker = 0u64;
    for left in calls {
        let seat = table.shared.split_seat::<Deal>(dealer);
        seats.push(TurnSeat { seat, worker, left })?;
        worker += 1;
    }
    Ok(seats)
}
