//! What no clause says: worked examples, each call once with ample memory, and threads beside one another.
//! The expected entries are those that the workers appended, written by hand.

ghost use Rattle.std.specs.Prelude.{◌≡◌, ◌-◌, ◌<◌, ◌≤◌, [], ◌∷◌, length, slice_index, slice_set, All, IfOk};
ghost use Rattle.std.specs.Thread.{IsSync};
ghost use Rattle.ad_base.specs.declared.book.Book.{Book};
ghost use Rattle.ad_turns.specs.Seen.{AreAll};

use crate::{Counts, TurnSeat, Turns};
use ad_base::{
    Args, Book, Device, End, Entry, History, Notes, OutOfMemory, Place, Sequence, zero_words,
};
use std::alloc::{AllocError, Global};
use std::process::Abort;
use std::sync::Wait;
use std::test::Fail;
use std::thread;
use std::thread::Threads;

/// A place, which no test looks at.
const PLACE: Place = Place {
    region: 2,
    start: 1,
    pages: 1,
    mapping: 1,
    frame: 0,
};

/// An entry of this worker, in this line.
fn entry(worker: u64, line: u64) -> Entry
    ensures { result.worker ≡ worker }
{
    Entry {
        line,
        worker,
        export: 0,
        args: Args::new(),
        under: PLACE,
        stack: PLACE,
        notes: Notes::new(),
        end: End::Returned(0),
    }
}

/// A book without data, with room for so many entries.
fn empty_book(alloc: Global, room: u64) -> Result<Book, OutOfMemory>
    ensures empty { IfOk result (λ book. book.history.entries ≡ []) }
    ensures room { IfOk result (λ book. book.history.room ≡ room) }
{
    Ok(Book {
        writable: Sequence::of(Vec::new(alloc)),
        fixed: Sequence::of(Vec::new(alloc)),
        device: Device::new(),
        history: History::with_room(alloc, room)?,
    })
}

/// A list of draws for each of so many workers, each of whom may make these.
fn equal_calls(alloc: Global, workers: u64, numbers: &[u64]) -> Result<Vec<Counts>, OutOfMemory>
    ensures count { IfOk result (λ calls. length calls.items ≡ workers) }
    ensures each { IfOk result (λ calls. All (λ left. left ≡ numbers.now) calls.items) }
{
    let mut calls = Vec::new(alloc);
    for _worker in 0..workers {
        calls.push(Counts::of(alloc, numbers)?)?;
    }
    Ok(calls)
}

/// So many books, each with room for so many entries.
fn empty_books(alloc: Global, count: usize, room: u64) -> Result<Vec<Book>, OutOfMemory>
    ensures count { IfOk result (λ books. length books.items ≡ count) }
    ensures empty { IfOk result (λ books. All (λ (b : Book). b.history.entries ≡ []) books.items) }
    ensures room { IfOk result (λ books. All (λ (b : Book). b.history.room ≡ room) books.items) }
{
    let mut books = Vec::new(alloc);
    for _module in 0..count {
        books.push(empty_book(alloc, room)?)?;
    }
    Ok(books)
}

/// A table of so many workers, each of whom may draw so often of each module, and at most `most` times of one.
fn open_equal(
    alloc: Global,
    workers: u64,
    numbers: &[u64],
    most: u64,
) -> Result<(Turns, Vec<TurnSeat>), OutOfMemory>
    requires from { 1 ≤ workers }
    requires to { workers ≤ 64 }
    requires modules { length numbers.now ≤ 8 }
    requires most { most ≤ 1000000 }
    requires numbers { All (λ n. n ≤ most) numbers.now }
    ensures workers { IfOk result (λ opened. length opened.0.calls ≡ workers) }
    ensures modules { IfOk result (λ opened. length opened.0.openings ≡ length numbers.now) }
    ensures seats { IfOk result (λ opened. AreAll opened.0.table workers opened.1.items) }
    ensures left { IfOk result (λ opened. All (λ s. s.left ≡ numbers.now) opened.1.items) }
{
    let calls = equal_calls(alloc, workers, numbers)?;
    let books = empty_books(alloc, numbers.len(), workers * most)?;
    Turns::open(alloc, books, calls.as_slice())
}

/// Makes a turn at the module: appends an entry in this line.
fn make_turn<R: Wait + Abort>(
    rt: &R,
    turns: &Turns,
    seat: TurnSeat,
    worker: u64,
    module: u64,
    line: u64,
) -> TurnSeat
    requires table { seat.table ≡ turns.now.table }
    requires worker { seat.worker ≡ worker }
    requires left { 0 < slice_index seat.left «module» }
    ensures table { result.table ≡ seat.table }
    ensures worker { result.worker ≡ worker }
    ensures left { result.left ≡ slice_set seat.left «module» (slice_index seat.left «module» - 1) }
{
    let ticket = turns.draw(seat, module);
    let number = ticket.number;
    let mut held = turns.wait(rt, ticket);
    assert_eq!(rt; held.book().history.len(), number);
    held.book().history.push(entry(worker, line));
    turns.give(held)
}

/// Makes a turn, in this line, at each module of which a draw is left to the worker.
fn turn_at_each<R: Wait + Abort>(
    rt: &R,
    turns: &Turns,
    seat: TurnSeat,
    worker: u64,
    modules: u64,
    line: u64,
) -> TurnSeat
    requires table { seat.table ≡ turns.now.table }
    requires worker { seat.worker ≡ worker }
    requires wide { length seat.left ≡ modules }
    ensures table { result.table ≡ seat.table }
    ensures worker { result.worker ≡ worker }
    ensures wide { length result.left ≡ modules }
{
    let mut seat = seat;
    for module in 0..modules {
        if 0 < seat.left(module) {
            seat = make_turn(rt, turns, seat, worker, module, line);
        }
    }
    seat
}

/// The lines of a book's entries, each times 100 and with its worker.
fn lines_of(alloc: Global, book: &Book) -> Result<Vec<u64>, OutOfMemory> {
    let mut lines = Vec::new(alloc);
    for entry in book.history.as_slice() {
        lines.push(entry.line.saturating_mul(100).saturating_add(entry.worker))?;
    }
    Ok(lines)
}

/// A table of one module with two workers, each of whom may draw once, and their seats.
fn open_two(rt: &impl Abort, alloc: Global) -> Result<(Turns, TurnSeat, TurnSeat), OutOfMemory>
    ensures workers { IfOk result (λ opened. length opened.0.calls ≡ 2) }
    ensures modules { IfOk result (λ opened. length opened.0.openings ≡ 1) }
    ensures first { IfOk result (λ opened. (opened.1.table ≡ opened.0.table) × (opened.1.worker ≡ 0)) }
    ensures second { IfOk result (λ opened. (opened.2.table ≡ opened.0.table) × (opened.2.worker ≡ 1)) }
    ensures left { IfOk result (λ opened. (opened.1.left ≡ 1 ∷ []) × (opened.2.left ≡ 1 ∷ [])) }
{
    let (turns, mut seats) = open_equal(alloc, 2, &[1], 1)?;
    let second = seats.pop().expect(rt, "a seat");
    let first = seats.pop().expect(rt, "a seat");
    Ok((turns, first, second))
}

/// Closes a table of two workers.
fn close_two(
    alloc: Global,
    turns: Turns,
    first: TurnSeat,
    second: TurnSeat,
) -> Result<Vec<Book>, OutOfMemory>
    requires workers { length turns.calls ≡ 2 }
    requires first { (first.table ≡ turns.table) × (first.worker ≡ 0) }
    requires second { (second.table ≡ turns.table) × (second.worker ≡ 1) }
{
    let mut seats = Vec::new(alloc);
    seats.push(first)?;
    seats.push(second)?;
    turns.close(alloc, seats)
}

#[test]
fn two_workers_take_turns(rt: HostRuntime) -> Result<(), Fail> {
    let alloc = rt.alloc();
    let (turns, first, second) = open_two(&rt, alloc)?;
    let ticket = turns.draw(second, 0);
    let later = turns.draw(first, 0);
    assert_eq!(rt; [ticket.number, later.number], [0, 1]);
    let mut held = turns.wait(&rt, ticket);
    assert_eq!(rt; held.book().history.len(), 0);
    held.book().history.push(entry(1, 7));
    let second = turns.give(held);
    assert_eq!(rt; second.left(0), 0);
    let mut held = turns.wait(&rt, later);
    assert_eq!(rt; held.book().history.len(), 1);
    held.book().history.push(entry(0, 5));
    let first = turns.give(held);
    let mut books = close_two(alloc, turns, first, second)?;
    let book = books.pop().expect(&rt, "a book");
    assert!(rt; books.is_empty());
    assert_eq!(rt; lines_of(alloc, &book)?.as_slice(), [701, 500].as_slice());
    Ok(())
}

/// The number of a seat's worker.
fn worker_of(seat: &TurnSeat) -> u64
    ensures { result ≡ seat.now.worker }
{
    seat.worker
}

/// Makes all turns that a worker may make, if those of a module are at most so many: in each line one at each module
/// of which a draw is left, so that the turns at the modules alternate. The lines count up from 0.
fn all_turns<R: Wait + Abort>(
    rt: &R,
    turns: &Turns,
    seat: TurnSeat,
    modules: u64,
    most: u64,
) -> TurnSeat
    requires table { seat.table ≡ turns.now.table }
    requires wide { length seat.left ≡ modules }
    ensures table { result.table ≡ seat.table }
    ensures worker { result.worker ≡ seat.worker }
{
    let worker = worker_of(&seat);
    let mut seat = seat;
    for line in 0..most {
        seat = turn_at_each(rt, turns, seat, worker, modules, line);
    }
    seat
}

/// Makes all turns of all workers, each of whom may make so many at each module and at most `most` at one, in a thread
/// for each worker. Gives the books of the closed table.
fn beside_one_another<R: Threads + Wait + Abort + Sync>(
    rt: &R,
    alloc: Global,
    workers: u64,
    numbers: &[u64],
    most: u64,
) -> Result<Vec<Book>, OutOfMemory>
    requires from { 1 ≤ workers }
    requires to { workers ≤ 64 }
    requires modules { length numbers.now ≤ 8 }
    requires most { most ≤ 1000000 }
    requires numbers { All (λ n. n ≤ most) numbers.now }
    ensures { IfOk result (λ books. length books.items ≡ length numbers.now) }
{
    let (turns, seats) = open_equal(alloc, workers, numbers, most)?;
    let seats = all_threads(rt, &turns, seats, numbers, most)?;
    turns.close(alloc, seats)
}

/// Makes all turns of these seats, in a thread for each of them.
fn all_threads<R: Threads + Wait + Abort + Sync>(
    rt: &R,
    turns: &Turns,
    seats: Vec<TurnSeat>,
    numbers: &[u64],
    most: u64,
) -> Result<Vec<TurnSeat>, AllocError>
    requires seats { AreAll turns.now.table (length seats.items) seats.items }
    requires left { All (λ s. s.left ≡ numbers.now) seats.items }
    ensures { IfOk result (λ after. AreAll turns.now.table (length seats.items) after.items) }
{
    thread::map_vec(
        rt,
        seats,
        &|seat: TurnSeat| -> TurnSeat
            requires table { seat.table ≡ turns.now.table }
            requires left { seat.left ≡ numbers.now }
            ensures table { result.table ≡ seat.table }
            ensures worker { result.worker ≡ seat.worker }
        { all_turns(rt, turns, seat, numbers.len() as u64, most) },
    )
}

/// For each worker, how many of its entries follow one another in lines that count up from 0.
fn counts_in_order(alloc: Global, lines: &[u64], workers: usize) -> Result<Vec<u64>, OutOfMemory> {
    let mut next = zero_words(alloc, workers)?;
    for line in lines {
        let worker = (*line % 100) as usize;
        if worker < next.len() && next[worker] == *line / 100 {
            next[worker] += 1;
        }
    }
    Ok(next)
}

/// Tests that a book has so many entries of each of so many workers, each worker's in order, and no others.
fn has_all(alloc: Global, book: &Book, workers: usize, number: u64) -> Result<bool, OutOfMemory> {
    let lines = lines_of(alloc, book)?;
    let counts = counts_in_order(alloc, lines.as_slice(), workers)?;
    let all = workers.saturating_mul(number as usize);
    Ok(lines.len() == all && counts.iter().all(|count| *count == number))
}

/// The workers, and how often each draws of each module.
const RUNS: [(u64, [u64; 8]); 2] = [
    (8, [200, 200, 0, 0, 0, 0, 0, 0]),
    (64, [3, 3, 3, 3, 0, 3, 3, 3]),
];

/// A stress run is no proof: it shows that threads run beside one another, and what they leave. It would wait
/// without end if a turn weren't passed on, and each test has 60 seconds.
#[test]
fn threads_leave_each_turn_once(rt: HostRuntime) -> Result<(), Fail> {
    let alloc = rt.alloc();
    for (workers, numbers) in RUNS {
        assert!(rt; 1 <= workers && workers <= 64 && numbers.iter().all(|number| *number <= 1_000));
        let books = beside_one_another(&rt, alloc, workers, numbers.as_slice(), 1_000)?;
        assert_eq!(rt; books.len(), 8);
        for (number, book) in numbers.iter().zip(books.iter()) {
            assert!(rt; has_all(alloc, book, workers as usize, *number)?);
        }
    }
    Ok(())
}
