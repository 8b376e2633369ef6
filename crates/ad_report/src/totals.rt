//! The line that is printed of the run of a script that was generated.

ghost use Rattle.std.specs.Prelude.{◌≡◌, ◌%◌, ◌^◌, ◌++◌, IfOk, OnOk, map, sum_by};
ghost use Rattle.ad_base.specs.Book.{contents_of};
ghost use Rattle.ad_report.specs.Summary.{returned_number, returned_sum, summary, summary_line};

use crate::moves::made;
use crate::printing::print;
use crate::text::calls;
use ad_base::{Book, End, Entry, Moved, OutOfMemory, Row};
use std::alloc::Global;

/// The line of the number that a script was generated for, of the books of its modules in order of number, of what came
/// of its moves, and of the ledger. It ends with the sum modulo 2^64 of all numbers that calls returned.
pub fn summary(
    alloc: Global,
    number: u64,
    books: &[Book],
    moves: &[Moved],
    rows: &[Row],
) -> Result<Vec<u8>, OutOfMemory>
    ensures { IfOk result (λ text. text.items ≡ summary number (map contents_of books.now) moves.now rows.now) }
{
    let sum = returned_by_all(books);
    let mut text = Vec::new(alloc);
    summary_line(
        &mut text,
        number,
        calls(books),
        made(moves),
        rows.len() as u64,
        sum,
    )?;
    Ok(text)
}

/// Appends the line.
fn summary_line(
    text: &mut Vec<u8>,
    number: u64,
    calls: u128,
    moves: u64,
    mappings: u64,
    sum: u64,
) -> Result<(), OutOfMemory>
    ensures { OnOk result (text.new.items ≡ text.old.items ++ summary_line number calls moves mappings sum) }
{
    print(text, format_args!("gen {number} calls {calls} "))?;
    print(
        text,
        format_args!("moves {moves} mappings {mappings} sum {sum}\n"),
    )?;
    Ok(())
}

/// The sum modulo 2^64 of the numbers that the calls of all books returned.
#[tactic(auto, using(crate::proofs::Wrapped::wrapped_terms))]
fn returned_by_all(books: &[Book]) -> u64
    ensures { result ≡ sum_by (λ b. returned_sum b.entries) (map contents_of books.now) % 2 ^ 64 }
{
    let mut sum = 0_u64;
    for book in books {
        sum = sum.wrapping_add(returned_by(book.history.as_slice()));
    }
    sum
}

/// The sum modulo 2^64 of the numbers that the calls of a history returned.
#[tactic(auto, using(crate::proofs::Wrapped::wrapped_sum))]
fn returned_by(history: &[Entry]) -> u64
    ensures { result ≡ returned_sum history.now % 2 ^ 64 }
{
    let mut sum = 0_u64;
    for entry in history {
        sum = sum.wrapping_add(returned_number(entry.end));
    }
    sum
}

/// The number that a call returned, and 0 where it ended in another way.
fn returned_number(end: End) -> u64
    ensures { result ≡ returned_number end }
{
    match end {
        End::Returned(number) => number,
        _ => 0,
    }
}
