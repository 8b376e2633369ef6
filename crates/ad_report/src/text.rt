//! The whole text that is printed of a run.

ghost use Rattle.std.specs.Prelude.{◌≡◌, ◌++◌, [], OnOk, IfOk, length, map, slice_get, sum_by};
ghost use Rattle.std.specs.List.{flat_map};
ghost use Rattle.std.specs.Option.{option_map_or};
ghost use Rattle.ad_base.specs.Book.{contents_of};
ghost use Rattle.ad_report.specs.Report.{end_line, history_of, report, step_text, AreMovesInOrder};
ghost use Rattle.ad_report.specs.Private.Index.{AreIndices};

use crate::calls::call_lines;
use crate::index::{CallAt, indices};
use crate::mappings::map_lines;
use crate::moves::{made, move_lines, stack_lines};
use crate::printing::print;
use crate::script::module_name;
use ad_base::{Book, Entry, Moved, OutOfMemory, Row};
use ad_script::{Script, Step};
use std::alloc::Global;

/// The report of a script, of the books of its modules in order of number, of what came of its moves,
/// and of the ledger.
pub fn report(
    alloc: Global,
    script: &Script,
    books: &[Book],
    moves: &[Moved],
    rows: &[Row],
) -> Result<Vec<u8>, OutOfMemory>
    requires { AreMovesInOrder moves.now }
    ensures { IfOk result (λ text. text.items
        ≡ report script.now (map contents_of books.now) moves.now rows.now) }
{
    let indices = indices(alloc, books)?;
    let mut text = Vec::new(alloc);
    step_lines(&mut text, script, books, &indices, moves)?;
    map_lines(&mut text, script, rows)?;
    end_line(&mut text, calls(books), made(moves), rows.len() as u64)?;
    Ok(text)
}

/// Appends the lines of the steps.
fn step_lines(
    text: &mut Vec<u8>,
    script: &Script,
    books: &[Book],
    indices: &[Vec<CallAt>],
    moves: &[Moved],
) -> Result<(), OutOfMemory>
    requires indices { AreIndices (map contents_of books.now) (map (λ v. v.items) indices.now) }
    requires moves { AreMovesInOrder moves.now }
    ensures { OnOk result (text.new.items ≡ text.old.items
        ++ flat_map (step_text script.now (map contents_of books.now) moves.now) script.now.steps) }
{
    for step in script.steps.as_slice() {
        step_text(text, script, books, indices, moves, step)?;
    }
    Ok(())
}

/// Appends the lines of a step.
fn step_text(
    text: &mut Vec<u8>,
    script: &Script,
    books: &[Book],
    indices: &[Vec<CallAt>],
    moves: &[Moved],
    step: &Step,
) -> Result<(), OutOfMemory>
    requires indices { AreIndices (map contents_of books.now) (map (λ v. v.items) indices.now) }
    requires moves { AreMovesInOrder moves.now }
    ensures { OnOk result (text.new.items ≡ text.old.items
        ++ step_text script.now (map contents_of books.now) moves.now step.now) }
{
    match step {
        Step::Call {
            line,
            module,
            export,
            ..
        } => {
            let name = module_name(script, *module);
            let history = history(books, *module);
            let calls = calls_of(indices, *module);
            call_lines(text, name, export.bytes(), history, calls, *line)
        }
        Step::Move { line, .. } => move_lines(text, script, moves, *line),
        Step::Stack { line, .. } => stack_lines(text, moves, *line),
    }
}

/// The history of the module of this number, and no call where none has it.
fn history(books: &[Book], number: u64) -> &[Entry]
    ensures { result.now ≡ history_of (map contents_of books.now) number }
{
    match books.get(number as usize) {
        Some(book) => book.history.as_slice(),
        None => &[],
    }
}

/// The calls of the module of this number in order of their lines, and no call where none has it.
fn calls_of(indices: &[Vec<CallAt>], number: u64) -> &[CallAt]
    ensures { result.now ≡ option_map_or (λ v. v.items) (slice_get indices.now number) [] }
{
    match indices.get(number as usize) {
        Some(calls) => calls.as_slice(),
        None => &[],
    }
}

/// How many calls the books have.
pub fn calls(books: &[Book]) -> u128
    ensures { result ≡ sum_by (λ b. length b.entries) (map contents_of books.now) }
{
    let mut calls = 0;
    for book in books {
        calls += u128::from(book.history.len());
    }
    calls
}

/// Appends the last line.
fn end_line(text: &mut Vec<u8>, calls: u128, moves: u64, mappings: u64) -> Result<(), OutOfMemory>
    ensures { OnOk result (text.new.items ≡ text.old.items ++ end_line calls moves mappings) }
{
    print(
        text,
        format_args!("end calls {calls} moves {moves} mappings {mappings}\n"),
    )
}
