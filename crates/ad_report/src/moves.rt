//! The lines of moves and of fresh stacks.

ghost use Rattle.std.specs.Prelude.{◌≡◌, ◌++◌, OnOk, count_by};
ghost use Rattle.std.specs.List.{flat_map};
ghost use Rattle.ad_base.specs.Ledger.{is_made};
ghost use Rattle.ad_report.specs.Report.{move_line, moved_text, moves_at, stack_line, AreMovesInOrder};

use crate::line::at_line;
use crate::printing::print;
use crate::script::module_name;
use ad_base::{MoveEnd, Moved, OutOfMemory};
use ad_script::Script;

/// Appends a line for each module that a line of the script was to move.
pub fn move_lines(
    text: &mut Vec<u8>,
    script: &Script,
    moves: &[Moved],
    line: u64,
) -> Result<(), OutOfMemory>
    requires { AreMovesInOrder moves.now }
    ensures { OnOk result (text.new.items ≡ text.old.items
        ++ flat_map (move_line script.now) (moves_at moves.now line)) }
{
    for moved in at_line(moves, line) {
        move_line(text, script, moved)?;
    }
    Ok(())
}

/// Appends the line of a module that was to be moved.
#[tactic(auto, unfolding(crate::specs::Report::move_line))]
fn move_line(text: &mut Vec<u8>, script: &Script, moved: &Moved) -> Result<(), OutOfMemory>
    ensures { OnOk result (text.new.items ≡ text.old.items ++ move_line script.now moved.now) }
{
    let line = moved.line;
    print(text, format_args!("move {line} "))?;
    text.extend_from_slice(module_name(script, moved.who))?;
    text.extend_from_slice(b": ")?;
    moved_text(text, moved.end)?;
    text.extend_from_slice(b"\n")?;
    Ok(())
}

/// Appends a line for each stack that a line of the script was to change.
pub fn stack_lines(text: &mut Vec<u8>, moves: &[Moved], line: u64) -> Result<(), OutOfMemory>
    requires { AreMovesInOrder moves.now }
    ensures { OnOk result (text.new.items ≡ text.old.items
        ++ flat_map stack_line (moves_at moves.now line)) }
{
    for moved in at_line(moves, line) {
        stack_line(text, moved)?;
    }
    Ok(())
}

/// Appends the line of a worker whose stack was to be changed.
#[tactic(auto, unfolding(crate::specs::Report::stack_line))]
fn stack_line(text: &mut Vec<u8>, moved: &Moved) -> Result<(), OutOfMemory>
    ensures { OnOk result (text.new.items ≡ text.old.items ++ stack_line moved.now) }
{
    let line = moved.line;
    let worker = moved.who;
    print(text, format_args!("stack {line} w{worker}: "))?;
    moved_text(text, moved.end)?;
    text.extend_from_slice(b"\n")?;
    Ok(())
}

/// Appends what came of a move.
fn moved_text(text: &mut Vec<u8>, end: MoveEnd) -> Result<(), OutOfMemory>
    ensures { OnOk result (text.new.items ≡ text.old.items ++ moved_text end) }
{
    match end {
        MoveEnd::Made(place) => {
            let mapping = place.mapping;
            print(text, format_args!("mapping {mapping}"))
        }
        MoveEnd::Busy(owner) => print(text, format_args!("busy owner {owner}")),
        MoveEnd::Spent => print(text, format_args!("spent")),
    }
}

/// How many of the moves made a mapping.
pub fn made(moves: &[Moved]) -> u64
    ensures { result ≡ count_by is_made moves.now }
{
    moves
        .iter()
        .filter(|moved| matches!(moved.end, MoveEnd::Made(_)))
        .count() as u64
}
