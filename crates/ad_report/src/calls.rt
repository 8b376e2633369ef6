//! The lines of calls.

ghost use Rattle.std.specs.Prelude.{◌≡◌, ◌++◌, OnOk};
ghost use Rattle.std.specs.List.{flat_map};
ghost use Rattle.ad_report.specs.Report.{call_line, calls_at, notes_text};
ghost use Rattle.ad_report.specs.Private.Index.{IsIndex};

use crate::index::CallAt;
use crate::line::at_line;
use crate::printing::print;
use ad_base::{Entry, Notes, OutOfMemory};

/// Appends a line for each call of a history that a line of the script made. The calls are those of the
/// history in order of their lines.
pub fn call_lines(
    text: &mut Vec<u8>,
    name: &[u8],
    export: &[u8],
    history: &[Entry],
    calls: &[CallAt],
    line: u64,
) -> Result<(), OutOfMemory>
    requires { IsIndex history.now calls.now }
    ensures { OnOk result (text.new.items ≡ text.old.items
        ++ flat_map (λ p. call_line name.now export.now p.0 p.1) (calls_at history.now line)) }
{
    for call in at_line(calls, line) {
        let position = call.position;
        call_line(text, name, export, position as u64, &history[position])?;
    }
    Ok(())
}

/// Appends the line of a call.
#[tactic(auto, unfolding(crate::specs::Report::call_line))]
fn call_line(
    text: &mut Vec<u8>,
    name: &[u8],
    export: &[u8],
    position: u64,
    call: &Entry,
) -> Result<(), OutOfMemory>
    ensures { OnOk result (text.new.items ≡ text.old.items ++ call_line name.now export.now position call.now) }
{
    let line = call.line;
    let worker = call.worker;
    let mapping = call.under.mapping;
    let end = call.end;
    print(text, format_args!("call {line} w{worker} "))?;
    text.extend_from_slice(name)?;
    text.extend_from_slice(b".")?;
    text.extend_from_slice(export)?;
    print(text, format_args!(" at {position} under {mapping}: {end}"))?;
    notes(text, &call.notes)?;
    text.extend_from_slice(b"\n")?;
    Ok(())
}

/// Appends the notes of a call, and nothing where there are none. It fails for want of memory alone.
pub fn notes(text: &mut Vec<u8>, notes: &Notes) -> Result<(), OutOfMemory>
    ensures { OnOk result (text.new.items ≡ text.old.items ++ notes_text notes.now) }
{
    let notes = notes.as_slice();
    if notes.is_empty() {
        return Ok(());
    }
    text.extend_from_slice(b" notes")?;
    for note in notes {
        let note = *note;
        print(text, format_args!(" {note}"))?;
    }
    Ok(())
}
