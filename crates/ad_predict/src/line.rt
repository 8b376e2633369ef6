//! The line of a call.

ghost use Rattle.std.specs.Prelude.{◌≡◌, ◌++◌, ◌∷◌, [], codes, OnOk};
ghost use Rattle.std.specs.Fmt.{decimal};
ghost use Rattle.ad_predict.specs.Prediction.{call_line};
ghost use Rattle.ad_predict.specs.Private.Asking.{reply_text};
ghost use Rattle.ad_symbolic.specs.Replay.{Answer};
ghost use Rattle.ad_symbolic.specs.Reply.{reply_of};

use ad_base::OutOfMemory;
use ad_report::{notes, print};
use ad_symbolic::{SymEnd, SymReply};

/// A call in a script.
#[derive(Clone, Copy)]
pub struct Called<'a> {
    /// The number of the line, counted from 1.
    pub line: u64,
    pub worker: u64,
    /// The name of the module.
    pub module: &'a [u8],
    /// The name of the export.
    pub export: &'a [u8],
}

/// Appends the line of a call that was answered so.
#[tactic(auto, unfolding(crate::specs::Prediction::call_line))]
pub fn call_line(text: &mut Vec<u8>, called: &Called, reply: &SymReply) -> Result<(), OutOfMemory>
    ensures { OnOk result ((answer : Answer) → reply.now ≡ reply_of answer
        → text.new.items ≡ text.old.items ++ call_line called.now.line called.now.worker called.now.«module».now called.now.export.now answer) }
{
    let line = called.line;
    let worker = called.worker;
    print(text, format_args!("call {line} w{worker} "))?;
    text.extend_from_slice(called.module)?;
    text.extend_from_slice(b".")?;
    text.extend_from_slice(called.export)?;
    text.extend_from_slice(b": ")?;
    end(text, reply.end)?;
    notes(text, &reply.notes)?;
    text.extend_from_slice(b"\n")?;
    Ok(())
}

/// Appends how a call ends, as far as it is said.
fn end(text: &mut Vec<u8>, end: SymEnd) -> Result<(), OutOfMemory>
    ensures { OnOk result (text.new.items ≡ text.old.items ++ reply_text end) }
{
    match end {
        SymEnd::Clear(end) => print(text, end),
        SymEnd::Unclear { reason, step } => {
            print(text, format_args!("unclear step {step} reason {reason}"))
        }
        SymEnd::Keeps => print(text, "keeps"),
        SymEnd::Lost => print(text, "lost"),
    }
}
