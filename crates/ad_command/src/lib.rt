//! The command: from its words over the files that it reads to what is written.
#![tactic(auto)]

ghost use Rattle.std.specs.Prelude.{◌≡◌, Option, Result, map, string_bytes};
ghost use Rattle.std.specs.Process.{exit_status};
ghost use Rattle.ad_base.specs.Outside.{Outside};
ghost use Rattle.ad_command.specs.Chain.{Serves};
ghost use Rattle.ad_command.specs.Command.{Work, command};
ghost use Rattle.ad_command.specs.Served.{IsFaultOf};
ghost use Rattle.ad_command.specs.Trouble.{status_of};
ghost use Rattle.ad_command.specs.declared.trouble.Trouble.{Trouble};

mod beside;
mod laws;
mod load;
mod serve;
#[cfg(test)]
mod tests;
mod trouble;

use ad_base::{DiskFiles, NoGate, OutSink};
pub use laws::{
    law_first_refusal, law_one_answer, law_right_commands_are_done, law_some_answer,
    law_worked_chains,
};
pub use serve::{Ended, begins_with_run, top, top_run, top_still};
use std::process::ExitCode;
use std::rt::Env;
use std::sync::Wait;
use std::thread::Threads;
use std::{env, io};
pub use trouble::{Trouble, exit_status, unread_words};

/// Serves the words of the process over the files of the system and standard output, and gives the status that the
/// process ends with. A fault is told on standard error. What the words come to is said by `run_words`.
pub fn run_process<R: Env + AllocGlobal + std::rt::Files + Print + Eprint + Threads + Wait + Sync>(
    rt: &R,
) -> ExitCode
    ensures { (fault : Option Trouble) × (exit_status result ≡ status_of fault) }
{
    let fault = match arguments(rt) {
        Ok(words) => run_words(rt, words.as_slice()),
        Err(trouble) => Some(trouble),
    };
    if let Some(trouble) = &fault {
        // Where even this can't be written, the status still tells.
        let _ = eprintln!(rt; "{trouble}");
    }
    ExitCode::from(exit_status(&fault))
}

/// Serves command words over the files of the system and standard output: what `top` does there, with no one
/// held up. Nothing is told of what those hold.
pub fn run_words<R: AllocGlobal + std::rt::Files + Print + Threads + Wait + Sync>(
    rt: &R,
    words: &[String],
) -> Option<Trouble>
    ensures { (old new : Outside) × (end : Result Work Trouble)
        × Serves old new (command (map string_bytes words.now)) end × IsFaultOf result end }
{
    let mut files = DiskFiles::new(rt);
    let mut out = OutSink::new(io::writer(rt));
    top(rt, words, &mut files, &mut out, &NoGate).fault
}

/// The words after the program's name.
fn arguments<R: Env + AllocGlobal>(rt: &R) -> Result<Vec<String>, Trouble> {
    let mut args = env::args(rt).map_err(|error| unread_words(error.kind()))?;
    let _program = args.next();
    args.collect(rt.alloc()).map_err(|_| Trouble::Memory)
}
