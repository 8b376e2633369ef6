//! The command `run`: the calls of a script in threads beside its moves.

ghost use Rattle.std.specs.Prelude.{◌≡◌, length, map, string_bytes, true, Result, IfOk, IfErr};
ghost use Rattle.ad_command.specs.Chain.{Serves};
ghost use Rattle.ad_command.specs.Command.{Beside, Job, Work, begins_with_run, command, job_in};
ghost use Rattle.ad_command.specs.Ending.{IsDone};
ghost use Rattle.ad_command.specs.Private.Asked.{AreSizes, IsJobMade, IsMade, IsUnready};
ghost use Rattle.ad_lines.specs.Opening.{opening_drawn, AreLoaded};
ghost use Rattle.ad_script.specs.Range.{IsInRange};

use crate::load::{Loaded, Origin, Source, load_images, script_from};
use crate::serve::{Prepared, ready};
use crate::trouble::Trouble;
use ad_base::{Files, Gate};
use ad_report::report;
use ad_run::{Sizes, run_lines};
use ad_script::Script;
use ad_words::{Command, law_in_range, read_words};
use std::alloc::Global;
use std::sync::Wait;
use std::thread::Threads;

/// Serves the chain of the words of `run`, runs its script, and makes the report.
pub fn prepare_beside<R: Threads + Wait + Sync, F: Files, G: Gate + Sync>(
    rt: &R,
    alloc: Global,
    words: &[String],
    files: &mut F,
    gate: &G,
) -> Result<Prepared, Trouble>
    requires { begins_with_run (map string_bytes words.now) ≡ true }
    ensures { (end : Result Work Trouble) × Serves (F.outside files.old) (F.outside files.new) (command (map string_bytes words.now)) end × IsMade IsDone end result }
{
    law_in_range();
    let Some(command) = read_words(words) else {
        return Err(Trouble::Usage);
    };
    match command {
        Command::Run {
            script,
            seed,
            fuel,
            slots,
            frames,
        } => {
            let sizes = Sizes { slots, frames };
            serve_beside(rt, alloc, files, script, seed, fuel, sizes, gate)
        }
        Command::Seq { .. }
        | Command::Predict { .. }
        | Command::Show { .. }
        | Command::Gen { .. } => unreachable!(),
    }
}

/// Serves the chain of the job of the script in the file of this name, runs it over a mapping table of these sizes, and makes the
/// report.
fn serve_beside<R: Threads + Wait + Sync, F: Files, G: Gate + Sync>(
    rt: &R,
    alloc: Global,
    files: &mut F,
    name: &str,
    seed: u64,
    fuel: u64,
    sizes: Sizes,
    gate: &G,
) -> Result<Prepared, Trouble>
    requires sizes { AreSizes sizes }
    ensures { (end : Result Job Trouble) × Serves (F.outside files.old) (F.outside files.new) (job_in name.now seed fuel) end
        × IsMade (λ job. IsDone (Beside sizes.slots sizes.frames job)) end result }
{
    let script = script_from(alloc, files, Origin::File(name))?;
    let loaded = load_images(alloc, files, Source::Files, &script, seed)?;
    beside_job(rt, alloc, &script, loaded, fuel, sizes, gate)
}

/// Runs a script over a mapping table of these sizes, if each call finds its export, and makes the report.
fn beside_job<R: Threads + Wait + Sync, G: Gate + Sync>(
    rt: &R,
    alloc: Global,
    script: &Script,
    loaded: Loaded,
    fuel: u64,
    sizes: Sizes,
    gate: &G,
) -> Result<Prepared, Trouble>
    requires range { IsInRange script.now }
    requires drawn { loaded.placer ≡ opening_drawn loaded.placer.seed script.now.workers loaded.images.items }
    requires loaded { AreLoaded loaded.placer.seed script.now.workers loaded.images.items }
    requires each { length script.now.loads ≡ length loaded.images.items }
    requires sizes { AreSizes sizes }
    ensures done { IfOk result (IsJobMade (Beside sizes.slots sizes.frames) loaded.placer.seed fuel script.now loaded.images.items) }
    ensures fault { IfErr result (IsUnready script.now loaded.images.items) }
{
    let steps = ready(alloc, &loaded.images, script)?;
    let Loaded { images, placer } = loaded;
    let lines = script.steps.as_slice();
    let workers = script.workers;
    let ran = run_lines(
        rt, alloc, images, workers, placer, lines, &steps, fuel, sizes, gate,
    )?;
    let text = report(alloc, script, &ran.books, &ran.moves, &ran.rows)?;
    Ok(Prepared {
        books: ran.books,
        moves: ran.moves,
        ledger: ran.rows,
        closed: Some(ran.closed),
        text,
    })
}
