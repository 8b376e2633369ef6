//! The command, from its words to what is written.

ghost use Rattle.std.specs.Prelude.{◌≡◌, ◌≢◌, [], length, map, string_bytes, true, false, Some, None, Result, Ok, IfOk, IfErr};
ghost use Rattle.ad_base.specs.Book.{contents_of};
ghost use Rattle.ad_command.specs.Chain.{Serves};
ghost use Rattle.ad_command.specs.Command.{Job, Predicted, Work, begins_with_run, command, job_from, work_of};
ghost use Rattle.ad_command.specs.Ending.{IsDone, IsTextAlone};
ghost use Rattle.ad_command.specs.Private.Asked.{IsJobMade, IsMade, IsThere, IsUnready, module_from, prepared_ending, run_text, script_from, source_of, work_on, work_run};
ghost use Rattle.ad_command.specs.Served.{Leaves, Served, Writes, ending_of};
ghost use Rattle.ad_command.specs.Trouble.{status_of};
ghost use Rattle.ad_lines.specs.LineLaws.{run_of_seed};
ghost use Rattle.ad_lines.specs.Opening.{opening_drawn, AreLoaded};
ghost use Rattle.ad_lines.specs.Ready.{ready_steps};
ghost use Rattle.ad_report.specs.Report.{AreMovesInOrder};
ghost use Rattle.ad_script.specs.Range.{IsInRange};
ghost use Rattle.ad_words.specs.Words.{Show};

use crate::beside::prepare_beside;
use crate::load::{Loaded, Origin, load_images, script_from, shown_image};
use crate::trouble::{Trouble, exit_status};
use ad_base::{Book, Failed, Files, Gate, Image, Moved, OutOfMemory, Row, Sink, write_all};
use ad_lines::{Finished, LineRun, Missing, ReadyStep, ready_steps};
use ad_maps::Closed;
use ad_predict::predict;
use ad_report::{listing, report, summary};
use ad_script::Script;
use ad_words::{Command, law_in_range, read_words};
use std::alloc::Global;
use std::sync::Wait;
use std::thread::Threads;

/// What came of a command.
#[derive(Drop)]
pub struct Ended {
    /// The status that the process ends with.
    pub status: u8,
    /// Why the command did not do what was asked; `None` exactly at status 0.
    pub fault: Option<Trouble>,
    /// The books of the modules. Books, moves and ledger are empty but where lines were run, at the statuses 0 and 5.
    pub books: Vec<Book>,
    /// What came of the moves, in the order of the script.
    pub moves: Vec<Moved>,
    /// All mappings, in order of number.
    pub ledger: Vec<Row>,
    /// The mapping table of `run`, at the statuses 0 and 5.
    pub closed: Option<Closed>,
}

/// Serves the command words, by the first of them: `run` by `top_run`, and every other command by `top_still`.
///
/// The statuses are those of the faults: 1 where the words aren't of the grammar, 2 where a line of the script is refused,
/// 3 where a module isn't linked, or where a line calls an export that its module hasn't, 4 where a file couldn't be read or has
/// more than 1,048,576 bytes, 5 where the report couldn't be written, 6 where memory was wanting.
pub fn top<R: AllocGlobal + Threads + Wait + Sync, F: Files, K: Sink, G: Gate + Sync>(
    rt: &R,
    words: &[String],
    files: &mut F,
    out: &mut K,
    gate: &G,
) -> Ended
    ensures served { Served (F.outside files.old) (F.outside files.new) (K.output out.old) (K.output out.new) (map string_bytes words.now) result }

    // The sink is used for nothing but the text of what was done.
    ensures unused { (t : Trouble) → result.fault ≡ Some t → t ≢ Trouble.Write → out.new ≡ out.old }
{
    if begins_with_run(words) {
        top_run(rt, words, files, out, gate)
    } else {
        top_still(rt, words, files, out)
    }
}

/// Serves the words of `run`: the script's calls are made in threads beside its moves. It needn't return, since calls wait for
/// their turns. The allocator is that of `rt`, and the statuses are those of `top`.
pub fn top_run<R: AllocGlobal + Threads + Wait + Sync, F: Files, K: Sink, G: Gate + Sync>(
    rt: &R,
    words: &[String],
    files: &mut F,
    out: &mut K,
    gate: &G,
) -> Ended
    requires { begins_with_run (map string_bytes words.now) ≡ true }
    ensures served { Served (F.outside files.old) (F.outside files.new) (K.output out.old) (K.output out.new) (map string_bytes words.now) result }
    ensures unused { (t : Trouble) → result.fault ≡ Some t → t ≢ Trouble.Write → out.new ≡ out.old }
{
    let prepared = prepare_beside(rt, rt.alloc(), words, files, gate);
    answer(rt.alloc(), prepared, out)
}

/// Serves the words of every other command. It always returns, and waits for nobody but the files that it reads and the sink
/// that it writes to. The allocator is that of `rt`, and the statuses are those of `top`.
pub fn top_still<R: AllocGlobal, F: Files, K: Sink>(
    rt: &R,
    words: &[String],
    files: &mut F,
    out: &mut K,
) -> Ended
    requires { begins_with_run (map string_bytes words.now) ≡ false }
    ensures served { Served (F.outside files.old) (F.outside files.new) (K.output out.old) (K.output out.new) (map string_bytes words.now) result }
    ensures unused { (t : Trouble) → result.fault ≡ Some t → t ≢ Trouble.Write → out.new ≡ out.old }
{
    let prepared = prepare(rt.alloc(), words, files);
    answer(rt.alloc(), prepared, out)
}

/// Whether the first word is `run`.
pub fn begins_with_run(words: &[String]) -> bool
    ensures { result ≡ begins_with_run (map string_bytes words.now) }
{
    match words.first() {
        Some(word) => word.as_str() == "run",
        None => false,
    }
}

/// What was done, and the text that is written of it.
#[derive(Drop)]
pub struct Prepared {
    pub books: Vec<Book>,
    pub moves: Vec<Moved>,
    pub ledger: Vec<Row>,
    pub closed: Option<Closed>,
    pub text: Vec<u8>,
}

/// Writes the text of what was prepared, or tells why nothing was.
fn answer<K: Sink>(alloc: Global, prepared: Result<Prepared, Trouble>, out: &mut K) -> Ended
    ensures status { result.status ≡ status_of result.fault }
    ensures leaves { (end : Result Work Trouble) → IsMade IsDone end prepared → Leaves (K.output out.old) (K.output out.new) result end }
    ensures unused { (t : Trouble) → result.fault ≡ Some t → t ≢ Trouble.Write → out.new ≡ out.old }
{
    match prepared {
        Ok(prepared) => written(prepared, out),
        Err(trouble) => refused(alloc, trouble),
    }
}

/// What came of a command that did nothing.
fn refused(alloc: Global, trouble: Trouble) -> Ended
    ensures status { result.status ≡ status_of result.fault }
    ensures fault { result.fault ≡ Some trouble }
    ensures books { result.books.items ≡ [] }
    ensures moves { result.moves.items ≡ [] }
    ensures ledger { result.ledger.items ≡ [] }
    ensures no_table { result.closed ≡ None }
{
    Ended {
        status: trouble.status(),
        fault: Some(trouble),
        books: Vec::new(alloc),
        moves: Vec::new(alloc),
        ledger: Vec::new(alloc),
        closed: None,
    }
}

/// Writes the text of what was done.
fn written<K: Sink>(prepared: Prepared, out: &mut K) -> Ended
    ensures status { result.status ≡ status_of result.fault }
    ensures ending { ending_of result prepared.text.items ≡ prepared_ending prepared }
    ensures writes { Writes (K.output out.old) (K.output out.new) result.fault prepared.text.items }
{
    let fault = match write_all(out, &prepared.text) {
        Ok(()) => None,
        Err(Failed) => Some(Trouble::Write),
    };
    Ended {
        status: exit_status(&fault),
        fault,
        books: prepared.books,
        moves: prepared.moves,
        ledger: prepared.ledger,
        closed: prepared.closed,
    }
}

/// What is done with a job.
#[derive(Clone, Copy)]
pub enum Purpose {
    /// Its lines are run, and the run is reported.
    Run,
    /// Its calls are predicted.
    Predict,
    /// Its lines are run, and the run is summed up as that of so many generated lines.
    Sum(u64),
}

/// Serves the chain of the command, does its work, and makes the text.
fn prepare<F: Files>(alloc: Global, words: &[String], files: &mut F) -> Result<Prepared, Trouble>
    requires { begins_with_run (map string_bytes words.now) ≡ false }
    ensures { (end : Result Work Trouble) × Serves (F.outside files.old) (F.outside files.new) (command (map string_bytes words.now)) end × IsMade IsDone end result }
{
    law_in_range();
    let Some(command) = read_words(words) else {
        return Err(Trouble::Usage);
    };
    match command {
        Command::Run { .. } => unreachable!(),
        Command::Seq { script, seed, fuel } => {
            let origin = Origin::File(script);
            serve_job(alloc, files, origin, seed, fuel, Purpose::Run)
        }
        Command::Predict { script, seed, fuel } => {
            let origin = Origin::File(script);
            serve_job(alloc, files, origin, seed, fuel, Purpose::Predict)
        }
        Command::Show { file } => shown(alloc, files, file),
        Command::Gen { number, seed, fuel } => {
            let origin = Origin::Built(number);
            serve_job(alloc, files, origin, seed, fuel, Purpose::Sum(number))
        }
    }
}

/// Serves the chain of a job whose script is of this origin, and does what is asked of it.
fn serve_job<F: Files>(
    alloc: Global,
    files: &mut F,
    origin: Origin<'_>,
    seed: u64,
    fuel: u64,
    purpose: Purpose,
) -> Result<Prepared, Trouble>
    requires { IsThere origin }
    ensures { (end : Result Job Trouble) × Serves (F.outside files.old) (F.outside files.new) (job_from (script_from origin.entry) (module_from (source_of origin.entry)) seed fuel) end
        × IsMade (λ job. IsDone (work_on purpose job)) end result }
{
    let script = script_from(alloc, files, origin)?;
    let loaded = load_images(alloc, files, origin.modules(), &script, seed)?;
    do_job(alloc, &script, loaded, fuel, purpose)
}

/// Does what is asked of a script, if each call finds its export.
fn do_job(
    alloc: Global,
    script: &Script,
    loaded: Loaded,
    fuel: u64,
    purpose: Purpose,
) -> Result<Prepared, Trouble>
    requires range { IsInRange script.now }
    requires drawn { loaded.placer ≡ opening_drawn loaded.placer.seed script.now.workers loaded.images.items }
    requires loaded { AreLoaded loaded.placer.seed script.now.workers loaded.images.items }
    requires each { length script.now.loads ≡ length loaded.images.items }
    ensures done { IfOk result (IsJobMade (work_on purpose) loaded.placer.seed fuel script.now loaded.images.items) }
    ensures fault { IfErr result (IsUnready script.now loaded.images.items) }
{
    match purpose {
        Purpose::Run => run_job(alloc, script, loaded, fuel, None),
        Purpose::Predict => predict_job(alloc, script, &loaded, fuel),
        Purpose::Sum(number) => run_job(alloc, script, loaded, fuel, Some(number)),
    }
}

/// Serves the chain of a file that is shown, and makes the listing.
fn shown<F: Files>(alloc: Global, files: &mut F, file: &str) -> Result<Prepared, Trouble>
    ensures { (end : Result Work Trouble) × Serves (F.outside files.old) (F.outside files.new) (work_of (Show file.now)) end
        × IsMade IsDone end result }
{
    let image = shown_image(alloc, files, file)?;
    let text = listing(alloc, &image)?;
    Ok(text_alone(alloc, text))
}

/// A text, where nothing was run.
fn text_alone(alloc: Global, text: Vec<u8>) -> Prepared
    ensures { IsTextAlone text.items (prepared_ending result) }
{
    Prepared {
        books: Vec::new(alloc),
        moves: Vec::new(alloc),
        ledger: Vec::new(alloc),
        closed: None,
        text,
    }
}

/// Predicts the calls of a script, if each finds its export. Nothing is run.
fn predict_job(
    alloc: Global,
    script: &Script,
    loaded: &Loaded,
    fuel: u64,
) -> Result<Prepared, Trouble>
    requires range { IsInRange script.now }
    requires loaded { AreLoaded loaded.now.placer.seed script.now.workers loaded.now.images.items }
    requires each { length script.now.loads ≡ length loaded.now.images.items }
    ensures done { IfOk result (IsJobMade Predicted loaded.now.placer.seed fuel script.now loaded.now.images.items) }
    ensures fault { IfErr result (IsUnready script.now loaded.now.images.items) }
{
    let steps = ready(alloc, &loaded.images, script)?;
    let text = predict(alloc, script, &loaded.images, &steps, fuel)?;
    Ok(text_alone(alloc, text))
}

/// Runs the lines of a script, if each call finds its export, and makes the report; or the line that sums up the run of so
/// many generated lines, where a number is given.
fn run_job(
    alloc: Global,
    script: &Script,
    loaded: Loaded,
    fuel: u64,
    number: Option<u64>,
) -> Result<Prepared, Trouble>
    requires range { IsInRange script.now }
    requires drawn { loaded.placer ≡ opening_drawn loaded.placer.seed script.now.workers loaded.images.items }
    requires loaded { AreLoaded loaded.placer.seed script.now.workers loaded.images.items }
    requires each { length script.now.loads ≡ length loaded.images.items }
    ensures done { IfOk result (IsJobMade (work_run number) loaded.placer.seed fuel script.now loaded.images.items) }
    ensures fault { IfErr result (IsUnready script.now loaded.images.items) }
{
    let steps = ready(alloc, &loaded.images, script)?;
    let finished = run_lines(alloc, script, loaded, &steps, fuel)?;
    let text = run_text(alloc, script, &finished, number)?;
    Ok(Prepared {
        books: finished.books,
        moves: finished.moves,
        ledger: finished.rows,
        closed: None,
        text,
    })
}

/// The text of a run: its report, or the line of the number that it is summed up for.
fn run_text(
    alloc: Global,
    script: &Script,
    finished: &Finished,
    number: Option<u64>,
) -> Result<Vec<u8>, OutOfMemory>
    requires { AreMovesInOrder finished.now.moves.items }
    ensures { IfOk result (λ text. text.items ≡ run_text number script.now (map contents_of finished.now.books.items) finished.now.moves.items finished.now.rows.items) }
{
    let books = finished.books.as_slice();
    let moves = finished.moves.as_slice();
    let rows = finished.rows.as_slice();
    match number {
        None => report(alloc, script, books, moves, rows),
        Some(number) => summary(alloc, number, books, moves, rows),
    }
}

/// The steps of a script, each ready to run on these modules.
pub fn ready(alloc: Global, images: &[Image], script: &Script) -> Result<Vec<ReadyStep>, Trouble>
    ensures ready { IfOk result (λ steps. ready_steps images.now script.now.steps ≡ Ok steps.items) }
    ensures fault { IfErr result (IsUnready script.now images.now) }
{
    match ready_steps(alloc, images, script.steps.as_slice()) {
        Ok(steps) => Ok(steps),
        Err(Missing::Export { line }) => Err(Trouble::NoExport { line }),
        Err(Missing::OutOfMemory) => Err(Trouble::Memory),
    }
}

/// Runs steps on the modules of a script.
fn run_lines(
    alloc: Global,
    script: &Script,
    loaded: Loaded,
    steps: &[ReadyStep],
    fuel: u64,
) -> Result<Finished, OutOfMemory>
    requires range { IsInRange script.now }
    requires drawn { loaded.placer ≡ opening_drawn loaded.placer.seed script.now.workers loaded.images.items }
    requires loaded { AreLoaded loaded.placer.seed script.now.workers loaded.images.items }
    requires each { length script.now.loads ≡ length loaded.images.items }
    requires ready { ready_steps loaded.images.items script.now.steps ≡ Ok steps.now }
    ensures books { IfOk result (λ end. map contents_of end.books.items ≡ map (λ m. m.book) (run_of_seed loaded.placer.seed script.now.workers loaded.images.items fuel steps.now).modules) }
    ensures moves { IfOk result (λ end. end.moves.items ≡ (run_of_seed loaded.placer.seed script.now.workers loaded.images.items fuel steps.now).placement.moves) }
    ensures rows { IfOk result (λ end. end.rows.items ≡ (run_of_seed loaded.placer.seed script.now.workers loaded.images.items fuel steps.now).placement.rows) }
{
    let Loaded { images, placer } = loaded;
    let mut run = LineRun::open(alloc, images, script.workers, placer, steps, fuel)?;
    run.run(steps);
    run.finish(alloc)
}
