//! The threads of a run: one for each worker, beside the mover.

ghost use Rattle.std.specs.Prelude.{◌≡◌, ℕ, ◌+◌, ◌<◌, ◌≤◌, [], length, slice_index_or, sum_by, vec_capacity, All};
ghost use Rattle.ad_maps.specs.declared.words.TheConstants.{MEMBERS};
ghost use Rattle.ad_mover.specs.Moves.{MakesSteps};
ghost use Rattle.ad_mover.specs.Seen.{moves_of, moving, IsMoverOf, MayBeMade};
ghost use Rattle.ad_run.specs.declared.threads.Job.{Job};
ghost use Rattle.ad_run.specs.Jobs.{HasWorked, IsReady};
ghost use Rattle.ad_wrapper.specs.Fits.{Fits};

use crate::worker::make_calls;
use ad_base::Gate;
use ad_mover::{Mover, run_moves};
use ad_script::Step;
use ad_wrapper::{Hands, Ready, Shared};
use std::sync::Wait;
use std::thread;
use std::thread::Threads;

/// A worker: what it has in hand, and the calls that it makes.
#[derive(Drop)]
pub struct Job {
    /// What it has in hand. It is there before its calls, and after them.
    pub hands: Option<Hands>,
    pub calls: Vec<Ready>,
}

/// Makes the calls of each worker in a thread of its own, where one can be made, beside the moves of the script's steps.
/// It returns once all are made; it needn't return.
pub fn run_beside<R: Threads + Wait + Sync, G: Gate + Sync>(
    rt: &R,
    shared: &Shared,
    jobs: Vec<Job>,
    mover: Mover,
    script: &[Step],
    gate: &G,
) -> (Vec<Job>, Mover)
    requires fits { Fits shared.now }
    requires ready { All (IsReady shared.now) jobs.items }
    requires mover { IsMoverOf shared.now mover }
    requires no_outs { mover.outs.items ≡ [] }
    requires outs { MEMBERS ≤ vec_capacity mover.outs }
    requires done { length mover.done.items + sum_by moves_of script.now ≤ vec_capacity mover.done }
    requires steps { All (MayBeMade (length shared.now.images) mover.stack_mover.lanes) script.now }
    ensures count { length result.0.items ≡ length jobs.items }
    ensures worked { (worker : ℕ) (other : Job) → worker < length jobs.items
        → HasWorked shared.now (slice_index_or jobs.items worker other) (slice_index_or result.0.items worker other) }
    ensures moved { MakesSteps shared.now.maps.shape script.now (moving mover) (moving result.1) }
    ensures mover { IsMoverOf shared.now result.1 }
{
    // The mover has a thread of its own, and the calling thread starts the workers: so no worker waits for a start behind the
    // moves, which are short beside it.
    let (mover, jobs) = thread::join(
        rt,
        move || -> Mover
            requires fits { Fits shared.now }
            requires mover { IsMoverOf shared.now mover }
            requires no_outs { mover.outs.items ≡ [] }
            requires outs { MEMBERS ≤ vec_capacity mover.outs }
            requires done { length mover.done.items + sum_by moves_of script.now ≤ vec_capacity mover.done }
            requires steps { All (MayBeMade (length shared.now.images) mover.stack_mover.lanes) script.now }
            ensures moved { MakesSteps shared.entry.now.maps.shape script.entry.now (moving mover) (moving result) }
            ensures mover { IsMoverOf shared.entry.now result }
        { run_moves(shared, mover, script, gate) },
        move || -> Vec<Job>
            requires fits { Fits shared.now }
            requires ready { All (IsReady shared.now) jobs.items }
            ensures count { length result.items ≡ length jobs.items }
            ensures worked { (worker : ℕ) (other : Job) → worker < length jobs.items
                → HasWorked shared.entry.now (slice_index_or jobs.items worker other) (slice_index_or result.items worker other) }
        { worked(rt, shared, jobs, gate) },
    );
    (jobs, mover)
}

/// Makes the calls of all workers.
fn worked<R: Threads + Wait + Sync, G: Gate + Sync>(
    rt: &R,
    shared: &Shared,
    jobs: Vec<Job>,
    gate: &G,
) -> Vec<Job>
    requires fits { Fits shared.now }
    requires ready { All (IsReady shared.now) jobs.items }
    ensures count { length result.items ≡ length jobs.items }
    ensures worked { (worker : ℕ) (other : Job) → worker < length jobs.items
        → HasWorked shared.now (slice_index_or jobs.items worker other) (slice_index_or result.items worker other) }
{
    let mut jobs = jobs;
    work_all(rt, shared, gate, jobs.as_mut_slice());
    jobs
}

/// Makes the calls of these workers, each in a thread of its own where one can be made.
fn work_all<R: Threads + Wait + Sync, G: Gate + Sync>(
    rt: &R,
    shared: &Shared,
    gate: &G,
    jobs: &mut [Job],
)
    requires fits { Fits shared.now }
    requires ready { All (IsReady shared.now) jobs.old }
    ensures { (worker : ℕ) (other : Job) → worker < length jobs.old
        → HasWorked shared.now (slice_index_or jobs.old worker other) (slice_index_or jobs.new worker other) }
{
    let threads = jobs.len().max(1);
    thread::for_each_mut(
        rt,
        jobs,
        threads,
        &|_: usize, job: &mut Job|
            requires fits { Fits shared.now }
            requires ready { IsReady shared.now job.now }
            ensures { HasWorked shared.entry.now job.entry.now job.exit.now }
        { work(rt, shared, job, gate) },
    );
}

/// Makes the calls of a worker.
fn work<R: Wait, G: Gate>(rt: &R, shared: &Shared, job: &mut Job, gate: &G)
    requires fits { Fits shared.now }
    requires ready { IsReady shared.now job.old }
    ensures { HasWorked shared.now job.old job.new }
{
    let hands = job.hands.take().unwrap();
    let hands = make_calls(rt, shared, hands, job.calls.as_slice(), gate);
    job.hands = Some(hands);
}
