//! A run of a script's lines, with threads.

ghost use Rattle.std.specs.Prelude.{◌≡◌, ◌≤◌, map, All, IfOk, Ok};
ghost use Rattle.ad_base.specs.Book.{contents_of};
ghost use Rattle.ad_lines.specs.LineLaws.{AreSteps};
ghost use Rattle.ad_lines.specs.Opening.{opening_drawn, AreLoaded};
ghost use Rattle.ad_lines.specs.Ready.{ready_steps};
ghost use Rattle.ad_run.specs.Beside.{IsRunBeside};
ghost use Rattle.ad_script.specs.declared.script.Step.{Step};
ghost use Rattle.ad_script.specs.Script.{line_of};

use crate::close::{RunEnd, close};
use crate::open::{Opened, Sizes, open};
use crate::threads::run_beside;
use ad_base::{Gate, Image, OutOfMemory};
use ad_lines::ReadyStep;
use ad_maps::{LINES, MODULE_FRAMES, SLOTS};
use ad_place::Placer;
use ad_script::Step;
use std::alloc::Global;
use std::sync::Wait;
use std::thread::Threads;

/// Runs the lines of a script: each worker makes its calls in a thread of its own, where one can be made, beside the moves.
/// The steps are the script's, ready to run on modules of these images, which were loaded in order beside so many workers, at
/// the places that the placer drew for them.
///
/// All memory that the threads need is taken before the first one starts. The one error is want of memory, before the first
/// thread starts or once the last one has ended. It needn't return, since calls wait for their turns.
pub fn run_lines<R: Threads + Wait + Sync, G: Gate + Sync>(
    rt: &R,
    alloc: Global,
    images: Vec<Image>,
    workers: u64,
    placer: Placer,
    script: &[Step],
    steps: &[ReadyStep],
    fuel: u64,
    sizes: Sizes,
    gate: &G,
) -> Result<RunEnd, OutOfMemory>
    requires loaded { AreLoaded placer.seed workers images.items }
    requires drawn { placer ≡ opening_drawn placer.seed workers images.items }
    requires steps { AreSteps images.items workers steps.now }
    requires ready { ready_steps images.items script.now ≡ Ok steps.now }
    requires few_lines { All (λ (step : Step). line_of step ≤ LINES) script.now }
    requires some_slot { 1 ≤ sizes.slots }
    requires few_slots { sizes.slots ≤ SLOTS }
    requires some_frames { 2 ≤ sizes.frames }
    requires few_frames { sizes.frames ≤ MODULE_FRAMES }
    ensures { IfOk result (λ ran. IsRunBeside sizes.slots sizes.frames
        (record { seed = placer.seed; workers = workers; images = images.items; fuel = fuel; steps = steps.now }) script.now
        (record { books = map contents_of ran.books.items; moves = ran.moves.items; rows = ran.rows.items }) ran.closed) }
{
    let Opened {
        shared,
        jobs,
        mover,
        lists,
    } = open(alloc, images, workers, placer, steps, fuel, sizes)?;
    let (jobs, mover) = run_beside(rt, &shared, jobs, mover, script, gate);
    close(alloc, shared, jobs, mover, lists)
}
