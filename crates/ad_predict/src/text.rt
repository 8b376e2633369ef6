//! The whole text that is printed of a script's calls.

ghost use Rattle.std.specs.Prelude.{◌≡◌, ◌++◌, All, IfOk, OnOk, count_by, map};
ghost use Rattle.std.specs.List.{enumerate_from, flat_map};
ghost use Rattle.ad_base.specs.Image.{IsWhole};
ghost use Rattle.ad_lines.specs.Ready.{IsRunnable};
ghost use Rattle.ad_predict.specs.Prediction.{end_line, is_call, prediction, step_text};
ghost use Rattle.ad_predict.specs.Private.Asking.{opened_module};

use crate::ask::{open_modules, step_line};
use ad_base::{Image, OutOfMemory};
use ad_lines::ReadyStep;
use ad_report::print;
use ad_script::Script;
use ad_symbolic::SymbolicModule;
use std::alloc::Global;

/// What the symbolic machine says of the calls of a script, whose modules have these images and whose steps are these:
/// a line for each call, in order, and how many there are. A call makes at most `fuel` steps. It fails for want of
/// memory alone.
#[tactic(auto, unfolding(crate::specs::Prediction::prediction))]
pub fn predict(
    alloc: Global,
    script: &Script,
    images: &[Image],
    steps: &[ReadyStep],
    fuel: u64,
) -> Result<Vec<u8>, OutOfMemory>
    requires whole { All IsWhole images.now }
    requires runnable { All (IsRunnable images.now script.now.workers) steps.now }
    ensures { IfOk result (λ text. text.items ≡ prediction script.now images.now fuel steps.now) }
{
    let mut modules = open_modules(alloc, images)?;
    let mut text = Vec::new(alloc);
    step_lines(&mut text, script, images, &mut modules, steps, fuel)?;
    end_line(&mut text, calls(steps))?;
    Ok(text)
}

/// Appends the lines of steps, which modules answer that have answered none so far.
fn step_lines(
    text: &mut Vec<u8>,
    script: &Script,
    images: &[Image],
    modules: &mut [SymbolicModule<'_>],
    steps: &[ReadyStep],
    fuel: u64,
) -> Result<(), OutOfMemory>
    requires runnable { All (IsRunnable images.now script.now.workers) steps.now }
    requires opened { modules.old ≡ map opened_module images.now }
    ensures { OnOk result (text.new.items ≡ text.old.items
        ++ flat_map (λ p. step_text script.now images.now fuel steps.now p.0 p.1) (enumerate_from 0 steps.now)) }
{
    for step in steps {
        step_line(text, script, images, modules, step, fuel)?;
    }
    Ok(())
}

/// How many calls steps make.
fn calls(steps: &[ReadyStep]) -> u64
    ensures { result ≡ count_by is_call steps.now }
{
    let calls = steps
        .iter()
        .filter(|step| matches!(step, ReadyStep::Call { .. }));
    calls.count() as u64
}

/// Appends the last line.
fn end_line(text: &mut Vec<u8>, calls: u64) -> Result<(), OutOfMemory>
    ensures { OnOk result (text.new.items ≡ text.old.items ++ end_line calls) }
{
    print(text, format_args!("end calls {calls}\n"))
}
