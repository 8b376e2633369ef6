//! Steps whose names are resolved.

ghost use Rattle.std.specs.Prelude.{◌≡◌, ℕ, IfOk, Err, Ok};
ghost use Rattle.ad_lines.specs.Ready.{export_number, ready_step, ready_steps};

use ad_base::{Args, Image, OutOfMemory};
use ad_script::{Members, Step};
use std::alloc::Global;

/// A step that is ready to run: what it names is a number.
#[derive(Debug, Drop)]
pub enum ReadyStep {
    /// A worker calls an export of a module.
    Call {
        line: u64,
        worker: u64,
        module: u64,
        /// The number of the export, counted from 0.
        export: u64,
        args: Args,
    },
    /// Modules are moved, in this order.
    Move {
        line: u64,
        modules: Members,
    },
    /// A worker gets a fresh stack.
    Stack {
        line: u64,
        worker: u64,
    },
}

impl ReadyStep {
    ghost use Rattle.std.specs.Prelude.{◌≡◌, ◌≤◌};
    ghost use Rattle.ad_lines.specs.Room.{is_call_of, moves_of};

    /// Tests whether the step calls this module.
    pub(crate) fn is_call_of(&self, number: u64) -> bool
        ensures { result ≡ is_call_of number self.now }
    {
        match self {
            ReadyStep::Call { module, .. } => *module == number,
            ReadyStep::Move { .. } | ReadyStep::Stack { .. } => false,
        }
    }

    /// How many things the step moves.
    pub(crate) fn moves(&self) -> usize
        ensures value { result ≡ moves_of self.now }
        ensures few { result ≤ 8 }
    {
        match self {
            ReadyStep::Call { .. } => 0,
            ReadyStep::Move { modules, .. } => modules.len() as usize,
            ReadyStep::Stack { .. } => 1,
        }
    }
}

/// Why the steps of a script aren't ready.
#[derive(Clone, Copy, Debug, PartialEq, Eq)]
pub enum Missing {
    /// The step of this line calls an export that its module hasn't. It is the first such step.
    Export { line: u64 },
    /// There was no memory.
    OutOfMemory,
}

/// The steps, each ready to run on these modules.
pub fn ready_steps(
    alloc: Global,
    images: &[Image],
    steps: &[Step],
) -> Result<Vec<ReadyStep>, Missing>
    ensures ready { IfOk result (λ ready. ready_steps images.now steps.now ≡ Ok ready.items) }
    ensures missing { (line : ℕ) → result ≡ Err (Missing.Export line) → ready_steps images.now steps.now ≡ Err line }
{
    let mut ready = Vec::with_capacity(alloc, steps.len()).map_err(|_| Missing::OutOfMemory)?;
    for step in steps {
        let Some(next) = ready_step(images, step) else {
            return Err(Missing::Export { line: step.line() });
        };
        ready.push_reserved(next);
    }
    Ok(ready)
}

/// The step with the number of what it names, or `None` where it calls an export that its module hasn't.
fn ready_step(images: &[Image], step: &Step) -> Option<ReadyStep>
    ensures { result ≡ ready_step images.now step.now }
{
    match step {
        Step::Call {
            line,
            worker,
            module,
            export,
            args,
        } => {
            let image = images.get(*module as usize)?;
            let number = export_number(image, export.bytes())?;
            Some(ReadyStep::Call {
                line: *line,
                worker: *worker,
                module: *module,
                export: number as u64,
                args: args.copy(),
            })
        }
        Step::Move { line, modules } => Some(ReadyStep::Move {
            line: *line,
            modules: modules.copy(),
        }),
        Step::Stack { line, worker } => Some(ReadyStep::Stack {
            line: *line,
            worker: *worker,
        }),
    }
}

/// The number of the first export of this name.
fn export_number(image: &Image, name: &[u8]) -> Option<usize>
    ensures { result ≡ export_number image.now name.now }
{
    image
        .exports
        .as_slice()
        .iter()
        .position(|export| export.name.bytes() == name)
}
