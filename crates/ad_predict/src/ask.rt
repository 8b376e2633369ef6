//! The modules of a script, which are asked for its calls in order.

ghost use Rattle.std.specs.Prelude.{◌≡◌, ◌<◌, ◌++◌, ◌∷◌, [], ℕ, List, All, IfOk, IfSome, OnOk, length, map, slice_get};
ghost use Rattle.ad_base.specs.Image.{IsWhole};
ghost use Rattle.ad_lines.specs.Ready.{IsRunnable};
ghost use Rattle.ad_lines.specs.declared.ready.ReadyStep.{ReadyStep};
ghost use Rattle.ad_predict.specs.Prediction.{export_name, step_text};
ghost use Rattle.ad_predict.specs.Private.Asking.{HaveAnswered, opened_module};
ghost use Rattle.ad_symbolic.specs.Reply.{Module};

use crate::line::{Called, call_line};
use ad_base::{Image, OutOfMemory};
use ad_lines::ReadyStep;
use ad_report::module_name;
use ad_script::Script;
use ad_symbolic::SymbolicModule;
use std::alloc::Global;

/// The modules of these images, before their first calls.
pub fn open_modules<'a>(
    alloc: Global,
    images: &'a [Image],
) -> Result<Vec<SymbolicModule<'a>>, OutOfMemory>
    requires { All IsWhole images.now }
    ensures { IfOk result (λ modules. modules.items ≡ map opened_module images.now) }
{
    let mut modules = Vec::new(alloc);
    for image in images {
        let module = SymbolicModule::new(alloc, image)?;
        modules.push(module)?;
    }
    Ok(modules)
}

/// Appends the line of a step, if it is a call. Its module answers it.
pub fn step_line(
    text: &mut Vec<u8>,
    script: &Script,
    images: &[Image],
    modules: &mut [SymbolicModule<'_>],
    step: &ReadyStep,
    fuel: u64,
) -> Result<(), OutOfMemory>
    requires runnable { IsRunnable images.now script.now.workers step.now }
    requires modules { map (λ m. m.image) modules.old ≡ images.now }
    ensures text { OnOk result ((before after : List ReadyStep) → HaveAnswered images.now fuel before modules.old
        → text.new.items ≡ text.old.items ++ step_text script.now images.now fuel (before ++ step.now ∷ after) (length before) step.now) }
    ensures modules { OnOk result ((before : List ReadyStep) → HaveAnswered images.now fuel before modules.old
        → HaveAnswered images.now fuel (before ++ step.now ∷ []) modules.new) }
{
    match step {
        ReadyStep::Call {
            line,
            worker,
            module,
            export,
            args,
        } => {
            let reply = modules[*module as usize].call(*export, args, fuel);
            let called = Called {
                line: *line,
                worker: *worker,
                module: module_name(script, *module),
                export: export_name(&images[*module as usize], *export),
            };
            call_line(text, &called, &reply)
        }
        ReadyStep::Move { .. } | ReadyStep::Stack { .. } => Ok(()),
    }
}

/// The name of the export of this number, and no byte where none has it.
fn export_name(image: &Image, number: u64) -> &[u8]
    ensures { result.now ≡ export_name image.now number }
{
    match image.exports.as_slice().get(number as usize) {
        Some(export) => export.name.bytes(),
        None => b"",
    }
}
