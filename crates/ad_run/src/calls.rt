//! The calls of the workers.

ghost use Rattle.std.specs.Prelude.{◌≡◌, ◌++◌, length, map, IfOk, OnOk, option_to_list};
ghost use Rattle.std.specs.List.{range_with_len};
ghost use Rattle.ad_run.specs.Calls.{call_of, calls_at, calls_of_worker};

use ad_base::OutOfMemory;
use ad_lines::ReadyStep;
use ad_turns::Counts;
use ad_wrapper::Ready;
use std::alloc::Global;

/// The calls of each of so many workers among the steps, in order. The one error is want of memory.
pub fn calls_of_workers(
    alloc: Global,
    workers: u64,
    steps: &[ReadyStep],
) -> Result<Vec<Vec<Ready>>, OutOfMemory>
    ensures count { IfOk result (λ lists. length lists.items ≡ workers) }
    ensures calls { IfOk result (λ lists. map (λ calls. calls.items) lists.items ≡ map (λ w. calls_of_worker w steps.now) (range_with_len 0 workers)) }
{
    let mut lists = Vec::new(alloc);
    for worker in 0..workers {
        lists.push(calls_of_worker(alloc, worker, steps)?)?;
    }
    Ok(lists)
}

/// The calls of a worker among the steps, in order. The one error is want of memory.
fn calls_of_worker(
    alloc: Global,
    worker: u64,
    steps: &[ReadyStep],
) -> Result<Vec<Ready>, OutOfMemory>
    ensures { IfOk result (λ calls. calls.items ≡ calls_of_worker worker steps.now) }
{
    let mut calls = Vec::new(alloc);
    for step in steps {
        push_call(&mut calls, worker, step)?;
    }
    Ok(calls)
}

/// Appends the call that a step makes a worker make, if it does.
fn push_call(calls: &mut Vec<Ready>, worker: u64, step: &ReadyStep) -> Result<(), OutOfMemory>
    ensures { OnOk result (calls.new.items ≡ calls.old.items ++ call_of worker step.now) }
{
    if let Some(call) = call_of(worker, step) {
        calls.push(call)?;
    }
    Ok(())
}

/// The call that a step makes a worker make, if it does.
fn call_of(worker: u64, step: &ReadyStep) -> Option<Ready>
    ensures { option_to_list result ≡ call_of worker step.now }
{
    match step {
        ReadyStep::Call {
            line,
            worker: caller,
            module,
            export,
            args,
        } => {
            if *caller != worker {
                return None;
            }
            Some(Ready {
                line: *line,
                module: *module,
                export: *export,
                args: args.copy(),
            })
        }
        ReadyStep::Move { .. } | ReadyStep::Stack { .. } => None,
    }
}

/// The draws that these calls need: for each of so many modules as many as there are calls of it. The one error is want of
/// memory.
pub fn draws_for(alloc: Global, modules: u64, calls: &[Ready]) -> Result<Counts, OutOfMemory>
    ensures { IfOk result (λ draws. draws ≡ map (λ m. calls_at m calls.now) (range_with_len 0 modules)) }
{
    let mut numbers = Vec::new(alloc);
    for module in 0..modules {
        numbers.push(calls_at(module, calls))?;
    }
    Counts::of(alloc, &numbers)
}

/// How many of these calls are of a module.
fn calls_at(module: u64, calls: &[Ready]) -> u64
    ensures { result ≡ calls_at «module» calls.now }
{
    calls.iter().filter(|call| call.module == module).count() as u64
}
