//! The script that calls and moves the modules that are built.

ghost use Rattle.std.specs.Prelude.{◌≡◌, ◌++◌, ◌%◌, ◌≤◌, IfOk, OnOk, Some, flat_map, length};
ghost use Rattle.std.specs.List.{slice_get};
ghost use Rattle.std.specs.String.{string_bytes};
ghost use Rattle.ad_elf.specs.Below.{joined};
ghost use Rattle.ad_generator.specs.Modules.{modules};
ghost use Rattle.ad_generator.specs.Script.{call_line, line_text, load_line, move_line, script_text, second_text, workers_line};
ghost use Rattle.ad_generator.specs.Private.Named.{module_of};

use crate::names::{BUILT_MODULES, BuiltModule};
use ad_base::OutOfMemory;
use ad_words::MOST_GENERATED;
use std::alloc::Global;

/// How many workers the script has.
pub(crate) const SCRIPT_WORKERS: u64 = 4;

/// The text of the script of so many calls and moves: the number of workers, a load of each module, and lines that call
/// and move them. Of eight lines the last is a move. The lines end with LF. The one error is want of memory.
#[tactic(auto, unfolding(crate::specs::Script::script_text))]
pub fn built_script(alloc: Global, n: u64) -> Result<Vec<u8>, OutOfMemory>
    requires some { 1 ≤ n }
    requires few { n ≤ MOST_GENERATED }
    ensures { IfOk result (λ text. text.items ≡ script_text n) }
{
    let mut text = String::new(alloc);
    put_workers(&mut text)?;
    put_loads(&mut text)?;
    put_lines(&mut text, n)?;
    Ok(text.into_bytes())
}

/// Appends the line with the number of workers.
fn put_workers(text: &mut String) -> Result<(), OutOfMemory>
    ensures { OnOk result (string_bytes text.new ≡ string_bytes text.old ++ workers_line) }
{
    writeln!(text, "workers {SCRIPT_WORKERS}")?;
    Ok(())
}

/// Appends the lines that load the modules.
fn put_loads(text: &mut String) -> Result<(), OutOfMemory>
    ensures { OnOk result (string_bytes text.new ≡ string_bytes text.old ++ flat_map load_line modules) }
{
    for number in 0..BUILT_MODULES {
        put_load(text, BuiltModule::of(number))?;
    }
    Ok(())
}

/// Appends the line that loads a module.
fn put_load(text: &mut String, module: BuiltModule) -> Result<(), OutOfMemory>
    ensures { OnOk result (string_bytes text.new ≡ string_bytes text.old ++ load_line (module_of «module»)) }
{
    let name = module.name();
    writeln!(text, "load {name} {name}.o")?;
    Ok(())
}

/// Appends so many calls and moves.
fn put_lines(text: &mut String, n: u64) -> Result<(), OutOfMemory>
    ensures { OnOk result (string_bytes text.new ≡ string_bytes text.old ++ joined line_text n) }
{
    for k in 0..n {
        put_line(text, k)?;
    }
    Ok(())
}

/// Appends line `k` behind the loads.
#[tactic(auto, unfolding(crate::specs::Script::line_text))]
fn put_line(text: &mut String, k: u64) -> Result<(), OutOfMemory>
    ensures { OnOk result (string_bytes text.new ≡ string_bytes text.old ++ line_text k) }
{
    if k % 8 == 7 {
        put_move(text, module_at(k / 8))
    } else {
        put_call(text, k, module_at(k / 2))
    }
}

/// The module of a number, counting over and over.
fn module_at(k: u64) -> BuiltModule
    ensures { slice_get modules (k % length modules) ≡ Some (module_of result) }
{
    BuiltModule::of(k % BUILT_MODULES)
}

/// Appends the line that moves a module.
fn put_move(text: &mut String, module: BuiltModule) -> Result<(), OutOfMemory>
    ensures { OnOk result (string_bytes text.new ≡ string_bytes text.old ++ move_line (module_of «module»)) }
{
    let name = module.name();
    writeln!(text, "move {name}")?;
    Ok(())
}

/// Appends line `k` as a call of a module's function.
fn put_call(text: &mut String, k: u64, module: BuiltModule) -> Result<(), OutOfMemory>
    ensures { OnOk result (string_bytes text.new ≡ string_bytes text.old ++ call_line k (module_of «module»)) }
{
    let worker = k % SCRIPT_WORKERS;
    let name = module.name();
    let export = module.export();
    write!(text, "call {worker} {name}.{export} {k}")?;
    put_second(text, module.second())?;
    text.push_str("\n")?;
    Ok(())
}

/// Appends the second argument of a call, if there is one.
fn put_second(text: &mut String, second: Option<u64>) -> Result<(), OutOfMemory>
    ensures { OnOk result (string_bytes text.new ≡ string_bytes text.old ++ second_text second) }
{
    if let Some(second) = second {
        write!(text, " {second}")?;
    }
    Ok(())
}
