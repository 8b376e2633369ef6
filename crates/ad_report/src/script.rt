//! The names of modules.

ghost use Rattle.std.specs.Prelude.{◌≡◌};
ghost use Rattle.ad_report.specs.Mapping.{module_name};

use ad_script::Script;

/// The name of the module of this number, and no byte where none has it.
pub fn module_name(script: &Script, number: u64) -> &[u8]
    ensures { result.now ≡ module_name script.now number }
{
    match script.loads.as_slice().get(number as usize) {
        Some(load) => load.name.bytes(),
        None => b"",
    }
}
