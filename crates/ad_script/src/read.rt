//! A whole script is read, one line after another.

ghost use Rattle.std.specs.Prelude.{◌≡◌, ◌⊎◌, IfErr, IfOk, Err, Ok};
ghost use Rattle.ad_script.specs.Script.{script_of};

use crate::refusal::ScriptRefusal;
use crate::said::Reading;
use crate::script::Script;
use crate::text::cut_line;
use std::alloc::Global;

/// What a script says. A text is refused at its first bad line, with the first cause that holds of it: not text, too many lines,
/// words, arguments, late, numbers, worker, export, module, said before, too many modules. Without memory it is `OutOfMemory`.
pub fn read_script(alloc: Global, bytes: &[u8]) -> Result<Script, ScriptRefusal>
    ensures script { IfOk result (λ s. script_of bytes.now ≡ Ok s) }
    ensures refusal { IfErr result (λ r. (script_of bytes.now ≡ Err r) ⊎ (r ≡ ScriptRefusal.OutOfMemory)) }
{
    let mut reading = Reading::nothing(alloc);
    let mut number = 1;
    let mut rest = bytes;
    while !rest.is_empty() {
        let cut = cut_line(rest);
        match reading.read_line(alloc, number, cut.before) {
            Ok(()) => number += 1,
            Err(fault) => return Err(fault.at(number)),
        }
        rest = cut.after;
    }
    Ok(reading.into_script())
}
