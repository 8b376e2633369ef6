//! Laws of scripts.

ghost use Rattle.std.specs.Prelude.{◌≡◌, ℕ, List, Err, Ok, true};
ghost use Rattle.std.specs.Str.{IsUtf8};
ghost use Rattle.ad_script.specs.declared.script.Script.{Script};
ghost use Rattle.ad_script.specs.declared.refusal.Cause.{Cause};
ghost use Rattle.ad_script.specs.Forms.{is_file_name};
ghost use Rattle.ad_script.specs.Laws.{IsFirstBadLine, IsScript};
ghost use Rattle.ad_script.specs.Range.{IsInRange};
ghost use Rattle.ad_script.specs.Script.{script_of};

use crate::refusal::ScriptRefusal;
use crate::script::{ARGUMENTS, SCRIPT_LINES};

/// The numbers that a script says are in range.
pub fn law_in_range()
    ensures { (bytes : List ℕ) (s : Script) → script_of bytes ≡ Ok s → IsInRange s }
{}

/// A text is a script exactly where none of its lines has a cause behind the lines before it. How many workers there are, the
/// modules and the steps are then what its lines say, each by itself, in their order.
pub fn law_accepted()
    ensures says { (text : List ℕ) (s : Script) → script_of text ≡ Ok s → IsScript text s }
    ensures read { (text : List ℕ) (s : Script) → IsScript text s → script_of text ≡ Ok s }
{}

/// A text is refused at its first bad line, with the first cause why that is refused behind the lines before it.
pub fn law_first_bad_line()
    ensures refused { (text : List ℕ) (line : ℕ) (cause : Cause) → script_of text ≡ Err (ScriptRefusal.At line cause) → IsFirstBadLine text line cause }
    ensures first { (text : List ℕ) (line : ℕ) (cause : Cause) → IsFirstBadLine text line cause → script_of text ≡ Err (ScriptRefusal.At line cause) }
{}

/// Lines of a script at most, and arguments of a call.
pub fn law_most()
    ensures lines { SCRIPT_LINES ≡ 20000 }
    ensures arguments { ARGUMENTS ≡ 8 }
{}

/// The name of a file is ASCII, and so it is text.
pub(crate) fn law_file_names_are_text()
    ensures { (name : List ℕ) → is_file_name name ≡ true → IsUtf8 name }
{}
