//! What a value prints is appended to a text.

ghost use Rattle.std.specs.Prelude.{◌≡◌, ◌++◌, OnOk, IfSome};

use ad_base::OutOfMemory;
use std::fmt::Display;
use std::io::Write;

/// Appends what a value prints. It fails for want of memory alone.
pub fn print<D: Display + Drop>(text: &mut Vec<u8>, value: D) -> Result<(), OutOfMemory>
    ensures { OnOk result (IfSome (D.output value) (λ printed. text.new.items ≡ text.old.items ++ printed)) }
{
    text.write_fmt(value).map_err(|_| OutOfMemory)
}
