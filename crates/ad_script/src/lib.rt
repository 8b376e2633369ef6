//! Scripts: lines that say how many workers there are and load modules, and lines that call exports, move modules and
//! give workers fresh stacks.
#![tactic(auto)]

mod forms;
mod laws;
mod names;
mod numbers;
mod read;
mod refusal;
mod said;
mod script;
mod text;

pub use laws::{law_accepted, law_first_bad_line, law_in_range, law_most};
pub use names::file_text;
pub use read::read_script;
pub use refusal::{Cause, ScriptRefusal};
pub use script::{ARGUMENTS, Load, Members, SCRIPT_LINES, Script, Step};

#[cfg(test)]
mod tests;
