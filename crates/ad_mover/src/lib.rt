//! The mover: it makes the lines of a script that move modules and give workers fresh stacks.
#![tactic(auto)]

mod laws;
mod move_line;
mod mover;
mod stack_line;

pub use laws::{law_requests, law_worked_moves};
pub use mover::{Mover, run_moves};
