//! The stacks of the workers, on a table of atomic words that threads share.
#![tactic(auto)]

mod close;
mod laws;
mod open;
mod stacks;
mod steps;
mod table;
#[cfg(test)]
mod tests;
mod view;
mod words;

pub use laws::{
    law_gone, law_gone_once, law_held, law_join, law_lanes, law_mark, law_mover_gone, law_numbers,
    law_opening, law_put, law_quiet, law_reading, law_record, law_refresh, law_rows_in_order,
    law_split, law_take, law_worked_history,
};
pub use stacks::{Stack, StackMover, StackSeat, Stacks};
pub use view::{Doing, Given, Hand, Plan, Stage, Stance};
pub use words::{LANES, NUMBERS};
