//! The turns of the workers at the books of the modules, on a table of atomic words that threads share.
#![tactic(auto)]

mod boxed;
mod close;
mod counts;
mod laws;
mod open;
mod steps;
mod table;
#[cfg(test)]
mod tests;
mod turns;
mod view;
mod words;

pub use counts::Counts;
pub use laws::{
    law_draw, law_draws, law_enter, law_held, law_join, law_look, law_miss, law_note, law_opening,
    law_pass, law_split, law_tickets, law_worked_end, law_worked_turns,
};
pub use turns::{Held, Ticket, TurnSeat, Turns};
pub use view::{Doing, Drawn, Hand, Stage, Turn};
