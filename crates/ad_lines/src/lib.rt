//! The run of a script's lines on one thread, over up to 8 modules and 64 workers.
#![tactic(auto)]

mod book_laws;
mod line_run;
mod mapping_laws;
mod mappings;
mod ready;
mod room;
#[cfg(test)]
mod tests;

pub use book_laws::{law_books, law_clear_replies};
pub use line_run::{Finished, LineRun};
pub use mapping_laws::{law_ledger, law_moves, law_stale_addresses, law_worked_trap};
pub use mappings::opening_places;
pub use ready::{Missing, ReadyStep, ready_steps};
pub use room::{calls_of, moves_of, open_book};
