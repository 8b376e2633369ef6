//! A run of a script's lines, whose calls are made in threads beside its moves.
#![tactic(auto)]

mod calls;
mod close;
mod jobs;
mod laws;
mod open;
mod rows;
mod run;
mod seats;
mod threads;
mod worker;

pub use close::RunEnd;
pub use laws::{law_calls_ask_for_all, law_stale_addresses, law_worked_opening};
pub use open::Sizes;
pub use run::run_lines;
