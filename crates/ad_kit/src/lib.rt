//! Makes what the program reads, for examples and tests: the words of instructions, and object files.
#![tactic(auto)]

mod body;
mod encoding;
mod formats;
mod header;
mod laws;
mod object;
mod strings;
mod table;
mod writable;
mod write;

pub use encoding::encode;
pub use laws::{law_round_trip, law_worked_object};
pub use object::{KitRela, KitSection, KitSymbol};
pub use writable::is_writable;
pub use write::write_object;

#[cfg(test)]
mod tests;
