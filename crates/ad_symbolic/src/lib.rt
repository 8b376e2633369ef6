//! The symbolic machine: what a call does, wherever its movable part and its stack lie. Definitions, worked examples of
//! them, and the machine as code.
#![tactic(auto)]

mod access;
mod arithmetic;
mod byte;
mod effect;
mod finish;
mod hart;
mod laws;
mod machine;
mod memory;
mod module;
mod opened;
mod outcome;
mod pages;
mod piece;
mod reach;
mod replay_laws;
mod reply;
mod run;
mod service;
mod step;
mod value;

pub use byte::Byte;
pub use laws::{
    law_replay_makes_calls, law_worked_accesses, law_worked_channels, law_worked_comparisons,
    law_worked_fetches, law_worked_jumps, law_worked_keeps, law_worked_replays, law_worked_values,
};
pub use module::SymbolicModule;
pub use replay_laws::{law_lost, law_worked_histories};
pub use reply::{SymEnd, SymReply};
pub use value::{Part, Reason, Value};

#[cfg(test)]
mod tests;
