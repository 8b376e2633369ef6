//! A gate that holds calls and moves up at their points, for runs in which they must be beside one another.
#![tactic(auto)]

mod gate;
#[cfg(test)]
mod tests;

pub use gate::{Hold, HoldingGate, Stop};
