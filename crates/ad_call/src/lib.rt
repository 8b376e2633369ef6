//! One call of a module, on the plain machine.
#![tactic(auto)]

mod access;
mod asked;
mod bus;
mod bytes;
mod call;
mod held;
mod laws;
mod pages;
mod pieces;
mod plain_mapping;
mod spot;
mod stack_bytes;

pub use asked::Asked;
pub use call::{Call, run_call};
pub use laws::{law_touched, law_worked_asking};
pub use pages::Pages;
pub use plain_mapping::PlainMapping;
pub use stack_bytes::StackBytes;

#[cfg(test)]
mod tests;
