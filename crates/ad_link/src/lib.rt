//! The link of a module: from the bytes of its object file to what is to be mapped.
#![tactic(auto)]

mod finishing;
mod laws;
mod planning;
mod reason;
mod refusal;
#[cfg(test)]
mod tests;

pub use laws::law_one_answer;
pub use planning::{LinkPlan, plan};
pub use reason::{Reason, Stage};
pub use refusal::LinkRefusal;
