//! The tables of a module: for which symbols the local area and the fixed table have a word.
#![tactic(auto)]

mod entries;
mod laws;
mod need;
mod refusal;
mod resolved;
mod table_set;
#[cfg(test)]
mod tests;

pub use laws::law_one_answer;
pub use need::{Need, is_call, is_low, needed};
pub use refusal::TableRefusal;
pub use resolved::{Resolved, resolve};
pub use table_set::{TableSet, tables};
