//! The parts of a module: where the sections of an object go, and which of its symbols are exports.
#![tactic(auto)]

mod area;
mod arrange;
mod ends;
mod exports;
mod laws;
mod layout;
mod pages;
mod position;
mod refusal;
mod splitting;
#[cfg(test)]
mod tests;

pub use laws::{law_areas, law_next};
pub use layout::{Group, Layout, Sizes, Spot};
pub use position::Position;
pub use refusal::PartRefusal;
pub use splitting::split;
