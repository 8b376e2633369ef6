//! The choice of the places of mappings at random, as a function of a seed.
#![tactic(auto)]

mod laws;
mod placer;
mod region;
#[cfg(test)]
mod tests;

pub use laws::{law_appending, law_next, law_places};
pub use placer::Placer;
