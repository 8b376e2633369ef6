//! The event machine, and what a seat owes, as pure machines, and the two joined. A [`World`] says which mappings a module has,
//! which worker is inside which of them, and when a mapping may be unmapped. The machine of [`owed`] says by counts alone when a
//! batch is owed nothing. That of [`reclaim`] joins them: a count that comes to zero is the right to unmap.
#![tactic(auto)]

mod by_number;
mod entered;
mod event;
mod inside;
pub mod laws;
mod mapping;
pub mod owed;
pub mod reclaim;
pub mod reclaim_examples;
#[cfg(test)]
mod tests;
mod world;

pub use event::Event;
pub use mapping::{Mapping, Status};
pub use world::World;
