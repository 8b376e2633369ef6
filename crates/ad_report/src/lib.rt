//! The texts that are printed of a run and of a linked module.
#![tactic(auto)]

mod calls;
mod index;
mod line;
mod linked;
mod mappings;
mod moves;
mod printing;
mod script;
#[cfg(test)]
mod tests;
mod text;
mod totals;

pub use calls::notes;
pub use linked::listing;
pub use printing::print;
pub use script::module_name;
pub use text::report;
pub use totals::summary;
