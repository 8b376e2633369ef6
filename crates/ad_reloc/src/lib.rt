//! The image of an object: its sections where they go, with its relocations applied.
#![tactic(auto)]

mod addresses;
mod applicable;
mod apply;
mod checks;
mod entries;
mod fields;
mod halves;
mod highs;
mod image;
mod index;
mod laws;
mod linking;
mod part;
mod parts;
mod refusal;
mod row;
mod stubs;
mod tables;
#[cfg(test)]
mod tests;
mod words;

pub use halves::Halves;
pub use image::relocate;
pub use laws::{law_halves, law_one_answer, law_without_relocations};
pub use refusal::RelocRefusal;
pub use row::{Form, Formula, Row};
pub use words::STUB_BYTES;
