//! The modules that are built into the program, as object files, and a script that calls and moves them.
#![tactic(auto)]

mod files;
mod laws;
mod names;
mod script;
mod sections;
mod symbols;
#[cfg(test)]
mod tests;

pub use files::{built, built_named};
pub use laws::{
    law_files, law_images, law_instructions, law_plans, law_script, law_worked_modules,
};
pub use names::BUILT_MODULES;
pub use script::built_script;
