//! The command words: what a list of words asks for, or that it isn't in the grammar.
#![tactic(auto)]

mod command;
mod kind;
mod laws;
mod parsed;
mod read;
mod setting;
mod task;
#[cfg(test)]
mod tests;

pub use command::{
    Command, FRAMES, FUEL, LEAST_FRAMES, MOST_FRAMES, MOST_FUEL, MOST_GENERATED, MOST_SLOTS, SEED,
    SLOTS,
};
pub use laws::{
    law_any_order, law_both_forms, law_defaults, law_end_of_options, law_in_range,
    law_what_is_said, law_whole_words, law_words_stand_anywhere,
};
pub use read::read_words;
