//! Laws between the symbolic machine and the plain one: what the first says is what the second does,
//! wherever the movable part and the stack lie.
#![tactic(auto)]

mod laws;

pub use laws::{
    law_clear, law_clear_history, law_memories, law_run, law_step, law_values, law_worked_history,
};
