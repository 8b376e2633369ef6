//! Instructions of RV64IM (the unprivileged ISA): which word is which; and what AUIPC, ADDI, ADD and JALR do, over any
//! domain of values.
#![tactic(auto)]

mod arithmetic;
mod fields;
mod instr;
mod laws;
mod table;

pub use arithmetic::{holds, operation, widen, word_operation};
pub use instr::{Alu, Instr, Test};
pub use laws::{law_table, law_worked_words};
pub use table::decode;

#[cfg(test)]
mod tests;
