//! What the symbolic machine says of a script's calls, and the text that is printed of it.
#![tactic(auto)]

mod ask;
mod laws;
mod line;
mod text;

pub use laws::law_clear_histories;
pub use text::predict;
