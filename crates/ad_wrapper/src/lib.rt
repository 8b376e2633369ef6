//! The wrapper of a call: it enters the module, waits for its turn, runs the call, gives the turn on and leaves.
#![tactic(auto)]

mod call;
mod hands;
mod laws;
mod pinned;
mod shared;
mod stages;

pub use call::perform;
pub use hands::{Hands, Ready};
pub use laws::law_worked_acts;
pub use pinned::Pinned;
pub use shared::Shared;
