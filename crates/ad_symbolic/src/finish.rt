//! How a call ends.

use crate::value::{Reason, Value};
use ad_base::End;

/// How a call ends, on values.
#[derive(Clone, Copy, Debug)]
pub enum Finish {
    /// It returns a value.
    Returns(Value),
    /// It gives up with a value.
    Aborts(Value),
    /// It ends so.
    Ends(End),
}

/// Why a run isn't clear, and how many steps were made before.
#[derive(Clone, Copy, Debug)]
pub struct Unclear {
    pub reason: Reason,
    pub step: u64,
}
