//! What is said of a call.

use ad_base::{End, Notes};

/// What the symbolic machine says of how a call ends.
#[derive(Clone, Copy, Debug, PartialEq, Eq)]
pub enum SymEnd {
    /// The call ends so, wherever the movable part and the stack lie.
    Clear(End),
    /// A step of the call isn't clear. Steps count from 0.
    Unclear {
        /// 1: arithmetic, 2: a comparison, 3: an address, 4: mixed bytes.
        reason: u8,
        step: u64,
    },
    /// The call keeps an address.
    Keeps,
    /// A call before it wasn't clear.
    Lost,
}

/// What the symbolic machine says of a call: how it ends, and the notes that it makes. There are none but where it is
/// clear.
#[derive(Drop)]
pub struct SymReply {
    pub end: SymEnd,
    pub notes: Notes,
}
