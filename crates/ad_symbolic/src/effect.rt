//! What an instruction comes to.

use crate::value::Value;
use ad_base::End;

/// What an instruction comes to, on values.
#[derive(Clone, Copy, Debug)]
pub enum Effect {
    /// The next instruction follows.
    Passes,
    /// A register gets a value, and the next instruction follows.
    Writes {
        rd: u8,
        value: Value,
    },
    /// A register gets a value, and the instruction at a target follows.
    Jumps {
        rd: u8,
        link: Value,
        target: Value,
    },
    /// The instruction at a target follows.
    Branches {
        target: Value,
    },
    /// A register gets what so many bytes at an address hold, with their sign or without.
    Loads {
        size: u8,
        signed: bool,
        rd: u8,
        address: Value,
    },
    /// So many low bytes of a value go to an address.
    Stores {
        size: u8,
        value: Value,
        address: Value,
    },
    /// The call ends.
    Stops(End),
}
