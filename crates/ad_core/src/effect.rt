//! What an instruction comes to.

use ad_base::End;

/// What an instruction comes to, on numbers.
#[derive(Clone, Copy, Debug)]
pub enum Effect {
    /// The next instruction follows.
    Passes,
    /// A register gets a value, and the next instruction follows.
    Writes {
        rd: u8,
        value: u64,
    },
    /// A register gets a value, and the instruction at a target follows.
    Jumps {
        rd: u8,
        link: u64,
        target: u64,
    },
    /// The instruction at a target follows.
    Branches {
        target: u64,
    },
    /// A register gets what so many bytes at an address hold, with their sign or without.
    Loads {
        size: u8,
        signed: bool,
        rd: u8,
        address: u64,
    },
    /// So many low bytes of a value go to an address.
    Stores {
        size: u8,
        value: u64,
        address: u64,
    },
    /// The call ends.
    Stops(End),
}
