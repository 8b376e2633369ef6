//! What may happen in a world.

/// An event of a world. Workers, modules and mappings go by their numbers.
#[derive(Clone, Copy, Debug, PartialEq, Eq)]
pub enum Event {
    /// The worker enters, and hasn't read which mapping it is inside.
    Enter {
        worker: u64,
    },
    /// The worker that has entered reads the module's current mapping, and is inside it.
    Read {
        worker: u64,
        module: u64,
        mapping: u64,
    },
    /// The worker that is inside a mapping leaves it.
    Leave {
        worker: u64,
    },
    /// A new mapping of the module is mapped.
    Map {
        module: u64,
        mapping: u64,
    },
    /// The fresh mapping becomes the module's current one, in place of the one before.
    Switch {
        module: u64,
        mapping: u64,
    },
    /// The mapping that is out is retired.
    Retire {
        mapping: u64,
    },
    /// The retired mapping that nobody is inside is unmapped.
    Unmap {
        mapping: u64,
    },
}
