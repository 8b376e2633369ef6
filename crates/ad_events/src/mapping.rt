//! A mapping: which module it is of, and how far it has come.

/// How far a mapping has come, in this order and never back.
#[derive(Clone, Copy, Debug, PartialEq, Eq)]
pub enum Status {
    /// It was mapped, and wasn't its module's current mapping yet.
    Fresh,
    /// It is its module's current mapping.
    Current,
    /// Another mapping of its module came after it.
    Out,
    /// It was retired, and may be unmapped as soon as no worker is inside it.
    Retired,
    /// It was unmapped.
    Gone,
}

/// A mapping of a module.
#[derive(Clone, Copy, Debug, PartialEq, Eq)]
pub struct Mapping {
    /// The module's number.
    pub module: u64,
    /// How far the mapping has come.
    pub status: Status,
}
