//! The ledger of all mappings, and what came of the moves.

use crate::place::Place;

/// What a mapping is.
#[derive(Clone, Copy, Debug, PartialEq, Eq)]
pub enum Kind {
    /// The movable part of a module.
    Code,
    /// The immovable part of a module.
    Fixed,
    /// The stack of a worker.
    Stack,
}

/// A mapping in the ledger.
#[derive(Clone, Copy, Debug, PartialEq, Eq)]
pub struct Row {
    /// The mapping's number.
    pub mapping: u16,
    pub kind: Kind,
    /// The number of the module, or of the worker.
    pub who: u64,
    pub place: Place,
    /// The line that retired it, or 0.
    pub line: u64,
    /// How often it was unmapped.
    pub unmaps: u64,
}

/// What came of a module of a move line, or of a stack line.
#[derive(Clone, Copy, Debug, PartialEq, Eq)]
pub enum MoveEnd {
    /// It has this new place.
    Made(Place),
    /// No table frame was free; this mapping owns the one that was looked at last.
    Busy(u16),
    /// No mapping number is left.
    Spent,
}

impl MoveEnd {
    ghost use Rattle.std.specs.Prelude.{◌≡◌};
    ghost use Rattle.ad_base.specs.Ledger.{made_place};

    /// The new place, where one was made.
    pub fn place(self) -> Option<Place>
        ensures { result ≡ made_place self }
    {
        match self {
            MoveEnd::Made(place) => Some(place),
            MoveEnd::Busy(_) | MoveEnd::Spent => None,
        }
    }
}

/// A module of a move line, or a stack line, with what came of it.
#[derive(Clone, Copy, Debug, PartialEq, Eq)]
pub struct Moved {
    pub line: u64,
    /// What was to be moved: the movable part of a module, or the stack of a worker.
    pub kind: Kind,
    /// The number of the module, or of the worker.
    pub who: u64,
    pub end: MoveEnd,
}
