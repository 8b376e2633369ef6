//! What a module keeps from call to call.

ghost use Rattle.std.specs.Prelude.{◌≡◌, ◌+◌, ◌<◌, [], ◌∷◌, ◌++◌, length, IfOk};

use crate::device::Device;
use crate::end::End;
use crate::memory::OutOfMemory;
use crate::place::Place;
use crate::sequence::Sequence;
use crate::words::{Args, Notes};
use std::alloc::Global;
use std::marker::Model;

/// A call that was made: what was asked for, where it ran, and how it ended.
#[derive(Debug, Drop)]
pub struct Entry {
    /// The line of the script.
    pub line: u64,
    pub worker: u64,
    /// The number of the export, counted from 0.
    pub export: u64,
    pub args: Args,
    /// The mapping of the movable part that the call ran under.
    pub under: Place,
    pub stack: Place,
    pub notes: Notes,
    pub end: End,
}

/// The calls of a module that were made so far, in order, and the room for more.
#[derive(Debug, Drop)]
pub struct History {
    entries: Vec<Entry>,
}

impl Model for History {
    ghost use Rattle.std.specs.Prelude.{◌-◌, vec_len};
    ghost use Rattle.std.specs.Vec.{vec_capacity};
    ghost use Rattle.ad_base.specs.History.{Calls};

    ghost Value = { Calls };

    ghost view = { λ h. record { entries = h.entries.items; room = vec_capacity h.entries - vec_len h.entries } };
}

impl History {
    /// No call yet, with room for so many.
    pub fn with_room(alloc: Global, room: u64) -> Result<History, OutOfMemory>
        ensures empty { IfOk result (λ history. history.entries ≡ []) }
        ensures room { IfOk result (λ history. history.room ≡ room) }
    {
        Ok(History {
            entries: Vec::with_capacity(alloc, room as usize)?,
        })
    }

    /// Appends a call, into the room that is there.
    pub fn push(&mut self, entry: Entry)
        requires { 0 < self.old.room }
        ensures entries { self.new.entries ≡ self.old.entries ++ entry ∷ [] }
        ensures room { self.new.room + 1 ≡ self.old.room }
    {
        self.entries.push_reserved(entry);
    }

    /// How many calls were made.
    pub fn len(&self) -> u64
        ensures { result ≡ length self.now.entries }
    {
        self.entries.len() as u64
    }

    /// The calls, in order.
    pub fn as_slice(&self) -> &[Entry]
        ensures { result.now ≡ self.now.entries }
    {
        self.entries.as_slice()
    }
}

/// What a module keeps from call to call.
#[derive(Debug, Drop)]
pub struct Book {
    /// The data of the movable part.
    pub writable: Sequence<u8>,
    /// The data of the immovable part.
    pub fixed: Sequence<u8>,
    pub device: Device,
    pub history: History,
}
