//! The device queue of a module.

ghost use Rattle.std.specs.Prelude.{◌≡◌, ◌<◌, ◌≤◌, [], ◌∷◌, ◌++◌, length, slice_index};
ghost use Rattle.ad_base.specs.Private.Ring.{window};

use std::marker::Model;

/// Words that a device queue holds at most.
const ROOM: usize = 256;

/// A queue of at most 256 words, held in place. No call on it takes memory.
#[derive(Debug, Drop)]
pub struct Device {
    slots: [u64; 256],
    oldest: usize,
    len: usize,
}

impl Model for Device {
    ghost use Rattle.std.specs.Prelude.{List, ℕ, ◌<◌, ◌≤◌};
    ghost use Rattle.ad_base.specs.Private.Ring.{window};

    ghost Value = { List ℕ };

    ghost view = { λ d. window d.oldest d.len d.slots };

    ghost invariant = { λ d. (d.oldest < 256) × (d.len ≤ 256) };
}

impl Device {
    /// The empty queue.
    pub fn new() -> Device
        ensures { result ≡ [] }
    {
        Device {
            slots: [0; ROOM],
            oldest: 0,
            len: 0,
        }
    }

    /// Appends a word.
    pub fn push(&mut self, word: u64)
        requires { length self.old < 256 }
        ensures { self.new ≡ self.old ++ word ∷ [] }
    {
        self.slots[(self.oldest + self.len) % ROOM] = word;
        self.len += 1;
    }

    /// Takes out the oldest word.
    pub fn pop(&mut self) -> u64
        requires { 0 < length self.old }
        ensures { self.old ≡ result ∷ self.new }
    {
        let word = self.slots[self.oldest];
        self.oldest = (self.oldest + 1) % ROOM;
        self.len -= 1;
        word
    }

    /// How many words there are.
    pub fn len(&self) -> u64
        ensures value { result ≡ length self.now }
        ensures fits { result ≤ 256 }
    {
        self.len as u64
    }

    /// The word at a place, counted from the oldest, which is at 0.
    pub fn get(&self, at: u64) -> u64
        requires { at < length self.now }
        ensures { result ≡ slice_index self.now at }
    {
        self.slots[(self.oldest + at as usize) % ROOM]
    }

    /// An equal queue.
    pub fn copy(&self) -> Device
        ensures { result ≡ self.now }
    {
        Device {
            slots: self.slots,
            oldest: self.oldest,
            len: self.len,
        }
    }
}
