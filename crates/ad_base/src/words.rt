//! Short lists of 64-bit words, held in place.

ghost use Rattle.std.specs.Prelude.{◌≡◌, ◌<◌, ◌≤◌, [], ◌∷◌, ◌++◌, length, slice_index};

use arrayvec::ArrayVec;
use std::marker::Model;

/// A list of at most `CAP` words. No call on it takes memory.
#[derive(Debug, Drop)]
pub struct Words<const CAP: usize> {
    items: ArrayVec<u64, CAP>,
}

impl<const CAP: usize> Model for Words<CAP> {
    ghost use Rattle.std.specs.Prelude.{List, ℕ};

    ghost Value = { List ℕ };

    ghost view = { λ w. w.items.items };
}

impl<const CAP: usize> Words<CAP> {
    /// The empty list.
    pub fn new() -> Words<CAP>
        ensures { result ≡ [] }
    {
        Words {
            items: ArrayVec::new(),
        }
    }

    /// Appends a word.
    pub fn push(&mut self, word: u64)
        requires { length self.old < CAP }
        ensures { self.new ≡ self.old ++ word ∷ [] }
    {
        self.items.push(word);
    }

    /// How many words there are.
    pub fn len(&self) -> u64
        ensures value { result ≡ length self.now }
        ensures fits { result ≤ CAP }
    {
        self.items.len() as u64
    }

    /// The word at a place, counted from 0.
    pub fn get(&self, at: u64) -> u64
        requires { at < length self.now }
        ensures { result ≡ slice_index self.now at }
    {
        self.items.as_slice()[at as usize]
    }

    /// The words, in order.
    pub fn as_slice(&self) -> &[u64]
        ensures { result.now ≡ self.now }
    {
        self.items.as_slice()
    }

    /// An equal list.
    pub fn copy(&self) -> Words<CAP>
        ensures { result ≡ self.now }
    {
        let mut copy = Words::new();
        for word in self.items.as_slice() {
            copy.push(*word);
        }
        copy
    }
}

/// The arguments of a call: at most eight words.
pub type Args = Words<8>;

/// The notes of a call: at most sixteen words.
pub type Notes = Words<16>;
