//! A list of any length, which contracts see as the list of its items.

ghost use Rattle.std.specs.Prelude.{◌≡◌, [], length};

use std::marker::Model;
use std::mem;

/// A list that holds its items on the heap. It is made from a `Vec`, and gives it back, without
/// taking memory.
#[derive(Debug, Drop)]
pub struct Sequence<T> {
    items: Vec<T>,
}

impl<T> Model for Sequence<T> {
    ghost use Rattle.std.specs.Prelude.{List};

    ghost Value = { List T };

    ghost view = { λ s. s.items.items };
}

impl<T> Sequence<T> {
    /// The list of a vector's items.
    pub fn of(items: Vec<T>) -> Sequence<T>
        ensures { result ≡ items.items }
    {
        Sequence { items }
    }

    /// The vector again.
    pub fn into_vec(self) -> Vec<T>
        ensures { result.items ≡ self }
    {
        self.items
    }

    /// Takes the items out, and leaves the empty list. It takes no memory.
    pub fn take(&mut self) -> Sequence<T>
        ensures taken { result ≡ self.old }
        ensures empty { self.new ≡ [] }
    {
        let empty = Vec::new(*self.items.allocator());
        Sequence {
            items: mem::replace(&mut self.items, empty),
        }
    }

    /// How many items there are.
    pub fn len(&self) -> u64
        ensures { result ≡ length self.now }
    {
        self.items.len() as u64
    }

    /// The items, in order.
    pub fn as_slice(&self) -> &[T]
        ensures { result.now ≡ self.now }
    {
        self.items.as_slice()
    }
}
