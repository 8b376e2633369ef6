//! A book in memory of its own.

ghost use Rattle.std.specs.Prelude.{◌≡◌, IfOk};
ghost use Rattle.std.specs.Borrow.{sem};
ghost use Rattle.ad_turns.specs.Private.Boxed.{LendsBoxed};

use ad_base::{Book, OutOfMemory};
use std::alloc::Global;
use std::marker::Model;

/// A book in memory of its own: to move it moves its address alone. Contracts see it as the book.
#[derive(Drop)]
pub(crate) struct BoxedBook {
    memory: Box<Book>,
}

impl Model for BoxedBook {
    ghost use Rattle.ad_base.specs.declared.book.Book.{Book};

    ghost Value = { Book };

    ghost view = { λ b. b.memory.value };
}

impl BoxedBook {
    /// Takes memory for the book. The one error is want of memory: then the book is given up.
    pub(crate) fn new(alloc: Global, book: Book) -> Result<BoxedBook, OutOfMemory>
        ensures { IfOk result (λ boxed. boxed ≡ book) }
    {
        let memory = Box::new(alloc, book)?;
        Ok(BoxedBook { memory })
    }

    /// The book.
    pub(crate) fn as_book(&self) -> &Book
        ensures { result.now ≡ self.now }
    {
        &self.memory
    }

    /// The book, to be written to.
    pub(crate) fn as_mut(&mut self) -> &mut Book
        ensures* writes_back { sem 𝓛 (LendsBoxed self.entry result) }
        ensures value { result.now ≡ self.old }
    {
        &mut self.memory
    }

    /// Gives back the memory.
    pub(crate) fn into_book(self) -> Book
        ensures { result ≡ self }
    {
        let BoxedBook { memory } = self;
        Box::into_inner(memory)
    }
}
