//! What the proofs know of a seat of the table. It is plain data, and no running code makes any. A clause
//! reads an array as a list of any length.

use crate::counts::Counts;
use ad_base::Book;

/// A turn: the module, its position among the turns of the module, and the book before and after it.
pub struct Turn {
    pub module: u64,
    pub position: u64,
    pub before: Book,
    pub after: Book,
}

/// A ticket of a module that was drawn.
pub struct Drawn {
    pub module: u64,
    pub ticket: u64,
}

/// What a worker's seat is doing.
pub enum Stage {
    /// It has no ticket.
    Rests,
    /// It has this ticket of this module.
    Waits(u64, u64),
    /// Its ticket is served, and it has the module's slot, in which this book was.
    Holds(u64, u64, Book),
    /// It noted its turn, which leaves this book.
    Gives(u64, u64, Book),
}

/// What a worker's seat knows.
pub struct Hand {
    pub stage: Stage,
    /// The draws that are left, one number for each module.
    pub left: [u64; 0],
    /// The tickets that it drew, in order.
    pub drawn: [Drawn; 0],
    /// Its turns, in order.
    pub turns: [Turn; 0],
}

/// What a seat knows.
pub enum Doing {
    /// It was joined.
    Spent,
    /// It is the seat of the worker of this number.
    Worker(u64, Hand),
    /// It splits off the workers' seats, who may draw as often, and did so for so many.
    Dealer(u64, [Counts; 0]),
    /// It joins the workers' seats, in order of worker, and these are what they knew.
    Gatherer([Hand; 0]),
}
