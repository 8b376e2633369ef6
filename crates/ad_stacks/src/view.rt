//! What the proofs know of a seat of the table. It is plain data, and no running code makes any but
//! `Given`. A clause reads an array as a list of any length.

use ad_base::Place;

/// What a worker's seat is doing.
pub enum Stance {
    /// It holds no stack, and owes nothing.
    Rest,
    /// It holds this stack.
    Holds(Place),
    /// Its put made this stack Gone, and it hasn't counted that yet.
    Owes(Place),
}

/// What a worker's seat knows.
pub struct Hand {
    pub stance: Stance,
    /// The places of the stacks that it took, in order.
    pub taken: [Place; 0],
}

/// A stack that a lane was given: by a line of the script, or at the opening, which is line 0.
#[derive(Clone, Copy, Debug, PartialEq, Eq)]
pub struct Given {
    /// The number of the lane, which is its worker's.
    pub lane: u64,
    pub place: Place,
    pub line: u64,
}

/// How far a refresh is.
pub enum Stage {
    /// None is under way.
    Idle,
    /// The new stack is recorded.
    Recorded(Given),
    /// The new stack is In its lane. The mapping of this number is to be marked with this line, and the
    /// stack that was In, if there was one, is Gone and to be counted.
    Replaced(u64, u64, Option<Place>),
    /// This stack is to be counted.
    Owes(Place),
}

/// What the mover's seat knows.
pub struct Plan {
    pub stage: Stage,
    /// So many worker's seats were split off.
    pub dealt: u64,
    /// The number of the mapping that each lane was given last.
    pub newest: [u64; 0],
    /// The refreshes that were made, in order.
    pub made: [Given; 0],
    /// What the worker's seats knew that were joined again, in order of worker.
    pub back: [Hand; 0],
}

/// What a seat knows.
pub enum Doing {
    /// It was joined to the mover's.
    Spent,
    /// It is the seat of the worker of this number.
    Worker(u64, Hand),
    Mover(Plan),
}
