//! A gate that is told how far calls and moves have come.

/// A point of a call or of a move.
#[derive(Clone, Copy, Debug, PartialEq, Eq)]
pub enum Point {
    /// The call has read the place that it runs under.
    Entered,
    /// It is the call's turn.
    Turn,
    /// The call has left.
    Ended,
    /// A line of the mover begins.
    Move,
    /// The line's modules have their new places.
    Switched,
    /// The line's old mappings are retired.
    Retired,
}

/// What is told of each point, and may hold up whoever tells it.
pub trait Gate {
    /// Worker `who` is at this point of this line. The mover's number is the number of workers.
    fn pause(&self, who: u64, line: u64, point: Point);
}

/// The gate that holds nobody up.
#[derive(Clone, Copy, Debug)]
pub struct NoGate;

impl Gate for NoGate {
    fn pause(&self, _who: u64, _line: u64, _point: Point) {}
}
