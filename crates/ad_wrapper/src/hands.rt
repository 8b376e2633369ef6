//! What a worker has in hand between its calls.

use ad_base::Args;
use ad_call::StackBytes;
use ad_maps::Seat;
use ad_stacks::StackSeat;
use ad_turns::TurnSeat;

/// A call that is ready to be made: what it names is a number.
#[derive(Debug, Drop)]
pub struct Ready {
    /// The line of the script.
    pub line: u64,
    pub module: u64,
    /// The number of the export, counted from 0.
    pub export: u64,
    pub args: Args,
}

/// A worker's seats in the three tables, and the bytes of the stack that its calls run on.
#[derive(Drop)]
pub struct Hands {
    pub worker: u64,
    pub seat: Seat,
    pub stack_seat: StackSeat,
    pub turn_seat: TurnSeat,
    pub bytes: StackBytes,
}
