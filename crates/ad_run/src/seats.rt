//! The seats of all workers.

ghost use Rattle.std.specs.Prelude.{IfOk};
ghost use Rattle.ad_run.specs.Opened.{HasRoomFor};

use ad_base::OutOfMemory;
use ad_maps::Seat;
use ad_stacks::StackSeat;
use ad_turns::TurnSeat;
use std::alloc::Global;

/// The seats of workers, in order of worker, one list for each of the three tables.
#[derive(Drop)]
pub struct SeatLists {
    pub seats: Vec<Seat>,
    pub stack_seats: Vec<StackSeat>,
    pub turn_seats: Vec<TurnSeat>,
}

/// No seat yet, and room for those of so many workers. The one error is want of memory.
pub fn room_for(alloc: Global, workers: u64) -> Result<SeatLists, OutOfMemory>
    ensures { IfOk result (HasRoomFor workers) }
{
    Ok(SeatLists {
        seats: Vec::with_capacity(alloc, workers as usize)?,
        stack_seats: Vec::with_capacity(alloc, workers as usize)?,
        turn_seats: Vec::with_capacity(alloc, workers as usize)?,
    })
}
