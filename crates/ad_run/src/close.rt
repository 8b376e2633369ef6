//! The tables of a run are closed.

ghost use Rattle.std.specs.Prelude.{◌≡◌, ℕ, List, length, map, All, IfOk};
ghost use Rattle.ad_base.specs.Book.{contents_of};
ghost use Rattle.ad_lines.specs.Sound.{Lines};
ghost use Rattle.ad_run.specs.Beside.{IsRunBeside};
ghost use Rattle.ad_mover.specs.Seen.{IsMoverOf};
ghost use Rattle.ad_run.specs.Ended.{hands_in, AreAllWorkers, AreSeatsOf, HasEnded, HasHands};
ghost use Rattle.ad_run.specs.Opened.{HasRoomFor};
ghost use Rattle.ad_script.specs.declared.script.Step.{Step};

use crate::rows::merged;
use crate::seats::SeatLists;
use crate::threads::Job;
use ad_base::{Book, Moved, OutOfMemory, Row};
use ad_maps::Closed;
use ad_mover::Mover;
use ad_wrapper::{Hands, Shared};
use std::alloc::Global;

/// What came of a run.
#[derive(Drop)]
pub struct RunEnd {
    /// The books of the modules, in order of their numbers.
    pub books: Vec<Book>,
    /// What came of the lines that move something, in their order.
    pub moves: Vec<Moved>,
    /// A row for each mapping, in order of number.
    pub rows: Vec<Row>,
    /// The mapping table.
    pub closed: Closed,
}

/// Closes the tables, with all seats, once the calls and the moves are made. The one error is want of memory.
pub fn close(
    alloc: Global,
    shared: Shared,
    jobs: Vec<Job>,
    mover: Mover,
    lists: SeatLists,
) -> Result<RunEnd, OutOfMemory>
    requires workers { AreAllWorkers shared jobs.items }
    requires mover { IsMoverOf shared mover }
    requires room { HasRoomFor (length jobs.items) lists }
    ensures { IfOk result (λ ran. (slots frames : ℕ) (l : Lines) (script : List Step) → HasEnded slots frames l script shared jobs.items mover
        → IsRunBeside slots frames l script (record { books = map contents_of ran.books.items; moves = ran.moves.items; rows = ran.rows.items }) ran.closed) }
{
    let Shared {
        maps,
        stacks,
        turns,
        images,
        ..
    } = shared;
    let Mover {
        seat,
        stack_mover,
        done,
        ..
    } = mover;
    let SeatLists {
        seats,
        stack_seats,
        turn_seats,
    } = seats_of(jobs, lists);
    let closed = maps.close(alloc, seat, seats)?;
    let stack_rows = stacks.close(alloc, stack_mover, stack_seats)?;
    let books = turns.close(alloc, turn_seats)?;
    let rows = merged(alloc, closed.rows(), &stack_rows, images.as_slice())?;
    Ok(RunEnd {
        books,
        moves: done,
        rows,
        closed,
    })
}

/// The seats that the workers have in hand, in order of worker, in the room that was taken for them.
fn seats_of(jobs: Vec<Job>, lists: SeatLists) -> SeatLists
    requires hands { All HasHands jobs.items }
    requires room { HasRoomFor (length jobs.items) lists }
    ensures { AreSeatsOf (hands_in jobs.items) result }
{
    let mut lists = lists;
    for job in jobs {
        let Hands {
            seat,
            stack_seat,
            turn_seat,
            ..
        } = job.hands.unwrap();
        lists.seats.push_reserved(seat);
        lists.stack_seats.push_reserved(stack_seat);
        lists.turn_seats.push_reserved(turn_seat);
    }
    lists
}
