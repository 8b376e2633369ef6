//! What the workers have in hand, and their calls.

ghost use Rattle.std.specs.Prelude.{◌≡◌, length, map, IfOk, Some};
ghost use Rattle.std.specs.List.{range_with_len};
ghost use Rattle.ad_wrapper.specs.declared.hands.Hands.{Hands};

use crate::threads::Job;
use ad_base::OutOfMemory;
use ad_call::StackBytes;
use ad_maps::Seat;
use ad_stacks::StackSeat;
use ad_turns::TurnSeat;
use ad_wrapper::{Hands, Ready};
use std::alloc::Global;

/// What each worker has in hand: its seats in the three tables, which stand in order of worker, and the bytes of a stack.
/// The one error is want of memory.
pub fn hands_of(
    alloc: Global,
    seats: Vec<Seat>,
    stack_seats: Vec<StackSeat>,
    turn_seats: Vec<TurnSeat>,
) -> Result<Vec<Hands>, OutOfMemory>
    requires in_stacks { length stack_seats.items ≡ length seats.items }
    requires in_turns { length turn_seats.items ≡ length seats.items }
    ensures workers { IfOk result (λ hands. map (λ (h : Hands). h.worker) hands.items ≡ range_with_len 0 (length seats.items)) }
    ensures seats { IfOk result (λ hands. map (λ (h : Hands). h.seat) hands.items ≡ seats.items) }
    ensures stack_seats { IfOk result (λ hands. map (λ (h : Hands). h.stack_seat) hands.items ≡ stack_seats.items) }
    ensures turn_seats { IfOk result (λ hands. map (λ (h : Hands). h.turn_seat) hands.items ≡ turn_seats.items) }
{
    let mut hands = Vec::new(alloc);
    let mut stack_seats = stack_seats.into_iter();
    let mut turn_seats = turn_seats.into_iter();
    for seat in seats {
        hands.push(Hands {
            worker: hands.len() as u64,
            seat,
            stack_seat: stack_seats.next().unwrap(),
            turn_seat: turn_seats.next().unwrap(),
            bytes: StackBytes::new(alloc)?,
        })?;
    }
    Ok(hands)
}

/// The workers with these in hand, and with these calls, in order. The one error is want of memory.
pub fn jobs_of(
    alloc: Global,
    hands: Vec<Hands>,
    lists: Vec<Vec<Ready>>,
) -> Result<Vec<Job>, OutOfMemory>
    requires { length lists.items ≡ length hands.items }
    ensures hands { IfOk result (λ jobs. map (λ j. j.hands) jobs.items ≡ map (λ (h : Hands). Some h) hands.items) }
    ensures calls { IfOk result (λ jobs. map (λ j. j.calls) jobs.items ≡ lists.items) }
{
    let mut jobs = Vec::new(alloc);
    let mut lists = lists.into_iter();
    for hands in hands {
        jobs.push(Job {
            hands: Some(hands),
            calls: lists.next().unwrap(),
        })?;
    }
    Ok(jobs)
}
