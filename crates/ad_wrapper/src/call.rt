//! One call of a worker, over the tables.

ghost use Rattle.std.specs.Prelude.{◌<◌, length, slice_get, slice_index, IsSomeAnd};
ghost use Rattle.ad_wrapper.specs.Fits.{AreHandsOf, Fits};
ghost use Rattle.ad_wrapper.specs.Performed.{Performed};

use crate::hands::{Hands, Ready};
use crate::shared::Shared;
use crate::stages::{begin, leave, put_back, run};
use ad_base::Gate;
use std::sync::Wait;

/// Makes one call of a worker. It takes the worker's stack, enters the module, draws a ticket and waits for its turn, runs
/// the call, gives the turn on, leaves, and puts the stack back; the worker owes nothing then. The gate is told when the
/// call has entered, when it is its turn, and when it has ended. It takes no memory. It needn't return, since it waits.
pub fn perform<R: Wait, G: Gate>(
    rt: &R,
    shared: &Shared,
    hands: Hands,
    step: &Ready,
    gate: &G,
) -> Hands
    requires fits { Fits shared.now }
    requires hands { AreHandsOf shared.now hands }
    requires exists { IsSomeAnd (slice_get shared.now.images step.now.«module») (λ i. step.now.export < length i.exports) }
    requires left { 0 < slice_index hands.turn_seat.left step.now.«module» }
    ensures { Performed shared.now hands step.now result }
{
    let under = begin(rt, shared, hands, step, gate);
    let under = run(shared, under, step);
    let left = leave(shared, under);
    put_back(shared, left, step, gate)
}
