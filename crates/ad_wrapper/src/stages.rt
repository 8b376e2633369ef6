//! The stages of a call, in order: it begins, it runs, it leaves, and its stack is put back.

ghost use Rattle.std.specs.Prelude.{◌≡◌, ◌<◌, length, slice_get, slice_index, IsSomeAnd, Some};
ghost use Rattle.ad_wrapper.specs.Fits.{AreHandsOf, Fits};
ghost use Rattle.ad_wrapper.specs.Private.Stages.{Began, IsOver, IsUnder, Left, PutBack, Ran};

use crate::hands::{Hands, Ready};
use crate::pinned::Pinned;
use crate::shared::Shared;
use ad_base::{Gate, Image, Point};
use ad_call::{Call, StackBytes, run_call};
use ad_maps::{Inside, Seat};
use ad_stacks::Stack;
use ad_turns::{Held, TurnSeat};
use std::sync::Wait;

/// A call that is under way: the worker is inside the module, holds a stack, and has the module's book. It can't be
/// dropped: it must leave.
pub(crate) struct OpenCall {
    pub(crate) worker: u64,
    pub(crate) inside: Inside,
    pub(crate) stack: Stack,
    pub(crate) held: Held,
    pub(crate) bytes: StackBytes,
}

/// A call that has left: its turn is given on and its worker is inside no module, and the worker still holds the stack.
/// It can't be dropped: the stack must be put back.
pub(crate) struct LeftCall {
    pub(crate) worker: u64,
    pub(crate) seat: Seat,
    pub(crate) stack: Stack,
    pub(crate) turn_seat: TurnSeat,
    pub(crate) bytes: StackBytes,
}

/// Begins a call: takes the worker's stack, enters the module, draws a ticket, and waits for its turn.
pub(crate) fn begin<R: Wait, G: Gate>(
    rt: &R,
    shared: &Shared,
    hands: Hands,
    step: &Ready,
    gate: &G,
) -> OpenCall
    requires fits { Fits shared.now }
    requires hands { AreHandsOf shared.now hands }
    requires exists { step.now.«module» < length shared.now.images }
    requires left { 0 < slice_index hands.turn_seat.left step.now.«module» }
    ensures under { IsUnder shared.now step.now result }
    ensures began { Began hands step.now result }
{
    let Hands {
        worker,
        seat,
        stack_seat,
        turn_seat,
        bytes,
    } = hands;
    let stack = shared.stacks.take(stack_seat);
    let inside = shared.maps.enter(seat, step.module);
    gate.pause(worker, step.line, Point::Entered);
    let ticket = shared.turns.draw(turn_seat, step.module);
    let held = shared.turns.wait(rt, ticket);
    gate.pause(worker, step.line, Point::Turn);
    OpenCall {
        worker,
        inside,
        stack,
        held,
        bytes,
    }
}

/// Runs a call on the module's book, and appends its entry.
pub(crate) fn run(shared: &Shared, under: OpenCall, step: &Ready) -> OpenCall
    requires fits { Fits shared.now }
    requires exists { IsSomeAnd (slice_get shared.now.images step.now.«module») (λ i. step.now.export < length i.exports) }
    requires under { IsUnder shared.now step.now under }
    ensures { Ran shared.now step.now under result }
{
    let OpenCall {
        worker,
        inside,
        stack,
        mut held,
        mut bytes,
    } = under;
    let call = Call {
        line: step.line,
        worker,
        export: step.export,
        under: inside.place(),
        stack: stack.place(),
    };
    let image = image_of(shared, step.module);
    let pages = Pinned {
        maps: &shared.maps,
        inside,
    };
    let pages = run_call(
        pages,
        &mut bytes,
        image,
        held.book(),
        call,
        &step.args,
        shared.fuel,
    );
    let Pinned { maps: _, inside } = pages;
    OpenCall {
        worker,
        inside,
        stack,
        held,
        bytes,
    }
}

/// Gives the book back and the turn on, and leaves the module.
pub(crate) fn leave(shared: &Shared, under: OpenCall) -> LeftCall
    requires { IsOver shared.now under }
    ensures { Left under result }
{
    let OpenCall {
        worker,
        inside,
        stack,
        held,
        bytes,
    } = under;
    let turn_seat = shared.turns.give(held);
    let seat = shared.maps.leave(inside);
    LeftCall {
        worker,
        seat,
        stack,
        turn_seat,
        bytes,
    }
}

/// Puts the stack back, once the call has left: it has ended then.
pub(crate) fn put_back<G: Gate>(shared: &Shared, left: LeftCall, step: &Ready, gate: &G) -> Hands
    requires { left.stack.seat.table ≡ shared.now.stacks.table }
    ensures { PutBack left result }
{
    let LeftCall {
        worker,
        seat,
        stack,
        turn_seat,
        bytes,
    } = left;
    let stack_seat = shared.stacks.put(stack);
    gate.pause(worker, step.line, Point::Ended);
    Hands {
        worker,
        seat,
        stack_seat,
        turn_seat,
        bytes,
    }
}

/// The image of a module.
fn image_of(shared: &Shared, module: u64) -> &Image
    requires { «module» < length shared.now.images }
    ensures { slice_get shared.now.images «module» ≡ Some result.now }
{
    &shared.images.as_slice()[module as usize]
}
