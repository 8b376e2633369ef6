//! A stack line.

ghost use Rattle.std.specs.Prelude.{◌≡◌, ◌+◌, ◌<◌, ◌≤◌, ◌++◌, length, vec_capacity};
ghost use Rattle.ad_mover.specs.Moves.{given_by, stack_drawn, stack_end, with_stack};
ghost use Rattle.ad_mover.specs.Seen.{moving, HasDrawn, IsMoverOf};
ghost use Rattle.ad_mover.specs.Private.Lines.{KeepsRoom};
ghost use Rattle.ad_wrapper.specs.Fits.{Fits};

use crate::mover::Mover;
use ad_base::{Gate, Kind, MoveEnd, Moved, Point, STACK_PAGES};
use ad_wrapper::Shared;

/// Gives a worker a fresh stack, and notes what came of it.
pub(crate) fn stack_line<G: Gate>(
    shared: &Shared,
    mover: &mut Mover,
    line: u64,
    worker: u64,
    gate: &G,
)
    requires mover { IsMoverOf shared.now mover.old }
    requires done { length mover.old.done.items < vec_capacity mover.old.done }
    requires worker { worker < mover.old.stack_mover.lanes }
    requires some_line { 1 ≤ line }
    ensures made { moving mover.new ≡ with_stack line worker (moving mover.old) }
    ensures mover { IsMoverOf shared.now mover.new }
    ensures outs { mover.new.outs ≡ mover.old.outs }
    ensures done { length mover.new.done.items ≡ length mover.old.done.items + 1 }
    ensures room { KeepsRoom mover.old mover.new }
{
    gate.pause(mover.who, line, Point::Move);
    let end = give_stack(shared, mover, line, worker);
    mover.done.push_reserved(Moved {
        line,
        kind: Kind::Stack,
        who: worker,
        end,
    });
}

/// Gives a worker a fresh stack, if a number is left.
fn give_stack(shared: &Shared, mover: &mut Mover, line: u64, worker: u64) -> MoveEnd
    requires mover { IsMoverOf shared.now mover.old }
    requires worker { worker < mover.old.stack_mover.lanes }
    requires some_line { 1 ≤ line }
    ensures end { result ≡ stack_end mover.old.placer }
    ensures placer { mover.new.placer ≡ stack_drawn mover.old.placer result }
    ensures refreshes { mover.new.stack_mover.refreshes ≡ mover.old.stack_mover.refreshes ++ given_by line worker result }
    ensures table { mover.new.stack_mover.table ≡ mover.old.stack_mover.table }
    ensures lanes { mover.new.stack_mover.lanes ≡ mover.old.stack_mover.lanes }
    ensures who { mover.new.who ≡ mover.old.who }
    ensures seat { mover.new.seat ≡ mover.old.seat }
    ensures outs { mover.new.outs ≡ mover.old.outs }
    ensures done { mover.new.done ≡ mover.old.done }
    ensures drawn { HasDrawn shared.now.maps.shape shared.now.stacks.openings (moving mover.new) }
{
    if mover.placer.left() == 0 {
        return MoveEnd::Spent;
    }
    let place = mover.placer.next(Kind::Stack, STACK_PAGES);
    shared
        .stacks
        .refresh(&mut mover.stack_mover, worker, place, line);
    MoveEnd::Made(place)
}
