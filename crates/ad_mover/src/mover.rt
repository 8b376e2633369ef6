//! The mover of a run.

ghost use Rattle.std.specs.Prelude.{◌≡◌, ◌+◌, ◌≤◌, [], length, All, sum_by, vec_capacity};
ghost use Rattle.ad_maps.specs.declared.words.TheConstants.{MEMBERS};
ghost use Rattle.ad_mover.specs.Moves.{MakesStep, MakesSteps};
ghost use Rattle.ad_mover.specs.Seen.{moves_of, moving, IsMoverOf, MayBeMade};
ghost use Rattle.ad_mover.specs.Private.Lines.{KeepsRoom};
ghost use Rattle.ad_wrapper.specs.Fits.{Fits};

use crate::move_line::move_line;
use crate::stack_line::stack_line;
use ad_base::{Gate, Moved};
use ad_maps::{MoverSeat, Out};
use ad_place::Placer;
use ad_script::Step;
use ad_stacks::StackMover;
use ad_wrapper::Shared;

/// What the mover has in hand between the lines of a script.
#[derive(Drop)]
pub struct Mover {
    /// The number that the gate is told: that of the workers.
    pub who: u64,
    pub placer: Placer,
    pub seat: MoverSeat,
    pub stack_mover: StackMover,
    /// The room for what goes out in one line: `ad_maps::MEMBERS` mappings.
    pub outs: Vec<Out>,
    /// What came of the moves so far, and the room for the others.
    pub done: Vec<Moved>,
}

/// Makes the move lines and the stack lines of a script, in order, and passes by its calls. Each module of a move line
/// and each stack line adds what came of it to `done`. The gate is told when a line begins and, where a module was
/// moved, when the line's modules have their new places and when the old ones are retired. It takes no memory, and waits
/// for nobody.
pub fn run_moves<G: Gate>(shared: &Shared, mover: Mover, steps: &[Step], gate: &G) -> Mover
    requires fits { Fits shared.now }
    requires mover { IsMoverOf shared.now mover }
    requires outs { mover.outs.items ≡ [] }
    requires outs_room { MEMBERS ≤ vec_capacity mover.outs }
    requires done { length mover.done.items + sum_by moves_of steps.now ≤ vec_capacity mover.done }
    requires steps { All (MayBeMade (length shared.now.images) mover.stack_mover.lanes) steps.now }
    ensures made { MakesSteps shared.now.maps.shape steps.now (moving mover) (moving result) }
    ensures mover { IsMoverOf shared.now result }
    ensures who { result.who ≡ mover.who }
    ensures outs { result.outs.items ≡ [] }
    ensures outs_room { vec_capacity mover.outs ≤ vec_capacity result.outs }
    ensures done_room { vec_capacity result.done ≡ vec_capacity mover.done }
    ensures lanes { result.stack_mover.lanes ≡ mover.stack_mover.lanes }
    ensures done { length result.done.items ≡ length mover.done.items + sum_by moves_of steps.now }
{
    let mut mover = mover;
    for step in steps {
        make_step(shared, &mut mover, step, gate);
    }
    mover
}

/// Makes a step of a script, unless it is a call.
fn make_step<G: Gate>(shared: &Shared, mover: &mut Mover, step: &Step, gate: &G)
    requires fits { Fits shared.now }
    requires mover { IsMoverOf shared.now mover.old }
    requires outs { mover.old.outs.items ≡ [] }
    requires outs_room { MEMBERS ≤ vec_capacity mover.old.outs }
    requires done { length mover.old.done.items + moves_of step.now ≤ vec_capacity mover.old.done }
    requires step { MayBeMade (length shared.now.images) mover.old.stack_mover.lanes step.now }
    ensures made { MakesStep shared.now.maps.shape step.now (moving mover.old) (moving mover.new) }
    ensures mover { IsMoverOf shared.now mover.new }
    ensures outs { mover.new.outs.items ≡ [] }
    ensures done { length mover.new.done.items ≡ length mover.old.done.items + moves_of step.now }
    ensures room { KeepsRoom mover.old mover.new }
{
    match step {
        Step::Call { .. } => {}
        Step::Move { line, modules } => move_line(shared, mover, *line, modules, gate),
        Step::Stack { line, worker } => stack_line(shared, mover, *line, *worker, gate),
    }
}
