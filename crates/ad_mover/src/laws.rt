//! Laws of the mover's lines. Each function makes no call: its contract is the law.

ghost use Rattle.std.specs.Prelude.{◌≡◌, ◌≢◌, ℕ, List, [], ◌∷◌, ◌++◌, map};
ghost use Rattle.std.specs.List.{flat_map};
ghost use Rattle.ad_base.specs.declared.ledger.MoveEnd.TheVariants.{Busy};
ghost use Rattle.ad_maps.specs.declared.shape.Shape.{Shape};
ghost use Rattle.ad_mover.specs.Moves.{MakesSteps, Moving};
ghost use Rattle.ad_mover.specs.Requests.{moved_by, moved_in, request};
ghost use Rattle.ad_mover.specs.Worked.{worked_end, worked_line, worked_lines, worked_moved, worked_shape, worked_start};
ghost use Rattle.ad_script.specs.declared.script.Step.{Step};

/// What comes of the moves of a script is one entry for each module of a move line and for each stack line, in order.
pub fn law_requests()
    ensures { (shape : Shape) (steps : List Step) (before after : Moving) → MakesSteps shape steps before after
        → map (moved_in request) after.moves ≡ map (moved_in request) before.moves ++ flat_map (moved_by request) steps }
{}

/// A worked account, at any seed: the one module of a table of two frames is moved in lines 2, 3 and 4. Line 2 makes a
/// mapping at the next place, in frame 1; line 3 finds both frames owned; line 4 makes one in frame 0, which has no owner
/// then. In line 2, where nothing was made in frame 1, the module can't be busy, whatever owner is told.
pub fn law_worked_moves()
    ensures made { (seed : ℕ) → MakesSteps worked_shape worked_lines (worked_start seed) (worked_end seed) }
    ensures not_busy { (seed owner : ℕ) (after : Moving) → MakesSteps worked_shape (worked_line 2 ∷ []) (worked_start seed) after
        → after.moves ≢ worked_moved 2 (Busy owner) ∷ [] }
{}
