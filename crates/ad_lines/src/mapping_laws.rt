//! Laws of the moves and mappings of a line run. Each function makes no call: its contract is the law.

ghost use Rattle.std.specs.Prelude.{◌≡◌, ◌⊎◌, ◌↔◌, ◌≤◌, ◌<◌, ◌+◌, ◌*◌, ℕ, List, [], ◌∷◌, ◌++◌, length, map, slice_get, None, Some, All};
ghost use Rattle.std.specs.List.{flat_map};
ghost use Rattle.std.specs.List.Sorted.{IsNonDecreasingBy};
ghost use Rattle.ad_base.specs.declared.image.Image.{Image};
ghost use Rattle.ad_base.specs.declared.ledger.Kind.TheVariants as kinds;
ghost use Rattle.ad_base.specs.declared.ledger.Row.{Row};
ghost use Rattle.ad_base.specs.declared.place.Place.{Place};
ghost use Rattle.ad_base.specs.Ledger.{IsLedger, IsUnmappedOnce, made_mappings};
ghost use Rattle.ad_base.specs.Place.{IsInside};
ghost use Rattle.ad_call.specs.Call.{HasData};
ghost use Rattle.ad_base.specs.Segments.{holding};
ghost use Rattle.ad_core.specs.Examples.{data_call};
ghost use Rattle.ad_place.specs.Choice.{places_of};
ghost use Rattle.ad_lines.specs.declared.ready.ReadyStep.{ReadyStep};
ghost use Rattle.ad_lines.specs.Examples.{before_load, loading, loading_words};
ghost use Rattle.ad_lines.specs.LineRun.{ModuleState};
ghost use Rattle.ad_lines.specs.Opening.{AreLoaded, drawn_for, opening_drawn, opening_mappings, opening_requests, opening_run};
ghost use Rattle.ad_lines.specs.LineLaws.{AreMoveEnds, AreSteps, InEachMemory, IsFaultAtEachStep, last_place, move_requests, move_request, draw_of, run_of_seed};
ghost use Rattle.ad_lines.specs.Traps.{EndsInTrapAt, IsAmong, Touches};

use ad_base::{End, MAPPINGS};

/// The moves of a line run are those of its steps, in order. The places that were drawn are the next ones that the seed
/// chooses, for the pages of what is placed: the opening, and then what each move that is made moves. That the mappings
/// have these places is said by `law_ledger`. A move is spent exactly where 4,095 places were drawn before it, and no
/// frame is ever busy. A module and a stack lie where the last move of them put them.
pub fn law_moves()
    ensures moves { (seed workers fuel : ℕ) (images : List Image) (steps : List ReadyStep)
        → AreLoaded seed workers images → AreSteps images workers steps
        → map move_request (run_of_seed seed workers images fuel steps).placement.moves ≡ flat_map move_requests steps }
    ensures order { (seed workers fuel : ℕ) (images : List Image) (steps : List ReadyStep)
        → AreLoaded seed workers images → AreSteps images workers steps
        → IsNonDecreasingBy (λ m. m.line) (run_of_seed seed workers images fuel steps).placement.moves }
    ensures ends { (seed workers fuel : ℕ) (images : List Image) (steps : List ReadyStep)
        → AreLoaded seed workers images → AreSteps images workers steps
        → AreMoveEnds (length (opening_requests workers images)) (run_of_seed seed workers images fuel steps).placement.moves }
    ensures places { (seed workers fuel : ℕ) (images : List Image) (steps : List ReadyStep)
        → AreLoaded seed workers images → AreSteps images workers steps
        → (run_of_seed seed workers images fuel steps).placement.drawn.places
        ≡ places_of seed (map drawn_for (opening_requests workers images) ++ flat_map (draw_of images) (run_of_seed seed workers images fuel steps).placement.moves) }
    ensures few { (seed workers fuel : ℕ) (images : List Image) (steps : List ReadyStep)
        → AreLoaded seed workers images → AreSteps images workers steps
        → length (run_of_seed seed workers images fuel steps).placement.drawn.places ≤ MAPPINGS }
    ensures parts { (seed workers fuel : ℕ) (images : List Image) (steps : List ReadyStep)
        → AreLoaded seed workers images → AreSteps images workers steps
        → (number : ℕ) (first now : ModuleState)
        → slice_get (opening_run workers images (opening_drawn seed workers images)).modules number ≡ Some first
        → slice_get (run_of_seed seed workers images fuel steps).modules number ≡ Some now
        → now.movable ≡ last_place kinds.Code number first.movable (run_of_seed seed workers images fuel steps).placement.moves }
    ensures stacks { (seed workers fuel : ℕ) (images : List Image) (steps : List ReadyStep)
        → AreLoaded seed workers images → AreSteps images workers steps
        → (worker : ℕ) (first now : Place)
        → slice_get (opening_run workers images (opening_drawn seed workers images)).stacks worker ≡ Some first
        → slice_get (run_of_seed seed workers images fuel steps).stacks worker ≡ Some now
        → now ≡ last_place kinds.Stack worker first (run_of_seed seed workers images fuel steps).placement.moves }
{}

/// The rows of a line run are its ledger: one for each mapping, in order of number, with the line that retired it. What
/// was retired was unmapped once, and nothing else was. Their places are those that were drawn, in order.
pub fn law_ledger()
    ensures ledger { (seed workers fuel : ℕ) (images : List Image) (steps : List ReadyStep)
        → AreLoaded seed workers images → AreSteps images workers steps
        → IsLedger (opening_mappings workers images (opening_drawn seed workers images).places
        ++ made_mappings (run_of_seed seed workers images fuel steps).placement.moves)
        (run_of_seed seed workers images fuel steps).placement.rows }
    ensures unmapped { (seed workers fuel : ℕ) (images : List Image) (steps : List ReadyStep)
        → AreLoaded seed workers images → AreSteps images workers steps
        → All IsUnmappedOnce (run_of_seed seed workers images fuel steps).placement.rows }
    ensures places { (seed workers fuel : ℕ) (images : List Image) (steps : List ReadyStep)
        → AreLoaded seed workers images → AreSteps images workers steps
        → map (λ (r : Row). r.place) (run_of_seed seed workers images fuel steps).placement.rows
        ≡ (run_of_seed seed workers images fuel steps).placement.drawn.places }
{}

/// An address that leaked is stale once its mapping is unmapped: from then on it lies in no mapping of the run. In any
/// later call of any module on any stack nothing lies there, and at each step of the call a fetch, a load or a store
/// there is a fault, whatever bytes the stack and the data hold. A step that fetches, loads or stores there ends the call
/// in a fault, or where it isn't aligned in misaligned. The data have as many bytes as those of the image.
pub fn law_stale_addresses()
    ensures apart { (seed workers fuel : ℕ) (images : List Image) (before after : List ReadyStep)
        → AreLoaded seed workers images → AreSteps images workers (before ++ after)
        → (old : ℕ) (gone : Row) (at : ℕ) → slice_get (run_of_seed seed workers images fuel before).placement.rows old ≡ Some gone
        → 0 < gone.unmaps → IsInside gone.place at
        → All (λ (r : Row). r.unmaps ≡ 0 → IsInside r.place at → ⊥) (run_of_seed seed workers images fuel (before ++ after)).placement.rows }
    ensures lengths { (seed workers fuel : ℕ) (images : List Image) (steps : List ReadyStep)
        → AreLoaded seed workers images → AreSteps images workers steps
        → All (λ (m : ModuleState). HasData m.image m.book.writable m.book.fixed) (run_of_seed seed workers images fuel steps).modules }
    ensures nothing { (seed workers fuel : ℕ) (images : List Image) (before after : List ReadyStep)
        → AreLoaded seed workers images → AreSteps images workers (before ++ after)
        → (old : ℕ) (gone : Row) (at : ℕ) → slice_get (run_of_seed seed workers images fuel before).placement.rows old ≡ Some gone
        → 0 < gone.unmaps → IsInside gone.place at
        → All (λ (m : ModuleState). All (λ stack. InEachMemory m.image m.movable stack (λ memory. holding memory at ≡ None))
        (run_of_seed seed workers images fuel (before ++ after)).stacks) (run_of_seed seed workers images fuel (before ++ after)).modules }
    ensures fault { (seed workers fuel : ℕ) (images : List Image) (before after : List ReadyStep)
        → AreLoaded seed workers images → AreSteps images workers (before ++ after)
        → (old : ℕ) (gone : Row) (at : ℕ) → slice_get (run_of_seed seed workers images fuel before).placement.rows old ≡ Some gone
        → 0 < gone.unmaps → IsInside gone.place at
        → All (λ (m : ModuleState). All (λ stack. InEachMemory m.image m.movable stack (IsFaultAtEachStep at))
        (run_of_seed seed workers images fuel (before ++ after)).stacks) (run_of_seed seed workers images fuel (before ++ after)).modules }
    ensures ends { (seed workers fuel : ℕ) (images : List Image) (before after : List ReadyStep)
        → AreLoaded seed workers images → AreSteps images workers (before ++ after)
        → (old : ℕ) (gone : Row) (at : ℕ) → slice_get (run_of_seed seed workers images fuel before).placement.rows old ≡ Some gone
        → 0 < gone.unmaps → IsInside gone.place at
        → All (λ (m : ModuleState). All (λ stack. InEachMemory m.image m.movable stack (EndsInTrapAt at))
        (run_of_seed seed workers images fuel (before ++ after)).stacks) (run_of_seed seed workers images fuel (before ++ after)).modules }
{}

/// A call that loads four bytes at the address that a0 holds, by its first word of code, at 0x100000. Data lie at 0x200000, and
/// nothing in the second page of region 12, which begins at 0x301000.
pub fn law_worked_trap()
    ensures touches { (at : ℕ) → Touches at (before_load 0x301000) loading ↔ (IsAmong 0x100000 4 at ⊎ IsAmong 0x301000 4 at) }
    ensures nothing_there { EndsInTrapAt 0x301000 loading.memory.segments }
    ensures data_there { EndsInTrapAt 0x200000 loading.memory.segments → ⊥ }
    ensures fault { (data_call (0x301000 ∷ []) loading_words).end ≡ End.Fault }
    ensures misaligned { (data_call (0x301002 ∷ []) loading_words).end ≡ End.Misaligned }
    ensures no_trap { (data_call (0x200000 ∷ []) loading_words).end ≡ End.Returned 0x04030201 }
{}
