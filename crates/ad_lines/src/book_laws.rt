//! Laws of the books of a line run. Each function makes no call: its contract is the law.

ghost use Rattle.std.specs.Prelude.{◌≡◌, ◌≤◌, ℕ, List, ◌∷◌, ◌++◌, length, map, slice_get, Some, All};
ghost use Rattle.ad_base.specs.declared.book.Entry.{Entry};
ghost use Rattle.ad_base.specs.declared.image.Image.{Image};
ghost use Rattle.ad_base.specs.declared.place.Place.{Place};
ghost use Rattle.ad_core.specs.Turn.{IsLawful};
ghost use Rattle.ad_relate.specs.ClearHistory.{RepliesAsReplayed};
ghost use Rattle.std.specs.List.Sorted.{IsNonDecreasingBy};
ghost use Rattle.ad_lines.specs.declared.ready.ReadyStep.{ReadyStep};
ghost use Rattle.ad_lines.specs.declared.ready.ReadyStep.TheVariants.{Call};
ghost use Rattle.ad_lines.specs.LineRun.{ModuleState};
ghost use Rattle.ad_lines.specs.Opening.{AreLoaded};
ghost use Rattle.ad_lines.specs.Room.{images_of};
ghost use Rattle.ad_lines.specs.LineLaws.{AreSteps, IsEntryOf, calls_of_module, run_of_seed, step_of};

/// The book of each module of a line run is lawful: turns of the plain machine reach it from the opening book of its
/// image, one for each step that calls the module, in order of the steps. A call runs under the place that its module
/// has after the steps before it, and on the stack that its worker has then.
pub fn law_books()
    ensures images { (seed workers fuel : ℕ) (images : List Image) (steps : List ReadyStep)
        → AreLoaded seed workers images → AreSteps images workers steps
        → images_of (run_of_seed seed workers images fuel steps) ≡ images }
    ensures lawful { (seed workers fuel : ℕ) (images : List Image) (steps : List ReadyStep)
        → AreLoaded seed workers images → AreSteps images workers steps
        → All (λ (m : ModuleState). IsLawful m.image fuel m.book) (run_of_seed seed workers images fuel steps).modules }
    ensures calls { (seed workers fuel : ℕ) (images : List Image) (steps : List ReadyStep)
        → AreLoaded seed workers images → AreSteps images workers steps
        → (number : ℕ) (m : ModuleState) → slice_get (run_of_seed seed workers images fuel steps).modules number ≡ Some m
        → map (step_of number) m.book.entries ≡ calls_of_module number steps }
    ensures order { (seed workers fuel : ℕ) (images : List Image) (steps : List ReadyStep)
        → AreLoaded seed workers images → AreSteps images workers steps
        → All (λ (m : ModuleState). IsNonDecreasingBy (λ e. e.line) m.book.entries) (run_of_seed seed workers images fuel steps).modules }
    ensures places { (seed workers fuel : ℕ) (images : List Image) (before after : List ReadyStep) (line worker number export : ℕ) (args : List ℕ)
        → AreLoaded seed workers images → AreSteps images workers (before ++ Call line worker number export args ∷ after)
        → (then now : ModuleState) (stack : Place)
        → slice_get (run_of_seed seed workers images fuel before).modules number ≡ Some then
        → slice_get (run_of_seed seed workers images fuel before).stacks worker ≡ Some stack
        → slice_get (run_of_seed seed workers images fuel (before ++ Call line worker number export args ∷ after)).modules number ≡ Some now
        → (entry : Entry) × (later : List Entry) × (now.book.entries ≡ then.book.entries ++ entry ∷ later)
        × IsEntryOf number (Call line worker number export args) then.movable stack entry }
{}

/// The entries of each module's clear history have the ends and the notes that the symbolic machine says of these
/// calls, in order, which knows no place of the movable part and none of the stack. So these replies don't depend on a
/// move.
pub fn law_clear_replies()
    ensures { (seed workers fuel : ℕ) (images : List Image) (steps : List ReadyStep)
        → AreLoaded seed workers images → AreSteps images workers steps
        → All (λ (m : ModuleState). RepliesAsReplayed m.image fuel m.book.entries) (run_of_seed seed workers images fuel steps).modules }
{}
