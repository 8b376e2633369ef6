//! What the run of a script's lines has to do with the prediction of its calls. The function makes no call: its contract
//! is the law.

ghost use Rattle.std.specs.Prelude.{◌≡◌, ℕ, List, Some, map, slice_get};
ghost use Rattle.std.specs.List.{count_by};
ghost use Rattle.ad_base.specs.declared.image.Image.{Image};
ghost use Rattle.ad_lines.specs.declared.ready.ReadyStep.{ReadyStep};
ghost use Rattle.ad_lines.specs.LineLaws.{run_of_seed, AreSteps};
ghost use Rattle.ad_lines.specs.LineRun.{ModuleState};
ghost use Rattle.ad_lines.specs.Opening.{AreLoaded};
ghost use Rattle.ad_predict.specs.Prediction.{asked_of};
ghost use Rattle.ad_relate.specs.ClearHistory.{answers_of, asked_of as call_of};
ghost use Rattle.ad_symbolic.specs.Replay.{clear_calls, is_clear, replay};

/// What is predicted of a module's calls is what the symbolic machine says of the entries of its book after the lines
/// ran, at whatever seed: the entries ask for what the steps ask for, in order, so the answers are those of the prediction,
/// and the book's clear history has as many entries as the prediction has clear answers.
pub fn law_clear_histories()
    ensures asked { (seed workers fuel : ℕ) (images : List Image) (steps : List ReadyStep)
        → AreLoaded seed workers images → AreSteps images workers steps
        → (number : ℕ) (m : ModuleState) → slice_get (run_of_seed seed workers images fuel steps).modules number ≡ Some m
        → map (call_of m.image) m.book.entries ≡ asked_of m.image number steps }
    ensures length { (seed workers fuel : ℕ) (images : List Image) (steps : List ReadyStep)
        → AreLoaded seed workers images → AreSteps images workers steps
        → (number : ℕ) (m : ModuleState) → slice_get (run_of_seed seed workers images fuel steps).modules number ≡ Some m
        → clear_calls (answers_of m.image fuel m.book.entries) ≡ count_by is_clear (replay m.image fuel (asked_of m.image number steps)) }
{}
