//! What a command does, by its first word.

ghost use Rattle.std.specs.Prelude.{◌≡◌, ℕ, List, Option, None, MatchOption};
ghost use Rattle.ad_words.specs.Private.Seen.{task_word};
ghost use Rattle.ad_words.specs.Words.{Settings, command_with};

/// What a command does.
#[derive(Clone, Copy)]
pub enum Task {
    Run,
    Seq,
    Predict,
    Show,
    Gen,
}

/// The task of this name.
pub fn task_named(word: &str) -> Option<Task>
    ensures { MatchOption result
        ((operand : Option (List ℕ)) (settings : Option Settings) → command_with word.now operand settings ≡ None)
        (λ task. word.now ≡ task_word task) }
{
    if word == "run" {
        Some(Task::Run)
    } else if word == "seq" {
        Some(Task::Seq)
    } else if word == "predict" {
        Some(Task::Predict)
    } else if word == "show" {
        Some(Task::Show)
    } else if word == "gen" {
        Some(Task::Gen)
    } else {
        None
    }
}
