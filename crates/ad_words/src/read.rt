//! The reader of the words.

ghost use Rattle.std.specs.Prelude.{◌≡◌, ◌≤◌, ◌∷◌, length, IfSome, [], None, MatchOption, map, option_and_then, option_map, string_bytes};
ghost use Rattle.ad_words.specs.Private.Parsing.{command_left, command_parsed};
ghost use Rattle.ad_words.specs.Private.Seen.{command_seen, task_word};
ghost use Rattle.ad_words.specs.Words.{command_of, command_said, said_by};

use crate::command::Command;
use crate::kind::{Kind, word_kind};
use crate::parsed::Parsed;
use crate::task::{Task, task_named};

/// The command of these words, or `None` where they aren't in the grammar.
pub fn read_words(words: &[String]) -> Option<Command<'_>>
    ensures { option_map command_seen result ≡ command_of (map string_bytes words.now) }
{
    let [first, rest @ ..] = words else {
        return None;
    };
    let task = task_named(first.as_str())?;
    let parsed = read_rest(task, rest)?;
    parsed.command(task)
}

/// Reads the words behind the first.
fn read_rest(task: Task, words: &[String]) -> Option<Parsed<'_>>
    ensures { let command = option_and_then (command_said (task_word task)) (said_by (map string_bytes words.now)) in
        MatchOption result (command ≡ None) (λ parsed. command ≡ command_parsed (task_word task) parsed []) }
{
    let mut parsed = Parsed::nothing();
    let mut rest = words;
    while !rest.is_empty() {
        let part = read_part(task, parsed, rest[0].as_str(), &rest[1..])?;
        parsed = part.parsed;
        rest = part.rest;
    }
    Some(parsed)
}

/// What was read, and the words that are left.
#[derive(Clone, Copy)]
struct Part<'a> {
    parsed: Parsed<'a>,
    rest: &'a [String],
}

/// Reads a word and those behind it that belong to it: an operand, an option with its value, or `--` with all others.
fn read_part<'a>(
    task: Task,
    parsed: Parsed<'a>,
    word: &'a str,
    after: &'a [String],
) -> Option<Part<'a>>
    ensures command { let command = command_left (task_word task) parsed.entry (word.now ∷ map string_bytes after.now) in
        MatchOption result (command ≡ None)
        (λ part. command ≡ command_left (task_word task) part.parsed (map string_bytes part.rest.now)) }
    ensures fewer { IfSome result (λ part. length part.rest.now ≤ length after.now) }
{
    match word_kind(word) {
        Kind::End => {
            let parsed = parsed.with_operands(after)?;
            Some(Part { parsed, rest: &[] })
        }
        Kind::Plain => {
            let parsed = parsed.with_operand(word)?;
            Some(Part {
                parsed,
                rest: after,
            })
        }
        Kind::Joined { name, value } => {
            let parsed = parsed.with_option(task, name, value)?;
            Some(Part {
                parsed,
                rest: after,
            })
        }
        Kind::Apart { name } => {
            let (value, rest) = after.split_first()?;
            let parsed = parsed.with_option(task, name, value.as_str())?;
            Some(Part { parsed, rest })
        }
        Kind::Wrong => None,
    }
}
