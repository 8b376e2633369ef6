//! What was read of the words so far.

ghost use Rattle.std.specs.Prelude.{◌≡◌, ℕ, List, [], map, option_map, MatchOption, None, string_bytes};
ghost use Rattle.ad_words.specs.Private.Parsing.{Parses, ParsesValue, command_parsed, values_parsed};
ghost use Rattle.ad_words.specs.Private.Seen.{command_seen, row_of, settings_seen, task_word};
ghost use Rattle.ad_words.specs.Words.{Given, Operand, Said, command_said, settings_of};

use crate::command::Command;
use crate::setting::{Setting, Settings, generated, number, setting_named};
use crate::task::Task;

/// The operand and the values of the options, where they were read.
#[derive(Clone, Copy)]
pub struct Parsed<'a> {
    operand: Option<&'a str>,
    values: Values<'a>,
}

/// The value of each option, where it was read.
#[derive(Clone, Copy)]
struct Values<'a> {
    seed: Option<&'a str>,
    fuel: Option<&'a str>,
    slots: Option<&'a str>,
    frames: Option<&'a str>,
}

impl<'a> Parsed<'a> {
    /// Nothing was read.
    pub fn nothing() -> Parsed<'a>
        ensures { (task : List ℕ) (said : List Said) → command_parsed task result said ≡ command_said task said }
    {
        Parsed {
            operand: None,
            values: Values {
                seed: None,
                fuel: None,
                slots: None,
                frames: None,
            },
        }
    }

    /// An operand was read, unless there was one.
    pub fn with_operand(self, word: &'a str) -> Option<Parsed<'a>>
        ensures { (task : List ℕ) → Parses task self.entry (Operand word.now) result }
    {
        match self.operand {
            Some(_) => None,
            None => Some(Parsed {
                operand: Some(word),
                ..self
            }),
        }
    }

    /// All other words are operands.
    pub fn with_operands(self, words: &'a [String]) -> Option<Parsed<'a>>
        ensures { (task : List ℕ) → MatchOption result
            (command_parsed task self.entry (map Operand (map string_bytes words.now)) ≡ None)
            (λ parsed. command_parsed task self.entry (map Operand (map string_bytes words.now)) ≡ command_parsed task parsed []) }
    {
        match words {
            [] => Some(self),
            [word] => self.with_operand(word.as_str()),
            _ => None,
        }
    }

    /// An option with its value was read, unless it doesn't belong to the task or was read before.
    pub fn with_option(self, task: Task, name: &str, value: &'a str) -> Option<Parsed<'a>>
        ensures { Parses (task_word task) self.entry (Given name.now value.now) result }
    {
        let setting = setting_named(task, name)?;
        let values = self.values.with(setting, value)?;
        Some(Parsed { values, ..self })
    }

    /// The command of the task, with what was read.
    pub fn command(self, task: Task) -> Option<Command<'a>>
        ensures { option_map command_seen result ≡ command_parsed (task_word task) self.entry [] }
    {
        let operand = self.operand?;
        let Settings {
            seed,
            fuel,
            slots,
            frames,
        } = self.values.settings()?;
        Some(match task {
            Task::Run => Command::Run {
                script: operand,
                seed,
                fuel,
                slots,
                frames,
            },
            Task::Seq => Command::Seq {
                script: operand,
                seed,
                fuel,
            },
            Task::Predict => Command::Predict {
                script: operand,
                seed,
                fuel,
            },
            Task::Show => Command::Show { file: operand },
            Task::Gen => Command::Gen {
                number: generated(operand)?,
                seed,
                fuel,
            },
        })
    }
}

impl<'a> Values<'a> {
    /// The option's value was read, unless it had one.
    fn with(self, setting: Setting, value: &'a str) -> Option<Values<'a>>
        ensures { ParsesValue self.entry (Given (row_of setting).name value.now) result }
    {
        match setting {
            Setting::Seed if self.seed.is_none() => Some(Values {
                seed: Some(value),
                ..self
            }),
            Setting::Fuel if self.fuel.is_none() => Some(Values {
                fuel: Some(value),
                ..self
            }),
            Setting::Slots if self.slots.is_none() => Some(Values {
                slots: Some(value),
                ..self
            }),
            Setting::Frames if self.frames.is_none() => Some(Values {
                frames: Some(value),
                ..self
            }),
            Setting::Seed | Setting::Fuel | Setting::Slots | Setting::Frames => None,
        }
    }

    /// The number of each option.
    fn settings(self) -> Option<Settings>
        ensures { option_map settings_seen result ≡ settings_of (values_parsed self.entry []) }
    {
        Some(Settings {
            seed: number(Setting::Seed, self.seed)?,
            fuel: number(Setting::Fuel, self.fuel)?,
            slots: number(Setting::Slots, self.slots)?,
            frames: number(Setting::Frames, self.frames)?,
        })
    }
}
