//! The options and the numbers of operands, each in its range.

ghost use Rattle.std.specs.Prelude.{◌≡◌, ◌<◌, ◌^◌, ℕ, List, Option, None, IfSome, IfNone, length, option_copied, option_to_list, true, false};
ghost use Rattle.std.specs.Str.{all_ascii_digits};
ghost use Rattle.std.specs.Str.Parse.{digits_value};
ghost use Rattle.ad_words.specs.Private.Seen.{range_seen, row_of, task_word};
ghost use Rattle.ad_words.specs.Words.{Given, generated_numbers, is_of_task, number_taken, option_number};

use crate::command::{
    FRAMES, FUEL, LEAST_FRAMES, MOST_FRAMES, MOST_FUEL, MOST_GENERATED, MOST_SLOTS, SEED, SLOTS,
};
use crate::task::Task;

/// An option.
#[derive(Clone, Copy)]
pub enum Setting {
    Seed,
    Fuel,
    Slots,
    Frames,
}

/// The number of each option.
#[derive(Clone, Copy)]
pub struct Settings {
    /// The seed of the choice of places.
    pub seed: u64,
    /// Steps that a call may make at most.
    pub fuel: u64,
    /// The slots that workers enter modules on.
    pub slots: u64,
    /// The table frames of each module.
    pub frames: u64,
}

/// The numbers that an operand or an option takes.
#[derive(Clone, Copy)]
struct Range {
    least: u64,
    most: u64,
}

/// The numbers that an option takes, and the one where it isn't given.
#[derive(Clone, Copy)]
struct Row {
    numbers: Range,
    default: u64,
}

/// The option of this name, where it belongs to the task.
pub fn setting_named(task: Task, name: &str) -> Option<Setting>
    ensures none { IfNone result ((value : List ℕ) → is_of_task (task_word task) (Given name.now value) ≡ false) }
    ensures some { IfSome result (λ setting. (name.now ≡ (row_of setting).name)
        × ((value : List ℕ) → is_of_task (task_word task) (Given name.now value) ≡ true)) }
{
    let setting = if name == "seed" {
        Setting::Seed
    } else if name == "fuel" {
        Setting::Fuel
    } else if name == "slots" {
        Setting::Slots
    } else if name == "frames" {
        Setting::Frames
    } else {
        return None;
    };
    let belongs = match setting {
        Setting::Seed | Setting::Fuel => match task {
            Task::Run | Task::Seq | Task::Predict | Task::Gen => true,
            Task::Show => false,
        },
        Setting::Slots | Setting::Frames => match task {
            Task::Run => true,
            Task::Seq | Task::Predict | Task::Show | Task::Gen => false,
        },
    };
    if belongs { Some(setting) } else { None }
}

/// The number of an option that is given this value, or none.
pub fn number(setting: Setting, value: Option<&str>) -> Option<u64>
    ensures { result ≡ option_number (row_of setting) (option_to_list (option_copied value.entry)) }
{
    let row = row_of(setting);
    match value {
        None => Some(row.default),
        Some(text) => taken(row.numbers, text),
    }
}

/// The number of lines that an operand says, if a script is generated of so many.
pub fn generated(operand: &str) -> Option<u64>
    ensures { result ≡ number_taken generated_numbers operand.now }
{
    let numbers = Range {
        least: 1,
        most: MOST_GENERATED,
    };
    taken(numbers, operand)
}

/// The numbers of an option.
fn row_of(setting: Setting) -> Row
    ensures numbers { range_seen result.numbers ≡ (row_of setting).numbers }
    ensures default { result.default ≡ (row_of setting).default }
{
    match setting {
        Setting::Seed => Row {
            numbers: Range {
                least: 0,
                most: u64::MAX,
            },
            default: SEED,
        },
        Setting::Fuel => Row {
            numbers: Range {
                least: 1,
                most: MOST_FUEL,
            },
            default: FUEL,
        },
        Setting::Slots => Row {
            numbers: Range {
                least: 1,
                most: MOST_SLOTS,
            },
            default: SLOTS,
        },
        Setting::Frames => Row {
            numbers: Range {
                least: LEAST_FRAMES,
                most: MOST_FRAMES,
            },
            default: FRAMES,
        },
    }
}

/// The number that decimal digits say, if it is one of these.
fn taken(numbers: Range, text: &str) -> Option<u64>
    ensures { result ≡ number_taken (range_seen numbers) text.now }
{
    let number = digits(text)?;
    if number < numbers.least || numbers.most < number {
        None
    } else {
        Some(number)
    }
}

/// Reads decimal digits alone, whose number is below 2^64.
fn digits(text: &str) -> Option<u64>
    ensures some { IfSome result (λ n. (0 < length text.now) × (all_ascii_digits text.now ≡ true)
        × (digits_value 10 text.now ≡ n)) }
    ensures none { IfNone result (0 < length text.now → all_ascii_digits text.now ≡ true
        → digits_value 10 text.now < 2 ^ 64 → ⊥) }
{
    // `parse` takes a plus.
    if text.starts_with('+') {
        return None;
    }
    text.parse().ok()
}
