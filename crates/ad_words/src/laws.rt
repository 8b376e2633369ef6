//! Laws of the grammar.

ghost use Rattle.std.specs.Prelude.{◌≡◌, ℕ, List, IfSome};
ghost use Rattle.ad_words.specs.Laws.{DependsOnWhatIsSaid, EndsOptions, IsInRange, SaysInWholeWords, TakesAnyOrder, TakesBothForms, TakesOptionsAnywhere};
ghost use Rattle.ad_words.specs.Words.{command_of};

use crate::command::{
    FRAMES, FUEL, LEAST_FRAMES, MOST_FRAMES, MOST_FUEL, MOST_GENERATED, MOST_SLOTS, SEED, SLOTS,
};

/// The numbers that a command takes where its words say none, and the ends of their ranges.
pub fn law_defaults()
    ensures seed { SEED ≡ 0 }
    ensures fuel { FUEL ≡ 100000 }
    ensures most_fuel { MOST_FUEL ≡ 100000000 }
    ensures slots { SLOTS ≡ 4 }
    ensures most_slots { MOST_SLOTS ≡ 16 }
    ensures frames { FRAMES ≡ 8 }
    ensures least_frames { LEAST_FRAMES ≡ 2 }
    ensures most_frames { MOST_FRAMES ≡ 16 }
    ensures most_generated { MOST_GENERATED ≡ 19000 }
{}

/// The numbers of a command are in range.
pub fn law_in_range()
    ensures { (words : List (List ℕ)) → IfSome (command_of words) IsInRange }
{}

/// An option says the same in both its forms, wherever it stands.
pub fn law_both_forms()
    ensures { TakesBothForms }
{}

/// An option and an operand that follow one another may be exchanged: an option may stand before an operand or behind it.
pub fn law_words_stand_anywhere()
    ensures { TakesOptionsAnywhere }
{}

/// Two options of different names that follow one another may be exchanged.
pub fn law_any_order()
    ensures { TakesAnyOrder }
{}

/// A command depends on the operands in order, and of each option on its values in order: on nothing else.
pub fn law_what_is_said()
    ensures { DependsOnWhatIsSaid }
{}

/// Behind `--` each word is an operand, whatever it begins with.
pub fn law_end_of_options()
    ensures { EndsOptions }
{}

/// Words that are each in the grammar where they stand are operands and options with their values, to their end or up to
/// a `--`.
pub fn law_whole_words()
    ensures { SaysInWholeWords }
{}
