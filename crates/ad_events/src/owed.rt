//! What a seat owes, in the numbered form: seats enter and leave slots, one mover opens batches and pushes them on the
//! slots, and the count of a batch says what it is still owed. The machine stands in the definitions. The
//! functions here are its laws, over every list of steps from the opening, and at the end three computed examples.
ghost use Rattle.std.specs.Prelude.{◌≡◌, ℕ, List, true};
ghost use Rattle.ad_events.specs.Owed.{answers, count_of, owed_opening, owed_of, owes, owed_run, seat_at, MayRun};
ghost use Rattle.ad_events.specs.OwedLaws.{AfterEveryRun, CountsAreOwed, HoldsAtOpening, InsideIsCounted, NothingBelowZero, NoZero, OneZero, QuietIsZero, SlotsTell, StepsKeep, TakesToZero, WordsFit, ZeroIsDone, ZeroStays};
ghost use Rattle.ad_events.specs.OwedExamples.{entered_between, nobody_between, one_owes, one_owes_steps, paid_entry_number, schedule, schedule_answers};

/// The invariant holds at the opening, and each step that may be made keeps it.
pub fn law_owed_steps_keep()
    ensures opening { HoldsAtOpening }
    ensures step { StepsKeep }
{}

/// At every moment the count of each opened batch is the sum of the shares of the slots.
pub fn law_counts_are_owed()
    ensures counted { AfterEveryRun CountsAreOwed }
{}

/// No subtraction goes below zero, and no sum reaches 2^64, with at most 2^31 slots and fewer than 2^32 seats. Of a slot's
/// word that holds while fewer than 2^32 batches were opened.
pub fn law_words_hold_the_numbers()
    ensures differences { AfterEveryRun NothingBelowZero }
    ensures sums { AfterEveryRun WordsFit }
{}

/// The count of a batch is zero exactly where the batch was pushed and settled on every slot and nobody owes it.
pub fn law_zero_is_done()
    ensures done { AfterEveryRun ZeroIsDone }
{}

/// The count of a batch becomes zero in exactly one step, a settle or a pay, and stays zero.
pub fn law_zero_comes_once()
    ensures one { OneZero }
    ensures none { NoZero }
    ensures step { AfterEveryRun TakesToZero }
    ensures stays { AfterEveryRun ZeroStays }
{}

/// A slot's number inside is that of the seats inside it, and a batch has passed the slot exactly where it is none above
/// the last one pushed there.
pub fn law_slots_tell()
    ensures told { AfterEveryRun SlotsTell }
{}

/// A batch that comes after a seat's entry number waits for the seat while it is inside: it isn't opened, or hasn't passed
/// the seat's slot, or the seat owes it; and its count isn't zero.
pub fn law_inside_is_counted()
    ensures counted { AfterEveryRun InsideIsCounted }
{}

/// Where no seat is between its enter and its last pay, and the mover isn't inside a batch, nothing is owed.
pub fn law_quiet_is_zero()
    ensures zero { AfterEveryRun QuietIsZero }
{}

/// A schedule of two seats and two slots through all six steps, and what its steps answer.
pub fn law_schedule_of_two()
    ensures possible { MayRun (owed_opening 2 2) schedule }
    ensures answered { answers (owed_opening 2 2) schedule ≡ schedule_answers }
    ensures zero { count_of (owed_run (owed_opening 2 2) schedule) 1 ≡ 0 }
{}

/// A mover that settles a slot before it pushes there, by a number that it loaded earlier, forgets a seat that enters
/// between: the count is zero while that seat is inside and owes the batch. It is right only where nobody enters.
pub fn law_settle_comes_after_push()
    ensures count { count_of entered_between 1 ≡ 0 }
    ensures owed { owed_of entered_between 1 ≡ 1 }
    ensures forgotten { owes entered_between 1 (seat_at entered_between 0) ≡ true }
    ensures count_of_nobody { count_of nobody_between 1 ≡ 0 }
    ensures owed_of_nobody { owed_of nobody_between 1 ≡ 0 }
{}

/// A seat that pays also the batch whose number is its entry number takes the count below what is owed.
pub fn law_entry_number_is_not_owed()
    ensures possible { MayRun (owed_opening 1 2) one_owes_steps }
    ensures count_before { count_of one_owes 1 ≡ 1 }
    ensures owed_before { owed_of one_owes 1 ≡ 1 }
    ensures count { count_of paid_entry_number 1 ≡ 0 }
    ensures owed { owed_of paid_entry_number 1 ≡ 1 }
{}
