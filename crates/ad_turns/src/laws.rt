//! The laws of the opening and of the steps. Each function makes no call: its contract is the law.

ghost use Rattle.std.specs.Prelude.{◌≡◌, [], ◌∷◌};
ghost use Rattle.atomic_table.specs.Seated.{TableId};
ghost use Rattle.ad_base.specs.Book.{contents_of};
ghost use Rattle.ad_turns.specs.Turns.{turns_at, turns_by, turns_of, AreNumbered, AddsOwnEntry, Reaches};
ghost use Rattle.ad_turns.specs.Merged.{AreReached, IsReached};
ghost use Rattle.ad_turns.specs.Worked.{worked_books, worked_earlier, worked_last, worked_later, worked_made, worked_opening, worked_openings, worked_other, worked_seats};
ghost use Rattle.ad_turns.specs.Opening.{DealtLaw, OpenedLaw, WordsLaw};
ghost use Rattle.ad_turns.specs.Laws.{DrawLaw, DrawsLaw, EnterLaw, HeldLaw, JoinLaw, LookLaw, MissLaw, NoteLaw, PassLaw, SplitLaw, TicketsLaw};

/// A table as it is opened meets the rule, and so it does behind each seat that is dealt. The words that it begins with
/// say that no ticket was drawn, and that the first one is served next.
pub fn law_opening()
    ensures words { WordsLaw }
    ensures opened { OpenedLaw }
    ensures dealt { DealtLaw }
{}

/// A draw keeps the rule.
pub fn law_draw()
    ensures { DrawLaw }
{}

/// A look that finds the seat's ticket served keeps the rule, and the seat has the slot with the book in it.
pub fn law_look()
    ensures { LookLaw }
{}

/// A look by which a seat takes no slot, as where its ticket isn't served, keeps the rule and changes nothing.
pub fn law_miss()
    ensures { MissLaw }
{}

/// To note a turn keeps the rule, and adds the turn to those of its module.
pub fn law_note()
    ensures { NoteLaw }
{}

/// To pass a module on keeps the rule.
pub fn law_pass()
    ensures { PassLaw }
{}

/// To split off a worker's seat keeps the rule.
pub fn law_split()
    ensures { SplitLaw }
{}

/// To make a seat that joins the others keeps the rule.
pub fn law_enter()
    ensures { EnterLaw }
{}

/// To join a worker's seat keeps the rule.
pub fn law_join()
    ensures { JoinLaw }
{}

/// The tickets that were drawn of a module, and the draws that are left to all workers, are together at most the
/// draws that the opening allowed.
pub fn law_draws()
    ensures { DrawsLaw }
{}

/// Each ticket below the number of those that were drawn of a module was drawn by one worker, no ticket was drawn by
/// two, and none from that number on was drawn.
pub fn law_tickets()
    ensures { TicketsLaw }
{}

/// A seat that has a module's book has the ticket that is served, and no other seat has the book.
pub fn law_held()
    ensures { HeldLaw }
{}

/// A worked account: two turns of two workers lead from an opening book to the last one, each worker's list is its
/// own turn, and no turn is at another module.
pub fn law_worked_turns()
    ensures numbered { AreNumbered 0 worked_made }
    ensures reaches { Reaches (contents_of worked_opening) (turns_of worked_made) (contents_of worked_last) }
    ensures first { turns_by 1 worked_made ≡ worked_earlier ∷ [] }
    ensures second { turns_by 0 worked_made ≡ worked_later ∷ [] }
    ensures here { turns_at 0 (turns_of worked_made) ≡ turns_of worked_made }
    ensures elsewhere { turns_at 1 (turns_of worked_made) ≡ [] }
    ensures own { AddsOwnEntry 0 worked_later }
{}

/// A worked end of two modules and two workers: the books are reached by the turns of both seats. They aren't where
/// the first turn of a module is left out of its seat's list, or the last one, or where a turn stands in a list
/// twice.
pub fn law_worked_end()
    ensures reached { (table : TableId) → AreReached worked_openings worked_books (worked_seats table (worked_other ∷ worked_later ∷ []) (worked_earlier ∷ [])) }
    ensures first_left_out { (table : TableId) → ¬ IsReached 0 worked_opening worked_last (worked_seats table (worked_other ∷ worked_later ∷ []) []) }
    ensures last_left_out { (table : TableId) → ¬ IsReached 0 worked_opening worked_last (worked_seats table (worked_other ∷ []) (worked_earlier ∷ [])) }
    ensures first_twice { (table : TableId) → ¬ IsReached 0 worked_opening worked_last (worked_seats table (worked_other ∷ worked_later ∷ []) (worked_earlier ∷ worked_earlier ∷ [])) }
    ensures last_twice { (table : TableId) → ¬ IsReached 0 worked_opening worked_last (worked_seats table (worked_other ∷ worked_later ∷ worked_later ∷ []) (worked_earlier ∷ [])) }
{}
