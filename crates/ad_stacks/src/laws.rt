//! The laws of the steps. Each function makes no call: its contract is the law.

ghost use Rattle.std.specs.Prelude.{◌≡◌, ◌<◌, ℕ, List, [], ◌∷◌, All, AllPairs};
ghost use Rattle.ad_base.specs.declared.ledger.Row.{Row};
ghost use Rattle.ad_base.specs.Ledger.{IsLedger, IsUnmappedOnce, Mapping};
ghost use Rattle.ad_stacks.specs.History.{in_lane, gone, line_of, status, takes_of, AreLawful};
ghost use Rattle.ad_stacks.specs.Ledger.{by_number, stack_mappings};
ghost use Rattle.ad_stacks.specs.Worked.{worked_history, worked_place, worked_refresh, worked_rows};
ghost use Rattle.ad_stacks.specs.Reading.{ReadingLaw, HeldLaw, QuietLaw, LanesLaw, HandsLaw, NumbersLaw, GoneOnceLaw};
ghost use Rattle.ad_stacks.specs.Opening.{OpeningWordsLaw, OpenedLaw, DealtLaw};
ghost use Rattle.ad_stacks.specs.Laws.{TakeLaw, PutLaw, GoneLaw, MoverGoneLaw, RecordLaw, RefreshLaw, MarkLaw, SplitLaw, JoinLaw};

/// A table that is opened begins with the words of its openings: each lane has its stack, no unmap step is counted, and
/// no mapping is marked. With these words, and the mover's view, it meets the rule, and so does it behind each seat
/// that is dealt to a worker.
pub fn law_opening()
    ensures words { OpeningWordsLaw }
    ensures opened { OpenedLaw }
    ensures dealt { DealtLaw }
{}

/// A take is lawful, keeps the rule, and is the event `took`, of the place whose word it found.
pub fn law_take()
    ensures { TakeLaw }
{}

/// A put is lawful, keeps the rule, and is the event `put`.
pub fn law_put()
    ensures { PutLaw }
{}

/// A worker's unmap step keeps the rule, and is no event.
pub fn law_gone()
    ensures { GoneLaw }
{}

/// The mover's unmap step keeps the rule, and is no event.
pub fn law_mover_gone()
    ensures { MoverGoneLaw }
{}

/// To record a new stack keeps the rule, and is no event.
pub fn law_record()
    ensures { RecordLaw }
{}

/// A refresh's swap is lawful, keeps the rule, and is the event `refreshed`.
pub fn law_refresh()
    ensures { RefreshLaw }
{}

/// To mark a replaced stack keeps the rule, and is no event.
pub fn law_mark()
    ensures { MarkLaw }
{}

/// To split off a worker's seat keeps the rule, and is no event.
pub fn law_split()
    ensures { SplitLaw }
{}

/// To join a worker's seat keeps the rule, and is no event.
pub fn law_join()
    ensures { JoinLaw }
{}

/// The state is read off the words and the views: In off the lanes, Held off the seats' views, and
/// Gone off the record words, or before its unmap step off the view of the seat that owes it. Some seat
/// holds each stack that is Held, each that a seat owes is Gone, and only a Gone one counts unmap steps.
pub fn law_reading()
    ensures { ReadingLaw }
{}

/// A stack that a seat holds is Held and not Gone, and no unmap step was made on it.
pub fn law_held()
    ensures { HeldLaw }
{}

/// Where no stack is held and no put or refresh is under way, each replaced stack is Gone, its record
/// word counts exactly one unmap step, and its mark is the line that replaced it. No other is Gone.
pub fn law_quiet()
    ensures { QuietLaw }
{}

/// Of each lawful history: a lane has a stack exactly where that stack is In it, and a worker holds one
/// exactly where it is Held.
pub fn law_lanes()
    ensures lanes { LanesLaw }
    ensures hands { HandsLaw }
{}

/// Of each lawful history: the mapping numbers that a worker took never fall.
pub fn law_numbers()
    ensures { NumbersLaw }
{}

/// Of each lawful history: a stack that is Gone was made so by exactly one event, and none is made Gone
/// twice.
pub fn law_gone_once()
    ensures { GoneOnceLaw }
{}

/// The ledger of mappings whose numbers rise is in order of number as it stands. So where the numbers of the
/// opening rise, the rows of a closed table are the ledger of the stacks, in the order in which they were given.
pub fn law_rows_in_order()
    ensures { (mappings : List Mapping) (rows : List Row) (n : ℕ) → IsLedger mappings rows
        → AllPairs (λ (m k : Mapping). m.place.mapping < k.place.mapping) mappings
        → All (λ (m : Mapping). m.place.mapping < n) mappings → by_number rows n ≡ rows }
{}

/// A worked history: mapping 1 is taken, its lane is given mapping 2 in line 4, and mapping 1 is put back.
/// Then mapping 1 is Gone and mapping 2 is In the lane; the rows say the same.
pub fn law_worked_history()
    ensures lawful { AreLawful worked_history }
    ensures replaced { status worked_history 1 ≡ gone 0 (worked_place 1) }
    ensures inside { status worked_history 2 ≡ in_lane 0 (worked_place 2) }
    ensures line { line_of worked_history 1 ≡ 4 }
    ensures takes { takes_of worked_history 0 ≡ worked_place 1 ∷ [] }
    ensures ledger { IsLedger (stack_mappings (worked_place 1 ∷ []) (worked_refresh ∷ [])) worked_rows }
    ensures unmapped { All IsUnmappedOnce worked_rows }
    ensures order { by_number worked_rows 3 ≡ worked_rows }
{}
