//! When a mapping may be unmapped: the world of mappings and what seats owe, as one machine. Worker i has seat i. A mapping that
//! is retired is listed in the batch that is opened next, and who brings the count of a batch to zero unmaps its mappings.
//! The machine stands in the definitions. The functions here are its laws, over every list of steps from the opening.
ghost use Rattle.ad_events.specs.ReclaimLaws.{AboveUntilOpen, AfterEveryRun, BatchIsTold, BatchStays, EachBroughtOnce, EachRunsBoth, GoneIsZeroed, HoldsAtOpening, InIsInside, LawfulInBoth, LeaveReturns, LeftByOwnSteps, NotedByMaker, NotedStays, NotGoneInside, OnlyWhoZeroedUnmaps, Pinned, QuietIsGone, RetireReturns, StepsKeep, WhoZeroedMayUnmap, ZeroIsNoted};

/// The invariant holds at the opening, and each step that may be made keeps it.
pub fn law_steps_keep()
    ensures opening { HoldsAtOpening }
    ensures step { StepsKeep }
{}

/// Each step that may be made is lawful in the world, and may be made in what is owed. So each run is a list of lawful events
/// of the world, and a list of steps of what is owed that may be made.
pub fn law_runs_both()
    ensures lawful { AfterEveryRun LawfulInBoth }
    ensures runs { EachRunsBoth }
{}

/// A worker has entered or is inside a mapping exactly where its seat is inside.
pub fn law_in_is_inside()
    ensures inside { AfterEveryRun InIsInside }
{}

/// A mapping has a batch exactly where it is retired or gone, numbered from 1 to the last opened plus one, and keeps it. It
/// is above the last batch opened only from a retire to the next open.
pub fn law_batch_is_told()
    ensures told { AfterEveryRun BatchIsTold }
    ensures above { AfterEveryRun AboveUntilOpen }
    ensures stays { AfterEveryRun BatchStays }
{}

/// A worker is inside a mapping that is listed in a batch: the batch isn't opened yet, or hasn't passed the seat's slot, or the
/// seat owes it; and the seat's entry number is below the batch's. So a mapping that a worker is inside isn't gone.
pub fn law_pinned()
    ensures pinned { AfterEveryRun Pinned }
    ensures not_gone { AfterEveryRun NotGoneInside }
{}

/// The count of an opened batch is zero exactly where a settle or a pay brought it there, in one step of the run; then the
/// batch is settled on every slot, and nobody owes it. From then on the maker of that step may unmap each mapping of the
/// batch that isn't gone, which is lawful in the world. Nobody else may unmap it, and no other mapping may be unmapped.
pub fn law_zero_is_the_right()
    ensures noted { AfterEveryRun ZeroIsNoted }
    ensures maker { AfterEveryRun NotedByMaker }
    ensures once { EachBroughtOnce }
    ensures stays { AfterEveryRun NotedStays }
    ensures may { AfterEveryRun WhoZeroedMayUnmap }
    ensures only { AfterEveryRun OnlyWhoZeroedUnmaps }
{}

/// The batch of a mapping that is gone is opened and was brought to zero. What an agent has left to free grows by its own steps
/// alone, by those that bring a batch to zero, and then by that batch. A worker that has left, has paid what it owed and has
/// unmapped the mappings of each batch that it brought to zero owes nothing and has nothing left to free. A batch that the
/// mover has settled on each slot is settled everywhere, and where it unmapped the mappings of each batch that it brought to
/// zero, it has nothing left to free.
pub fn law_nothing_is_left()
    ensures gone { AfterEveryRun GoneIsZeroed }
    ensures own { AfterEveryRun LeftByOwnSteps }
    ensures leave { AfterEveryRun LeaveReturns }
    ensures retire { AfterEveryRun RetireReturns }
{}

/// Where each seat is away, nobody has anything left to free, each batch is settled everywhere and no mapping is listed above
/// the last batch opened, no mapping is retired: each listed one is gone, by exactly one unmap.
pub fn law_quiet_is_gone()
    ensures gone { QuietIsGone }
{}
