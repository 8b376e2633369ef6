//! Computed examples of the joined machine: a schedule through all its steps, the story of one retired mapping, and wrong
//! machines. Of each wrong machine a clause says which law it breaks.
ghost use Rattle.std.specs.Prelude.{◌≡◌, ℕ, List, [], ◌∷◌, ◌++◌, Some, None, map, count_by};
ghost use Rattle.ad_events.specs.declared.mapping.Status.TheVariants.{Current, Retired, Gone};
ghost use Rattle.ad_events.specs.World.{status_of};
ghost use Rattle.ad_events.specs.WorldLaws.{unmaps};
ghost use Rattle.ad_events.specs.Owed.{IsIdle, SettledEverywhere, answers, count_of};
ghost use Rattle.ad_events.specs.OwedLaws.{AllAway};
ghost use Rattle.ad_events.specs.Reclaim.{Agent, Mover, Open, Unmap, Worker, MayRun, MayStep, reclaim_run};
ghost use Rattle.ad_events.specs.ReclaimLaws.{AllIsGone, GoneIsZeroed, InIsInside, IsQuiet, NoneAbove, NotGoneInside, NothingLeft, WhoZeroedMayUnmap, ZeroIsNoted, events_of, owing_steps_of};
ghost use Rattle.ad_events.specs.ReclaimExamples.{freed_another, freed_twice, freed_unpaid, opening_of_one, opening_of_three, paid_inside, paid_too_much, put_off, read_uncounted, retired_inside, schedule, schedule_answers, settled_before_push, settled_short, then_left, unmapped_at_switch, unmapped_uncounted};

/// A schedule of one mover, two workers on one slot and one on another, two modules and three batches: what its
/// steps answer, and at its end the status of each mapping, its batch, and who brought each batch to zero.
pub fn law_schedule_of_three()
    ensures possible { MayRun opening_of_three schedule }
    ensures answered { answers opening_of_three.owed (owing_steps_of schedule) ≡ schedule_answers }
    ensures statuses { map (status_of (reclaim_run opening_of_three schedule).world) (1 ∷ 2 ∷ 3 ∷ 4 ∷ 5 ∷ 6 ∷ []) ≡ Some Gone ∷ Some Gone ∷ Some Gone ∷ Some Gone ∷ Some Current ∷ Some Current ∷ [] }
    ensures batches { map (reclaim_run opening_of_three schedule).batch (1 ∷ 2 ∷ 3 ∷ 4 ∷ 5 ∷ 6 ∷ []) ≡ Some 1 ∷ Some 2 ∷ Some 3 ∷ Some 3 ∷ None ∷ None ∷ [] }
    ensures brought { map (reclaim_run opening_of_three schedule).zeroed (1 ∷ 2 ∷ 3 ∷ []) ≡ Some (Worker 2) ∷ Some (Worker 1) ∷ Some Mover ∷ [] }
{}

/// A mapping that is retired while a worker is inside it stays retired, and nobody may unmap it. Once the worker has left and
/// paid, it is unmapped, by exactly one step, and all is quiet. The mapping that took its place is then current, in no batch, and
/// no step unmaps it.
pub fn law_retired_under_a_worker()
    ensures possible { MayRun opening_of_one (retired_inside ++ then_left) }
    ensures owed { count_of (reclaim_run opening_of_one retired_inside).owed 1 ≡ 1 }
    ensures retired { status_of (reclaim_run opening_of_one retired_inside).world 1 ≡ Some Retired }
    ensures by_nobody { (a : Agent) → ¬ MayStep (reclaim_run opening_of_one retired_inside) (Unmap 1 a) }
    ensures gone { status_of (reclaim_run opening_of_one (retired_inside ++ then_left)).world 1 ≡ Some Gone }
    ensures once { count_by (unmaps 1) (events_of (retired_inside ++ then_left)) ≡ 1 }
    ensures current { status_of (reclaim_run opening_of_one (retired_inside ++ then_left)).world 2 ≡ Some Current }
    ensures unlisted { (reclaim_run opening_of_one (retired_inside ++ then_left)).batch 2 ≡ None }
    ensures never { count_by (unmaps 2) (events_of (retired_inside ++ then_left)) ≡ 0 }
    ensures quiet { IsQuiet (reclaim_run opening_of_one (retired_inside ++ then_left)) }
{}

/// A switch that unmaps the old mapping straight away: a worker is inside a mapping that is gone.
pub fn law_switch_unmaps_the_old()
    ensures broken { ¬ NotGoneInside unmapped_at_switch }
{}

/// A mover that settles before it pushes, with an old number: the count is zero while a worker inside owes the batch, so the
/// mover would unmap under the worker.
pub fn law_settle_before_push()
    ensures owed { ¬ ZeroIsNoted settled_before_push }
    ensures unmapped { ¬ WhoZeroedMayUnmap settled_before_push }
{}

/// A leave that pays also the batch of its entry number: the count is zero while another worker owes the batch, so the leave
/// would unmap under that worker.
pub fn law_entry_number_is_paid()
    ensures owed { ¬ ZeroIsNoted paid_too_much }
    ensures unmapped { ¬ WhoZeroedMayUnmap paid_too_much }
{}

/// A leave that unmaps without having paid: its batch wasn't brought to zero, and another worker is inside the mapping.
pub fn law_leave_frees_unpaid()
    ensures unpaid { ¬ GoneIsZeroed freed_unpaid }
    ensures broken { ¬ NotGoneInside freed_unpaid }
{}

/// A leave that puts the batch that it brought to zero on a list for later, and returns: each step may be made, the seat is
/// away and the mover idle, but the worker has something left, and the mapping stays retired.
pub fn law_zero_is_put_off()
    ensures possible { MayRun opening_of_one put_off }
    ensures away { AllAway (reclaim_run opening_of_one put_off).owed }
    ensures idle { IsIdle (reclaim_run opening_of_one put_off).owed }
    ensures none_above { NoneAbove (reclaim_run opening_of_one put_off) }
    ensures left { ¬ NothingLeft (reclaim_run opening_of_one put_off) (Worker 0) }
    ensures retired { status_of (reclaim_run opening_of_one put_off).world 1 ≡ Some Retired }
{}

/// Two agents that free one batch: its mapping is unmapped twice.
pub fn law_batch_is_freed_twice()
    ensures twice { count_by (unmaps 1) (events_of freed_twice) ≡ 2 }
    ensures broken { ¬ AllIsGone (reclaim_run opening_of_one freed_twice) freed_twice }
{}

/// An unmap of a mapping of another batch than the one at zero: a worker is inside it.
pub fn law_another_batch_is_freed()
    ensures unpaid { ¬ GoneIsZeroed freed_another }
    ensures broken { ¬ NotGoneInside freed_another }
{}

/// A worker that reads before its slot's number is raised: it is inside and its seat isn't, so the mover finds nobody and
/// unmaps under it.
pub fn law_read_before_counted()
    ensures uncounted { ¬ InIsInside read_uncounted }
    ensures broken { ¬ NotGoneInside unmapped_uncounted }
{}

/// A worker that pays before it leaves: the count is zero while it owes the batch, so it would unmap under itself.
pub fn law_pay_before_leave()
    ensures owed { ¬ ZeroIsNoted paid_inside }
    ensures unmapped { ¬ WhoZeroedMayUnmap paid_inside }
{}

/// A mover that settles one slot fewer and returns: its batch isn't settled everywhere, and no other may be opened.
pub fn law_settle_one_slot_fewer()
    ensures unsettled { ¬ SettledEverywhere settled_short.owed 1 }
    ensures not_idle { ¬ MayStep settled_short Open }
{}
