//! The worked row of a world, and each public call once.
use crate::{Event, World, laws, owed, reclaim, reclaim_examples};
use std::test::Fail;

/// One worker, whose module 0 has mapping 1: mapping 1 is unmapped once, and only after the worker has left it.
#[test]
fn worked_row(rt: HostRuntime) -> Result<(), Fail> {
    let mut world = World::new(rt.alloc(), 1, &[1])?;
    let unmap = Event::Unmap { mapping: 1 };
    let before = [
        Event::Enter { worker: 0 },
        Event::Read {
            worker: 0,
            module: 0,
            mapping: 1,
        },
        Event::Map {
            module: 0,
            mapping: 2,
        },
        Event::Switch {
            module: 0,
            mapping: 2,
        },
        Event::Retire { mapping: 1 },
    ];
    for event in before {
        assert!(rt; world.lawful(&event), "{event:?}");
        world.apply(&event)?;
    }
    assert!(rt; !world.lawful(&unmap));
    for event in [Event::Leave { worker: 0 }, unmap] {
        assert!(rt; world.lawful(&event), "{event:?}");
        world.apply(&event)?;
    }
    assert!(rt; !world.lawful(&unmap));
    Ok(())
}

/// The laws are calls like any other.
#[test]
fn laws_are_called() {
    laws::law_opening_has_the_given();
    laws::law_one_current();
    laws::law_statuses_go_on();
    laws::law_none_gone_inside();
    laws::law_entered_is_apart();
    laws::law_gone_once();
    laws::law_worked_row_is_lawful();
    owed::law_owed_steps_keep();
    owed::law_counts_are_owed();
    owed::law_words_hold_the_numbers();
    owed::law_zero_is_done();
    owed::law_zero_comes_once();
    owed::law_slots_tell();
    owed::law_inside_is_counted();
    owed::law_quiet_is_zero();
    owed::law_schedule_of_two();
    owed::law_settle_comes_after_push();
    owed::law_entry_number_is_not_owed();
    reclaim::law_steps_keep();
    reclaim::law_runs_both();
    reclaim::law_in_is_inside();
    reclaim::law_batch_is_told();
    reclaim::law_pinned();
    reclaim::law_zero_is_the_right();
    reclaim::law_nothing_is_left();
    reclaim::law_quiet_is_gone();
    reclaim_examples::law_schedule_of_three();
    reclaim_examples::law_retired_under_a_worker();
    reclaim_examples::law_switch_unmaps_the_old();
    reclaim_examples::law_settle_before_push();
    reclaim_examples::law_entry_number_is_paid();
    reclaim_examples::law_leave_frees_unpaid();
    reclaim_examples::law_zero_is_put_off();
    reclaim_examples::law_batch_is_freed_twice();
    reclaim_examples::law_another_batch_is_freed();
    reclaim_examples::law_read_before_counted();
    reclaim_examples::law_pay_before_leave();
    reclaim_examples::law_settle_one_slot_fewer();
}
