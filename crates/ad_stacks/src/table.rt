//! The table over atomic words: its rule, and what each kind of step tells its seat.

use crate::view::Doing;
use ad_base::Place;
use atomic_table::{Join, Play, Split, Table, TableRule};
use std::alloc::Global;
use std::marker::{Brand, PhantomData};

/// The words and the views stand for one lawful history of the stacks. The key is the list of the
/// places that the table was opened with.
pub struct StackRule;

impl TableRule<(), Doing, Vec<Place>> for StackRule {
    ghost use Rattle.ad_stacks.specs.Rule.{Kept, starting};

    ghost holds = { λ key. Kept key.items };

    ghost first = { λ key. starting key.items };
}

pub(crate) type StackTable = Table<(), Doing, Vec<Place>, StackRule, Global>;

pub(crate) type Seat = atomic_table::Seat<(), Doing>;

/// A worker swaps its lane's word with 0.
pub(crate) struct Take;

impl Play<(), Doing> for Take {
    ghost use Rattle.ad_stacks.specs.Steps.{Takes};

    ghost then = { Takes };
}

/// A worker exchanges its lane's word from 0 for its stack's.
pub(crate) struct Put;

impl Play<(), Doing> for Put {
    ghost use Rattle.ad_stacks.specs.Steps.{after_put, Becomes};

    ghost then = { Becomes after_put };
}

/// A worker or the mover counts an unmap step.
pub(crate) struct Gone;

impl Play<(), Doing> for Gone {
    ghost use Rattle.ad_stacks.specs.Steps.{after_gone, Becomes};

    ghost then = { Becomes after_gone };
}

/// What a refresh notes in the mover's view, and no operand of a step carries. A call at `Brand` picks it.
pub(crate) trait Noted {
    ghost use Rattle.ad_stacks.specs.declared.view.Given.{Given};

    ghost given: { Given };
}

impl Noted for Brand {
    ghost use Rattle.ad_stacks.specs.Steps.{nothing_given};

    ghost given = { nothing_given };
}

/// The mover records a new stack.
pub(crate) struct Record<N> {
    noted: PhantomData<N>,
}

impl<N: Noted> Play<(), Doing> for Record<N> {
    ghost use Rattle.ad_stacks.specs.Steps.{after_record, Becomes};

    ghost then = { Becomes (after_record N.given) };
}

/// The mover swaps a lane's word with the new stack's.
pub(crate) struct Refresh;

impl Play<(), Doing> for Refresh {
    ghost use Rattle.ad_stacks.specs.Steps.{Refreshes};

    ghost then = { Refreshes };
}

/// The mover marks the stack that was replaced.
pub(crate) struct Mark;

impl Play<(), Doing> for Mark {
    ghost use Rattle.ad_stacks.specs.Steps.{after_mark, Becomes};

    ghost then = { Becomes after_mark };
}

/// A worker's seat is split off the mover's.
pub(crate) struct Deal;

impl Split<Doing> for Deal {
    ghost use Rattle.ad_stacks.specs.Steps.{after_deal, given_off};

    ghost left = { after_deal };

    ghost right = { given_off };
}

/// A worker's seat is joined to the mover's.
pub(crate) struct Gather;

impl Join<Doing> for Gather {
    ghost use Rattle.ad_stacks.specs.Steps.{after_join};
    ghost use Rattle.ad_stacks.specs.declared.view.Doing.TheVariants.{Spent};

    ghost both = { after_join };

    ghost spent = { Spent };
}
