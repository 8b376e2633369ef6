//! The table over atomic words: its rule, and what each kind of step tells its seat.

use crate::shape::Shape;
use crate::view::Doing;
use atomic_table::{Join, Play, Split, Table, TableRule};
use std::alloc::Global;
use std::marker::{Brand, PhantomData};

/// The words and the views stand for one state of the joined machine, reached from the opening. The key is what
/// the table was opened with.
pub struct MapRule;

impl TableRule<(), Doing, Shape> for MapRule {
    ghost use Rattle.ad_maps.specs.Rule.{Kept, starting};

    ghost holds = { Kept };

    ghost first = { starting };
}

pub(crate) type MapTable = Table<(), Doing, Shape, MapRule, Global>;

pub(crate) type ClosedTable = atomic_table::Closed<(), Global>;

pub(crate) type TableSeat = atomic_table::Seat<(), Doing>;

/// What a step notes in its seat's view, or tells of the table's shape, and no operand of it carries. A call at
/// `Brand` picks it.
pub(crate) trait Noted {
    ghost use Rattle.std.specs.Prelude.{ℕ};
    ghost use Rattle.ad_maps.specs.declared.shape.Shape.{Shape};
    ghost use Rattle.ad_maps.specs.declared.view.Made.{Made};

    ghost shape: { Shape };

    ghost number: { ℕ };

    ghost made: { Made };
}

impl Noted for Brand {
    ghost use Rattle.ad_maps.specs.Private.Tells.{nothing_known, nothing_made};

    ghost shape = { nothing_known };

    ghost number = { 0 };

    ghost made = { nothing_made };
}

/// A worker adds one to its slot's word.
pub(crate) struct Enter;

impl Play<(), Doing> for Enter {
    ghost use Rattle.ad_maps.specs.Steps.{after_enter, Becomes};

    ghost then = { Becomes after_enter };
}

/// A worker loads the word of a module's current mapping.
pub(crate) struct Read<N> {
    noted: PhantomData<N>,
}

impl<N: Noted> Play<(), Doing> for Read<N> {
    ghost use Rattle.ad_maps.specs.Private.Tells.{Reads};

    ghost then = { Reads N.shape N.number };
}

/// A worker loads the directory's word of an address's region.
pub(crate) struct Page<N> {
    noted: PhantomData<N>,
}

impl<N: Noted> Play<(), Doing> for Page<N> {
    ghost use Rattle.ad_maps.specs.Private.Tells.{Pages};

    ghost then = { Pages N.number };
}

/// A worker loads an entry of its mapping's local area.
pub(crate) struct Entry<N> {
    noted: PhantomData<N>,
}

impl<N: Noted> Play<(), Doing> for Entry<N> {
    ghost use Rattle.ad_maps.specs.Private.Tells.{Cells};

    ghost then = { Cells N.shape N.number };
}

/// A worker takes one from its slot's word.
pub(crate) struct Leave;

impl Play<(), Doing> for Leave {
    ghost use Rattle.ad_maps.specs.Private.Tells.{Leaves};

    ghost then = { Leaves };
}

/// A worker takes one from the count of a batch.
pub(crate) struct Pay;

impl Play<(), Doing> for Pay {
    ghost use Rattle.ad_maps.specs.Steps.{after_pay, Becomes};

    ghost then = { Becomes after_pay };
}

/// Who frees a batch loads the word of one of its members.
pub(crate) struct Member;

impl Play<(), Doing> for Member {
    ghost use Rattle.ad_maps.specs.Steps.{after_member, Becomes};

    ghost then = { Becomes after_member };
}

/// Who frees a batch adds one unmap step to a directory word.
pub(crate) struct Unmap;

impl Play<(), Doing> for Unmap {
    ghost use Rattle.ad_maps.specs.Private.Tells.{Unmaps};

    ghost then = { Unmaps };
}

/// Who frees a batch gives a frame back.
pub(crate) struct Give;

impl Play<(), Doing> for Give {
    ghost use Rattle.ad_maps.specs.Steps.{after_give, Becomes};

    ghost then = { Becomes after_give };
}

/// The mover looks at the owner of a frame.
pub(crate) struct Look<N> {
    noted: PhantomData<N>,
}

impl<N: Noted> Play<(), Doing> for Look<N> {
    ghost use Rattle.ad_maps.specs.Private.Tells.{Looks};

    ghost then = { Looks N.shape N.number };
}

/// The mover takes the frame of a new mapping.
pub(crate) struct Take<N> {
    noted: PhantomData<N>,
}

impl<N: Noted> Play<(), Doing> for Take<N> {
    ghost use Rattle.ad_maps.specs.Steps.{after_take, Becomes};

    ghost then = { Becomes (after_take N.made) };
}

/// The mover fills a cell of the frame that it took.
pub(crate) struct Fill;

impl Play<(), Doing> for Fill {
    ghost use Rattle.ad_maps.specs.Steps.{after_fill, Becomes};

    ghost then = { Becomes after_fill };
}

/// The mover puts a new mapping into the directory.
pub(crate) struct Map;

impl Play<(), Doing> for Map {
    ghost use Rattle.ad_maps.specs.Steps.{after_map, Becomes};

    ghost then = { Becomes after_map };
}

/// The mover swaps the word of a module's current mapping with that of a new one.
pub(crate) struct Switch<N> {
    noted: PhantomData<N>,
}

impl<N: Noted> Play<(), Doing> for Switch<N> {
    ghost use Rattle.ad_maps.specs.Private.Tells.{Switches};

    ghost then = { Switches N.shape N.made };
}

/// The mover lists a mapping in its next batch.
pub(crate) struct List<N> {
    noted: PhantomData<N>,
}

impl<N: Noted> Play<(), Doing> for List<N> {
    ghost use Rattle.ad_maps.specs.Steps.{after_list, Becomes};

    ghost then = { Becomes (after_list N.made N.number) };
}

/// The mover opens its next batch.
pub(crate) struct Open;

impl Play<(), Doing> for Open {
    ghost use Rattle.ad_maps.specs.Private.Tells.{Opens};

    ghost then = { Opens };
}

/// The mover pushes its batch on a slot.
pub(crate) struct Push;

impl Play<(), Doing> for Push {
    ghost use Rattle.ad_maps.specs.Steps.{after_push, Becomes};

    ghost then = { Becomes after_push };
}

/// The mover settles a slot.
pub(crate) struct Settle;

impl Play<(), Doing> for Settle {
    ghost use Rattle.ad_maps.specs.Steps.{after_settle, Becomes};

    ghost then = { Becomes after_settle };
}

/// A worker's seat is split off the mover's.
pub(crate) struct Deal;

impl Split<Doing> for Deal {
    ghost use Rattle.ad_maps.specs.Steps.{after_deal, given_off};

    ghost left = { after_deal };

    ghost right = { given_off };
}

/// A worker's seat is joined to the mover's.
pub(crate) struct Gather;

impl Join<Doing> for Gather {
    ghost use Rattle.ad_maps.specs.Steps.{after_join};
    ghost use Rattle.ad_maps.specs.declared.view.Doing.TheVariants.{Spent};

    ghost both = { after_join };

    ghost spent = { Spent };
}
