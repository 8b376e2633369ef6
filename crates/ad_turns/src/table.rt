//! The table over atomic words: its rule, and what each kind of step tells its seat.

use crate::boxed::BoxedBook;
use crate::counts::Counts;
use crate::view::Doing;
use ad_base::Book;
use atomic_table::{Join, Play, Split, Table, TableRule};
use std::alloc::Global;
use std::marker::{Brand, PhantomData};
use std::snapshot::Snapshot;

/// What the table was opened with. It has no bytes.
#[derive(Drop)]
pub struct Opening {
    pub(crate) books: Snapshot<Vec<Book>>,
    pub(crate) calls: Snapshot<Vec<Counts>>,
}

/// The words, the slots and the views stand for one account of the turns. The key is what the table was
/// opened with.
pub struct TurnRule;

impl TableRule<Option<BoxedBook>, Doing, Opening> for TurnRule {
    ghost use Rattle.ad_turns.specs.Rule.{Kept};
    ghost use Rattle.ad_turns.specs.declared.view.Doing.TheVariants.{Dealer};

    ghost holds = { λ key. Kept key.books.value.items key.calls.value.items };

    ghost first = { λ key. Dealer 0 key.calls.value.items };
}

pub(crate) type TurnTable = Table<Option<BoxedBook>, Doing, Opening, TurnRule, Global>;

pub(crate) type Seat = atomic_table::Seat<Option<BoxedBook>, Doing>;

/// A worker draws a ticket of the module whose word it steps on.
pub(crate) struct Draw;

impl Play<Option<BoxedBook>, Doing> for Draw {
    ghost use Rattle.ad_turns.specs.Steps.{Draws};

    ghost then = { Draws };
}

/// What a look tells of the books of the opening, which no operand of a step carries. A call at `Brand` picks it.
pub(crate) trait Opened {
    ghost use Rattle.std.specs.Prelude.{List};
    ghost use Rattle.ad_base.specs.declared.book.Book.{Book};

    ghost openings: { List Book };
}

impl Opened for Brand {
    ghost use Rattle.std.specs.Prelude.{[]};

    ghost openings = { [] };
}

/// A worker looks which ticket is served, and has the slot where it is its own.
pub(crate) struct Look<N> {
    opened: PhantomData<N>,
}

impl<N: Opened> Play<Option<BoxedBook>, Doing> for Look<N> {
    ghost use Rattle.ad_turns.specs.Steps.{Looks};

    ghost then = { Looks N.openings };
}

/// The book that a turn leaves, which no operand of a step carries. A call at `Brand` picks it.
pub(crate) trait Noted {
    ghost use Rattle.ad_base.specs.declared.book.Book.{Book};

    ghost after: { Book };
}

impl Noted for Brand {
    ghost use Rattle.ad_turns.specs.Steps.{no_book};

    ghost after = { no_book };
}

/// A worker notes its turn.
pub(crate) struct Note<N> {
    noted: PhantomData<N>,
}

impl<N: Noted> Play<Option<BoxedBook>, Doing> for Note<N> {
    ghost use Rattle.ad_turns.specs.Steps.{Notes};

    ghost then = { Notes N.after };
}

/// A worker passes the module on, and gives back the slot.
pub(crate) struct Pass;

impl Play<Option<BoxedBook>, Doing> for Pass {
    ghost use Rattle.ad_turns.specs.Steps.{Passes};

    ghost then = { Passes };
}

/// A worker's seat is split off the dealer's.
pub(crate) struct Deal;

impl Split<Doing> for Deal {
    ghost use Rattle.ad_turns.specs.Steps.{after_deal, given_off};

    ghost left = { after_deal };

    ghost right = { given_off };
}

/// A seat that is to join the workers' seats is made.
pub(crate) struct Enter;

impl Play<Option<BoxedBook>, Doing> for Enter {
    ghost use Rattle.ad_turns.specs.Steps.{Enters};

    ghost then = { Enters };
}

/// A worker's seat is joined to the gatherer's.
pub(crate) struct Gather;

impl Join<Doing> for Gather {
    ghost use Rattle.ad_turns.specs.Steps.{after_join};
    ghost use Rattle.ad_turns.specs.declared.view.Doing.TheVariants.{Spent};

    ghost both = { after_join };

    ghost spent = { Spent };
}
