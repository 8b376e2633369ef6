//! The steps of the table, one function each.

ghost use Rattle.std.specs.Prelude.{◌≡◌, ◌≢◌, ◌+◌, ◌/◌, ◌%◌, ◌^◌, ◌==◌, ◌<◌, ◌≤◌, [], ◌∷◌, ◌++◌, length, slice_index, Contains};
ghost use Rattle.ad_base.specs.declared.layout.TheConstants.{MAPPINGS, REGION_BYTES, REGIONS};
ghost use Rattle.ad_base.specs.declared.place.Place.{Place};
ghost use Rattle.ad_base.specs.Place.{base_of, packed, IsPlace, place_at};
ghost use Rattle.ad_maps.specs.declared.view.Act.TheVariants as act;
ghost use Rattle.ad_maps.specs.declared.view.Stance.TheVariants as stance;
ghost use Rattle.ad_maps.specs.declared.view.Made.{Made};
ghost use Rattle.ad_maps.specs.declared.view.Stage.TheVariants as stage;
ghost use Rattle.ad_maps.specs.declared.view.Freeing.TheVariants as freeing;
ghost use Rattle.ad_maps.specs.declared.view.Passing.TheVariants as passing;
ghost use Rattle.ad_maps.specs.declared.view.Doing.TheVariants.{Mover};
ghost use Rattle.ad_maps.specs.Laws.{MayList, MayMap};
ghost use Rattle.ad_maps.specs.Ledger.{all_made, reads_of, IsLastIn, NeverFall};
ghost use Rattle.ad_maps.specs.MapPlace.{cell_word, cells_of};
ghost use Rattle.ad_maps.specs.Steps.{after_give, after_member, after_unmap, begins, filling, gives_of, left_with, listing, looking, mapping, next_slot, opened, settles, switching, taking};
ghost use Rattle.ad_maps.specs.Private.Handles.{acts_of, entry_in, module_in, plan_of, stance_of, worker_of, HasRetired, HasRoom, IsAt, IsEntered, IsFreer, IsMover, IsPinned, IsToFree, IsWorker};
ghost use Rattle.ad_maps.specs.Private.Tells.{IsWordOf};

use crate::table::{
    Enter, Entry, Fill, Give, Leave, List, Look, Map, MapTable, Member, Noted, Open, Page, Pay,
    Push, Read, Settle, Switch, TableSeat, Take, Unmap,
};
use crate::view::Made;
use crate::words::{
    CELL_BASE, CELLS, COUNT_BASE, CURRENT_BASE, DIRECTORY_BASE, FRAME_WORDS, LINES, MEMBER_BASE,
    MEMBERS, NUMBERS, ONE_LINE, ONE_PUSH, ONE_UNMAP, OWNER_BASE, SLOTS,
};
use ad_base::{Place, REGION_BYTES};

/// Adds one to the slot's word, and answers what it was.
pub(crate) fn enter(table: &MapTable, seat: &mut TableSeat, slot: u64) -> u64
    requires at { IsAt table.now.shared.table_id seat.old.table_id }
    requires away { IsWorker seat.old.me slot stance.Away }
    ensures at { seat.new.table_id ≡ seat.old.table_id }
    ensures entered { IsEntered seat.new.me slot }
    ensures entry { entry_in (stance_of seat.new.me.0) ≡ result / 2 ^ 32 }
    ensures worker { worker_of seat.new.me.0 ≡ worker_of seat.old.me.0 }
    ensures acts { acts_of seat.new.me.0 ≡ acts_of seat.old.me.0 ++ act.Enter ∷ [] }
{
    table.shared.fetch_add::<Enter>(seat, slot as usize, 1)
}

/// Loads the word of the module's current mapping.
pub(crate) fn read<N: Noted>(table: &MapTable, seat: &mut TableSeat, slot: u64, module: u64) -> u64
    requires noted { (N.shape ≡ table.now.shared.key) × (N.number ≡ «module») }
    requires at { IsAt table.now.shared.table_id seat.old.table_id }
    requires entered { IsEntered seat.old.me slot }
    requires modules { length table.now.shared.key.modules ≤ 8 }
    requires in_range { «module» < length table.now.shared.key.modules }
    ensures at { seat.new.table_id ≡ seat.old.table_id }
    ensures pinned { IsPinned seat.new.me slot (place_at result) }
    ensures of_module { module_in (stance_of seat.new.me.0) ≡ «module» }
    ensures entry { entry_in (stance_of seat.new.me.0) ≡ entry_in (stance_of seat.old.me.0) }
    ensures worker { worker_of seat.new.me.0 ≡ worker_of seat.old.me.0 }
    ensures acts { acts_of seat.new.me.0 ≡ acts_of seat.old.me.0 ++ act.Read «module» (place_at result) ∷ [] }
    ensures word { IsWordOf table.now.shared.key «module» result }
    ensures falls { NeverFall (reads_of «module» (acts_of seat.new.me.0)) }
{
    table
        .shared
        .load::<Read<N>>(seat, CURRENT_BASE + module as usize)
}

/// Loads the directory's word of the address's region.
pub(crate) fn page<N: Noted>(
    table: &MapTable,
    seat: &mut TableSeat,
    slot: u64,
    place: &Place,
    va: u64,
) -> u64
    requires noted { N.number ≡ va }
    requires at { IsAt table.now.shared.table_id seat.old.table_id }
    requires pinned { IsPinned seat.old.me slot place.now }
    requires in_use { va / REGION_BYTES < REGIONS }
    ensures at { seat.new.table_id ≡ seat.old.table_id }
    ensures pinned { IsPinned seat.new.me slot place.now }
    ensures of_module { module_in (stance_of seat.new.me.0) ≡ module_in (stance_of seat.old.me.0) }
    ensures entry { entry_in (stance_of seat.new.me.0) ≡ entry_in (stance_of seat.old.me.0) }
    ensures worker { worker_of seat.new.me.0 ≡ worker_of seat.old.me.0 }
    ensures acts { acts_of seat.new.me.0 ≡ acts_of seat.old.me.0 ++ act.Page va ∷ [] }
    ensures own { va / REGION_BYTES ≡ place.now.region → result ≡ packed place.now }
    ensures other { va / REGION_BYTES ≢ place.now.region → (q : Place) → IsPlace q → result ≡ packed q → q.mapping ≢ place.now.mapping }
{
    let region = va / REGION_BYTES;
    table
        .shared
        .load::<Page<N>>(seat, DIRECTORY_BASE + region as usize)
}

/// Loads an entry of the local area of the mapping that the seat is inside.
pub(crate) fn entry<N: Noted>(
    table: &MapTable,
    seat: &mut TableSeat,
    slot: u64,
    place: &Place,
    entry: u64,
) -> u64
    requires noted { (N.shape ≡ table.now.shared.key) × (N.number ≡ entry) }
    requires at { IsAt table.now.shared.table_id seat.old.table_id }
    requires pinned { IsPinned seat.old.me slot place.now }
    requires frame { place.now.frame < FRAME_WORDS }
    requires in_range { entry < CELLS }
    ensures at { seat.new.table_id ≡ seat.old.table_id }
    ensures pinned { IsPinned seat.new.me slot place.now }
    ensures of_module { module_in (stance_of seat.new.me.0) ≡ module_in (stance_of seat.old.me.0) }
    ensures entry { entry_in (stance_of seat.new.me.0) ≡ entry_in (stance_of seat.old.me.0) }
    ensures worker { worker_of seat.new.me.0 ≡ worker_of seat.old.me.0 }
    ensures acts { acts_of seat.new.me.0 ≡ acts_of seat.old.me.0 ++ act.Cell entry ∷ [] }
    ensures word { result ≡ cell_word (cells_of table.now.shared.key (module_in (stance_of seat.old.me.0))) (base_of place.now) entry }
{
    let cell = CELLS * usize::from(place.frame) + entry as usize;
    table.shared.load::<Entry<N>>(seat, CELL_BASE + cell)
}

/// Takes one from the slot's word, and answers what it was.
pub(crate) fn leave(table: &MapTable, seat: &mut TableSeat, slot: u64, place: &Place) -> u64
    requires at { IsAt table.now.shared.table_id seat.old.table_id }
    requires pinned { IsPinned seat.old.me slot place.now }
    ensures at { seat.new.table_id ≡ seat.old.table_id }
    ensures left { IsWorker seat.new.me slot (left_with (entry_in (stance_of seat.old.me.0)) (result / 2 ^ 32)) }
    ensures worker { worker_of seat.new.me.0 ≡ worker_of seat.old.me.0 }
    ensures acts { acts_of seat.new.me.0 ≡ acts_of seat.old.me.0 ++ act.Leave ∷ [] }
    ensures few { result / 2 ^ 32 < NUMBERS }
{
    table.shared.fetch_sub::<Leave>(seat, slot as usize, 1)
}

/// Takes one from the count of the first batch that the seat still owes, and answers what it was.
pub(crate) fn pay(table: &MapTable, seat: &mut TableSeat, slot: u64, paid: u64, last: u64) -> u64
    requires at { IsAt table.now.shared.table_id seat.old.table_id }
    requires paying { IsWorker seat.old.me slot (stance.Paying paid last) }
    requires few { paid + 1 < NUMBERS }
    ensures at { seat.new.table_id ≡ seat.old.table_id }
    ensures paid { IsFreer seat.new.me slot (left_with (paid + 1) last) (begins (paid + 1) (result == 1)) }
    ensures worker { worker_of seat.new.me.0 ≡ worker_of seat.old.me.0 }
    ensures acts { acts_of seat.new.me.0 ≡ acts_of seat.old.me.0 }
{
    let count = COUNT_BASE + (paid as usize + 1);
    table.shared.fetch_sub::<Pay>(seat, count, 1)
}

/// Loads the word of a member of the batch that the seat frees.
pub(crate) fn member(table: &MapTable, seat: &mut TableSeat, batch: u64, member: usize) -> u64
    requires at { IsAt table.now.shared.table_id seat.old.table_id }
    requires frees { IsToFree seat.old.me (freeing.Batch batch member) }
    requires few { batch < NUMBERS }
    requires in_range { member < MEMBERS }
    ensures at { seat.new.table_id ≡ seat.old.table_id }
    ensures view { seat.new.me ≡ (after_member seat.old.me.0 result, []) }
{
    let word = MEMBERS * (batch as usize) + member;
    table.shared.load::<Member>(seat, MEMBER_BASE + word)
}

/// Adds one unmap step to the directory's word of the member's region, and answers what it was: the word of the
/// mapping's place.
pub(crate) fn unmap(
    table: &MapTable,
    seat: &mut TableSeat,
    batch: u64,
    member: usize,
    word: u64,
) -> u64
    requires at { IsAt table.now.shared.table_id seat.old.table_id }
    requires found { IsToFree seat.old.me (freeing.Found batch member word) }
    ensures at { seat.new.table_id ≡ seat.old.table_id }
    ensures view { seat.new.me ≡ (after_unmap seat.old.me.0 result, []) }
    ensures place { IsPlace (place_at result) }
    ensures packs { result ≡ packed (place_at result) }
    ensures frame { (place_at result).frame < FRAME_WORDS }
    ensures retired { HasRetired seat.old.me.0 (place_at result).mapping }
{
    let region = (word % ONE_LINE) as usize;
    table
        .shared
        .fetch_add::<Unmap>(seat, DIRECTORY_BASE + region, ONE_UNMAP)
}

/// Gives the frame back of the mapping that the seat unmapped.
pub(crate) fn give(table: &MapTable, seat: &mut TableSeat, place: &Place)
    requires at { IsAt table.now.shared.table_id seat.old.table_id }
    requires gives { gives_of seat.old.me.0 ≡ place.now ∷ [] }
    requires slots { seat.old.me.1 ≡ [] }
    requires frame { place.now.frame < FRAME_WORDS }
    ensures at { seat.new.table_id ≡ seat.old.table_id }
    ensures view { seat.new.me ≡ (after_give seat.old.me.0 0, []) }
{
    let frame = OWNER_BASE + usize::from(place.frame);
    table.shared.store::<Give>(seat, frame, 0);
}

/// Loads the owner of a frame.
pub(crate) fn look<N: Noted>(table: &MapTable, seat: &mut TableSeat, frame: u64) -> u64
    requires noted { (N.shape ≡ table.now.shared.key) × (N.number ≡ frame) }
    requires at { IsAt table.now.shared.table_id seat.old.table_id }
    requires mover { IsMover seat.old.me }
    requires idle { (plan_of seat.old.me.0).stage ≡ stage.Idle }
    requires frame { frame < FRAME_WORDS }
    ensures at { seat.new.table_id ≡ seat.old.table_id }
    ensures view { seat.new.me ≡ (Mover (looking frame (plan_of seat.old.me.0) result), []) }
    ensures number { result ≤ MAPPINGS }
    ensures last { result ≢ 0 → IsLastIn (all_made table.now.shared.key (plan_of seat.old.me.0).deeds) frame result }
{
    table
        .shared
        .load::<Look<N>>(seat, OWNER_BASE + frame as usize)
}

/// Takes the frame of a new mapping.
pub(crate) fn take<N: Noted>(table: &MapTable, seat: &mut TableSeat, made: Made)
    requires noted { N.made ≡ made }
    requires at { IsAt table.now.shared.table_id seat.old.table_id }
    requires mover { IsMover seat.old.me }
    requires idle { (plan_of seat.old.me.0).stage ≡ stage.Idle }
    requires may { MayMap table.now.shared.key (plan_of seat.old.me.0) made }
    requires frame { made.place.frame < FRAME_WORDS }
    ensures at { seat.new.table_id ≡ seat.old.table_id }
    ensures view { seat.new.me ≡ (Mover (taking made (plan_of seat.old.me.0)), []) }
{
    let frame = OWNER_BASE + usize::from(made.place.frame);
    table
        .shared
        .store::<Take<N>>(seat, frame, u64::from(made.place.mapping));
}

/// Fills the next cell of the frame that was taken, with this word.
pub(crate) fn fill(table: &MapTable, seat: &mut TableSeat, made: Made, entry: u64, word: u64)
    requires at { IsAt table.now.shared.table_id seat.old.table_id }
    requires mover { IsMover seat.old.me }
    requires taken { (plan_of seat.old.me.0).stage ≡ stage.Taken made entry }
    requires frame { made.place.frame < FRAME_WORDS }
    requires in_range { entry < CELLS }
    requires within { entry < length (cells_of table.now.shared.key made.of_module) }
    requires word { word ≡ cell_word (cells_of table.now.shared.key made.of_module) (base_of made.place) entry }
    ensures at { seat.new.table_id ≡ seat.old.table_id }
    ensures view { seat.new.me ≡ (Mover (record (plan_of seat.old.me.0) { stage = filling (plan_of seat.old.me.0).stage }), []) }
{
    let cell = CELLS * usize::from(made.place.frame) + entry as usize;
    table.shared.store::<Fill>(seat, CELL_BASE + cell, word);
}

/// Puts the new mapping into the directory.
pub(crate) fn map(table: &MapTable, seat: &mut TableSeat, made: Made)
    requires at { IsAt table.now.shared.table_id seat.old.table_id }
    requires mover { IsMover seat.old.me }
    requires filled { (plan_of seat.old.me.0).stage ≡ stage.Taken made (length (cells_of table.now.shared.key made.of_module)) }
    requires place { IsPlace made.place }
    ensures at { seat.new.table_id ≡ seat.old.table_id }
    ensures view { seat.new.me ≡ (Mover (mapping (plan_of seat.old.me.0) (plan_of seat.old.me.0).stage), []) }
{
    let word = made.place.pack();
    let region = DIRECTORY_BASE + usize::from(made.place.region);
    table.shared.store::<Map>(seat, region, word);
}

/// Swaps the word of the module's current mapping with the new one's, and answers what it was.
pub(crate) fn switch<N: Noted>(table: &MapTable, seat: &mut TableSeat, made: Made) -> u64
    requires noted { (N.shape ≡ table.now.shared.key) × (N.made ≡ made) }
    requires at { IsAt table.now.shared.table_id seat.old.table_id }
    requires mover { IsMover seat.old.me }
    requires fresh { Contains (plan_of seat.old.me.0).fresh made }
    requires above { slice_index (plan_of seat.old.me.0).current made.of_module < made.place.mapping }
    requires in_range { made.of_module < 8 }
    requires place { IsPlace made.place }
    ensures at { seat.new.table_id ≡ seat.old.table_id }
    ensures view { seat.new.me ≡ (Mover (switching made (plan_of seat.old.me.0) result), []) }
    ensures word { IsWordOf table.now.shared.key made.of_module result }
    ensures number { (place_at result).mapping ≡ slice_index (plan_of seat.old.me.0).current made.of_module }
    ensures room { (plan_of seat.old.me.0).batches + 1 < NUMBERS }
    ensures new { (h : Made) → Contains (plan_of seat.old.me.0).outs h → h.place.mapping ≢ (place_at result).mapping }
{
    let word = made.place.pack();
    let current = CURRENT_BASE + made.of_module as usize;
    table.shared.swap::<Switch<N>>(seat, current, word)
}

/// Lists a mapping that is out as a member of the mover's next batch, under a line.
pub(crate) fn list<N: Noted>(
    table: &MapTable,
    seat: &mut TableSeat,
    made: Made,
    line: u64,
    batch: u64,
    member: usize,
)
    requires noted { (N.made ≡ made) × (N.number ≡ line) }
    requires at { IsAt table.now.shared.table_id seat.old.table_id }
    requires mover { IsMover seat.old.me }
    requires batch { batch ≡ (plan_of seat.old.me.0).batches + 1 }
    requires few { batch < NUMBERS }
    requires may { MayList (plan_of seat.old.me.0).passing member }
    requires in_range { member < MEMBERS }
    requires out { Contains (plan_of seat.old.me.0).outs made }
    requires some_line { 0 < line }
    requires few_lines { line ≤ LINES }
    ensures at { seat.new.table_id ≡ seat.old.table_id }
    ensures view { seat.new.me ≡ (Mover (listing made line (plan_of seat.old.me.0)), []) }
{
    let word = line * ONE_LINE + u64::from(made.place.region);
    let index = MEMBERS * (batch as usize) + member;
    table
        .shared
        .store::<List<N>>(seat, MEMBER_BASE + index, word);
}

/// Opens the batch that is listed: its count says that it isn't pushed on any slot.
pub(crate) fn open(table: &MapTable, seat: &mut TableSeat, slots: u64, batch: u64, members: u64)
    requires at { IsAt table.now.shared.table_id seat.old.table_id }
    requires mover { IsMover seat.old.me }
    requires slots { slots ≡ table.now.shared.key.slots }
    requires few_slots { slots ≤ SLOTS }
    requires batch { batch ≡ (plan_of seat.old.me.0).batches + 1 }
    requires few { batch < NUMBERS }
    requires listed { (plan_of seat.old.me.0).passing ≡ passing.Listing members }
    ensures at { seat.new.table_id ≡ seat.old.table_id }
    ensures view { seat.new.me ≡ (Mover (opened (plan_of seat.old.me.0)), []) }
    ensures room { HasRoom (plan_of seat.new.me.0) }
{
    let count = COUNT_BASE + batch as usize;
    table.shared.store::<Open>(seat, count, slots * ONE_PUSH);
}

/// Pushes the batch on the next slot, and answers what the slot's word was.
pub(crate) fn push(table: &MapTable, seat: &mut TableSeat, slot: u64) -> u64
    requires at { IsAt table.now.shared.table_id seat.old.table_id }
    requires mover { IsMover seat.old.me }
    requires slot { slot < SLOTS }
    requires settled { (plan_of seat.old.me.0).passing ≡ passing.Settled slot }
    ensures at { seat.new.table_id ≡ seat.old.table_id }
    ensures view { seat.new.me ≡ (Mover (record (plan_of seat.old.me.0) { passing = passing.Pushed slot (result % 2 ^ 32) }), []) }
{
    table
        .shared
        .fetch_add::<Push>(seat, slot as usize, ONE_PUSH)
}

/// Settles the slot on which the batch was pushed, where so many were inside, and answers what the batch's count was.
pub(crate) fn settle(
    table: &MapTable,
    seat: &mut TableSeat,
    batch: u64,
    slot: u64,
    inside: u64,
) -> u64
    requires at { IsAt table.now.shared.table_id seat.old.table_id }
    requires mover { IsMover seat.old.me }
    requires batch { batch ≡ (plan_of seat.old.me.0).batches }
    requires few { batch < NUMBERS }
    requires pushed { (plan_of seat.old.me.0).passing ≡ passing.Pushed slot inside }
    requires few_inside { inside < 2 ^ 32 }
    requires free { (plan_of seat.old.me.0).freeing ≡ freeing.Nothing }
    ensures at { seat.new.table_id ≡ seat.old.table_id }
    ensures view { seat.new.me ≡ (Mover (record (plan_of seat.old.me.0) { passing = next_slot (plan_of seat.old.me.0).slots slot; freeing = begins batch (result == settles inside) }), []) }
{
    let count = COUNT_BASE + batch as usize;
    table
        .shared
        .fetch_sub::<Settle>(seat, count, ONE_PUSH - inside)
}
