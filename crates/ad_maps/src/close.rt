//! The mapping table is closed.

ghost use Rattle.std.specs.Prelude.{◌≡◌, ◌*◌, ◌<◌, [], length, vec_len, All, IfOk};
ghost use Rattle.std.specs.Mem.Slots.{slots_items, slots_len, IsFull};
ghost use Rattle.ad_maps.specs.declared.view.Freeing.TheVariants as freeing;
ghost use Rattle.ad_maps.specs.declared.view.Passing.TheVariants as passing;
ghost use Rattle.ad_maps.specs.Ledger.{all_made};
ghost use Rattle.ad_maps.specs.Rows.{AreAllSeats, AreInOrder, AreRowsOf, HaveReadRows, HaveRowOfEach, HaveUnmappedRows, HaveUnmapsTold};
ghost use Rattle.ad_maps.specs.Private.Handles.{plan_of, IsAt, IsMover};
ghost use Rattle.ad_maps.specs.Private.Numbered.{place_in, row_at, AreClosedRows, AreLined, AreMembers, AreNumbered, AreRowsBelow, HasBack, HasPlace, IsByNumber, IsDirectory, SayLinedRows};

use crate::maps::{Maps, MoverSeat, Seat};
use crate::table::{ClosedTable, Gather, MapTable, TableSeat};
use crate::words::{
    DIRECTORY_BASE, MEMBER_BASE, MEMBERS, NUMBERS, ONE_LINE, ONE_UNMAP, REGION_WORDS, WORDS,
};
use ad_base::{Kind, OutOfMemory, Place, Row, zero_words};
use std::alloc::Global;
use std::marker::Model;
use std::snapshot::Snapshot;

/// A table that was closed. Contracts see what it was opened with, its rows, and the seats that it was closed with.
#[derive(Drop)]
pub struct Closed {
    maps: Snapshot<Maps>,
    rows: Vec<Row>,
    mover: Snapshot<MoverSeat>,
    seats: Snapshot<Vec<Seat>>,
}

impl Model for Closed {
    ghost use Rattle.ad_maps.specs.Rows.{ClosedSeen};

    ghost Value = { ClosedSeen };

    ghost view = { λ c. record { shape = c.maps.value.shape; rows = c.rows.items; mover = c.mover.value; seats = c.seats.value.items } };
}

impl Closed {
    /// One row for each mapping that was made, in order of mapping number.
    pub fn rows(&self) -> &[Row]
        ensures { result.now ≡ self.now.rows }
    {
        self.rows.as_slice()
    }
}

impl Maps {
    /// Closes the table, with the mover's seat and all worker's seats, in order of worker. Where there is no memory,
    /// table and seats are given up.
    pub fn close(
        self,
        alloc: Global,
        mover: MoverSeat,
        seats: Vec<Seat>,
    ) -> Result<Closed, OutOfMemory>
        requires mover { mover.table ≡ self.table }
        requires seats { AreAllSeats self.table self.shape.workers seats.items }
        ensures shape { IfOk result (λ closed. closed.shape ≡ self.shape) }
        ensures each_made { IfOk result (λ closed. HaveRowOfEach (all_made self.shape mover.deeds) mover.deeds closed.rows) }
        ensures each_row { IfOk result (λ closed. AreRowsOf (all_made self.shape mover.deeds) mover.deeds closed.rows) }
        ensures in_order { IfOk result (λ closed. AreInOrder closed.rows) }
        ensures reads { IfOk result (λ closed. HaveReadRows closed.rows seats.items) }
        ensures unmaps { IfOk result (λ closed. HaveUnmapsTold closed.rows mover.deeds seats.items) }
        ensures unmapped { IfOk result (λ closed. HaveUnmappedRows closed.rows mover.deeds seats.items) }
        ensures mover { IfOk result (λ closed. closed.mover ≡ mover) }
        ensures seats { IfOk result (λ closed. closed.seats ≡ seats.items) }
    {
        let told_maps = Snapshot::of(&self);
        let Maps {
            table,
            frames,
            slots: _,
        } = self;
        let told_mover = Snapshot::of(&mover);
        let told_seats = Snapshot::of(&seats);
        let MoverSeat {
            seat,
            slots: _,
            batches: _,
        } = mover;
        let rows = ended(alloc, table, frames, seat, seats)?;
        Ok(Closed {
            maps: told_maps,
            rows,
            mover: told_mover,
            seats: told_seats,
        })
    }
}

/// Ends the table once all seats are joined, and gives its rows.
fn ended(
    alloc: Global,
    table: MapTable,
    frames: u64,
    mover: TableSeat,
    seats: Vec<Seat>,
) -> Result<Vec<Row>, OutOfMemory>
    requires at { IsAt table.shared.table_id mover.table_id }
    requires slots { table.shared.table_id.slots ≡ 0 }
    requires frames { frames ≡ table.shared.key.frames }
    requires some_frames { 0 < frames }
    requires mover { IsMover mover.me }
    requires rest { (plan_of mover.me.0).passing ≡ passing.Rest }
    requires freed { (plan_of mover.me.0).freeing ≡ freeing.Nothing }
    requires none { (plan_of mover.me.0).back ≡ [] }
    requires seats { AreAllSeats table.shared.table_id (length seats.items) seats.items }
    requires workers { length seats.items ≡ table.shared.key.workers }
    ensures { IfOk result (λ rows. AreClosedRows table.shared.key (plan_of mover.me.0).deeds seats.items rows.items) }
{
    let mut mover = mover;
    gather(&table, &mut mover, seats);
    let words = table.close_with(mover);
    let rows = rows_of(alloc, &words, frames);
    words.free();
    rows
}

/// Joins the worker's seats to the mover's, in order.
fn gather(table: &MapTable, mover: &mut TableSeat, seats: Vec<Seat>)
    requires at { IsAt table.now.shared.table_id mover.old.table_id }
    requires mover { IsMover mover.old.me }
    requires none { (plan_of mover.old.me.0).back ≡ [] }
    requires seats { AreAllSeats table.now.shared.table_id (length seats.items) seats.items }
    ensures at { mover.new.table_id ≡ mover.old.table_id }
    ensures back { HasBack (plan_of mover.old.me.0) seats.items mover.new.me }
{
    for one in seats {
        let Seat { seat, slot: _ } = one;
        table.shared.join_seat::<Gather>(mover, seat);
    }
}

/// The rows that the words say, in order of number.
fn rows_of(alloc: Global, words: &ClosedTable, frames: u64) -> Result<Vec<Row>, OutOfMemory>
    requires words { slots_len words.now.words ≡ WORDS }
    requires full { IsFull words.now.words }
    requires directory { IsDirectory (slots_items words.now.words) }
    requires members { AreMembers (slots_items words.now.words) }
    requires frames { 0 < frames }
    ensures { IfOk result (λ rows. SayLinedRows frames (slots_items words.now.words) rows.items) }
{
    let numbered = numbered(alloc, words)?;
    let lines = lined(alloc, words)?;
    rows_below(alloc, numbered.as_slice(), lines.as_slice(), frames)
}

/// The lines of the members, each at the region of its mapping.
fn lined(alloc: Global, words: &ClosedTable) -> Result<Vec<u64>, OutOfMemory>
    requires words { slots_len words.now.words ≡ WORDS }
    requires full { IsFull words.now.words }
    requires members { AreMembers (slots_items words.now.words) }
    ensures { IfOk result (λ lines. AreLined (slots_items words.now.words) (NUMBERS * MEMBERS) lines.items) }
{
    let mut lines = zero_words(alloc, REGION_WORDS)?;
    for index in 0..NUMBERS * MEMBERS {
        let word = words.word(MEMBER_BASE + index);
        if word == 0 {
            continue;
        }
        let region = (word % ONE_LINE) as usize;
        lines[region] = word / ONE_LINE;
    }
    Ok(lines)
}

/// The directory's words, each at the number of its mapping.
fn numbered(alloc: Global, words: &ClosedTable) -> Result<Vec<u64>, OutOfMemory>
    requires words { slots_len words.now.words ≡ WORDS }
    requires full { IsFull words.now.words }
    requires directory { IsDirectory (slots_items words.now.words) }
    ensures { IfOk result (λ numbered. AreNumbered (slots_items words.now.words) REGION_WORDS numbered.items) }
{
    let mut numbered = zero_words(alloc, NUMBERS)?;
    for region in 0..REGION_WORDS {
        let word = words.word(DIRECTORY_BASE + region);
        if word == 0 {
            continue;
        }
        numbered[usize::from(place_of(word).mapping)] = word;
    }
    Ok(numbered)
}

/// The rows of the words that aren't 0, with the lines of their regions.
fn rows_below(
    alloc: Global,
    numbered: &[u64],
    lines: &[u64],
    frames: u64,
) -> Result<Vec<Row>, OutOfMemory>
    requires numbered { IsByNumber numbered.now }
    requires lines { length lines.now ≡ REGION_WORDS }
    requires frames { 0 < frames }
    ensures { IfOk result (λ rows. AreRowsBelow frames lines.now numbered.now NUMBERS rows.items) }
{
    let mut rows = Vec::new(alloc);
    for number in 0..NUMBERS {
        let word = numbered[number];
        if word == 0 {
            continue;
        }
        rows.push(row_of(word, lines, frames))?;
    }
    Ok(rows)
}

/// The row of a directory word, with the line of its region.
fn row_of(word: u64, lines: &[u64], frames: u64) -> Row
    requires place { HasPlace word }
    requires lines { length lines.now ≡ REGION_WORDS }
    requires frames { 0 < frames }
    ensures { result ≡ row_at frames lines.now word }
{
    let place = place_of(word);
    Row {
        mapping: place.mapping,
        kind: Kind::Code,
        who: u64::from(place.frame) / frames,
        place,
        line: lines[usize::from(place.region)],
        unmaps: word / ONE_UNMAP,
    }
}

/// The place that a directory word says.
fn place_of(word: u64) -> Place
    requires { HasPlace word }
    ensures value { result ≡ place_in word }
    ensures number { result.mapping < NUMBERS }
{
    Place::unpack(word % ONE_UNMAP).unwrap()
}
