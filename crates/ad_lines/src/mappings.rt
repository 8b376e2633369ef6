//! The mappings of a run, as a plain list.

ghost use Rattle.std.specs.Prelude.{◌≡◌, ◌+◌, ◌<◌, ◌≤◌, [], length, map, vec_len, vec_capacity, IfOk, IfSome};
ghost use Rattle.std.specs.List.{filter, range_with_len, zip};
ghost use Rattle.std.specs.Option.{option_map_or};
ghost use Rattle.ad_base.specs.Ledger.{is_same_kind, made_place};
ghost use Rattle.ad_base.specs.Place.{IsPlace};
ghost use Rattle.ad_lines.specs.LineRun.{after_move, drawn_after, move_end, new_row, replaced, retired};
ghost use Rattle.ad_lines.specs.Opening.{opening_mappings, opening_requests, places_of_kind, row_of};
ghost use Rattle.ad_lines.specs.Private.Places.{AreNumbered, AreNumberedPlaces, IsMappingList, stack_thing, thing_of, thing_row};

use ad_base::{Image, Kind, MAPPINGS, MoveEnd, Moved, OutOfMemory, Place, Row};
use ad_place::Placer;
use std::alloc::Global;
use std::marker::Model;

/// The places of a run: those that were drawn, what came of the lines that move something, and all mappings
/// in order of number.
#[derive(Drop)]
pub struct MappingList {
    placer: Placer,
    moves: Vec<Moved>,
    rows: Vec<Row>,
}

impl Model for MappingList {
    ghost use Rattle.std.specs.Prelude.{◌-◌, vec_capacity, vec_len};
    ghost use Rattle.ad_lines.specs.Private.Places.{IsMappingList, PlacementWithRoom};

    ghost Value = { PlacementWithRoom };

    ghost view = { λ l. record {
      placement = record { drawn = l.placer; moves = l.moves.items; rows = l.rows.items };
      room = vec_capacity l.moves - vec_len l.moves;
    } };

    ghost invariant = { λ l. IsMappingList l.placer.places l.rows.items (vec_capacity l.rows) };
}

impl MappingList {
    /// The mappings before the first line, of so many workers and of modules of these images, at the places that
    /// were drawn, with room for so many moves.
    pub fn open(
        alloc: Global,
        placer: Placer,
        workers: u64,
        images: &[Image],
        moves: usize,
    ) -> Result<MappingList, OutOfMemory>
        requires numbered { AreNumberedPlaces placer.places }
        requires each { length (opening_requests workers images.now) ≡ length placer.places }
        ensures placement { IfOk result (λ list. list.placement ≡ record { drawn = placer; moves = []; rows = map row_of (opening_mappings workers images.now placer.places) }) }
        ensures room { IfOk result (λ list. list.room ≡ moves) }
    {
        let things = opening_things(alloc, workers, images)?;
        let rows = opening_rows(alloc, &things, placer.places())?;
        Ok(MappingList {
            placer,
            moves: Vec::with_capacity(alloc, moves)?,
            rows,
        })
    }

    /// The places of the mappings of a kind, in order of number.
    pub fn places_of_kind(&self, alloc: Global, kind: Kind) -> Result<Vec<Place>, OutOfMemory>
        ensures { IfOk result (λ places. places.items ≡ map (λ r. r.place) (filter (λ r. is_same_kind kind r.kind) self.now.placement.rows)) }
    {
        places_in(alloc, self.rows.as_slice(), kind)
    }

    /// What came of the moves, and a row for each mapping.
    pub fn finish(self) -> (Vec<Moved>, Vec<Row>)
        ensures moves { result.0.items ≡ self.placement.moves }
        ensures rows { result.1.items ≡ self.placement.rows }
    {
        (self.moves, self.rows)
    }

    /// Gives what lies at the old place another one, if a mapping number is left, and unmaps the old one. It
    /// takes no memory.
    #[tactic(auto, unfolding(crate::specs::LineRun::after_move))]
    pub fn replace(&mut self, line: u64, kind: Kind, who: u64, old: Place) -> MoveEnd
        requires place { IsPlace old }
        requires mapped { old.mapping ≤ length self.old.placement.rows }
        requires room { 0 < self.old.room }
        ensures end { result ≡ move_end self.old.placement.drawn kind old.pages }
        ensures after { self.new.placement ≡ after_move self.old.placement line kind who old }
        ensures place { IfSome (made_place result) (λ p. IsPlace p) }
        ensures pages { IfSome (made_place result) (λ p. p.pages ≡ old.pages) }
        ensures mapped { IfSome (made_place result) (λ p. p.mapping ≤ length self.new.placement.rows) }
        ensures grows { length self.old.placement.rows ≤ length self.new.placement.rows }
        ensures room { self.new.room + 1 ≡ self.old.room }
    {
        let end = next_mapping(&mut self.placer, &mut self.rows, line, kind, who, old);
        self.moves.push_reserved(Moved {
            line,
            kind,
            who,
            end,
        });
        end
    }
}

/// What has a place: a part of a module, or a stack.
#[derive(Clone, Copy)]
pub struct Thing {
    pub kind: Kind,
    /// The number of the module, or of the worker.
    pub who: u64,
}

/// What has a place before the first line, of so many workers and of modules of these images, in the order in which the
/// places were drawn.
fn opening_things(alloc: Global, workers: u64, images: &[Image]) -> Result<Vec<Thing>, OutOfMemory>
    ensures { IfOk result (λ things. things.items ≡ map thing_of (opening_requests workers images.now)) }
{
    let mut things = stack_things(alloc, workers)?;
    for number in 0..images.len() {
        let who = number as u64;
        things.push(Thing {
            kind: Kind::Fixed,
            who,
        })?;
        things.push(Thing {
            kind: Kind::Code,
            who,
        })?;
    }
    Ok(things)
}

/// The places of the mappings of a kind before the first line, of so many workers and of modules of these images, in order of
/// number, where these were drawn. The one error is want of memory.
pub fn opening_places(
    alloc: Global,
    workers: u64,
    images: &[Image],
    places: &[Place],
    kind: Kind,
) -> Result<Vec<Place>, OutOfMemory>
    requires { length places.now ≤ MAPPINGS }
    ensures { IfOk result (λ found. found.items ≡ places_of_kind kind (opening_mappings workers images.now places.now)) }
{
    let things = opening_things(alloc, workers, images)?;
    let rows = opening_rows(alloc, &things, places)?;
    places_in(alloc, &rows, kind)
}

/// The places of the rows of a kind, in order.
fn places_in(alloc: Global, rows: &[Row], kind: Kind) -> Result<Vec<Place>, OutOfMemory>
    ensures { IfOk result (λ places. places.items ≡ map (λ r. r.place) (filter (λ r. is_same_kind kind r.kind) rows.now)) }
{
    Ok(
        rows.iter()
            .filter(|row| is_same_kind(kind, row.kind))
            .map(|row| row.place)
            .collect(alloc)?,
    )
}

/// The stacks of so many workers.
fn stack_things(alloc: Global, workers: u64) -> Result<Vec<Thing>, OutOfMemory>
    ensures { IfOk result (λ things. things.items ≡ map stack_thing (range_with_len 0 workers)) }
{
    let mut things = Vec::new(alloc);
    for who in 0..workers {
        things.push(Thing {
            kind: Kind::Stack,
            who,
        })?;
    }
    Ok(things)
}

/// A row for each of these things at its place, with room for all places that may be drawn.
fn opening_rows(alloc: Global, things: &[Thing], places: &[Place]) -> Result<Vec<Row>, OutOfMemory>
    requires { length places.now ≤ MAPPINGS }
    ensures rows { IfOk result (λ rows. rows.items ≡ map thing_row (zip things.now places.now)) }
    ensures room { IfOk result (λ rows. MAPPINGS ≤ vec_capacity rows) }
{
    let mut rows = Vec::with_capacity(alloc, MAPPINGS as usize)?;
    for (thing, place) in things.iter().zip(places) {
        rows.push_reserved(new_row(thing.kind, thing.who, *place));
    }
    Ok(rows)
}

/// Tests whether two kinds are the same.
fn is_same_kind(a: Kind, b: Kind) -> bool
    ensures { result ≡ is_same_kind a b }
{
    matches!(
        (a, b),
        (Kind::Code, Kind::Code) | (Kind::Fixed, Kind::Fixed) | (Kind::Stack, Kind::Stack)
    )
}

/// Draws the next place, if a mapping number is left, maps it, and unmaps the old one.
fn next_mapping(
    placer: &mut Placer,
    rows: &mut Vec<Row>,
    line: u64,
    kind: Kind,
    who: u64,
    old: Place,
) -> MoveEnd
    requires list { IsMappingList placer.old.places rows.old.items (vec_capacity rows.old) }
    requires place { IsPlace old }
    requires mapped { old.mapping ≤ vec_len rows.old }
    ensures end { result ≡ move_end placer.old kind old.pages }
    ensures drawn { placer.new ≡ drawn_after placer.old kind old.pages result }
    ensures rows { rows.new.items
        ≡ option_map_or (λ new. replaced rows.old.items line kind who old new) (made_place result) rows.old.items }
    ensures list { IsMappingList placer.new.places rows.new.items (vec_capacity rows.new) }
    ensures place { IfSome (made_place result) (λ p. IsPlace p) }
    ensures pages { IfSome (made_place result) (λ p. p.pages ≡ old.pages) }
    ensures mapped { IfSome (made_place result) (λ p. p.mapping ≤ vec_len rows.new) }
    ensures grows { vec_len rows.old ≤ vec_len rows.new }
{
    if placer.left() == 0 {
        return MoveEnd::Spent;
    }
    let new = placer.next(kind, old.pages);
    retire(rows, old, line);
    rows.push_reserved(new_row(kind, who, new));
    MoveEnd::Made(new)
}

/// Marks the row of a mapping as retired by this line, and counts an unmapping of it.
fn retire(rows: &mut Vec<Row>, old: Place, line: u64)
    requires numbered { AreNumbered rows.old.items }
    requires from { 1 ≤ old.mapping }
    requires to { old.mapping ≤ vec_len rows.old }
    ensures rows { rows.new.items ≡ map (retired old.mapping line) rows.old.items }
    ensures capacity { vec_capacity rows.new ≡ vec_capacity rows.old }
{
    let row = &mut rows[usize::from(old.mapping) - 1];
    row.line = line;
    row.unmaps = row.unmaps.saturating_add(1);
}

/// The row of a mapping that no line has retired yet.
fn new_row(kind: Kind, who: u64, place: Place) -> Row
    ensures { result ≡ new_row kind who place }
{
    Row {
        mapping: place.mapping,
        kind,
        who,
        place,
        line: 0,
        unmaps: 0,
    }
}
