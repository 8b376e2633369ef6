//! The mapping table is opened.

ghost use Rattle.std.specs.Prelude.{◌≡◌, ◌+◌, ◌<◌, ◌≤◌, [], length, vec_len, All, IfOk, OnOk};
ghost use Rattle.ad_base.specs.declared.place.Place.{Place};
ghost use Rattle.ad_maps.specs.MapPlace.{opening_of, IsShape};
ghost use Rattle.ad_maps.specs.Names.{in_order};
ghost use Rattle.ad_maps.specs.Opening.{mover_dealt, opening_words};
ghost use Rattle.ad_maps.specs.Seen.{new_mover, AreNew};
ghost use Rattle.ad_maps.specs.Private.Handles.{IsAt};
ghost use Rattle.ad_maps.specs.Private.Laid.{Laid, Laying};

use crate::maps::{Maps, MoverSeat, Seat};
use crate::moves::word_of;
use crate::shape::{Opening, Shape};
use crate::table::{Deal, MapTable, TableSeat};
use crate::words::{CELL_BASE, CELLS, CURRENT_BASE, DIRECTORY_BASE, OWNER_BASE, WORDS};
use ad_base::{Cell, OutOfMemory, Sequence, zero_words};
use std::alloc::Global;

impl Maps {
    /// Opens the table with one current mapping for each module, and gives the mover's seat and one seat for each
    /// worker, in order of number. The workers take the slots in turn.
    pub fn open(
        alloc: Global,
        slots: u64,
        frames: u64,
        workers: u64,
        modules: &[Opening],
    ) -> Result<(Maps, MoverSeat, Vec<Seat>), OutOfMemory>
        requires { IsShape (record { slots = slots; frames = frames; workers = workers; modules = modules.now }) }
        ensures shape { IfOk result (λ opened. opened.0.shape ≡ record { slots = slots; frames = frames; workers = workers; modules = modules.now }) }
        ensures mover { IfOk result (λ opened. opened.1 ≡ new_mover opened.0.table opened.0.shape) }
        ensures seats { IfOk result (λ opened. AreNew opened.0.table workers opened.2.items) }
    {
        let shape = Shape {
            slots,
            frames,
            workers,
            modules: copied(alloc, modules)?,
        };
        let words = words_of(alloc, &shape)?;
        let (table, mut seat) = MapTable::of_words(alloc, words.as_slice(), &shape)?;
        let seats = deal(alloc, &table, &mut seat, slots, workers)?;
        let maps = Maps {
            table,
            frames,
            slots,
        };
        let mover = MoverSeat {
            seat,
            slots,
            batches: 0,
        };
        Ok((maps, mover, seats))
    }
}

/// The openings again.
fn copied(alloc: Global, modules: &[Opening]) -> Result<Sequence<Opening>, OutOfMemory>
    ensures { IfOk result (λ copy. copy ≡ modules.now) }
{
    let mut copy = Vec::with_capacity(alloc, modules.len())?;
    for module in 0..modules.len() {
        let cells = cells_again(alloc, modules[module].cells.as_slice())?;
        copy.push(Opening {
            place: modules[module].place,
            cells,
        })?;
    }
    Ok(Sequence::of(copy))
}

/// The cells again.
fn cells_again(alloc: Global, cells: &[Cell]) -> Result<Sequence<Cell>, OutOfMemory>
    ensures { IfOk result (λ copy. copy ≡ cells.now) }
{
    let mut copy = Vec::with_capacity(alloc, cells.len())?;
    copy.extend_from_slice(cells)?;
    Ok(Sequence::of(copy))
}

/// The words of the table as it is opened.
fn words_of(alloc: Global, shape: &Shape) -> Result<Vec<u64>, OutOfMemory>
    requires { IsShape shape.now }
    ensures len { IfOk result (λ words. length words.items ≡ WORDS) }
    ensures value { IfOk result (λ words. words.items ≡ in_order (opening_words shape.now)) }
{
    let mut words = zero_words(alloc, WORDS)?;
    let modules = shape.modules.as_slice();
    for module in 0..modules.len() {
        lay(words.as_mut_slice(), shape, module, &modules[module]);
    }
    Ok(words)
}

/// Lays the words of the next module.
fn lay(words: &mut [u64], shape: &Shape, module: usize, opening: &Opening)
    requires shape { IsShape shape.now }
    requires in_range { «module» < length shape.now.modules }
    requires opening { opening.now ≡ opening_of shape.now «module» }
    requires laid { Laid shape.now «module» words.old }
    ensures { Laid shape.now («module» + 1) words.new }
{
    let place = opening.place;
    let word = place.pack();
    words[CURRENT_BASE + module] = word;
    words[DIRECTORY_BASE + usize::from(place.region)] = word;
    words[OWNER_BASE + usize::from(place.frame)] = u64::from(place.mapping);
    lay_cells(words, shape, module, opening);
}

/// Fills the cells of the next module's first mapping.
fn lay_cells(words: &mut [u64], shape: &Shape, module: usize, opening: &Opening)
    requires shape { IsShape shape.now }
    requires in_range { «module» < length shape.now.modules }
    requires opening { opening.now ≡ opening_of shape.now «module» }
    requires laid { Laying shape.now («module» + 1) «module» 0 words.old }
    ensures { Laid shape.now («module» + 1) words.new }
{
    let frame = usize::from(opening.place.frame);
    let base = opening.place.base();
    let cells = opening.cells.as_slice();
    for entry in 0..cells.len() {
        words[CELL_BASE + (CELLS * frame + entry)] = word_of(&cells[entry], base);
    }
}

/// Splits off one seat for each of so many workers.
fn deal(
    alloc: Global,
    table: &MapTable,
    mover: &mut TableSeat,
    slots: u64,
    workers: u64,
) -> Result<Vec<Seat>, OutOfMemory>
    requires at { IsAt table.now.shared.table_id mover.old.table_id }
    requires workers { workers ≡ table.now.shared.key.workers }
    requires slots { slots ≡ table.now.shared.key.slots }
    requires some_slot { 1 ≤ slots }
    requires few_slots { slots ≤ 16 }
    requires none { mover.old.me ≡ (mover_dealt table.now.shared.key 0, []) }
    ensures at { mover.new.table_id ≡ mover.old.table_id }
    ensures dealt { OnOk result (mover.new.me ≡ (mover_dealt table.now.shared.key workers, [])) }
    ensures seats { IfOk result (λ seats. AreNew table.now.shared.table_id workers seats.items) }
{
    let mut seats = Vec::new(alloc);
    for worker in 0..workers {
        let seat = table.shared.split_seat::<Deal>(mover);
        seats.push(Seat {
            seat,
            slot: worker % slots,
        })?;
    }
    Ok(seats)
}
