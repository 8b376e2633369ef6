//! The stack table is opened.

ghost use Rattle.std.specs.Prelude.{◌≡◌, ◌≢◌, ◌<◌, ◌≤◌, [], length, map, vec_len, All, AllPairs, IfOk, OnOk};
ghost use Rattle.ad_base.specs.declared.place.Place.{Place};
ghost use Rattle.ad_stacks.specs.Names.{in_order};
ghost use Rattle.ad_stacks.specs.Opening.{mover_dealt, opening_words};
ghost use Rattle.ad_stacks.specs.Seen.{AreNew};
ghost use Rattle.ad_stacks.specs.StackPlace.{IsStackPlace};
ghost use Rattle.ad_stacks.specs.Private.Handles.{IsAt};

use crate::stacks::{StackMover, StackSeat, Stacks};
use crate::steps::ONE_LANE;
use crate::table::{Deal, Seat, StackTable};
use crate::words::{LANES, WORDS};
use ad_base::{OutOfMemory, Place, zero_words};
use std::alloc::Global;

impl Stacks {
    /// Opens the table with one stack In each lane, and gives the mover's seat and one seat for each
    /// worker, in order of number.
    pub fn open(
        alloc: Global,
        places: &[Place],
    ) -> Result<(Stacks, StackMover, Vec<StackSeat>), OutOfMemory>
        requires lanes { length places.now ≤ LANES }
        requires places { All IsStackPlace places.now }
        requires numbers { AllPairs (λ (p q : Place). p.mapping ≢ q.mapping) places.now }
        ensures openings { IfOk result (λ opened. opened.0.openings ≡ places.now) }
        ensures mover_table { IfOk result (λ opened. opened.1.table ≡ opened.0.table) }
        ensures mover_lanes { IfOk result (λ opened. opened.1.lanes ≡ length places.now) }
        ensures no_refresh { IfOk result (λ opened. opened.1.refreshes ≡ []) }
        ensures seats { IfOk result (λ opened. AreNew opened.0.table (length places.now) opened.2.items) }
    {
        let words = words_of(alloc, places)?;
        let key = copied(alloc, places)?;
        let newest = numbers_of(alloc, places)?;
        let (table, mut seat) = StackTable::of_words(alloc, words.as_slice(), &key)?;
        let seats = deal(alloc, &table, &mut seat, places.len())?;
        Ok((Stacks { table }, StackMover { seat, newest }, seats))
    }
}

/// The places again.
fn copied(alloc: Global, places: &[Place]) -> Result<Vec<Place>, OutOfMemory>
    ensures { IfOk result (λ copy. copy.items ≡ places.now) }
{
    let mut copy = Vec::with_capacity(alloc, places.len())?;
    copy.extend_from_slice(places)?;
    Ok(copy)
}

/// The mapping numbers of the places.
fn numbers_of(alloc: Global, places: &[Place]) -> Result<Vec<u64>, OutOfMemory>
    ensures { IfOk result (λ numbers. numbers.items ≡ map (λ (p : Place). p.mapping) places.now) }
{
    Ok(
        places
            .iter()
            .map(|place| u64::from(place.mapping))
            .collect(alloc)?,
    )
}

/// The words of the table as it is opened.
fn words_of(alloc: Global, places: &[Place]) -> Result<Vec<u64>, OutOfMemory>
    requires lanes { length places.now ≤ LANES }
    requires places { All IsStackPlace places.now }
    requires numbers { AllPairs (λ (p q : Place). p.mapping ≢ q.mapping) places.now }
    ensures len { IfOk result (λ words. length words.items ≡ WORDS) }
    ensures value { IfOk result (λ words. words.items ≡ in_order (opening_words places.now)) }
{
    let mut words = zero_words(alloc, WORDS)?;
    for lane in 0..places.len() {
        let place = places[lane];
        let word = place.pack();
        words[lane] = word;
        words[LANES + usize::from(place.mapping)] = word + lane as u64 * ONE_LANE;
    }
    Ok(words)
}

/// Splits off one seat for each of so many workers.
fn deal(
    alloc: Global,
    table: &StackTable,
    mover: &mut Seat,
    lanes: usize,
) -> Result<Vec<StackSeat>, OutOfMemory>
    requires at { IsAt table.now.shared.table_id mover.old.table_id }
    requires lanes { lanes ≡ length table.now.shared.key.items }
    requires few { lanes ≤ LANES }
    requires none { mover.old.me ≡ (mover_dealt table.now.shared.key.items 0, []) }
    ensures at { mover.new.table_id ≡ mover.old.table_id }
    ensures dealt { OnOk result (mover.new.me ≡ (mover_dealt table.now.shared.key.items lanes, [])) }
    ensures seats { IfOk result (λ seats. AreNew table.now.shared.table_id lanes seats.items) }
{
    let mut seats = Vec::with_capacity(alloc, lanes)?;
    for lane in 0..lanes {
        let seat = table.shared.split_seat::<Deal>(mover);
        seats.push(StackSeat {
            seat,
            worker: lane as u64,
        })?;
    }
    Ok(seats)
}
