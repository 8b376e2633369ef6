//! What no clause says: worked examples, each call once with ample memory, and threads beside one another.
//! The expected values are written by hand.

ghost use Rattle.std.specs.Prelude.{◌≡◌, ℕ, ◌+◌, ◌*◌, ◌<◌, ◌≤◌, [], ◌∷◌, length, slice_index, slice_index_or, Contains, IfOk, OnOk};
ghost use Rattle.std.specs.Thread.{IsSync};
ghost use Rattle.ad_base.specs.declared.image.Cell.TheVariants.{Off, Num};
ghost use Rattle.ad_maps.specs.declared.view.Made.{Made};
ghost use Rattle.ad_maps.specs.Ledger.{all_made};
ghost use Rattle.ad_maps.specs.MapPlace.{no_opening, opening_of, cells_of};
ghost use Rattle.ad_maps.specs.Rows.{AreAllSeats};
ghost use Rattle.ad_maps.specs.Private.Trials.{MayMove};

use crate::{Closed, Inside, Maps, MoverSeat, Opening, Out, Seat};
use ad_base::{Cell, Kind, OutOfMemory, PAGE_BYTES, Place, REGION_BYTES, Row, Sequence};
use std::alloc::{AllocError, Global};
use std::process::Abort;
use std::test::Fail;
use std::thread;
use std::thread::Threads;

/// The place of a mapping of this number in this frame.
fn test_place(number: u16, frame: u8) -> Place
    requires { number ≤ 4095 }
    ensures { result ≡ record { region = 2 + number; start = 1; pages = 3; mapping = number; frame = frame } }
{
    Place {
        region: 2 + number,
        start: 1,
        pages: 3,
        mapping: number,
        frame,
    }
}

/// The cells of each module.
fn test_cells(alloc: Global) -> Result<Vec<Cell>, OutOfMemory>
    ensures { IfOk result (λ cells. cells.items ≡ Off 16 ∷ Num 7 ∷ []) }
{
    let mut cells = Vec::new(alloc);
    cells.push(Cell::Off(16))?;
    cells.push(Cell::Num(7))?;
    Ok(cells)
}

/// So many modules, with mappings numbered from 1, each in the first of its frames.
fn openings(alloc: Global, frames: u64, modules: u64) -> Result<Vec<Opening>, OutOfMemory>
    requires frames { frames ≤ 16 }
    requires modules { modules ≤ 8 }
    ensures len { IfOk result (λ os. length os.items ≡ modules) }
    ensures each { IfOk result (λ os. (m : ℕ) → m < modules → slice_index_or os.items m no_opening ≡ record { place = record { region = 3 + m; start = 1; pages = 3; mapping = 1 + m; frame = m * frames }; cells = Off 16 ∷ Num 7 ∷ [] }) }
{
    let mut os = Vec::new(alloc);
    for module in 0..modules {
        let frame = module * frames;
        let cells = test_cells(alloc)?;
        os.push(Opening {
            place: test_place(1 + module as u16, frame as u8),
            cells: Sequence::of(cells),
        })?;
    }
    Ok(os)
}

/// A table of so many slots, frames for each module, workers and modules.
#[tactic(auto, using(crate::proofs::NewSeats::all_of_new))]
fn open_maps(
    alloc: Global,
    slots: u64,
    frames: u64,
    workers: u64,
    modules: u64,
) -> Result<(Maps, MoverSeat, Vec<Seat>), OutOfMemory>
    requires slots { (1 ≤ slots) × (slots ≤ 16) }
    requires frames { (2 ≤ frames) × (frames ≤ 16) }
    requires workers { workers ≤ 64 }
    requires modules { modules ≤ 8 }
    ensures modules { IfOk result (λ o. length o.0.shape.modules ≡ modules) }
    ensures frames { IfOk result (λ o. o.0.shape.frames ≡ frames) }
    ensures table { IfOk result (λ o. o.1.table ≡ o.0.table) }
    ensures seats { IfOk result (λ o. AreAllSeats o.0.table o.0.shape.workers o.2.items) }
    ensures workers { IfOk result (λ o. o.0.shape.workers ≡ workers) }
    ensures pages { IfOk result (λ o. (m : ℕ) → m < modules → (opening_of o.0.shape m).place.pages ≡ 3) }
    ensures cells { IfOk result (λ o. (m : ℕ) → m < modules → cells_of o.0.shape m ≡ Off 16 ∷ Num 7 ∷ []) }
    ensures currents { IfOk result (λ o. length o.1.current ≡ modules) }
    ensures current { IfOk result (λ o. (m : ℕ) → m < modules → slice_index o.1.current m ≡ 1 + m) }
    ensures above { IfOk result (λ o. (x : Made) → Contains (all_made o.0.shape o.1.deeds) x → x.place.mapping < 1 + modules) }
    ensures region { IfOk result (λ o. (x : Made) → Contains (all_made o.0.shape o.1.deeds) x → x.place.region < 3 + modules) }
{
    let os = openings(alloc, frames, modules)?;
    let (maps, mover, seats) = Maps::open(alloc, slots, frames, workers, os.as_slice())?;
    Ok((maps, mover, seats))
}

/// Looks for a room in each module, and answers whether each is the second of the module's frames.
fn second_frames(maps: &Maps, mover: &mut MoverSeat, modules: u64, frames: u64) -> bool
    requires table { mover.old.table ≡ maps.now.table }
    requires modules { length maps.now.shape.modules ≡ modules }
    requires few { modules ≤ 8 }
    requires frames { frames ≤ 16 }
{
    let mut all = true;
    for module in 0..modules {
        let second = module * frames + 1;
        match maps.room(mover, module) {
            Ok(room) => all = all && u64::from(room.frame()) == second,
            Err(_) => all = false,
        }
    }
    all
}

#[test]
fn frames_are_found_in_order(rt: HostRuntime) -> Result<(), Fail> {
    let (maps, mut mover, seats) = open_maps(rt.alloc(), 4, 8, 64, 8)?;
    assert_eq!(rt; seats.len(), 64);
    assert!(rt; second_frames(&maps, &mut mover, 8, 8));
    let (maps, mut mover, seats) = open_maps(rt.alloc(), 16, 16, 1, 8)?;
    assert_eq!(rt; seats.len(), 1);
    assert!(rt; second_frames(&maps, &mut mover, 8, 16));
    Ok(())
}

/// A table that may be moved, with no mapping that is out.
fn open_moving(
    alloc: Global,
    slots: u64,
    frames: u64,
    workers: u64,
    modules: u64,
) -> Result<(Maps, MoverSeat, Vec<Seat>, Vec<Out>), OutOfMemory>
    requires slots { (1 ≤ slots) × (slots ≤ 16) }
    requires frames { (2 ≤ frames) × (frames ≤ 16) }
    requires workers { workers ≤ 64 }
    requires modules { modules ≤ 8 }
    ensures modules { IfOk result (λ o. length o.0.shape.modules ≡ modules) }
    ensures seats { IfOk result (λ o. AreAllSeats o.0.table o.0.shape.workers o.2.items) }
    ensures workers { IfOk result (λ o. o.0.shape.workers ≡ workers) }
    ensures may { IfOk result (λ o. MayMove o.0 o.1 o.3.items (1 + modules)) }
{
    let (maps, mover, seats) = open_maps(alloc, slots, frames, workers, modules)?;
    let outs = Vec::new(alloc);
    Ok((maps, mover, seats, outs))
}

/// Makes the mapping of this number for the module, and makes it current. Where each frame has an owner, answers that of
/// the last one.
fn moved(
    maps: &Maps,
    mover: &mut MoverSeat,
    outs: &mut Vec<Out>,
    module: u64,
    number: u16,
    cells: &[Cell],
) -> Result<Option<u16>, AllocError>
    requires may { MayMove maps.now mover.old outs.old.items number }
    requires in_range { «module» < length maps.now.shape.modules }
    requires from { 1 ≤ number }
    requires to { number ≤ 4095 }
    requires cells { cells.now ≡ Off 16 ∷ Num 7 ∷ [] }
    ensures { OnOk result (MayMove maps.now mover.new outs.new.items (number + 1)) }
{
    let room = match maps.room(mover, module) {
        Ok(room) => room,
        Err(busy) => return Ok(Some(busy.owner)),
    };
    let place = test_place(number, room.frame());
    let mapped = maps.map(mover, room, place, cells);
    let out = maps.switch(mover, mapped);
    outs.push(out)?;
    Ok(None)
}

/// Retires the mappings that are out under a line, if there are 1 to 8. The number is that of the next mapping.
fn retired(maps: &Maps, mover: &mut MoverSeat, outs: &mut Vec<Out>, line: u64, number: u16)
    requires may { MayMove maps.now mover.old outs.old.items number }
    requires some_line { 1 ≤ line }
    requires few_lines { line ≤ 20000 }
    ensures { MayMove maps.now mover.new outs.new.items number }
{
    let _ = number;
    if outs.len() >= 1 && outs.len() <= 8 {
        maps.retire(mover, line, outs);
    }
}

/// A table of one worker that may be moved.
fn open_one(
    rt: &impl Abort,
    alloc: Global,
    slots: u64,
    frames: u64,
    modules: u64,
) -> Result<(Maps, MoverSeat, Seat, Vec<Out>), OutOfMemory>
    requires slots { (1 ≤ slots) × (slots ≤ 16) }
    requires frames { (2 ≤ frames) × (frames ≤ 16) }
    requires modules { modules ≤ 8 }
    ensures modules { IfOk result (λ o. length o.0.shape.modules ≡ modules) }
    ensures workers { IfOk result (λ o. o.0.shape.workers ≡ 1) }
    ensures seat { IfOk result (λ o. (o.2.table ≡ o.0.table) × (o.2.worker ≡ 0)) }
    ensures may { IfOk result (λ o. MayMove o.0 o.1 o.3.items (1 + modules)) }
{
    let (maps, mover, mut seats, outs) = open_moving(alloc, slots, frames, 1, modules)?;
    let seat = seats.pop().expect(rt, "a seat");
    Ok((maps, mover, seat, outs))
}

/// A table of two workers of one slot that may be moved.
fn open_two(
    rt: &impl Abort,
    alloc: Global,
    frames: u64,
) -> Result<(Maps, MoverSeat, Seat, Seat, Vec<Out>), OutOfMemory>
    requires frames { (2 ≤ frames) × (frames ≤ 16) }
    ensures modules { IfOk result (λ o. length o.0.shape.modules ≡ 1) }
    ensures workers { IfOk result (λ o. o.0.shape.workers ≡ 2) }
    ensures first { IfOk result (λ o. (o.2.table ≡ o.0.table) × (o.2.worker ≡ 0)) }
    ensures second { IfOk result (λ o. (o.3.table ≡ o.0.table) × (o.3.worker ≡ 1)) }
    ensures may { IfOk result (λ o. MayMove o.0 o.1 o.4.items 2) }
{
    let (maps, mover, mut seats, outs) = open_moving(alloc, 1, frames, 2, 1)?;
    let second = seats.pop().expect(rt, "a seat");
    let first = seats.pop().expect(rt, "a seat");
    Ok((maps, mover, first, second, outs))
}

#[test]
fn frames_run_out(rt: HostRuntime) -> Result<(), Fail> {
    let cells = test_cells(rt.alloc())?;
    let (maps, mut mover, _seats, mut outs) = open_moving(rt.alloc(), 1, 2, 1, 1)?;
    assert_eq!(rt;
        moved(&maps, &mut mover, &mut outs, 0, 2, cells.as_slice())?,
        None
    );
    assert_eq!(rt;
        moved(&maps, &mut mover, &mut outs, 0, 3, cells.as_slice())?,
        Some(2)
    );
    Ok(())
}

/// Tests whether a worker that is inside sees its own mapping: the addresses of its pages and no others, and its cells.
fn sees_itself(maps: &Maps, inside: &mut Inside) -> bool
    requires { inside.old.seat.table ≡ maps.now.table }
    ensures table { inside.new.seat.table ≡ inside.old.seat.table }
    ensures worker { inside.new.seat.worker ≡ inside.old.seat.worker }
{
    let place = inside.place();
    let base = place.base();
    let bytes = u64::from(place.pages) * PAGE_BYTES;
    let first = maps.translate(inside, base);
    let last = maps.translate(inside, (base + bytes).wrapping_sub(1));
    let before = maps.translate(inside, base.wrapping_sub(1));
    let behind = maps.translate(inside, base + bytes);
    let nothing = maps.translate(inside, 0);
    let gate = maps.translate(inside, REGION_BYTES);
    let above = maps.translate(inside, 1 << 34);
    let offset = maps.cell(inside, 0);
    let number = maps.cell(inside, 1);
    let past = maps.cell(inside, 2);
    let end = maps.cell(inside, 511);
    let ends = first == Some(0) && last == Some(u64::from(place.pages) - 1);
    let outside = before.is_none()
        && behind.is_none()
        && nothing.is_none()
        && gate.is_none()
        && above.is_none();
    ends && outside && offset == base + 16 && number == 7 && past == 0 && end == 0
}

/// Enters, sees its own mapping and leaves. Answers the mapping's number.
fn visited(rt: &impl Abort, maps: &Maps, seat: Seat, module: u64) -> (Seat, u16)
    requires table { seat.table ≡ maps.now.table }
    requires in_range { «module» < length maps.now.shape.modules }
    ensures table { result.0.table ≡ seat.table }
    ensures worker { result.0.worker ≡ seat.worker }
{
    let mut inside = maps.enter(seat, module);
    assert!(rt; sees_itself(maps, &mut inside));
    let mapping = inside.place().mapping;
    (maps.leave(inside), mapping)
}

/// Closes a table of one worker.
fn close_one(alloc: Global, maps: Maps, mover: MoverSeat, seat: Seat) -> Result<Closed, OutOfMemory>
    requires workers { maps.shape.workers ≡ 1 }
    requires mover { mover.table ≡ maps.table }
    requires seat { seat.table ≡ maps.table }
    requires worker { seat.worker ≡ 0 }
{
    let mut seats = Vec::new(alloc);
    seats.push(seat)?;
    maps.close(alloc, mover, seats)
}

/// The row of a mapping that was retired under this line, or, at 0, that wasn't.
fn row(mapping: u16, who: u64, frame: u8, line: u64) -> Row
    requires { mapping ≤ 4095 }
{
    Row {
        mapping,
        kind: Kind::Code,
        who,
        place: test_place(mapping, frame),
        line,
        unmaps: if line == 0 { 0 } else { 1 },
    }
}

/// The number of the first frame of module 0 that has no owner, or the owner of the last one.
fn first_room(maps: &Maps, mover: &mut MoverSeat) -> Result<u8, u16>
    requires table { mover.old.table ≡ maps.now.table }
    requires some_module { 0 < length maps.now.shape.modules }
    ensures { mover.new.table ≡ mover.old.table }
{
    match maps.room(mover, 0) {
        Ok(room) => Ok(room.frame()),
        Err(busy) => Err(busy.owner),
    }
}

/// Mapping 2 is made current while a worker is inside mapping 1, which is retired under line 7. Its frame has an owner
/// until the worker leaves.
#[test]
fn who_leaves_unmaps_what_was_retired(rt: HostRuntime) -> Result<(), Fail> {
    let cells = test_cells(rt.alloc())?;
    let (maps, mut mover, seat, mut outs) = open_one(&rt, rt.alloc(), 1, 2, 1)?;
    let mut inside = maps.enter(seat, 0);
    let busy = moved(&maps, &mut mover, &mut outs, 0, 2, cells.as_slice()).expect(&rt, "memory");
    assert_eq!(&rt; busy, None);
    retired(&maps, &mut mover, &mut outs, 7, 3);
    assert!(&rt; outs.is_empty());
    assert_eq!(&rt; inside.place(), test_place(1, 0));
    assert!(&rt; sees_itself(&maps, &mut inside));
    assert_eq!(&rt; first_room(&maps, &mut mover), Err(2));
    let seat = maps.leave(inside);
    assert_eq!(&rt; first_room(&maps, &mut mover), Ok(0));
    let closed = close_one(rt.alloc(), maps, mover, seat)?;
    assert_eq!(&rt; closed.rows().len(), 2);
    assert_eq!(&rt; closed.rows()[0], row(1, 0, 0, 7));
    assert_eq!(&rt; closed.rows()[1], row(2, 0, 1, 0));
    Ok(())
}

/// Nobody is inside the mapping that is retired: the mover settles the batch to zero, and unmaps it.
#[test]
fn the_mover_unmaps_what_nobody_is_inside(rt: HostRuntime) -> Result<(), Fail> {
    let cells = test_cells(rt.alloc())?;
    let (maps, mut mover, seat, mut outs) = open_one(&rt, rt.alloc(), 16, 2, 1)?;
    assert_eq!(&rt;
        moved(&maps, &mut mover, &mut outs, 0, 2, cells.as_slice())?,
        None
    );
    retired(&maps, &mut mover, &mut outs, 20_000, 3);
    assert_eq!(&rt; first_room(&maps, &mut mover), Ok(0));
    let (seat, mapping) = visited(&rt, &maps, seat, 0);
    assert_eq!(&rt; mapping, 2);
    let closed = close_one(rt.alloc(), maps, mover, seat)?;
    assert_eq!(&rt; closed.rows().len(), 2);
    assert_eq!(&rt; closed.rows()[0], row(1, 0, 0, 20_000));
    assert_eq!(&rt; closed.rows()[1], row(2, 0, 1, 0));
    Ok(())
}

/// Moves each of so many modules once, from this number on.
fn each_moved(
    maps: &Maps,
    mover: &mut MoverSeat,
    outs: &mut Vec<Out>,
    modules: u16,
    cells: &[Cell],
) -> Result<bool, AllocError>
    requires may { MayMove maps.now mover.old outs.old.items (1 + modules) }
    requires modules { modules ≡ length maps.now.shape.modules }
    requires few { modules ≤ 8 }
    requires cells { cells.now ≡ Off 16 ∷ Num 7 ∷ [] }
    ensures { OnOk result (MayMove maps.now mover.new outs.new.items (1 + modules + modules)) }
{
    let mut all = true;
    for module in 0..modules {
        let busy = moved(
            maps,
            mover,
            outs,
            u64::from(module),
            1 + modules + module,
            cells,
        )?;
        all = all && busy.is_none();
    }
    Ok(all)
}

/// A batch of 8 mappings, each of another module, is unmapped by the one worker that is inside one of them.
#[test]
fn a_batch_has_8_members(rt: HostRuntime) -> Result<(), Fail> {
    let cells = test_cells(rt.alloc())?;
    let (maps, mut mover, seat, mut outs) = open_one(&rt, rt.alloc(), 3, 2, 8)?;
    let inside = maps.enter(seat, 5);
    let all = each_moved(&maps, &mut mover, &mut outs, 8, cells.as_slice()).expect(&rt, "memory");
    assert!(&rt; all);
    assert_eq!(&rt; outs.len(), 8);
    retired(&maps, &mut mover, &mut outs, 3, 17);
    assert_eq!(&rt; first_room(&maps, &mut mover), Err(9));
    let seat = maps.leave(inside);
    assert_eq!(&rt; first_room(&maps, &mut mover), Ok(0));
    let closed = close_one(rt.alloc(), maps, mover, seat)?;
    assert_eq!(&rt; closed.rows().len(), 16);
    for module in 0..8u16 {
        let old = row(1 + module, u64::from(module), (2 * module) as u8, 3);
        assert_eq!(&rt; closed.rows()[usize::from(module)], old);
        let new = row(9 + module, u64::from(module), (2 * module + 1) as u8, 0);
        assert_eq!(&rt; closed.rows()[usize::from(8 + module)], new);
    }
    Ok(())
}

/// Moves modules 1 and 2 in turn, and retires each mapping in a batch of its own, under lines from 1 on.
fn retired_alone(
    maps: &Maps,
    mover: &mut MoverSeat,
    outs: &mut Vec<Out>,
    times: u16,
    cells: &[Cell],
) -> Result<bool, AllocError>
    requires may { MayMove maps.now mover.old outs.old.items 4 }
    requires modules { 3 ≡ length maps.now.shape.modules }
    requires times { times ≤ 4000 }
    requires cells { cells.now ≡ Off 16 ∷ Num 7 ∷ [] }
    ensures { OnOk result (mover.new.table ≡ maps.now.table) }
{
    let mut all = true;
    for more in 0..times {
        let module = 1 + u64::from(more) % 2;
        let busy = moved(maps, mover, outs, module, 4 + more, cells)?;
        all = all && busy.is_none();
        retired(maps, mover, outs, 1 + u64::from(more), 5 + more);
    }
    Ok(all)
}

/// A worker stays inside through 20 moves of other modules: no frame of theirs is given back. Then it frees 20 batches.
#[test]
fn who_stays_frees_each_batch(rt: HostRuntime) -> Result<(), Fail> {
    let cells = test_cells(rt.alloc())?;
    let (maps, mut mover, seat, mut outs) = open_one(&rt, rt.alloc(), 2, 16, 3)?;
    let mut inside = maps.enter(seat, 0);
    let all = retired_alone(&maps, &mut mover, &mut outs, 20, cells.as_slice()).expect(
        &rt, "memory",
    );
    assert!(&rt; all);
    assert!(&rt; sees_itself(&maps, &mut inside));
    let seat = maps.leave(inside);
    let closed = close_one(rt.alloc(), maps, mover, seat)?;
    assert_eq!(&rt; closed.rows().len(), 23);
    assert_eq!(&rt; closed.rows()[0], row(1, 0, 0, 0));
    // Each mapping of modules 1 and 2 was retired by the second move after its own, the last two by none.
    assert_eq!(&rt; closed.rows()[1], row(2, 1, 16, 1));
    assert_eq!(&rt; closed.rows()[2], row(3, 2, 32, 2));
    for more in 0..20u16 {
        let who = 1 + u64::from(more) % 2;
        let frame = 16 * (1 + more % 2) + 1 + more / 2;
        let line = if more < 18 { u64::from(more) + 3 } else { 0 };
        assert_eq!(&rt;
            closed.rows()[usize::from(3 + more)],
            row(4 + more, who, frame as u8, line)
        );
    }
    Ok(())
}

/// Closes a table of two workers.
fn close_two(
    alloc: Global,
    maps: Maps,
    mover: MoverSeat,
    first: Seat,
    second: Seat,
) -> Result<Closed, OutOfMemory>
    requires workers { maps.shape.workers ≡ 2 }
    requires mover { mover.table ≡ maps.table }
    requires first { (first.table ≡ maps.table) × (first.worker ≡ 0) }
    requires second { (second.table ≡ maps.table) × (second.worker ≡ 1) }
{
    let mut seats = Vec::new(alloc);
    seats.push(first)?;
    seats.push(second)?;
    maps.close(alloc, mover, seats)
}

/// A worker leaves. Gives its seat, and the first free frame.
fn left(maps: &Maps, mover: &mut MoverSeat, inside: Inside) -> (Seat, Result<u8, u16>)
    requires inside { inside.seat.table ≡ maps.now.table }
    requires mover { mover.old.table ≡ maps.now.table }
    requires some_module { 0 < length maps.now.shape.modules }
    ensures table { result.0.table ≡ maps.now.table }
    ensures worker { result.0.worker ≡ inside.seat.worker }
    ensures mover { mover.new.table ≡ mover.old.table }
{
    let seat = maps.leave(inside);
    (seat, first_room(maps, mover))
}

/// Both leave, in one order or the other. Gives the seats, and what is free after the first has left and after both have.
fn both_left(
    maps: &Maps,
    mover: &mut MoverSeat,
    early: Inside,
    late: Inside,
    late_first: bool,
) -> (Seat, Seat, [Result<u8, u16>; 2])
    requires early { early.seat.table ≡ maps.now.table }
    requires late { late.seat.table ≡ maps.now.table }
    requires mover { mover.old.table ≡ maps.now.table }
    requires some_module { 0 < length maps.now.shape.modules }
    ensures early { (result.0.table ≡ maps.now.table) × (result.0.worker ≡ early.seat.worker) }
    ensures late { (result.1.table ≡ maps.now.table) × (result.1.worker ≡ late.seat.worker) }
    ensures mover { mover.new.table ≡ mover.old.table }
{
    if late_first {
        let (second, between) = left(maps, mover, late);
        let (first, after) = left(maps, mover, early);
        return (first, second, [between, after]);
    }
    let (first, between) = left(maps, mover, early);
    let (second, after) = left(maps, mover, late);
    (first, second, [between, after])
}

/// Two workers of one slot: the one that entered mapping 1 owes two batches, the one that entered mapping 2 the second.
/// Whoever leaves last frees that one.
#[test]
fn two_workers_of_a_slot_leave_in_both_orders(rt: HostRuntime) -> Result<(), Fail> {
    let cells = test_cells(rt.alloc())?;
    for (late_first, found) in [(false, 0), (true, 3)] {
        let (maps, mut mover, first, second, mut outs) = open_two(&rt, rt.alloc(), 4)?;
        let early = maps.enter(first, 0);
        let busy = moved(&maps, &mut mover, &mut outs, 0, 2, cells.as_slice()).expect(
            &rt, "memory",
        );
        assert_eq!(&rt; busy, None);
        retired(&maps, &mut mover, &mut outs, 1, 3);
        let late = maps.enter(second, 0);
        let busy = moved(&maps, &mut mover, &mut outs, 0, 3, cells.as_slice()).expect(
            &rt, "memory",
        );
        assert_eq!(&rt; busy, None);
        retired(&maps, &mut mover, &mut outs, 2, 4);
        let (first, second, free) = both_left(&maps, &mut mover, early, late, late_first);
        assert_eq!(&rt; free, [Ok(found), Ok(0)]);
        let closed = close_two(rt.alloc(), maps, mover, first, second)?;
        assert_eq!(&rt; closed.rows().len(), 3);
        assert_eq!(&rt; closed.rows()[0], row(1, 0, 0, 1));
        assert_eq!(&rt; closed.rows()[1], row(2, 0, 1, 2));
        assert_eq!(&rt; closed.rows()[2], row(3, 0, 2, 0));
    }
    Ok(())
}

/// Visits the modules in turn, so often.
fn visits(rt: &impl Abort, maps: &Maps, seat: Seat, rounds: u64, modules: u64) -> Seat
    requires table { seat.table ≡ maps.now.table }
    requires modules { modules ≡ length maps.now.shape.modules }
    requires some_module { 0 < modules }
    ensures table { result.table ≡ seat.table }
    ensures worker { result.worker ≡ seat.worker }
{
    let mut seat = seat;
    for round in 0..rounds {
        let (back, _mapping) = visited(rt, maps, seat, round % modules);
        seat = back;
    }
    seat
}

/// Visits the modules in a thread for each seat.
fn all_visit<R: Threads + Abort + Sync>(
    rt: &R,
    maps: &Maps,
    seats: Vec<Seat>,
    rounds: u64,
    modules: u64,
) -> Result<Vec<Seat>, AllocError>
    requires seats { AreAllSeats maps.now.table maps.now.shape.workers seats.items }
    requires modules { modules ≡ length maps.now.shape.modules }
    requires some_module { 0 < modules }
    ensures { IfOk result (λ after. AreAllSeats maps.now.table maps.now.shape.workers after.items) }
{
    thread::map_vec(
        rt,
        seats,
        &|seat: Seat| -> Seat
            requires table { seat.table ≡ maps.now.table }
            requires modules { modules ≡ length maps.now.shape.modules }
            requires some_module { 0 < modules }
            ensures table { result.table ≡ seat.table }
            ensures worker { result.worker ≡ seat.worker }
        { visits(rt, maps, seat, rounds, modules) },
    )
}

/// Moves the modules in turn so often, with mappings from this number on, and retires what goes out, each in a batch of
/// its own. Where a module's frames have all run out, it is passed over. Answers how many mappings it made.
fn moves(
    maps: &Maps,
    mover: MoverSeat,
    outs: Vec<Out>,
    cells: &[Cell],
    modules: u16,
    times: u16,
) -> Result<(MoverSeat, u64), AllocError>
    requires may { MayMove maps.now mover outs.items (1 + modules) }
    requires modules { modules ≡ length maps.now.shape.modules }
    requires some_module { 1 ≤ modules }
    requires few { modules ≤ 8 }
    requires times { times ≤ 4000 }
    requires cells { cells.now ≡ Off 16 ∷ Num 7 ∷ [] }
    ensures { IfOk result (λ m. m.0.table ≡ maps.now.table) }
{
    let mut mover = mover;
    let mut outs = outs;
    let mut made: u64 = 0;
    for more in 0..times {
        let module = u64::from(more) % u64::from(modules);
        let number = 1 + modules + more;
        match moved(maps, &mut mover, &mut outs, module, number, cells)? {
            None => made = made.wrapping_add(1),
            Some(_) => thread::yield_now(),
        }
        retired(maps, &mut mover, &mut outs, 1 + u64::from(more), number + 1);
    }
    Ok((mover, made))
}

/// Workers visit the modules beside a mover that moves and retires. Gives the closed table, and how many mappings were
/// made.
fn beside_one_another<R: Threads + Abort + Sync>(
    rt: &R,
    alloc: Global,
    workers: u64,
    modules: u16,
    rounds: u64,
    times: u16,
) -> Result<(Closed, u64), OutOfMemory>
    requires workers { workers ≤ 64 }
    requires some_module { 1 ≤ modules }
    requires few_modules { modules ≤ 8 }
    requires times { times ≤ 4000 }
{
    let cells = test_cells(alloc)?;
    let count = u64::from(modules);
    let (maps, mover, seats, outs) = open_moving(alloc, 16, 4, workers, count)?;
    let table = &maps;
    let slice = cells.as_slice();
    let (seats, moved) = thread::join(
        rt,
        move || -> Result<Vec<Seat>, AllocError>
            requires sync { IsSync R.row }
            requires seats { AreAllSeats table.now.table table.now.shape.workers seats.items }
            requires modules { count ≡ length table.now.shape.modules }
            requires some_module { 0 < count }
            ensures { IfOk result (λ after. AreAllSeats table.entry.now.table table.entry.now.shape.workers after.items) }
        { all_visit(rt, table, seats, rounds, count) },
        move || -> Result<(MoverSeat, u64), AllocError>
            requires may { MayMove table.now mover outs.items (1 + modules) }
            requires modules { modules ≡ length table.now.shape.modules }
            requires some_module { 1 ≤ modules }
            requires few { modules ≤ 8 }
            requires times { times ≤ 4000 }
            requires cells { slice.now ≡ Off 16 ∷ Num 7 ∷ [] }
            ensures { IfOk result (λ m. m.0.table ≡ table.entry.now.table) }
        { moves(table, mover, outs, slice, modules, times) },
    );
    let (mover, made) = moved?;
    Ok((maps.close(alloc, mover, seats?)?, made))
}

/// Visits that each worker makes in a test. `bench/maps` says how to make more.
const ROUNDS: u64 = 300;

/// Workers, modules, visits of each worker, and moves.
const RUNS: [(u64, u16, u64, u16); 2] = [(8, 1, ROUNDS, 300), (64, 8, 20, 300)];

/// A stress run is no proof: it shows that threads run beside one another, and what they leave. Each row that was retired
/// was unmapped once, and all but the current mappings were.
#[test]
fn threads_see_their_own_mappings(rt: HostRuntime) -> Result<(), Fail> {
    for (workers, modules, rounds, times) in RUNS {
        assert!(rt; workers <= 64 && 1 <= modules && modules <= 8 && times <= 4000);
        let (closed, made) = beside_one_another(&rt, rt.alloc(), workers, modules, rounds, times)?;
        assert_eq!(rt;
            closed.rows().len() as u64,
            u64::from(modules).wrapping_add(made)
        );
        let once = closed.rows().iter().filter(|row| row.unmaps == 1).count() as u64;
        let retired = closed.rows().iter().filter(|row| row.line != 0).count() as u64;
        assert_eq!(rt; once, made);
        assert_eq!(rt; retired, made);
    }
    Ok(())
}
