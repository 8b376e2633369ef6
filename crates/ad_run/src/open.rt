//! The tables of a run are opened.

ghost use Rattle.std.specs.Prelude.{◌≡◌, ℕ, ◌*◌, ◌≤◌, [], length, map, sum_by, slice_get, vec_capacity, All, IfOk, IfSome};
ghost use Rattle.std.specs.List.{enumerate_from, range_with_len, zip};
ghost use Rattle.ad_base.specs.declared.ledger.Kind.TheVariants.{Stack};
ghost use Rattle.ad_base.specs.Book.{contents_of};
ghost use Rattle.ad_core.specs.Turn.{opening_contents};
ghost use Rattle.ad_lines.specs.LineLaws.{AreSteps};
ghost use Rattle.ad_lines.specs.Opening.{opening_drawn, places_of_kind, AreLoaded};
ghost use Rattle.ad_lines.specs.Room.{calls_of, moves_of};
ghost use Rattle.ad_lines.specs.Sound.{Lines};
ghost use Rattle.ad_maps.specs.Seen as maps;
ghost use Rattle.ad_run.specs.Calls.{calls_at, calls_of_worker};
ghost use Rattle.ad_run.specs.Jobs.{AreNewJobs, IsReady};
ghost use Rattle.ad_run.specs.Opened.{draws_for, drawn_mappings, opening_for, shape_for, HasRoomFor, IsNewMover, IsOpenedFor};
ghost use Rattle.ad_stacks.specs.Seen as stacks;
ghost use Rattle.ad_turns.specs.Seen as turns;

use crate::calls::{calls_of_workers, draws_for};
use crate::jobs::{hands_of, jobs_of};
use crate::seats::{SeatLists, room_for};
use crate::threads::Job;
use ad_base::{Book, Image, Kind, OutOfMemory, Place, Sequence};
use ad_lines::{ReadyStep, calls_of, moves_of, open_book, opening_places};
use ad_maps::{MEMBERS, MODULE_FRAMES, Maps, MoverSeat, Opening, SLOTS, Seat};
use ad_mover::Mover;
use ad_place::Placer;
use ad_script::SCRIPT_LINES;
use ad_stacks::{StackMover, StackSeat, Stacks};
use ad_turns::{Counts, TurnSeat, Turns};
use ad_wrapper::{Ready, Shared};
use std::alloc::Global;

/// How large the mapping table of a run is.
#[derive(Clone, Copy, Debug)]
pub struct Sizes {
    /// The slots that workers enter on, from 1 to 16.
    pub slots: u64,
    /// The table frames of each module, from 2 to 16.
    pub frames: u64,
}

/// What the threads of a run begin with, and the room for the seats that they give back.
#[derive(Drop)]
pub struct Opened {
    pub shared: Shared,
    /// One for each worker, in order.
    pub jobs: Vec<Job>,
    pub mover: Mover,
    pub lists: SeatLists,
}

/// Opens the tables for these steps, of so many workers, on modules of these images, which were loaded in order, at the places
/// that were drawn for them. It takes all memory that the steps need. The one error is want of memory.
pub fn open(
    alloc: Global,
    images: Vec<Image>,
    workers: u64,
    placer: Placer,
    steps: &[ReadyStep],
    fuel: u64,
    sizes: Sizes,
) -> Result<Opened, OutOfMemory>
    requires loaded { AreLoaded placer.seed workers images.items }
    requires drawn { placer ≡ opening_drawn placer.seed workers images.items }
    requires steps { AreSteps images.items workers steps.now }
    requires lines { length steps.now ≤ SCRIPT_LINES }
    requires some_slot { 1 ≤ sizes.slots }
    requires few_slots { sizes.slots ≤ SLOTS }
    requires some_frames { 2 ≤ sizes.frames }
    requires few_frames { sizes.frames ≤ MODULE_FRAMES }
    ensures opened { let l : Lines = record { seed = placer.seed; workers = workers; images = images.items; fuel = fuel; steps = steps.now } in
        IfOk result (λ o. IsOpenedFor sizes.slots sizes.frames l o.shared) }
    ensures jobs { let l : Lines = record { seed = placer.seed; workers = workers; images = images.items; fuel = fuel; steps = steps.now } in
        IfOk result (λ o. AreNewJobs o.shared l o.jobs.items) }
    ensures ready { IfOk result (λ o. All (IsReady o.shared) o.jobs.items) }
    ensures mover { let l : Lines = record { seed = placer.seed; workers = workers; images = images.items; fuel = fuel; steps = steps.now } in
        IfOk result (λ o. IsNewMover o.shared l o.mover) }
    ensures lists { IfOk result (λ o. HasRoomFor workers o.lists) }
{
    let (maps, seat, seats) = open_maps(alloc, &images, workers, &placer, sizes)?;
    let (stacks, stack_mover, stack_seats) = open_stacks(alloc, &images, workers, &placer)?;
    let calls = calls_of_workers(alloc, workers, steps)?;
    let (turns, turn_seats) = open_turns(alloc, &images, &calls, steps)?;
    let hands = hands_of(alloc, seats, stack_seats, turn_seats)?;
    let jobs = jobs_of(alloc, hands, calls)?;
    let mover = new_mover(alloc, workers, placer, seat, stack_mover, steps)?;
    let lists = room_for(alloc, workers)?;
    let shared = Shared {
        maps,
        stacks,
        turns,
        images: Sequence::of(images),
        fuel,
    };
    Ok(Opened {
        shared,
        jobs,
        mover,
        lists,
    })
}

/// Opens the mapping table with the modules of these images, at the places that were drawn for their movable parts.
fn open_maps(
    alloc: Global,
    images: &[Image],
    workers: u64,
    placer: &Placer,
    sizes: Sizes,
) -> Result<(Maps, MoverSeat, Vec<Seat>), OutOfMemory>
    requires loaded { AreLoaded placer.now.seed workers images.now }
    requires drawn { placer.now ≡ opening_drawn placer.now.seed workers images.now }
    requires some_slot { 1 ≤ sizes.slots }
    requires few_slots { sizes.slots ≤ SLOTS }
    requires some_frames { 2 ≤ sizes.frames }
    requires few_frames { sizes.frames ≤ MODULE_FRAMES }
    ensures shape { let l : Lines = record { seed = placer.now.seed; workers = workers; images = images.now; fuel = 0; steps = [] } in
        IfOk result (λ opened. opened.0.shape ≡ shape_for sizes.slots sizes.frames l) }
    ensures mover { IfOk result (λ opened. opened.1 ≡ maps.new_mover opened.0.table opened.0.shape) }
    ensures seats { IfOk result (λ opened. maps.AreNew opened.0.table workers opened.2.items) }
{
    let parts = opening_places(alloc, workers, images, placer.places(), Kind::Code)?;
    let openings = openings_of(alloc, images, &parts, sizes.frames)?;
    Maps::open(alloc, sizes.slots, sizes.frames, workers, &openings)
}

/// Opens the stack table with the places that were drawn for the stacks.
fn open_stacks(
    alloc: Global,
    images: &[Image],
    workers: u64,
    placer: &Placer,
) -> Result<(Stacks, StackMover, Vec<StackSeat>), OutOfMemory>
    requires loaded { AreLoaded placer.now.seed workers images.now }
    requires drawn { placer.now ≡ opening_drawn placer.now.seed workers images.now }
    ensures openings { let l : Lines = record { seed = placer.now.seed; workers = workers; images = images.now; fuel = 0; steps = [] } in
        IfOk result (λ opened. opened.0.openings ≡ places_of_kind Stack (drawn_mappings l)) }
    ensures mover_table { IfOk result (λ opened. opened.1.table ≡ opened.0.table) }
    ensures mover_lanes { IfOk result (λ opened. opened.1.lanes ≡ workers) }
    ensures no_refresh { IfOk result (λ opened. opened.1.refreshes ≡ []) }
    ensures seats { IfOk result (λ opened. stacks.AreNew opened.0.table workers opened.2.items) }
{
    let places = opening_places(alloc, workers, images, placer.places(), Kind::Stack)?;
    Stacks::open(alloc, &places)
}

/// Opens the turn table with the books of these images before the first call, and with room for the calls of these steps,
/// which are those of these workers.
fn open_turns(
    alloc: Global,
    images: &[Image],
    calls: &[Vec<Ready>],
    steps: &[ReadyStep],
) -> Result<(Turns, Vec<TurnSeat>), OutOfMemory>
    requires some_worker { 1 ≤ length calls.now }
    requires few_workers { length calls.now ≤ 64 }
    requires few_modules { length images.now ≤ 8 }
    requires calls { map (λ list. list.items) calls.now ≡ map (λ w. calls_of_worker w steps.now) (range_with_len 0 (length calls.now)) }
    ensures books { IfOk result (λ opened. map contents_of opened.0.openings ≡ map opening_contents images.now) }
    ensures calls { let l : Lines = record { seed = 0; workers = length calls.now; images = images.now; fuel = 0; steps = steps.now } in
        IfOk result (λ opened. opened.0.calls ≡ map (draws_for l) (range_with_len 0 (length calls.now))) }
    ensures seats { IfOk result (λ opened. turns.AreNew opened.0.table opened.0.calls opened.1.items) }
{
    let books = books_of(alloc, images, steps)?;
    let draws = draws_of(alloc, images.len() as u64, calls)?;
    Turns::open(alloc, books, &draws)
}

/// A mover that made no move yet, with room for what one line retires and for the moves of these steps.
fn new_mover(
    alloc: Global,
    workers: u64,
    placer: Placer,
    seat: MoverSeat,
    stack_mover: StackMover,
    steps: &[ReadyStep],
) -> Result<Mover, OutOfMemory>
    requires lines { length steps.now ≤ SCRIPT_LINES }
    ensures who { IfOk result (λ m. m.who ≡ workers) }
    ensures placer { IfOk result (λ m. m.placer ≡ placer) }
    ensures seat { IfOk result (λ m. m.seat ≡ seat) }
    ensures stack_mover { IfOk result (λ m. m.stack_mover ≡ stack_mover) }
    ensures no_outs { IfOk result (λ m. m.outs.items ≡ []) }
    ensures outs { IfOk result (λ m. MEMBERS ≤ vec_capacity m.outs) }
    ensures none_done { IfOk result (λ m. m.done.items ≡ []) }
    ensures done { IfOk result (λ m. sum_by moves_of steps.now ≤ vec_capacity m.done) }
{
    Ok(Mover {
        who: workers,
        placer,
        seat,
        stack_mover,
        outs: Vec::with_capacity(alloc, MEMBERS)?,
        done: Vec::with_capacity(alloc, moves_of(steps))?,
    })
}

/// How the mapping table is opened with the modules of these images, whose movable parts lie at these places.
fn openings_of(
    alloc: Global,
    images: &[Image],
    parts: &[Place],
    frames: u64,
) -> Result<Vec<Opening>, OutOfMemory>
    requires each { length images.now ≡ length parts.now }
    requires few { length images.now ≤ 8 }
    requires frames { frames ≤ MODULE_FRAMES }
    ensures { IfOk result (λ openings. openings.items ≡ map (opening_for frames) (zip (enumerate_from 0 images.now) parts.now)) }
{
    let mut openings = Vec::new(alloc);
    for module in 0..images.len() {
        let frame = module as u64 * frames;
        openings.push(opening_at(alloc, &images[module], parts[module], frame as u8)?)?;
    }
    Ok(openings)
}

/// A module at a place, in its first frame.
fn opening_at(alloc: Global, image: &Image, part: Place, frame: u8) -> Result<Opening, OutOfMemory>
    ensures { IfOk result (λ opening. opening ≡ record { place = record part { frame = frame }; cells = image.now.cells }) }
{
    let cells = Vec::from_slice(alloc, image.cells.as_slice())?;
    Ok(Opening {
        place: Place { frame, ..part },
        cells: Sequence::of(cells),
    })
}

/// The books of these images before the first call, each with room for the calls of its module.
fn books_of(alloc: Global, images: &[Image], steps: &[ReadyStep]) -> Result<Vec<Book>, OutOfMemory>
    ensures contents { IfOk result (λ books. map contents_of books.items ≡ map opening_contents images.now) }
    ensures room { IfOk result (λ books. map (λ b. b.history.room) books.items ≡ map (λ m. sum_by (calls_of m) steps.now) (range_with_len 0 (length images.now))) }
{
    let mut books = Vec::new(alloc);
    for module in 0..images.len() {
        let book = open_book(alloc, &images[module], calls_of(module as u64, steps))?;
        books.push(book)?;
    }
    Ok(books)
}

/// The draws of each worker of these calls: for each of so many modules as many as it makes calls of it. The one error is want of
/// memory.
fn draws_of(alloc: Global, modules: u64, calls: &[Vec<Ready>]) -> Result<Vec<Counts>, OutOfMemory>
    ensures { IfOk result (λ draws. draws.items ≡ map (λ list. map (λ m. calls_at m list.items) (range_with_len 0 modules)) calls.now) }
{
    let mut draws = Vec::new(alloc);
    for list in calls {
        draws.push(draws_for(alloc, modules, list.as_slice())?)?;
    }
    Ok(draws)
}
