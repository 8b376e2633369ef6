//! A move line.

ghost use Rattle.std.specs.Prelude.{◌≡◌, ◌+◌, ◌<◌, ◌≤◌, [], ◌∷◌, ◌++◌, length, slice_index, slice_set, All, vec_capacity};
ghost use Rattle.ad_base.specs.declared.layout.TheConstants.{MAPPINGS, PART_PAGES};
ghost use Rattle.ad_base.specs.declared.ledger.Kind.TheVariants as kinds;
ghost use Rattle.ad_base.specs.Image.{movable_pages};
ghost use Rattle.ad_maps.specs.declared.view.Deed.TheVariants as deed;
ghost use Rattle.ad_maps.specs.declared.words.TheConstants.{LINES, MEMBERS};
ghost use Rattle.ad_maps.specs.MapPlace.{opening_of};
ghost use Rattle.ad_maps.specs.Seen.{retires_of};
ghost use Rattle.ad_mover.specs.Moves.{MovesLine, MovesModules};
ghost use Rattle.ad_mover.specs.Seen.{moving, HasDrawn, IsMoverOf};
ghost use Rattle.ad_mover.specs.Private.Lines.{ComesTo, HasSeats, IsRoomOf, KeepsOthers, KeepsRoom, MovesOne, SendsOut};
ghost use Rattle.ad_place.specs.Choice.{next_place, with_next};
ghost use Rattle.ad_wrapper.specs.Fits.{Fits};

use crate::mover::Mover;
use ad_base::{
    Gate, Image, Kind, LOCAL_PAGES, MoveEnd, Moved, Place, Point, STUB_PAGES, TABLE_PAGES,
};
use ad_maps::Room;
use ad_script::Members;
use ad_wrapper::Shared;

/// Moves the modules of a line, and retires under the line what went out.
pub(crate) fn move_line<G: Gate>(
    shared: &Shared,
    mover: &mut Mover,
    line: u64,
    modules: &Members,
    gate: &G,
)
    requires fits { Fits shared.now }
    requires mover { IsMoverOf shared.now mover.old }
    requires outs { mover.old.outs.items ≡ [] }
    requires outs_room { MEMBERS ≤ vec_capacity mover.old.outs }
    requires done { length mover.old.done.items + length modules.now ≤ vec_capacity mover.old.done }
    requires modules { All (λ m. m < length shared.now.images) modules.now }
    requires some_line { 1 ≤ line }
    requires few_lines { line ≤ LINES }
    ensures made { MovesLine shared.now.maps.shape line modules.now (moving mover.old) (moving mover.new) }
    ensures mover { IsMoverOf shared.now mover.new }
    ensures outs { mover.new.outs.items ≡ [] }
    ensures done { length mover.new.done.items ≡ length mover.old.done.items + length modules.now }
    ensures room { KeepsRoom mover.old mover.new }
{
    gate.pause(mover.who, line, Point::Move);
    move_modules(shared, mover, line, modules);
    if mover.outs.is_empty() {
        return;
    }
    gate.pause(mover.who, line, Point::Switched);
    shared.maps.retire(&mut mover.seat, line, &mut mover.outs);
    gate.pause(mover.who, line, Point::Retired);
}

/// Moves the modules of a line, in order.
fn move_modules(shared: &Shared, mover: &mut Mover, line: u64, modules: &Members)
    requires fits { Fits shared.now }
    requires seats { HasSeats shared.now mover.old }
    requires drawn { HasDrawn shared.now.maps.shape shared.now.stacks.openings (moving mover.old) }
    requires outs { mover.old.outs.items ≡ [] }
    requires outs_room { MEMBERS ≤ vec_capacity mover.old.outs }
    requires done { length mover.old.done.items + length modules.now ≤ vec_capacity mover.old.done }
    requires modules { All (λ m. m < length shared.now.images) modules.now }
    ensures moved { MovesModules shared.now.maps.shape line modules.now (moving mover.old) (retires_of line mover.new.outs.items) (moving mover.new) }
    ensures seats { HasSeats shared.now mover.new }
    ensures drawn { HasDrawn shared.now.maps.shape shared.now.stacks.openings (moving mover.new) }
    ensures few { length mover.new.outs.items ≤ MEMBERS }
    ensures done { length mover.new.done.items ≡ length mover.old.done.items + length modules.now }
    ensures room { KeepsRoom mover.old mover.new }
{
    for index in 0..modules.len() {
        move_module(shared, mover, line, modules.get(index));
    }
}

/// Moves a module, and notes what came of it.
fn move_module(shared: &Shared, mover: &mut Mover, line: u64, module: u64)
    requires fits { Fits shared.now }
    requires seats { HasSeats shared.now mover.old }
    requires drawn { HasDrawn shared.now.maps.shape shared.now.stacks.openings (moving mover.old) }
    requires in_range { «module» < length shared.now.images }
    requires outs_room { length mover.old.outs.items < vec_capacity mover.old.outs }
    requires done_room { length mover.old.done.items < vec_capacity mover.old.done }
    ensures moved { MovesOne shared.now.maps.shape line «module» mover.old mover.new }
    ensures seats { HasSeats shared.now mover.new }
    ensures drawn { HasDrawn shared.now.maps.shape shared.now.stacks.openings (moving mover.new) }
    ensures few { length mover.new.outs.items ≤ length mover.old.outs.items + 1 }
    ensures done { length mover.new.done.items ≡ length mover.old.done.items + 1 }
    ensures room { KeepsRoom mover.old mover.new }
{
    let end = try_module(shared, mover, module);
    mover.done.push_reserved(Moved {
        line,
        kind: Kind::Code,
        who: module,
        end,
    });
}

/// Moves a module, if a number is left and a frame of the module has no owner.
fn try_module(shared: &Shared, mover: &mut Mover, module: u64) -> MoveEnd
    requires fits { Fits shared.now }
    requires seats { HasSeats shared.now mover.old }
    requires drawn { HasDrawn shared.now.maps.shape shared.now.stacks.openings (moving mover.old) }
    requires in_range { «module» < length shared.now.images }
    requires outs_room { length mover.old.outs.items < vec_capacity mover.old.outs }
    ensures comes { ComesTo shared.now.maps.shape «module» mover.old mover.new result }
    ensures seats { HasSeats shared.now mover.new }
    ensures few { length mover.new.outs.items ≤ length mover.old.outs.items + 1 }
    ensures others { KeepsOthers mover.old mover.new }
{
    if mover.placer.left() == 0 {
        return MoveEnd::Spent;
    }
    match shared.maps.room(&mut mover.seat, module) {
        Ok(room) => MoveEnd::Made(place_in(shared, mover, module, room)),
        Err(busy) => MoveEnd::Busy(busy.owner),
    }
}

/// Makes a mapping of the module at the next place, in the room's frame, and switches the module to it.
fn place_in(shared: &Shared, mover: &mut Mover, module: u64, room: Room) -> Place
    requires fits { Fits shared.now }
    requires seats { HasSeats shared.now mover.old }
    requires drawn { HasDrawn shared.now.maps.shape shared.now.stacks.openings (moving mover.old) }
    requires in_range { «module» < length shared.now.images }
    requires left { length mover.old.placer.places < MAPPINGS }
    requires room { IsRoomOf shared.now.maps.shape «module» mover.old.seat room }
    requires outs_room { length mover.old.outs.items < vec_capacity mover.old.outs }
    ensures place { result ≡ record (next_place mover.old.placer kinds.Code (opening_of shared.now.maps.shape «module»).place.pages) { frame = room.frame } }
    ensures placer { mover.new.placer ≡ with_next mover.old.placer kinds.Code (opening_of shared.now.maps.shape «module»).place.pages }
    ensures deeds { mover.new.seat.deeds ≡ mover.old.seat.deeds ++ deed.Map «module» result ∷ deed.Switch «module» result ∷ [] }
    ensures current { mover.new.seat.current ≡ slice_set mover.old.seat.current «module» result.mapping }
    ensures out { SendsOut (slice_index mover.old.seat.current «module») mover.old mover.new }
    ensures seats { HasSeats shared.now mover.new }
    ensures others { KeepsOthers mover.old mover.new }
{
    let image = &shared.images.as_slice()[module as usize];
    let mut place = mover.placer.next(Kind::Code, movable_pages(image));
    place.frame = room.frame();
    let mapped = shared
        .maps
        .map(&mut mover.seat, room, place, image.cells.as_slice());
    let out = shared.maps.switch(&mut mover.seat, mapped);
    mover.outs.push_reserved(out);
    place
}

/// The pages of the image's movable part.
fn movable_pages(image: &Image) -> u16
    requires { movable_pages image.now ≤ PART_PAGES }
    ensures { result ≡ movable_pages image.now }
{
    image.text_pages + STUB_PAGES + image.read_pages + TABLE_PAGES + LOCAL_PAGES + image.data_pages
}
