//! The room that a run takes before its first step.

ghost use Rattle.std.specs.Prelude.{◌≡◌, ◌≤◌, length, sum_by, IfOk};
ghost use Rattle.ad_base.specs.Book.{contents_of};
ghost use Rattle.ad_core.specs.Turn.{opening_contents};
ghost use Rattle.ad_lines.specs.Room.{calls_of, moves_of};

use crate::ready::ReadyStep;
use ad_base::{Book, Device, History, Image, OutOfMemory, Sequence};
use ad_script::SCRIPT_LINES;
use std::alloc::Global;

/// The book of an image before its first call, with room for so many.
pub fn open_book(alloc: Global, image: &Image, room: u64) -> Result<Book, OutOfMemory>
    ensures opening { IfOk result (λ book. contents_of book ≡ opening_contents image.now) }
    ensures room { IfOk result (λ book. book.history.room ≡ room) }
{
    Ok(Book {
        writable: Sequence::of(Vec::from_slice(alloc, image.writable.as_slice())?),
        fixed: Sequence::of(Vec::from_slice(alloc, image.fixed_data.as_slice())?),
        device: Device::new(),
        history: History::with_room(alloc, room)?,
    })
}

/// How many calls of a module these steps make.
pub fn calls_of(number: u64, steps: &[ReadyStep]) -> u64
    ensures { result ≡ sum_by (calls_of number) steps.now }
{
    steps.iter().filter(|step| step.is_call_of(number)).count() as u64
}

/// How many things these steps move.
pub fn moves_of(steps: &[ReadyStep]) -> usize
    requires { length steps.now ≤ SCRIPT_LINES }
    ensures { result ≡ sum_by moves_of steps.now }
{
    let mut moves = 0;
    for step in steps {
        moves += step.moves();
    }
    moves
}
