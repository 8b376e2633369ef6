//! The run of one call.

ghost use Rattle.std.specs.Prelude.{◌≡◌, ◌+◌, ◌*◌, ◌<◌, length};
ghost use Rattle.ad_base.specs.declared.layout.TheConstants.{PAGE_BYTES, STACK_PAGES};
ghost use Rattle.ad_base.specs.Book.{contents_of};
ghost use Rattle.ad_base.specs.Image.{movable_pages, IsWhole};
ghost use Rattle.ad_call.specs.Asked.{asked_in_call};
ghost use Rattle.ad_call.specs.Call.{after_call, HasData};
ghost use Rattle.ad_call.specs.View.{with_asked};

use crate::bus::ModuleBus;
use crate::held::CallBytes;
use crate::pages::Pages;
use crate::pieces::Pieces;
use crate::spot::Bounds;
use crate::stack_bytes::StackBytes;
use ad_base::{Args, Book, Device, End, Entry, Image, Notes, PAGE_BYTES, Place, STACK_PAGES};
use std::mem;

/// A call that is to be made, but for its arguments.
#[derive(Clone, Copy, Debug)]
pub struct Call {
    /// The line of the script.
    pub line: u64,
    pub worker: u64,
    /// The number of the export, counted from 0.
    pub export: u64,
    /// Where the movable part lies.
    pub under: Place,
    pub stack: Place,
}

/// Makes a call, of so many steps at most, and appends its entry to the book, in the room that is there. The movable part is
/// reached through its pages, which are given back. The bytes of the stack are set to zero first. It takes no memory.
pub fn run_call<P: Pages>(
    pages: P,
    bytes: &mut StackBytes,
    image: &Image,
    book: &mut Book,
    call: Call,
    args: &Args,
    fuel: u64,
) -> P
    requires whole { IsWhole image.now }
    requires data { HasData image.now book.old.writable book.old.fixed }
    requires export { call.export < length image.now.exports }
    requires room { 0 < book.old.history.room }
    requires under { (P.view pages).place ≡ call.under }
    requires under_pages { call.under.pages ≡ movable_pages image.now }
    requires cells { (P.view pages).cells ≡ image.now.cells }
    requires stack { call.stack.pages ≡ STACK_PAGES }
    ensures after { contents_of book.new ≡ after_call image.now fuel (contents_of book.old) call args.now }
    ensures data { HasData image.now book.new.writable book.new.fixed }
    ensures room { book.new.history.room + 1 ≡ book.old.history.room }
    ensures pages { P.view result ≡ with_asked (P.view pages) (asked_in_call image.now fuel (contents_of book.old) call args.now) }
{
    let offset = image.exports.as_slice()[call.export as usize].offset;
    let entry = call.under.base().wrapping_add(offset);
    let sp = call.stack.base() + u64::from(STACK_PAGES) * PAGE_BYTES;
    let empty = Vec::new(*bytes.bytes.allocator());
    let stack = mem::replace(&mut bytes.bytes, empty);
    let device = mem::replace(&mut book.device, Device::new());
    let pieces = Pieces {
        image,
        under: call.under,
        stack: call.stack,
        bounds: Bounds::of(image, call.under, call.stack),
        bytes: CallBytes::fresh(stack, book.fixed.take(), book.writable.take()),
    };
    let mut bus = ModuleBus {
        pieces,
        pages,
        device,
        notes: Notes::new(),
    };
    let end = ad_core::call(&mut bus, entry, args, sp, fuel);
    let ModuleBus {
        pieces,
        pages,
        device,
        notes,
    } = bus;
    (bytes.bytes, book.fixed, book.writable) = pieces.bytes.into_parts();
    book.device = device;
    book.history.push(made_entry(call, args, notes, end));
    pages
}

/// The entry of a call that made these notes and ended so.
fn made_entry(call: Call, args: &Args, notes: Notes, end: End) -> Entry
    ensures { result ≡ record {
      line = call.line;
      worker = call.worker;
      export = call.export;
      args = args.now;
      under = call.under;
      stack = call.stack;
      notes = notes;
      end = end;
    } }
{
    Entry {
        line: call.line,
        worker: call.worker,
        export: call.export,
        args: args.copy(),
        under: call.under,
        stack: call.stack,
        notes,
        end,
    }
}
