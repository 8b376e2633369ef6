//! Modules of the symbolic machine.

ghost use Rattle.std.specs.Prelude.{◌≡◌, ◌<◌, [], length, slice_get, Some, IfOk};
ghost use Rattle.ad_base.specs.Image.{IsWhole};
ghost use Rattle.ad_base.specs.declared.image.Export.{Export};
ghost use Rattle.ad_symbolic.specs.Replay.{opened};
ghost use Rattle.ad_symbolic.specs.Reply.{answer_to, kept_after, reason_number, reply_of};

use crate::finish::Unclear;
use crate::machine::Machine;
use crate::memory::Memory;
use crate::reply::{SymEnd, SymReply};
use crate::value::Reason;
use ad_base::{Args, Image, Notes, OutOfMemory};
use arrayvec::ArrayVec;
use std::alloc::Global;
use std::marker::Model;

/// A module whose calls the symbolic machine runs, in their order. Behind the first that isn't clear it runs none.
#[derive(Drop)]
pub struct SymbolicModule<'a> {
    machine: Machine<'a>,
    is_lost: bool,
}

impl<'a> Model for SymbolicModule<'a> {
    ghost use Rattle.std.specs.Prelude.{if◌then◌else◌, None, Some};
    ghost use Rattle.ad_symbolic.specs.Private.Made.{kept_in};
    ghost use Rattle.ad_symbolic.specs.Private.Reached.{IsOfImage};
    ghost use Rattle.ad_symbolic.specs.Reply.{Module};

    ghost Value = { Module };

    ghost view = { λ m. record { image = m.machine.memory.image.now; kept = if m.is_lost then None else Some (kept_in m.machine) } };

    ghost invariant = { λ m. IsOfImage m.machine.memory };
}

impl<'a> SymbolicModule<'a> {
    /// A module of an image, before its first call. It takes all memory that the calls need, and fails for want of memory
    /// alone.
    pub fn new(alloc: Global, image: &'a Image) -> Result<SymbolicModule<'a>, OutOfMemory>
        requires { IsWhole image.now }
        ensures { IfOk result (λ m. m ≡ record { image = image.now; kept = Some (opened image.now) }) }
    {
        Ok(SymbolicModule {
            machine: Machine {
                memory: Memory::of(alloc, image)?,
                notes: ArrayVec::new(),
                queue: ArrayVec::new(),
            },
            is_lost: false,
        })
    }
}

impl SymbolicModule<'_> {
    /// Runs a call of an export, with these arguments and at most `fuel` steps, and says what comes of it wherever the
    /// movable part and the stack lie. It takes no memory.
    pub fn call(&mut self, export: u64, args: &Args, fuel: u64) -> SymReply
        requires { export < length self.old.image.exports }
        ensures reply { (e : Export) → slice_get self.old.image.exports export ≡ Some e
            → result ≡ reply_of (answer_to fuel self.old (record { offset = e.offset; args = args.now })) }
        ensures kept { (e : Export) → slice_get self.old.image.exports export ≡ Some e
            → self.new.kept ≡ kept_after fuel self.old (record { offset = e.offset; args = args.now }) }
        ensures image { self.new.image ≡ self.old.image }
    {
        let offset = self.machine.memory.image.exports.as_slice()[export as usize].offset;
        self.call_at(offset, args, fuel)
    }

    /// Runs a call of the export at an offset.
    fn call_at(&mut self, offset: u64, args: &Args, fuel: u64) -> SymReply
        ensures reply { result ≡ reply_of (answer_to fuel self.old (record { offset = offset; args = args.now })) }
        ensures kept { self.new.kept ≡ kept_after fuel self.old (record { offset = offset; args = args.now }) }
        ensures image { self.new.image ≡ self.old.image }
    {
        if self.is_lost {
            return without_notes(SymEnd::Lost);
        }
        let machine = &mut self.machine;
        machine.reset();
        let finish = match machine.call(offset, args, fuel) {
            Ok(finish) => finish,
            Err(unclear) => {
                self.is_lost = true;
                return without_notes(unclear_end(unclear));
            }
        };
        if self.machine.keeps_none(finish) {
            SymReply {
                end: SymEnd::Clear(finish.end()),
                notes: self.machine.noted(),
            }
        } else {
            self.is_lost = true;
            without_notes(SymEnd::Keeps)
        }
    }
}

/// A reply with no notes.
fn without_notes(end: SymEnd) -> SymReply
    ensures { result ≡ record { end = end; notes = [] } }
{
    SymReply {
        end,
        notes: Notes::new(),
    }
}

/// What is said of a call that isn't clear.
fn unclear_end(unclear: Unclear) -> SymEnd
    ensures { result ≡ SymEnd.Unclear (reason_number unclear.reason) unclear.step }
{
    SymEnd::Unclear {
        reason: number_of_reason(unclear.reason),
        step: unclear.step,
    }
}

/// The number of a reason.
fn number_of_reason(reason: Reason) -> u8
    ensures { result ≡ reason_number reason }
{
    match reason {
        Reason::Arithmetic => 1,
        Reason::Comparison => 2,
        Reason::Address => 3,
        Reason::MixedBytes => 4,
    }
}
