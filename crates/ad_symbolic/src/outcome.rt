//! Calls of the symbolic machine, and whether one keeps an address.

ghost use Rattle.std.specs.Prelude.{◌≡◌, [], map};
ghost use Rattle.std.specs.List.{list_all};
ghost use Rattle.ad_symbolic.specs.AddressSpace.{space_of};
ghost use Rattle.ad_symbolic.specs.Machine.{fresh_stack, symbolic_call};
ghost use Rattle.ad_symbolic.specs.Private.Made.{finish_of, memory_in, run_of, Stays};
ghost use Rattle.ad_symbolic.specs.Private.Reached.{space_in, IsOfImage};
ghost use Rattle.ad_symbolic.specs.Replay.{end_of, is_number, is_number_end, keeps_none, number_or_zero};

use crate::finish::{Finish, Unclear};
use crate::hart::Hart;
use crate::machine::Machine;
use crate::memory::Memory;
use crate::value::Value;
use ad_base::{Args, End, FETCH_BYTES, Notes};

impl Value {
    /// The number, or 0 where there is none.
    fn number_or_zero(self) -> u64
        ensures { result ≡ number_or_zero self }
    {
        match self {
            Value::Num(number) => number,
            Value::At(..) => 0,
        }
    }
}

impl Finish {
    /// The end of a call that keeps no address.
    pub fn end(self) -> End
        ensures { result ≡ end_of (finish_of self) }
    {
        match self {
            Finish::Returns(value) => End::Returned(value.number_or_zero()),
            Finish::Aborts(value) => End::Abort(value.number_or_zero()),
            Finish::Ends(end) => end,
        }
    }

    /// Whether it has no address.
    fn is_number(self) -> bool
        ensures { result ≡ is_number_end (finish_of self) }
    {
        match self {
            Finish::Returns(value) | Finish::Aborts(value) => matches!(value, Value::Num(_)),
            Finish::Ends(_) => true,
        }
    }
}

/// Whether no value is an address.
fn are_numbers(values: &[Value]) -> bool
    ensures { result ≡ list_all is_number values.now }
{
    values.iter().all(|value| matches!(*value, Value::Num(_)))
}

impl Memory<'_> {
    /// Makes the stack fresh.
    fn clear_stack(&mut self)
        ensures fresh { IsOfImage self.old → space_in self.new ≡ space_of self.old.image.now self.old.writable.bytes self.old.fixed_data.bytes fresh_stack }
        ensures image { self.new.image ≡ self.old.image }
        ensures kept { IsOfImage self.old → IsOfImage self.new }
    {
        self.stack.clear();
    }
}

impl Machine<'_> {
    /// Makes the stack fresh, and takes out the notes.
    pub fn reset(&mut self)
        ensures fresh { IsOfImage self.old.memory → memory_in self.new
            ≡ record {
              space = space_of self.old.memory.image.now self.old.memory.writable.bytes self.old.memory.fixed_data.bytes fresh_stack;
              notes = [];
              queue = self.old.queue.items;
            } }
        ensures stays { Stays self.old self.new }
    {
        self.memory.clear_stack();
        self.notes.clear();
    }

    /// Runs a call of the export at an offset, with these arguments and at most `fuel` steps.
    #[tactic(auto, unfolding(crate::specs::Machine::symbolic_call))]
    pub fn call(&mut self, offset: u64, args: &Args, fuel: u64) -> Result<Finish, Unclear>
        ensures made { symbolic_call fuel offset args.now (memory_in self.old) ≡ run_of result (memory_in self.new) }
        ensures stays { Stays self.old self.new }
    {
        if offset % FETCH_BYTES != 0 {
            return Ok(Finish::Ends(End::Misaligned));
        }
        let mut hart = Hart::start(offset, args);
        self.run(&mut hart, fuel)
    }

    /// Whether a call that ended so keeps no address.
    pub fn keeps_none(&self, finish: Finish) -> bool
        ensures { result ≡ keeps_none (record { finish = finish_of finish; memory = memory_in self.now }) }
    {
        self.memory.writable.has_numbers()
            && self.memory.fixed_data.has_numbers()
            && are_numbers(self.notes.as_slice())
            && are_numbers(self.queue.as_slice())
            && finish.is_number()
    }

    /// The numbers of the notes.
    pub fn noted(&self) -> Notes
        ensures { result ≡ map number_or_zero self.now.notes.items }
    {
        let mut notes = Notes::new();
        for note in self.notes.as_slice() {
            notes.push(note.number_or_zero());
        }
        notes
    }
}
