//! Steps and runs of the symbolic machine.

ghost use Rattle.std.specs.Prelude.{◌≡◌, ◌<◌, ℕ, Ok, Some};
ghost use Rattle.ad_isa.specs.Step.{execute, perform, settle, step, to_target, Goes, Service};
ghost use Rattle.ad_isa.specs.Words.{HasWord};
ghost use Rattle.ad_symbolic.specs.Machine.{symbolic_storage, Memory};
ghost use Rattle.ad_symbolic.specs.Private.Code.{effect_of, sizes, IsInRange};
ghost use Rattle.ad_symbolic.specs.Private.Made.{memory_in, next_of, state_of, Stays};
ghost use Rattle.ad_symbolic.specs.Value.{values};

use crate::effect::Effect;
use crate::finish::{Finish, Unclear};
use crate::hart::{Hart, even};
use crate::machine::Machine;
use crate::memory::Found;
use crate::service::make_service;
use crate::value::{Reason, Value};
use ad_base::{End, FETCH_BYTES, INSTRUCTION_BYTES, SERVICES};
use ad_isa::{Instr, decode};

/// The number of the register ra, where a call's return address stands.
const RETURN_ADDRESS: u8 = 1;

/// The number of the register a0.
const FIRST_ARGUMENT: u8 = 10;

impl Hart {
    /// Goes on at a target, if it is a multiple of a fetch's bytes, or ends the call.
    fn go(&mut self, target: Value) -> Result<Option<Finish>, Reason>
        ensures { (movable : ℕ) (m : Memory) → Ok (to_target (values (sizes movable)) symbolic_storage self.old.registers m target) ≡ next_of result self.new m }
    {
        if target.offset() % FETCH_BYTES != 0 {
            return Ok(Some(Finish::Ends(End::Misaligned)));
        }
        self.pc = target;
        Ok(None)
    }

    /// Goes on at the next instruction.
    fn pass(&mut self, next: Value) -> Result<Option<Finish>, Reason>
        ensures { (m : Memory) → next_of result self.new m ≡ Ok (Goes (record { registers = self.old.registers; pc = next }) m) }
    {
        self.pc = next;
        Ok(None)
    }
}

impl Machine<'_> {
    /// Makes one step, or gives how the call ends by it, or why it isn't clear.
    #[tactic(auto, unfolding(ad_isa::specs::Step::step))]
    pub fn step(&mut self, hart: &mut Hart) -> Result<Option<Finish>, Reason>
        ensures made { step (values (sizes self.old.memory.movable_bytes)) symbolic_storage (state_of hart.old) (memory_in self.old) ≡ next_of result hart.new (memory_in self.new) }
        ensures stays { Stays self.old self.new }
    {
        match self.memory.fetch(hart.pc) {
            Ok(Ok(Found::Word(word))) => match decode(word) {
                Some(instr) => self.execute(hart, instr),
                None => Ok(Some(Finish::Ends(End::Illegal))),
            },
            Ok(Ok(Found::Service(number))) => self.serve(hart, number),
            Ok(Err(end)) => Ok(Some(Finish::Ends(end))),
            Err(reason) => Err(reason),
        }
    }

    /// Makes the step of an instruction.
    fn execute(&mut self, hart: &mut Hart, instr: Instr) -> Result<Option<Finish>, Reason>
        requires { HasWord instr }
        ensures made { execute (values (sizes self.old.memory.movable_bytes)) symbolic_storage (state_of hart.old) (memory_in self.old) INSTRUCTION_BYTES (Some instr)
            ≡ next_of result hart.new (memory_in self.new) }
        ensures stays { Stays self.old self.new }
    {
        let next = hart.pc.sum(Value::Num(INSTRUCTION_BYTES))?;
        let effect = hart.effect(instr, next, self.memory.movable_bytes)?;
        self.settle(hart, effect, next)
    }

    /// Makes an effect, where an instruction follows that is at `next`.
    fn settle(
        &mut self,
        hart: &mut Hart,
        effect: Effect,
        next: Value,
    ) -> Result<Option<Finish>, Reason>
        requires { IsInRange effect }
        ensures made { settle (values (sizes self.old.memory.movable_bytes)) symbolic_storage (state_of hart.old) (memory_in self.old) next (effect_of effect)
            ≡ next_of result hart.new (memory_in self.new) }
        ensures stays { Stays self.old self.new }
    {
        match effect {
            Effect::Passes => hart.pass(next),
            Effect::Writes { rd, value } => {
                hart.set(rd, value);
                hart.pass(next)
            }
            Effect::Jumps { rd, link, target } => {
                hart.set(rd, link);
                hart.go(target)
            }
            Effect::Branches { target } => hart.go(target),
            Effect::Loads {
                size,
                signed,
                rd,
                address,
            } => match self.memory.load(size, signed, address) {
                Ok(Ok(value)) => {
                    hart.set(rd, value);
                    hart.pass(next)
                }
                Ok(Err(end)) => Ok(Some(Finish::Ends(end))),
                Err(reason) => Err(reason),
            },
            Effect::Stores {
                size,
                value,
                address,
            } => match self.memory.store(size, value, address) {
                Ok(Ok(())) => hart.pass(next),
                Ok(Err(end)) => Ok(Some(Finish::Ends(end))),
                Err(reason) => Err(reason),
            },
            Effect::Stops(end) => Ok(Some(Finish::Ends(end))),
        }
    }

    /// Makes the step of a service.
    fn serve(&mut self, hart: &mut Hart, number: u8) -> Result<Option<Finish>, Reason>
        requires { number < SERVICES }
        ensures made { perform (values (sizes self.old.memory.movable_bytes)) symbolic_storage (state_of hart.old) (memory_in self.old) (Ok (Service number))
            ≡ next_of result hart.new (memory_in self.new) }
        ensures stays { Stays self.old self.new }
    {
        let given = hart.get(FIRST_ARGUMENT);
        match make_service(number, given, &mut self.notes, &mut self.queue) {
            Ok(a0) => {
                let target = even(hart.get(RETURN_ADDRESS))?;
                hart.set(FIRST_ARGUMENT, a0);
                hart.go(target)
            }
            Err(finish) => Ok(Some(finish)),
        }
    }
}
