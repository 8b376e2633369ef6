//! Steps.

ghost use Rattle.std.specs.Prelude.{◌≡◌, ◌≢◌, ◌%◌, ◌<◌, ◌==◌, IfNone, Ok, Some};
ghost use Rattle.ad_base.specs.Segments.{Load, Store, told};
ghost use Rattle.ad_isa.specs.Numbers.{numbers};
ghost use Rattle.ad_isa.specs.Step.{execute, perform, settle, step, Service};
ghost use Rattle.ad_isa.specs.Words.{HasWord, IsSize};
ghost use Rattle.ad_core.specs.Bus.{end_of_refusal, track_after};
ghost use Rattle.ad_core.specs.Memory.{loaded, stored};
ghost use Rattle.ad_core.specs.Plain.{after_store, plain_storage, untouched, widened_or_end};
ghost use Rattle.ad_core.specs.Private.Code.{IsMade, IsInRange, effect_of, end_of_store, state_of};

use crate::bus::{Bus, Fetched, Refusal, Served};
use crate::effect::Effect;
use crate::hart::Hart;
use ad_base::{End, FETCH_BYTES, GATE, INSTRUCTION_BYTES, SERVICES};
use ad_isa::{Instr, decode, widen};

/// The number of the register ra, where a call's return address stands.
const RETURN_ADDRESS: u8 = 1;

/// The number of the register a0.
const FIRST_ARGUMENT: u8 = 10;

/// Makes one step, or gives the end that it comes to.
pub fn step<B: Bus>(bus: &mut B, hart: &mut Hart) -> Option<End>
    requires aligned { hart.old.pc % FETCH_BYTES ≡ 0 }
    requires running { hart.old.pc ≢ GATE }
    ensures made { IsMade B.rule (step numbers plain_storage (state_of hart.old)) (B.memory bus.old) (B.track bus.old)
        result hart.new (B.memory bus.new) (B.track bus.new) }
    ensures aligned { IfNone result (hart.new.pc % FETCH_BYTES ≡ 0) }
{
    match bus.fetch(hart.pc) {
        Fetched::Word(word) => match decode(word) {
            Some(instr) => execute(bus, hart, instr),
            None => Some(End::Illegal),
        },
        Fetched::Service(number) => serve(bus, hart, number),
        Fetched::Gate => unreachable!(),
        Fetched::Fault => Some(End::Fault),
        Fetched::Denied => Some(End::Denied),
    }
}

/// Makes the step of an instruction, or gives the end that it comes to.
fn execute<B: Bus>(bus: &mut B, hart: &mut Hart, instr: Instr) -> Option<End>
    requires has_word { HasWord instr }
    requires aligned { hart.old.pc % FETCH_BYTES ≡ 0 }
    ensures made { IsMade B.rule (λ m. execute numbers plain_storage (state_of hart.old) m INSTRUCTION_BYTES (Some instr))
        (B.memory bus.old) (B.track bus.old) result hart.new (B.memory bus.new) (B.track bus.new) }
    ensures aligned { IfNone result (hart.new.pc % FETCH_BYTES ≡ 0) }
{
    let next = hart.pc.wrapping_add(INSTRUCTION_BYTES);
    let effect = hart.effect(instr, next);
    settle(bus, hart, effect, next)
}

/// Makes an effect, where an instruction follows that is at `next`, or gives the end that it comes to.
fn settle<B: Bus>(bus: &mut B, hart: &mut Hart, effect: Effect, next: u64) -> Option<End>
    requires range { IsInRange effect }
    requires aligned { next % FETCH_BYTES ≡ 0 }
    ensures made { IsMade B.rule (λ m. settle numbers plain_storage (state_of hart.old) m next (effect_of effect))
        (B.memory bus.old) (B.track bus.old) result hart.new (B.memory bus.new) (B.track bus.new) }
    ensures aligned { IfNone result (hart.new.pc % FETCH_BYTES ≡ 0) }
{
    match effect {
        Effect::Passes => hart.go(next),
        Effect::Writes { rd, value } => {
            hart.set(rd, value);
            hart.go(next)
        }
        Effect::Jumps { rd, link, target } => {
            hart.set(rd, link);
            hart.go(target)
        }
        Effect::Branches { target } => hart.go(target),
        Effect::Loads {
            size,
            signed,
            rd,
            address,
        } => match load(bus, size, signed, address) {
            Ok(value) => {
                hart.set(rd, value);
                hart.go(next)
            }
            Err(end) => Some(end),
        },
        Effect::Stores {
            size,
            value,
            address,
        } => match store(bus, size, value, address) {
            Ok(()) => hart.go(next),
            Err(end) => Some(end),
        },
        Effect::Stops(end) => Some(end),
    }
}

/// Loads so many bytes as a number of 64 bits, with their sign or without, or gives the end that it comes to.
#[tactic(auto, unfolding(crate::specs::Memory::loaded))]
fn load<B: Bus>(bus: &mut B, size: u8, signed: bool, at: u64) -> Result<u64, End>
    requires { IsSize size }
    ensures found { result ≡ widened_or_end size signed (loaded size (B.memory bus.old).segments at) }
    ensures memory { B.memory bus.new ≡ B.memory bus.old }
    ensures track { B.track bus.new ≡ track_after B.rule (told Load size at) (B.track bus.old) }
{
    if !is_aligned(size, at) {
        return Err(End::Misaligned);
    }
    match bus.load(at, size) {
        Ok(number) => Ok(widen(size, signed, number)),
        Err(refusal) => Err(end_of(refusal)),
    }
}

/// Stores so many low bytes of a value, or gives the end that it comes to.
#[tactic(auto, unfolding(crate::specs::Memory::stored))]
fn store<B: Bus>(bus: &mut B, size: u8, value: u64, at: u64) -> Result<(), End>
    requires { IsSize size }
    ensures left { after_store (untouched (B.memory bus.old)) (stored size value (B.memory bus.old).segments at)
        ≡ (end_of_store result, untouched (B.memory bus.new)) }
    ensures track { B.track bus.new ≡ track_after B.rule (told Store size at) (B.track bus.old) }
{
    if !is_aligned(size, at) {
        return Err(End::Misaligned);
    }
    match bus.store(at, size, value) {
        Ok(()) => Ok(()),
        Err(refusal) => Err(end_of(refusal)),
    }
}

/// Whether an address is a multiple of a size. The sizes are constants here, so that no division is made.
fn is_aligned(size: u8, at: u64) -> bool
    requires { IsSize size }
    ensures { result ≡ (at % size == 0) }
{
    match size {
        1 => true,
        2 => at % 2 == 0,
        4 => at % 4 == 0,
        _ => at % 8 == 0,
    }
}

/// The end of a call whose access was refused so.
fn end_of(refusal: Refusal) -> End
    ensures { result ≡ end_of_refusal refusal }
{
    match refusal {
        Refusal::Fault => End::Fault,
        Refusal::Denied => End::Denied,
    }
}

/// Makes the step of a service, or gives the end that it comes to.
fn serve<B: Bus>(bus: &mut B, hart: &mut Hart, number: u8) -> Option<End>
    requires { number < SERVICES }
    ensures made { IsMade B.rule (λ m. perform numbers plain_storage (state_of hart.old) m (Ok (Service number)))
        (B.memory bus.old) (B.track bus.old) result hart.new (B.memory bus.new) (B.track bus.new) }
    ensures aligned { IfNone result (hart.new.pc % FETCH_BYTES ≡ 0) }
{
    match bus.service(number, hart.get(FIRST_ARGUMENT)) {
        Served::Answer(a0) => {
            let target = hart.get(RETURN_ADDRESS) & !1;
            hart.set(FIRST_ARGUMENT, a0);
            hart.go(target)
        }
        Served::Abort(number) => Some(End::Abort(number)),
        Served::NotesFull => Some(End::NotesFull),
    }
}
