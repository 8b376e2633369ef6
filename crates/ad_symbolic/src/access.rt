//! What an access of the symbolic machine finds and leaves.

ghost use Rattle.std.specs.Prelude.{◌≡◌, ◌≤◌, ◌<◌, ◌+◌, ◌%◌, length, IfSome};
ghost use Rattle.ad_base.specs.Segments.{service_number};
ghost use Rattle.ad_base.specs.declared.layout.TheConstants.{FETCH_BYTES};
ghost use Rattle.ad_isa.specs.Words.{IsSize};
ghost use Rattle.ad_symbolic.specs.AddressSpace.{fetched_value, loaded_value, service_at, stored_value, word_from};
ghost use Rattle.ad_symbolic.specs.Private.Reached.{fetched_as, piece_in, segment_in, space_in, stored_as, word_fetched, HasService, IfEnds, IsOfImage};
ghost use Rattle.ad_symbolic.specs.Value.{offset_of};

use crate::byte::{number_of, value_of};
use crate::memory::{Found, Memory};
use crate::value::{Reason, Value};
use ad_base::{End, FIRST_SERVICE, Role, SERVICE_BYTES, SERVICES};

/// Bytes that one fetch reads.
const FETCH: u8 = 4;

impl Value {
    /// The number, or the offset.
    pub fn offset(self) -> u64
        ensures { result ≡ offset_of self }
    {
        match self {
            Value::Num(number) => number,
            Value::At(_, offset) => offset,
        }
    }
}

/// The number of the service at a value, if there is one. No address is one of a service.
fn service_at(at: Value) -> Option<u8>
    ensures value { result ≡ service_at at }
    ensures few { IfSome result (λ number. number < SERVICES) }
{
    match at {
        Value::Num(number) => service_number(number),
        Value::At(..) => None,
    }
}

/// The number of the service at an address, if there is one.
fn service_number(at: u64) -> Option<u8>
    ensures value { result ≡ service_number at }
    ensures few { IfSome result (λ number. number < SERVICES) }
{
    if at < FIRST_SERVICE {
        return None;
    }
    let number = (at - FIRST_SERVICE) / SERVICE_BYTES;
    if number >= u64::from(SERVICES) || at % SERVICE_BYTES != 0 {
        return None;
    }
    Some(number as u8)
}

impl Memory<'_> {
    /// What is found where an instruction is fetched: a service or a word, how the call ends, or why it isn't clear.
    #[tactic(auto, unfolding(crate::specs::AddressSpace::fetched_value))]
    pub fn fetch(&self, at: Value) -> Result<Result<Found, End>, Reason>
        ensures found { fetched_value (space_in self.now) at ≡ fetched_as result }
        ensures few { HasService result }
    {
        match service_at(at) {
            Some(number) => Ok(Ok(Found::Service(number))),
            None => self.fetch_word(at),
        }
    }

    /// The same where no service is.
    fn fetch_word(&self, at: Value) -> Result<Result<Found, End>, Reason>
        ensures found { word_fetched (space_in self.now) at ≡ fetched_as result }
        ensures few { HasService result }
    {
        match self.reach(FETCH, at) {
            Ok(Ok(role)) => match role {
                Role::Code | Role::FixedCode => self.word(role, at.offset()),
                _ => Ok(Err(End::Denied)),
            },
            Ok(Err(end)) => Ok(Err(end)),
            Err(reason) => Err(reason),
        }
    }

    /// The word at an offset or an address of the piece of a role.
    fn word(&self, role: Role, at: u64) -> Result<Result<Found, End>, Reason>
        requires aligned { at % FETCH_BYTES ≡ 0 }
        requires from { (piece_in self.now role).base ≤ at }
        requires below { at < (piece_in self.now role).base + length (piece_in self.now role).bytes }
        ensures found { word_from at (segment_in self.now role) ≡ fetched_as result }
        ensures few { HasService result }
    {
        match number_of(self.piece(role).read(at, FETCH)) {
            Ok(word) => Ok(Ok(Found::Word(word as u32))),
            Err(reason) => Err(reason),
        }
    }

    /// What a load of so many bytes finds, with their sign or without.
    pub fn load(&self, size: u8, signed: bool, at: Value) -> Result<Result<Value, End>, Reason>
        requires { IsSize size }
        ensures { loaded_value size signed (space_in self.now) at ≡ result }
    {
        match self.reach(size, at) {
            Ok(Ok(role)) => match value_of(size, signed, self.piece(role).read(at.offset(), size)) {
                Ok(value) => Ok(Ok(value)),
                Err(reason) => Err(reason),
            },
            Ok(Err(end)) => Ok(Err(end)),
            Err(reason) => Err(reason),
        }
    }

    /// Stores so many low bytes of a value, or gives the end that it comes to.
    pub fn store(&mut self, size: u8, value: Value, at: Value) -> Result<Result<(), End>, Reason>
        requires { IsSize size }
        ensures left { stored_value size value (space_in self.old) at ≡ stored_as self.new result }
        ensures stays { IfEnds result (space_in self.new ≡ space_in self.old) }
        ensures image { self.new.image ≡ self.old.image }
        ensures kept { IsOfImage self.old → IsOfImage self.new }
    {
        let role = match self.reach(size, at) {
            Ok(Ok(role)) => role,
            Ok(Err(end)) => return Ok(Err(end)),
            Err(reason) => return Err(reason),
        };
        match role {
            Role::Stack => self.stack.put(at.offset(), size, value),
            Role::Data => self.writable.put(at.offset(), size, value),
            Role::FixedData => self.fixed_data.put(at.offset(), size, value),
            _ => return Ok(Err(End::Denied)),
        }
        Ok(Ok(()))
    }
}
