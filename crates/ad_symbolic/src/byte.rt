//! Bytes of the memory of the symbolic machine, and the values that they are.

ghost use Rattle.std.specs.Prelude.{◌≡◌, ◌≤◌, ◌<◌, ◌+◌, ◌^◌, length, IfOk};
ghost use Rattle.ad_isa.specs.Words.{IsSize};
ghost use Rattle.ad_symbolic.specs.AddressSpace.{are_of_address, low_bytes, value_of_bytes};
ghost use Rattle.ad_symbolic.specs.Private.Bytes.{number_of_bytes, widened_value};

use crate::arithmetic::is_same_part;
use crate::value::{Part, Reason, Value};
use ad_base::WORD_BYTES;
use ad_isa::widen;

/// A byte of memory.
#[derive(Clone, Copy, Debug, PartialEq, Eq)]
pub enum Byte {
    /// A number.
    Number(u8),
    /// The byte at this place, the lowest at 0, of the address at an offset from the base of a part.
    OfAddress(u8, Part, u64),
}

/// The bytes of a word with a value, the lowest first.
pub fn word_bytes(value: Value) -> [Byte; 8]
    ensures { result ≡ low_bytes 8 value }
{
    match value {
        Value::Num(number) => {
            let bytes = number.to_le_bytes();
            [
                Byte::Number(bytes[0]),
                Byte::Number(bytes[1]),
                Byte::Number(bytes[2]),
                Byte::Number(bytes[3]),
                Byte::Number(bytes[4]),
                Byte::Number(bytes[5]),
                Byte::Number(bytes[6]),
                Byte::Number(bytes[7]),
            ]
        }
        Value::At(part, offset) => [
            Byte::OfAddress(0, part, offset),
            Byte::OfAddress(1, part, offset),
            Byte::OfAddress(2, part, offset),
            Byte::OfAddress(3, part, offset),
            Byte::OfAddress(4, part, offset),
            Byte::OfAddress(5, part, offset),
            Byte::OfAddress(6, part, offset),
            Byte::OfAddress(7, part, offset),
        ],
    }
}

/// The value of so many bytes, with their sign or without: a number, or the address whose bytes they are.
pub fn value_of(size: u8, signed: bool, bytes: &[Byte]) -> Result<Value, Reason>
    requires size { IsSize size }
    requires length { length bytes.now ≡ size }
    ensures { result ≡ value_of_bytes size signed bytes.now }
{
    match bytes[0] {
        Byte::OfAddress(_, part, offset) => {
            if are_of_address(part, offset, 0, bytes) {
                Ok(Value::At(part, offset))
            } else {
                Err(Reason::MixedBytes)
            }
        }
        Byte::Number(_) => number_value(size, signed, bytes),
    }
}

/// The number of so many bytes, with their sign or without.
fn number_value(size: u8, signed: bool, bytes: &[Byte]) -> Result<Value, Reason>
    requires size { IsSize size }
    requires length { length bytes.now ≡ size }
    ensures { widened_value size signed (number_of_bytes bytes.now) ≡ result }
{
    Ok(Value::Num(widen(size, signed, number_of(bytes)?)))
}

/// The number of bytes, the lowest first, if they are numbers.
pub fn number_of(bytes: &[Byte]) -> Result<u64, Reason>
    requires { length bytes.now ≤ 8 }
    ensures value { result ≡ number_of_bytes bytes.now }
    ensures fits { IfOk result (λ number. number < 256 ^ length bytes.now) }
{
    match bytes.split_first() {
        None => Ok(0),
        Some((lowest, more)) => match *lowest {
            Byte::Number(number) => Ok(u64::from(number) + 256 * number_of(more)?),
            Byte::OfAddress(..) => Err(Reason::MixedBytes),
        },
    }
}

/// Whether these are the bytes of an address, from the one at a place on to its last.
fn are_of_address(part: Part, offset: u64, place: u8, bytes: &[Byte]) -> bool
    requires { place + length bytes.now ≤ 8 }
    ensures { result ≡ are_of_address part offset place bytes.now }
{
    match bytes.split_first() {
        None => u64::from(place) == WORD_BYTES,
        Some((lowest, more)) => match *lowest {
            Byte::OfAddress(p, q, o) => {
                place == p
                    && is_same_part(part, q)
                    && offset == o
                    && are_of_address(part, offset, place + 1, more)
            }
            Byte::Number(_) => false,
        },
    }
}
