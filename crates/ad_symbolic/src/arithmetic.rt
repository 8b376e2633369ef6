//! Arithmetic and comparisons of values.

ghost use Rattle.std.specs.Prelude.{◌≡◌, true};
ghost use Rattle.ad_isa.specs.Numbers.{operation_on, word_operation_on};
ghost use Rattle.ad_isa.specs.Rows.{operation};
ghost use Rattle.ad_isa.specs.Words.{has_word_form};
ghost use Rattle.ad_isa.specs.declared.instr.Alu.{Alu};
ghost use Rattle.ad_symbolic.specs.Private.Code.{sizes};
ghost use Rattle.ad_symbolic.specs.Value.{across_parts, conjunction_of, difference_of, holds_of, in_bounds, is_high_mask, is_low_mask, is_outside, is_same_part, masked, other_of, sum_of, values};
ghost use Rattle.ad_symbolic.specs.declared.value.Part.{Part};
ghost use Rattle.ad_symbolic.specs.declared.value.Value.{Value};

use crate::value::{Part, Reason, Value};
use ad_base::{MODULE_REGION, PAGE_BYTES, REGION_BYTES, REGIONS, STACK_PAGES};
use ad_isa::{Alu, Test};

/// The first address that a place may have, and the one behind the last.
const FIRST: u64 = MODULE_REGION * REGION_BYTES;

const BEHIND: u64 = REGIONS * REGION_BYTES;

/// The bytes of the stack.
pub const STACK_BYTES: u64 = STACK_PAGES as u64 * PAGE_BYTES;

impl Value {
    /// The sum: of two numbers, or of an address and a number.
    pub fn sum(self, other: Value) -> Result<Value, Reason>
        ensures { result ≡ sum_of self other }
    {
        match (self, other) {
            (Value::Num(a), Value::Num(b)) => Ok(Value::Num(a.wrapping_add(b))),
            (Value::At(part, offset), Value::Num(n)) | (Value::Num(n), Value::At(part, offset)) => {
                Ok(Value::At(part, offset.wrapping_add(n)))
            }
            (Value::At(..), Value::At(..)) => Err(Reason::Arithmetic),
        }
    }

    /// The difference: of two numbers, of an address and a number, or of two addresses of one part.
    pub fn difference(self, other: Value) -> Result<Value, Reason>
        ensures { result ≡ difference_of self other }
    {
        match (self, other) {
            (Value::Num(a), Value::Num(b)) => Ok(Value::Num(a.wrapping_sub(b))),
            (Value::At(part, offset), Value::Num(n)) => Ok(Value::At(part, offset.wrapping_sub(n))),
            (Value::At(p, o), Value::At(q, u)) if is_same_part(p, q) => Ok(Value::Num(
                o.wrapping_sub(u),
            )),
            _ => Err(Reason::Arithmetic),
        }
    }

    /// The conjunction: of two numbers, or of an address and a mask that ends within a page.
    pub fn conjunction(self, other: Value) -> Result<Value, Reason>
        ensures { result ≡ conjunction_of self other }
    {
        match (self, other) {
            (Value::Num(a), Value::Num(b)) => Ok(Value::Num(a & b)),
            (Value::At(part, offset), Value::Num(n)) | (Value::Num(n), Value::At(part, offset)) => {
                masked(part, offset, n)
            }
            (Value::At(..), Value::At(..)) => Err(Reason::Arithmetic),
        }
    }
}

/// Whether two parts are one.
pub fn is_same_part(p: Part, q: Part) -> bool
    ensures { result ≡ is_same_part p q }
{
    match (p, q) {
        (Part::Movable, Part::Movable) | (Part::Stack, Part::Stack) => true,
        _ => false,
    }
}

/// An address under a mask.
fn masked(part: Part, offset: u64, mask: u64) -> Result<Value, Reason>
    ensures { result ≡ masked part offset mask }
{
    if is_high_mask(mask) {
        Ok(Value::At(part, offset & mask))
    } else if is_low_mask(mask) {
        Ok(Value::Num(offset & mask))
    } else {
        Err(Reason::Arithmetic)
    }
}

/// Whether the bits of a number are zeros below ones, at most twelve of them.
fn is_high_mask(n: u64) -> bool
    ensures { result ≡ is_high_mask n }
{
    is_low_mask(0u64.wrapping_sub(n).wrapping_sub(1))
}

/// Whether the bits of a number are ones, at most twelve of them.
fn is_low_mask(n: u64) -> bool
    ensures { result ≡ is_low_mask n }
{
    matches!(
        n,
        0 | 1 | 3 | 7 | 15 | 31 | 63 | 127 | 255 | 511 | 1023 | 2047 | 4095
    )
}

/// What an operation gives of two values.
pub fn operation(op: Alu, a: Value, b: Value, movable: u64) -> Result<Value, Reason>
    ensures { result ≡ operation (values (sizes movable)) op a b }
{
    match op {
        Alu::Add => a.sum(b),
        Alu::Sub => a.difference(b),
        Alu::And => a.conjunction(b),
        Alu::Slt => Ok(Value::Num(u64::from(holds(Test::Lt, a, b, movable)?))),
        Alu::Sltu => Ok(Value::Num(u64::from(holds(Test::Ltu, a, b, movable)?))),
        _ => match (a, b) {
            (Value::Num(a), Value::Num(b)) => Ok(Value::Num(ad_isa::operation(op, a, b))),
            _ => Err(Reason::Arithmetic),
        },
    }
}

/// What an operation gives of the low 32 bits of two values.
pub fn word_operation(op: Alu, a: Value, b: Value) -> Result<Value, Reason>
    requires { has_word_form op ≡ true }
    ensures { result ≡ other_of (word_operation_on op) a b }
{
    match (a, b) {
        (Value::Num(a), Value::Num(b)) => Ok(Value::Num(ad_isa::word_operation(op, a, b))),
        _ => Err(Reason::Arithmetic),
    }
}

/// Whether a comparison holds of two values, where the movable part has so many bytes.
pub fn holds(test: Test, a: Value, b: Value, movable: u64) -> Result<bool, Reason>
    ensures { result ≡ holds_of (sizes movable) test a b }
{
    match (a, b) {
        (Value::Num(a), Value::Num(b)) => Ok(ad_isa::holds(test, a, b)),
        (Value::At(p, o), Value::At(q, u))
            if in_bounds(p, o, movable) && in_bounds(q, u, movable) => {
            if is_same_part(p, q) {
                Ok(ad_isa::holds(test, o, u))
            } else {
                across_parts(test)
            }
        }
        (Value::At(p, o), Value::Num(n)) if in_bounds(p, o, movable) && is_outside(n) => {
            Ok(ad_isa::holds(test, FIRST, n))
        }
        (Value::Num(n), Value::At(p, o)) if in_bounds(p, o, movable) && is_outside(n) => {
            Ok(ad_isa::holds(test, n, FIRST))
        }
        _ => Err(Reason::Comparison),
    }
}

/// Whether an offset is one of a part, or the one behind it.
fn in_bounds(part: Part, offset: u64, movable: u64) -> bool
    ensures { result ≡ in_bounds (sizes movable) part offset }
{
    match part {
        Part::Movable => offset <= movable,
        Part::Stack => offset <= STACK_BYTES,
    }
}

/// Whether no place has a number.
pub fn is_outside(n: u64) -> bool
    ensures { result ≡ is_outside n }
{
    n < FIRST || n >= BEHIND
}

/// Whether addresses of two parts differ, which is all that is clear of them.
fn across_parts(test: Test) -> Result<bool, Reason>
    ensures { result ≡ across_parts test }
{
    match test {
        Test::Eq => Ok(false),
        Test::Ne => Ok(true),
        _ => Err(Reason::Comparison),
    }
}
