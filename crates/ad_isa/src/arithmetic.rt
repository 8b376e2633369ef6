//! Arithmetic on numbers of 64 bits (unprivileged ISA, "RV64I", "M").

ghost use Rattle.std.specs.Prelude.{◌≡◌, ◌<◌, ◌^◌, true};
ghost use Rattle.ad_isa.specs.Numbers.{extended, low, operation_on, signed_low, test_of, widened, word_operation_on};
ghost use Rattle.ad_isa.specs.declared.instr.Alu.{Alu};
ghost use Rattle.ad_isa.specs.Words.{has_word_form, IsSize};

use crate::instr::{Alu, Test};

/// What an operation gives of two numbers of 64 bits.
#[inline(always)]
pub fn operation(op: Alu, a: u64, b: u64) -> u64
    ensures value { result ≡ operation_on op a b }
{
    match op {
        Alu::Add => a.wrapping_add(b),
        Alu::Sub => a.wrapping_sub(b),
        Alu::Sll => a << (b % 64),
        Alu::Slt => u64::from(a.cast_signed() < b.cast_signed()),
        Alu::Sltu => u64::from(a < b),
        Alu::Xor => a ^ b,
        Alu::Srl => a >> (b % 64),
        Alu::Sra => (a.cast_signed() >> (b % 64)).cast_unsigned(),
        Alu::Or => a | b,
        Alu::And => a & b,
        Alu::Mul => a.wrapping_mul(b),
        Alu::Mulh => multiply_high(a, b),
        Alu::Mulhsu => multiply_high_mixed(a, b),
        Alu::Mulhu => multiply_high_unsigned(a, b),
        Alu::Div => divide(a, b),
        Alu::Divu => divide_unsigned(a, b),
        Alu::Rem => remainder(a, b),
        Alu::Remu => remainder_unsigned(a, b),
    }
}

/// A number of so many bytes as one of 64 bits, with its sign or without.
#[inline(always)]
pub fn widen(size: u8, signed: bool, number: u64) -> u64
    requires size { IsSize size }
    requires fits { number < 256 ^ size }
    ensures value { result ≡ widened size signed number }
{
    match size {
        1 if signed => i64::from((number as u8).cast_signed()).cast_unsigned(),
        2 if signed => i64::from((number as u16).cast_signed()).cast_unsigned(),
        4 if signed => i64::from((number as u32).cast_signed()).cast_unsigned(),
        _ => number,
    }
}

/// What an operation gives of the low 32 bits of two numbers, with the sign of its result.
#[inline(always)]
pub fn word_operation(op: Alu, a: u64, b: u64) -> u64
    requires { has_word_form op ≡ true }
    ensures value { result ≡ word_operation_on op a b }
{
    match op {
        Alu::Add => extend(a.wrapping_add(b)),
        Alu::Sub => extend(a.wrapping_sub(b)),
        Alu::Sll => extend(u64::from((low(a) as u32) << (b % 32))),
        Alu::Srl => extend(low(a) >> (b % 32)),
        Alu::Sra => i64::from(low_signed(a) >> (b % 32)).cast_unsigned(),
        Alu::Mul => extend(a.wrapping_mul(b)),
        Alu::Div => divide_words(a, b),
        Alu::Divu => divide_words_unsigned(a, b),
        Alu::Rem => remainder_of_words(a, b),
        Alu::Remu => remainder_of_words_unsigned(a, b),
        _ => unreachable!(),
    }
}

/// Whether a comparison holds of two numbers.
#[inline(always)]
pub fn holds(test: Test, a: u64, b: u64) -> bool
    ensures value { result ≡ test_of test a b }
{
    match test {
        Test::Eq => a == b,
        Test::Ne => a != b,
        Test::Lt => a.cast_signed() < b.cast_signed(),
        Test::Ge => a.cast_signed() >= b.cast_signed(),
        Test::Ltu => a < b,
        Test::Geu => a >= b,
    }
}

fn multiply_high(a: u64, b: u64) -> u64
    ensures { result ≡ operation_on Alu.Mulh a b }
{
    let product = i128::from(a.cast_signed()) * i128::from(b.cast_signed());
    (product.cast_unsigned() >> 64) as u64
}

fn multiply_high_mixed(a: u64, b: u64) -> u64
    ensures { result ≡ operation_on Alu.Mulhsu a b }
{
    let product = i128::from(a.cast_signed()) * i128::from(b);
    (product.cast_unsigned() >> 64) as u64
}

fn multiply_high_unsigned(a: u64, b: u64) -> u64
    ensures { result ≡ operation_on Alu.Mulhu a b }
{
    let product = u128::from(a) * u128::from(b);
    (product >> 64) as u64
}

fn divide(a: u64, b: u64) -> u64
    ensures { result ≡ operation_on Alu.Div a b }
{
    if b == 0 {
        u64::MAX
    } else {
        a.cast_signed()
            .wrapping_div(b.cast_signed())
            .cast_unsigned()
    }
}

fn divide_unsigned(a: u64, b: u64) -> u64
    ensures { result ≡ operation_on Alu.Divu a b }
{
    if b == 0 { u64::MAX } else { a / b }
}

fn remainder(a: u64, b: u64) -> u64
    ensures { result ≡ operation_on Alu.Rem a b }
{
    if b == 0 {
        a
    } else {
        a.cast_signed()
            .wrapping_rem(b.cast_signed())
            .cast_unsigned()
    }
}

fn remainder_unsigned(a: u64, b: u64) -> u64
    ensures { result ≡ operation_on Alu.Remu a b }
{
    if b == 0 { a } else { a % b }
}

/// The low 32 bits.
fn low(n: u64) -> u64
    ensures { result ≡ low n }
{
    n & 0xffff_ffff
}

/// The low 32 bits, with their sign.
fn low_signed(n: u64) -> i32
    ensures { result ≡ signed_low n }
{
    (low(n) as u32).cast_signed()
}

/// The low 32 bits with their sign, as a number of 64 bits.
fn extend(n: u64) -> u64
    ensures { result ≡ extended n }
{
    i64::from(low_signed(n)).cast_unsigned()
}

fn divide_words(a: u64, b: u64) -> u64
    ensures { result ≡ word_operation_on Alu.Div a b }
{
    if low(b) == 0 {
        u64::MAX
    } else {
        i64::from(low_signed(a).wrapping_div(low_signed(b))).cast_unsigned()
    }
}

fn divide_words_unsigned(a: u64, b: u64) -> u64
    ensures { result ≡ word_operation_on Alu.Divu a b }
{
    if low(b) == 0 {
        u64::MAX
    } else {
        extend(low(a) / low(b))
    }
}

fn remainder_of_words(a: u64, b: u64) -> u64
    ensures { result ≡ word_operation_on Alu.Rem a b }
{
    if low(b) == 0 {
        extend(a)
    } else {
        i64::from(low_signed(a).wrapping_rem(low_signed(b))).cast_unsigned()
    }
}

fn remainder_of_words_unsigned(a: u64, b: u64) -> u64
    ensures { result ≡ word_operation_on Alu.Remu a b }
{
    if low(b) == 0 {
        extend(a)
    } else {
        extend(low(a) % low(b))
    }
}
