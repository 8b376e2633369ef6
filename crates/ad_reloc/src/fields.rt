//! The words of instructions with other immediates (unprivileged ISA, "Base Instruction Formats").

ghost use Rattle.std.specs.Prelude.{◌≡◌, ◌<◌, ◌/◌, ◌%◌, ◌^◌, ◌+ℤ◌, ◌*ℤ◌, ◌≤ℤ◌, ◌<ℤ◌, neg_ℤ, int_lt, if◌then◌else◌, pos};
ghost use Rattle.ad_isa.specs.Words.{IsMultiple};
ghost use Rattle.ad_reloc.specs.Fields.{CanSpell, Spells, bytes_of, IsBranch, IsImmediate, IsJump, IsStore, IsUpper};
ghost use Rattle.ad_reloc.specs.Halves.{HasHalves};

use crate::halves::halves_of;
use crate::row::Form;

/// The number of a field's bytes, the lowest first, once the field spells a value. Only the bits that spell it change.
pub(crate) fn spelled(form: Form, value: i128, field: u64) -> u64
    requires value { CanSpell form value }
    requires field { field < 256 ^ bytes_of form }
    ensures value { Spells form value field result }
    ensures fits { result < 256 ^ bytes_of form }
{
    match form {
        Form::Empty => field,
        Form::Number32 => value.rem_euclid(0x1_0000_0000) as u64,
        Form::Number64 => value.rem_euclid(0x1_0000_0000_0000_0000) as u64,
        Form::Upper => u64::from(with_upper(field as u32, value as i64)),
        Form::Immediate => u64::from(with_immediate(field as u32, value as i64)),
        Form::Store => u64::from(with_store(field as u32, value as i64)),
        Form::Branch => u64::from(with_branch(field as u32, value as i64)),
        Form::Jump => u64::from(with_jump(field as u32, value as i64)),
        Form::Pair => with_pair(field, value as i64),
    }
}

/// Two words with the halves of a number as their immediates, of the U format and of the I format.
fn with_pair(words: u64, value: i64) -> u64
    requires { HasHalves value }
    ensures upper { IsUpper value (words % 2 ^ 32) (result % 2 ^ 32) }
    ensures immediate { IsImmediate value (words / 2 ^ 32) (result / 2 ^ 32) }
{
    let upper = with_upper((words % 0x1_0000_0000) as u32, value);
    let immediate = with_immediate((words / 0x1_0000_0000) as u32, value);
    u64::from(upper) + u64::from(immediate) * 0x1_0000_0000
}

/// The word with the high half of a number as its immediate of the U format.
#[tactic(auto, unfolding(ad_isa::specs::Fields::u_immediate))]
fn with_upper(word: u32, value: i64) -> u32
    requires { HasHalves value }
    ensures { IsUpper value word result }
{
    let high = halves_of(value).high;
    word % 0x1000 + low_bits(high, 0x10_0000) * 0x1000
}

/// The word with the low half of a number as its immediate of the I format.
#[tactic(auto, unfolding(ad_isa::specs::Fields::i_immediate))]
fn with_immediate(word: u32, value: i64) -> u32
    requires { HasHalves value }
    ensures { IsImmediate value word result }
{
    let low = halves_of(value).low;
    word % 0x10_0000 + low_bits(low, 0x1000) * 0x10_0000
}

/// The word with the low half of a number as its immediate of the S format.
#[tactic(auto, unfolding(ad_isa::specs::Fields::s_immediate))]
fn with_store(word: u32, value: i64) -> u32
    requires { HasHalves value }
    ensures { IsStore value word result }
{
    let low = low_bits(halves_of(value).low, 0x1000);
    word % 0x80 + (low % 0x20) * 0x80 + word / 0x1000 % 0x2000 * 0x1000 + (low / 0x20) * 0x200_0000
}

/// The word with a number as its immediate of the B format.
#[tactic(auto, unfolding(ad_isa::specs::Fields::b_immediate))]
fn with_branch(word: u32, value: i64) -> u32
    requires { IsMultiple 2 0x1000 value }
    ensures { IsBranch value word result }
{
    let low = low_bits(value, 0x2000);
    word % 0x80
        + (low / 0x800 % 2) * 0x80
        + (low / 2 % 0x10) * 0x100
        + word / 0x1000 % 0x2000 * 0x1000
        + (low / 0x20 % 0x40) * 0x200_0000
        + (low / 0x1000) * 0x8000_0000
}

/// The word with a number as its immediate of the J format.
#[tactic(auto, unfolding(ad_isa::specs::Fields::j_immediate))]
fn with_jump(word: u32, value: i64) -> u32
    requires { IsMultiple 2 0x100000 value }
    ensures { IsJump value word result }
{
    let low = low_bits(value, 0x20_0000);
    word % 0x1000
        + (low / 0x1000 % 0x100) * 0x1000
        + (low / 0x800 % 2) * 0x10_0000
        + (low / 2 % 0x400) * 0x20_0000
        + (low / 0x10_0000) * 0x8000_0000
}

/// A number modulo so many, of which it is at least the half below 0, and below it.
fn low_bits(number: i64, modulus: u32) -> u32
    requires from { neg_ℤ (pos modulus) ≤ℤ (pos 2 *ℤ number) }
    requires to { (pos 2 *ℤ number) <ℤ pos modulus }
    ensures value { pos result ≡ (if int_lt number (pos 0) then number +ℤ pos modulus else number) }
    ensures below { result < modulus }
{
    let low = if number < 0 {
        number + i64::from(modulus)
    } else {
        number
    };
    low as u32
}
