//! The bytes of a part.

ghost use Rattle.std.specs.Prelude.{◌≡◌, ◌⊎◌, ◌+◌, ◌^◌, ◌<◌, ◌≤◌, ◌<ℤ◌, neg_ℤ, pos, length};
ghost use Rattle.ad_reloc.specs.Fields.{CanSpell, bytes_of};
ghost use Rattle.ad_reloc.specs.Relocated.{IsSet, field_value, number_at, with_number};

use crate::fields::spelled;
use crate::row::{Form, Formula, Row};
use ad_base::{field_u32, field_u64};
use byteorder::{ByteOrder, LittleEndian};

/// Sets the field at an offset to what a row makes of a value.
pub(crate) fn set_field(bytes: &mut [u8], at: u64, row: Row, value: i128)
    requires inside { at + bytes_of row.form ≤ length bytes.old }
    requires from { neg_ℤ (pos (2 ^ 100)) <ℤ value }
    requires to { value <ℤ pos (2 ^ 100) }
    requires spelled { CanSpell row.form (field_value row.formula (number_at (bytes_of row.form) at bytes.old) value) }
    ensures { IsSet row value at bytes.old bytes.new }
{
    let size = bytes_of(row.form);
    let field = number_at(bytes, at, size);
    let number = field_value(row.formula, field, value);
    put_number(bytes, at, size, spelled(row.form, number, field));
}

/// What a field of this number gets, by its formula, of the value that was computed.
fn field_value(formula: Formula, field: u64, value: i128) -> i128
    requires from { neg_ℤ (pos (2 ^ 100)) <ℤ value }
    requires to { value <ℤ pos (2 ^ 100) }
    ensures { result ≡ field_value formula field value }
{
    match formula {
        Formula::Sum => i128::from(field) + value,
        Formula::Difference => i128::from(field) - value,
        Formula::Address | Formula::Distance | Formula::EntryDistance | Formula::OfHigh => value,
    }
}

/// How many bytes a field has.
fn bytes_of(form: Form) -> u8
    ensures value { result ≡ bytes_of form }
    ensures sizes { (result ≡ 0) ⊎ (result ≡ 4) ⊎ (result ≡ 8) }
{
    match form {
        Form::Empty => 0,
        Form::Number64 | Form::Pair => 8,
        Form::Number32 | Form::Upper | Form::Immediate | Form::Store | Form::Branch | Form::Jump =>
            4,
    }
}

/// The number of no, four or eight bytes at an offset.
fn number_at(bytes: &[u8], at: u64, size: u8) -> u64
    requires size { (size ≡ 0) ⊎ (size ≡ 4) ⊎ (size ≡ 8) }
    requires inside { at + size ≤ length bytes.now }
    ensures found { result ≡ number_at size at bytes.now }
    ensures fits { result < 256 ^ size }
{
    match size {
        0 => 0,
        4 => u64::from(field_u32(bytes, at)),
        _ => field_u64(bytes, at),
    }
}

/// Puts a number of no, four or eight bytes at an offset.
fn put_number(bytes: &mut [u8], at: u64, size: u8, number: u64)
    requires size { (size ≡ 0) ⊎ (size ≡ 4) ⊎ (size ≡ 8) }
    requires inside { at + size ≤ length bytes.old }
    requires fits { number < 256 ^ size }
    ensures { bytes.new ≡ with_number size at number bytes.old }
{
    let from = at as usize;
    match size {
        0 => (),
        4 => LittleEndian::write_u32(&mut bytes[from..], number as u32),
        _ => LittleEndian::write_u64(&mut bytes[from..], number),
    }
}
