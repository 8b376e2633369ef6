//! Numbers in bytes and in words, the lowest byte first.

ghost use Rattle.std.specs.Prelude.{◌≡◌, ◌+◌, ◌^◌, ◌≤◌, ◌<◌, length, drop};
ghost use Rattle.byteorder.specs.Endian.{little_bytes, little_number};
ghost use Rattle.ad_isa.specs.Words.{IsSize};
ghost use Rattle.ad_call.specs.Private.Held.{with_stored};

use ad_base::{WORD_BYTES, field_u16, field_u32, field_u64};
use byteorder::{ByteOrder, LittleEndian};

/// The number of so many bytes at an offset.
#[inline(always)]
pub fn number_at(bytes: &[u8], offset: u64, size: u8) -> u64
    requires size { IsSize size }
    requires inside { offset + size ≤ length bytes.now }
    ensures found { result ≡ little_number size (drop offset bytes.now) }
    ensures fits { result < 256 ^ size }
{
    match size {
        1 => u64::from(bytes[offset as usize]),
        2 => u64::from(field_u16(bytes, offset)),
        4 => u64::from(field_u32(bytes, offset)),
        _ => field_u64(bytes, offset),
    }
}

/// Puts so many low bytes of a value at an offset.
#[inline(always)]
pub fn put_at(bytes: &mut [u8], offset: u64, size: u8, value: u64)
    requires size { IsSize size }
    requires inside { offset + size ≤ length bytes.old }
    ensures { bytes.new ≡ with_stored offset size value bytes.old }
{
    let at = offset as usize;
    match size {
        1 => bytes[at] = (value & 0xff) as u8,
        2 => LittleEndian::write_u16(&mut bytes[at..], (value & 0xffff) as u16),
        4 => LittleEndian::write_u32(&mut bytes[at..], (value & 0xffff_ffff) as u32),
        _ => LittleEndian::write_u64(&mut bytes[at..], value),
    }
}

/// So many bytes of a word, from the one at an offset on.
pub fn bytes_of_word(word: u64, offset: u64, size: u8) -> u64
    requires size { IsSize size }
    requires inside { offset + size ≤ WORD_BYTES }
    ensures found { result ≡ little_number size (drop offset (little_bytes WORD_BYTES word)) }
    ensures fits { result < 256 ^ size }
{
    number_at(&word.to_le_bytes(), offset, size)
}
