//! Numbers in the bytes of a file, the lowest byte first.

ghost use Rattle.std.specs.Prelude.{◌≡◌, ◌+◌, ◌≤◌, length, drop};
ghost use Rattle.byteorder.specs.Endian.{little_number, twos_complement};

use byteorder::{ByteOrder, LittleEndian};

/// The 16-bit number that begins at a place.
pub fn field_u16(bytes: &[u8], at: u64) -> u16
    requires { at + 2 ≤ length bytes.now }
    ensures { result ≡ little_number 2 (drop at bytes.now) }
{
    LittleEndian::read_u16(&bytes[at as usize..])
}

/// The 32-bit number that begins at a place.
pub fn field_u32(bytes: &[u8], at: u64) -> u32
    requires { at + 4 ≤ length bytes.now }
    ensures { result ≡ little_number 4 (drop at bytes.now) }
{
    LittleEndian::read_u32(&bytes[at as usize..])
}

/// The 64-bit number that begins at a place.
pub fn field_u64(bytes: &[u8], at: u64) -> u64
    requires { at + 8 ≤ length bytes.now }
    ensures { result ≡ little_number 8 (drop at bytes.now) }
{
    LittleEndian::read_u64(&bytes[at as usize..])
}

/// The signed 64-bit number that begins at a place.
pub fn field_i64(bytes: &[u8], at: u64) -> i64
    requires { at + 8 ≤ length bytes.now }
    ensures { result ≡ twos_complement 8 (little_number 8 (drop at bytes.now)) }
{
    field_u64(bytes, at).cast_signed()
}
