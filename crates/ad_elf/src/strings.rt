//! Strings, each ended by a zero byte (gABI, "String Table").

ghost use Rattle.std.specs.Prelude.{◌≡◌, IfSome, drop, is_some, take};
ghost use Rattle.ad_elf.specs.File.{has_string, string_at};

use crate::elf::NAME_BYTES;

/// The strings from a place on: none where it is past their end.
pub(crate) fn strings_from(strings: &[u8], at: u32) -> &[u8]
    ensures { result.now ≡ drop at strings.now }
{
    if at as usize <= strings.len() {
        &strings[at as usize..]
    } else {
        &[]
    }
}

/// So many bytes at the front, or all, where there are fewer.
fn first_bytes(bytes: &[u8], most: usize) -> &[u8]
    ensures { result.now ≡ take most bytes.now }
{
    if bytes.len() <= most {
        bytes
    } else {
        &bytes[..most]
    }
}

/// The string that begins at a place, the bytes before the next zero byte; or `None` where it doesn't end,
/// or has more bytes than a name may have.
pub(crate) fn string_at(strings: &[u8], at: u32) -> Option<&[u8]>
    ensures there { is_some result ≡ has_string strings.now at }
    ensures string { IfSome result (λ s. s.now ≡ string_at strings.now at) }
{
    let from = strings_from(strings, at);
    let end = first_bytes(from, NAME_BYTES as usize + 1)
        .iter()
        .position(|byte| *byte == 0)?;
    Some(&from[..end])
}
