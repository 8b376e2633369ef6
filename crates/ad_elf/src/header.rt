//! The rows on the header of the file and on its table of sections.

ghost use Rattle.std.specs.Prelude.{◌≡◌, ◌+◌, ◌^◌, ◌<◌, ◌≤◌, length, nat_lt, IfNone};
ghost use Rattle.std.specs.Bool.{OnFalse};
ghost use Rattle.ad_elf.specs.Private.Checked.{HasNames, HasTable};
ghost use Rattle.ad_elf.specs.Refusals.{are_strings, first_row, has_other_flags, header_rows, is_other_class, lacks_magic, lacks_table};

use crate::elf::{
    EF_RISCV_TSO, ELFCLASS64, ELFDATA2LSB, EM_RISCV, ET_REL, EV_CURRENT, FILE_HEADER_BYTES, MAGIC,
    SECTION_HEADER_BYTES, SHN_LORESERVE, SHT_STRTAB,
};
use crate::file::{header, section_count, u16_at, u32_at, u64_at};
use crate::refusal::ElfRefusal;

/// The first row on the header of the file and on its table of sections.
pub(crate) fn header_refusal(file: &[u8]) -> Option<ElfRefusal>
    ensures value { result ≡ first_row (header_rows file.now) }
    ensures table { IfNone result (HasTable file.now) }
    ensures names { IfNone result (HasNames file.now) }
    ensures short { length file.now < 2 ^ 64 }
{
    if (file.len() as u64) < FILE_HEADER_BYTES {
        Some(ElfRefusal::Short)
    } else if lacks_magic(file) {
        Some(ElfRefusal::Magic)
    } else if is_other_class(file) {
        Some(ElfRefusal::Class)
    } else if u16_at(file, 18) != EM_RISCV {
        Some(ElfRefusal::Machine)
    } else if u16_at(file, 16) != ET_REL {
        Some(ElfRefusal::NotRelocatable)
    } else if has_other_flags(file) {
        Some(ElfRefusal::Flags(u32_at(file, 48)))
    } else if lacks_table(file) {
        Some(ElfRefusal::SectionTable)
    } else {
        None
    }
}

/// Tests whether the file doesn't begin as an ELF file of the known version.
fn lacks_magic(file: &[u8]) -> bool
    requires { FILE_HEADER_BYTES ≤ length file.now }
    ensures { result ≡ lacks_magic file.now }
{
    !file.starts_with(&MAGIC) || file[6] != EV_CURRENT
}

/// Tests whether the file is of another class or order of bytes.
fn is_other_class(file: &[u8]) -> bool
    requires { FILE_HEADER_BYTES ≤ length file.now }
    ensures { result ≡ is_other_class file.now }
{
    file[4] != ELFCLASS64 || file[5] != ELFDATA2LSB
}

/// Tests whether the file has other flags than the one that may stand.
fn has_other_flags(file: &[u8]) -> bool
    requires { FILE_HEADER_BYTES ≤ length file.now }
    ensures { result ≡ has_other_flags file.now }
{
    let flags = u32_at(file, 48);
    flags != 0 && flags != EF_RISCV_TSO
}

/// Tests whether the table of sections isn't in the file, has a wrong form, or names no strings.
#[tactic(auto, unfolding(crate::specs::Refusals::lacks_table))]
fn lacks_table(file: &[u8]) -> bool
    requires { FILE_HEADER_BYTES ≤ length file.now }
    ensures value { result ≡ lacks_table file.now }
    ensures table { OnFalse result (HasTable file.now) }
    ensures names { OnFalse result (HasNames file.now) }
{
    let count = section_count(file);
    u64::from(u16_at(file, 58)) != SECTION_HEADER_BYTES
        || count == 0
        || u64::from(SHN_LORESERVE) <= count
        || ends_past(
            u64_at(file, 40),
            SECTION_HEADER_BYTES * count,
            file.len() as u64,
        )
        || !are_strings(file, u64::from(u16_at(file, 62)))
}

/// Tests whether so many bytes from a place on end past another place.
pub(crate) fn ends_past(start: u64, size: u64, end: u64) -> bool
    ensures { result ≡ nat_lt end (start + size) }
{
    size > end || start > end - size
}

/// Tests whether the section of this number is a section of strings.
pub(crate) fn are_strings(file: &[u8], number: u64) -> bool
    requires { HasTable file.now }
    ensures { result ≡ are_strings file.now number }
{
    number < section_count(file) && header(file, number).typ == SHT_STRTAB
}
