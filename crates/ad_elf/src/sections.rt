//! The rows on the headers of the sections, where they are, of which type, and with which names; and what an
//! object says of the sections.

ghost use Rattle.std.specs.Prelude.{◌≡◌, ◌⊎◌, ◌+◌, ◌++◌, ◌<◌, ◌≤◌, IfErr, IfOk, IsTrue, None, OnOk, Some, length};
ghost use Rattle.ad_elf.specs.Below.{first};
ghost use Rattle.ad_elf.specs.Private.Checked.{AreInFile, HasNames, HasTable};
ghost use Rattle.ad_elf.specs.declared.refusal.ElfRefusal.TheVariants.{OutOfMemory as MemoryWanted, StringIndex};
ghost use Rattle.ad_elf.specs.Fields.{header, header as header_of, section_count};
ghost use Rattle.ad_elf.specs.File.{has_flag, is_frame, is_part, is_stored, kept_section, section, section_names, sections, string_at};
ghost use Rattle.ad_elf.specs.Refusals.{first_row, is_of_wrong_type, is_out_of_bounds, is_too_long, is_unnamed, row_at, section_rows, stored_size};

use crate::elf::{
    SHF_ALLOC, SHF_COMPRESSED, SHF_TLS, SHT_NOBITS, SHT_NOTE, SHT_PROGBITS, SHT_REL, ZERO_BYTES,
};
use crate::file::{SectionHeader, content, header, section_count, u16_at};
use crate::header::ends_past;
use crate::object::Section;
use crate::refusal::ElfRefusal;
use crate::strings::{string_at, strings_from};
use ad_base::{Name, OutOfMemory, Sequence};
use std::alloc::Global;

/// What an object says of the sections that are kept, or the first row on the headers of the sections.
#[tactic(auto, using(crate::proofs::Tables::AreInFile_from))]
pub(crate) fn read_sections(alloc: Global, file: &[u8]) -> Result<Vec<Section>, ElfRefusal>
    requires table { HasTable file.now }
    requires names { HasNames file.now }
    ensures inside { OnOk result (AreInFile file.now) }
    ensures sections { IfOk result (λ v. v.items ≡ sections file.now) }
    ensures fine { OnOk result (first_row (section_rows file.now) ≡ None) }
    ensures refused { IfErr result (λ r. (r ≡ MemoryWanted) ⊎ (first_row (section_rows file.now) ≡ Some r)) }
{
    if let Some(i) = first_out_of_bounds(file) {
        return Err(ElfRefusal::SectionBounds(i));
    }
    if let Some(i) = first_of_wrong_type(file) {
        return Err(ElfRefusal::SectionType(i));
    }
    sections(alloc, file, section_names(file))
}

/// The first section that isn't in the file, or is too long.
#[tactic(auto, using(crate::proofs::Below::loop_steps, crate::proofs::Tables::together_inside), unfolding(crate::specs::Refusals::is_out_of_bounds))]
fn first_out_of_bounds(file: &[u8]) -> Option<u64>
    requires { HasTable file.now }
    ensures { result ≡ first (is_out_of_bounds file.now) (section_count file.now) }
{
    let bytes = file.len() as u64;
    let mut before = 0;
    for i in 0..section_count(file) {
        let section = header(file, i);
        if is_too_long(bytes, before, section) {
            return Some(i);
        }
        before += stored_size(section);
    }
    None
}

/// Tests whether a section behind so many bytes of others isn't in a file of so many bytes, or is too
/// long.
fn is_too_long(bytes: u64, before: u64, section: SectionHeader) -> bool
    ensures { result ≡ is_too_long bytes before section }
{
    if section.is_stored() {
        ends_past(section.offset, section.size, bytes) || ends_past(before, section.size, bytes)
    } else {
        section.typ == SHT_NOBITS && section.size > ZERO_BYTES
    }
}

/// How many bytes a section has in the file.
fn stored_size(section: SectionHeader) -> u64
    ensures { result ≡ stored_size section }
{
    if section.is_stored() { section.size } else { 0 }
}

/// The first section whose type or flags aren't taken.
#[tactic(auto, using(crate::proofs::Below::loop_steps))]
fn first_of_wrong_type(file: &[u8]) -> Option<u64>
    requires { HasTable file.now }
    ensures { result ≡ first (λ i. is_of_wrong_type (header file.now i)) (section_count file.now) }
{
    for i in 0..section_count(file) {
        if is_of_wrong_type(header(file, i)) {
            return Some(i);
        }
    }
    None
}

/// Tests whether the type or the flags of a section aren't taken.
fn is_of_wrong_type(section: SectionHeader) -> bool
    ensures { result ≡ is_of_wrong_type section }
{
    section.typ == SHT_REL
        || has_flag(section.flags, SHF_ALLOC)
            && (!(section.typ == SHT_PROGBITS
                || section.typ == SHT_NOBITS
                || section.typ == SHT_NOTE)
                || has_flag(section.flags, SHF_TLS)
                || has_flag(section.flags, SHF_COMPRESSED))
}

/// Tests for a flag.
fn has_flag(flags: u64, flag: u64) -> bool
    ensures { result ≡ has_flag flags flag }
{
    flags & flag != 0
}

/// What an object says of the sections that are kept, or the row on names: the first section whose name
/// doesn't end, or is too long.
#[tactic(auto, using(crate::proofs::Below::loop_steps))]
fn sections(alloc: Global, file: &[u8], names: &[u8]) -> Result<Vec<Section>, ElfRefusal>
    requires table { HasTable file.now }
    requires inside { AreInFile file.now }
    requires names { names.now ≡ section_names file.now }
    ensures sections { IfOk result (λ v. v.items ≡ sections file.now) }
    ensures named { OnOk result (first (is_unnamed file.now) (section_count file.now) ≡ None) }
    ensures refused { IfErr result (λ r. (r ≡ MemoryWanted) ⊎ (row_at (first (is_unnamed file.now) (section_count file.now)) StringIndex ≡ Some r)) }
{
    let mut sections = Vec::new(alloc);
    for i in 0..section_count(file) {
        match string_at(names, header(file, i).name) {
            Some(name) => push_kept(&mut sections, alloc, file, names, i, name)?,
            None => return Err(ElfRefusal::StringIndex(i)),
        }
    }
    Ok(sections)
}

/// Appends what an object says of section `i`, which has this name, if that is kept.
fn push_kept(
    sections: &mut Vec<Section>,
    alloc: Global,
    file: &[u8],
    names: &[u8],
    i: u64,
    name: &[u8],
) -> Result<(), OutOfMemory>
    requires table { HasTable file.now }
    requires inside { AreInFile file.now }
    requires names { names.now ≡ section_names file.now }
    requires number { i < section_count file.now }
    requires name { name.now ≡ string_at (section_names file.now) (header_of file.now i).name }
    ensures { OnOk result (sections.new.items ≡ sections.old.items ++ kept_section file.now i) }
{
    let header = header(file, i);
    if is_part(names, header) {
        sections.push(section(alloc, file, i, header, name)?)?;
    }
    Ok(())
}

/// What an object says of section `i`, which has this name.
#[tactic(auto, unfolding(crate::specs::File::section))]
fn section(
    alloc: Global,
    file: &[u8],
    i: u64,
    header: SectionHeader,
    name: &[u8],
) -> Result<Section, OutOfMemory>
    requires header { header ≡ header_of file.now i }
    requires inside { IsTrue (is_stored header) → header.offset + header.size ≤ length file.now }
    requires name { name.now ≡ string_at (section_names file.now) header.name }
    ensures { IfOk result (λ s. s ≡ section file.now i) }
{
    Ok(Section {
        index: i,
        name: Name::of(alloc, name)?,
        typ: header.typ,
        flags: header.flags,
        size: header.size,
        align: header.align,
        bytes: Sequence::of(Vec::from_slice(alloc, content(file, header))?),
    })
}

/// The names of the sections.
pub(crate) fn section_names(file: &[u8]) -> &[u8]
    requires table { HasTable file.now }
    requires names { HasNames file.now }
    requires inside { AreInFile file.now }
    ensures { result.now ≡ section_names file.now }
{
    content(file, header(file, u64::from(u16_at(file, 62))))
}

/// Tests whether a section is kept, by its header and its name.
#[tactic(auto, unfolding(crate::specs::File::is_part))]
pub(crate) fn is_part(names: &[u8], section: SectionHeader) -> bool
    ensures { result ≡ is_part names.now section }
{
    has_flag(section.flags, SHF_ALLOC)
        && (section.typ == SHT_PROGBITS || section.typ == SHT_NOBITS)
        && !is_frame(names, section)
}

/// Tests whether the name of a section begins with `.eh_frame`.
#[tactic(auto, unfolding(crate::specs::File::is_frame))]
fn is_frame(names: &[u8], section: SectionHeader) -> bool
    ensures { result ≡ is_frame names.now section }
{
    strings_from(names, section.name).starts_with(b".eh_frame")
}
