//! The sections of relocations, the rows on them and on relocations, and what an object says of them.

ghost use Rattle.std.specs.Prelude.{◌≡◌, ◌⊎◌, ◌+◌, ◌*◌, ◌<◌, ◌≤◌, ◌++◌, ◌==◌, ◌&&◌, false, length, nat_le, find, All, IfErr, IfOk, None, OnOk, Some};
ghost use Rattle.ad_elf.specs.Below.{first};
ghost use Rattle.ad_elf.specs.Private.Checked.{AreDirected, AreInFile, HasTable};
ghost use Rattle.ad_elf.specs.declared.refusal.ElfRefusal.TheVariants.{OutOfMemory as MemoryWanted, RelaOffset, RelaSymbol};
ghost use Rattle.ad_elf.specs.Fields.{header, section_count};
ghost use Rattle.ad_elf.specs.File.{has_kept_relas, is_part, kept_relas, rela, relas as all_relas, relas_of, section_names, symbol_count, table_number};
ghost use Rattle.ad_elf.specs.Refusals.{ends_outside, first_row, is_misdirected, rela_rows, row_on};

use crate::elf::{RELA_BYTES, SHT_NOBITS, SHT_RELA};
use crate::file::{SectionHeader, header, rela_entry, section_count};
use crate::header::ends_past;
use crate::object::Rela;
use crate::refusal::ElfRefusal;
use crate::relocation::width;
use crate::sections::is_part;
use ad_base::OutOfMemory;
use std::alloc::Global;

/// What an object says of the relocations, or the first row on them, in a file of so many symbols.
pub(crate) fn read_relas(
    alloc: Global,
    file: &[u8],
    names: &[u8],
    count: u64,
) -> Result<Vec<Rela>, ElfRefusal>
    requires table { HasTable file.now }
    requires inside { AreInFile file.now }
    requires names { names.now ≡ section_names file.now }
    requires directed { AreDirected file.now }
    requires symbols { count ≡ symbol_count file.now }
    ensures relas { IfOk result (λ v. v.items ≡ all_relas file.now) }
    ensures fine { OnOk result (first_row (rela_rows file.now) ≡ None) }
    ensures refused { IfErr result (λ r. (r ≡ MemoryWanted) ⊎ (first_row (rela_rows file.now) ≡ Some r)) }
{
    let relas = relas(alloc, file, names)?;
    match rela_refusal(file, count, relas.as_slice()) {
        Some(refusal) => Err(refusal),
        None => Ok(relas),
    }
}

/// The first section of relocations that has a wrong form, or applies to no section that is taken.
#[tactic(auto, using(crate::proofs::Below::loop_steps))]
pub(crate) fn first_misdirected(file: &[u8], names: &[u8], table: u64) -> Option<u64>
    requires table { HasTable file.now }
    requires names { names.now ≡ section_names file.now }
    requires symbols { table ≡ table_number file.now }
    ensures { result ≡ first (λ i. is_misdirected file.now (header file.now i)) (section_count file.now) }
{
    for i in 0..section_count(file) {
        if is_misdirected(file, names, table, header(file, i)) {
            return Some(i);
        }
    }
    None
}

/// Tests whether a section of relocations has a wrong form, or applies to no section that is taken.
#[tactic(auto, unfolding(crate::specs::Refusals::is_misdirected))]
fn is_misdirected(file: &[u8], names: &[u8], table: u64, section: SectionHeader) -> bool
    requires table { HasTable file.now }
    requires names { names.now ≡ section_names file.now }
    requires symbols { table ≡ table_number file.now }
    ensures { result ≡ is_misdirected file.now section }
{
    let target = u64::from(section.info);
    section.typ == SHT_RELA
        && (section.info == 0
            || target >= section_count(file)
            || u64::from(section.link) != table
            || section.entry_size != RELA_BYTES
            || section.size % RELA_BYTES != 0
            || applies_to_zeros(names, header(file, target)))
}

/// Tests whether a section that is kept is of zeros.
fn applies_to_zeros(names: &[u8], target: SectionHeader) -> bool
    ensures { result ≡ (is_part names.now target && (target.typ == SHT_NOBITS)) }
{
    is_part(names, target) && target.typ == SHT_NOBITS
}

/// What an object says of the relocations of the sections that are kept.
#[tactic(auto, using(crate::proofs::Below::loop_steps))]
fn relas(alloc: Global, file: &[u8], names: &[u8]) -> Result<Vec<Rela>, OutOfMemory>
    requires table { HasTable file.now }
    requires names { names.now ≡ section_names file.now }
    requires inside { AreInFile file.now }
    requires directed { AreDirected file.now }
    ensures { IfOk result (λ v. v.items ≡ all_relas file.now) }
{
    let mut relas = Vec::new(alloc);
    for i in 0..section_count(file) {
        push_section(&mut relas, file, names, i)?;
    }
    Ok(relas)
}

/// Appends what an object says of section `i`, if that has relocations of a section that is kept.
fn push_section(relas: &mut Vec<Rela>, file: &[u8], names: &[u8], i: u64) -> Result<(), OutOfMemory>
    requires table { HasTable file.now }
    requires names { names.now ≡ section_names file.now }
    requires inside { AreInFile file.now }
    requires directed { AreDirected file.now }
    requires number { i < section_count file.now }
    ensures { OnOk result (relas.new.items ≡ relas.old.items ++ kept_relas file.now i) }
{
    let section = header(file, i);
    if has_kept_relas(file, names, section) {
        push_relas(relas, file, i, section)
    } else {
        Ok(())
    }
}

/// Tests whether a section has relocations of a section that is kept.
#[tactic(auto, using(crate::proofs::Tables::info_below), unfolding(crate::specs::File::has_kept_relas))]
fn has_kept_relas(file: &[u8], names: &[u8], section: SectionHeader) -> bool
    requires table { HasTable file.now }
    requires names { names.now ≡ section_names file.now }
    requires directed { is_misdirected file.now section ≡ false }
    ensures { result ≡ has_kept_relas file.now section }
{
    section.typ == SHT_RELA && is_part(names, header(file, u64::from(section.info)))
}

/// Appends what an object says of the relocations of section `i`.
#[tactic(auto, using(crate::proofs::Below::loop_steps), unfolding(crate::specs::File::relas_of))]
fn push_relas(
    relas: &mut Vec<Rela>,
    file: &[u8],
    i: u64,
    section: SectionHeader,
) -> Result<(), OutOfMemory>
    requires header { section ≡ header file.now i }
    requires inside { section.offset + section.size ≤ length file.now }
    ensures { OnOk result (relas.new.items ≡ relas.old.items ++ relas_of file.now i) }
{
    for j in 0..section.size / RELA_BYTES {
        relas.push(rela(file, i, section, j))?;
    }
    Ok(())
}

/// What an object says of entry `j` of section `i`.
#[tactic(auto, unfolding(crate::specs::File::rela))]
fn rela(file: &[u8], i: u64, section: SectionHeader, j: u64) -> Rela
    requires header { section ≡ header file.now i }
    requires inside { section.offset + section.size ≤ length file.now }
    requires number { RELA_BYTES * j + RELA_BYTES ≤ section.size }
    ensures { result ≡ rela file.now i j }
{
    let entry = rela_entry(file, section, j);
    Rela {
        section: i,
        entry: j,
        target: u64::from(section.info),
        offset: entry.offset,
        symbol: entry.info >> 32,
        typ: (entry.info % (1 << 32)) as u32,
        addend: entry.addend,
    }
}

/// The first row on relocations, of which each applies to a section that is there.
fn rela_refusal(file: &[u8], count: u64, relas: &[Rela]) -> Option<ElfRefusal>
    requires table { HasTable file.now }
    requires symbols { count ≡ symbol_count file.now }
    requires all { relas.now ≡ all_relas file.now }
    requires targets { All (λ r. r.target < section_count file.now) relas.now }
    ensures { result ≡ first_row (rela_rows file.now) }
{
    match symbol_row(relas, count) {
        Some(refusal) => Some(refusal),
        None => offset_row(file, relas),
    }
}

/// The row on relocations that name no symbol of so many.
fn symbol_row(relas: &[Rela], count: u64) -> Option<ElfRefusal>
    ensures { result ≡ row_on (find (λ r. nat_le count r.symbol) relas.now) RelaSymbol }
{
    relas
        .iter()
        .find(|rela| rela.symbol >= count)
        .map(|rela| ElfRefusal::RelaSymbol(rela.section, rela.entry))
}

/// The row on relocations whose field ends past the section that they apply to.
fn offset_row(file: &[u8], relas: &[Rela]) -> Option<ElfRefusal>
    requires table { HasTable file.now }
    requires targets { All (λ r. r.target < section_count file.now) relas.now }
    ensures { result ≡ row_on (find (ends_outside file.now) relas.now) RelaOffset }
{
    for k in 0..relas.len() {
        let rela = relas[k];
        if ends_outside(file, rela) {
            return Some(ElfRefusal::RelaOffset(rela.section, rela.entry));
        }
    }
    None
}

/// Tests whether the field of a relocation ends past the section that it applies to.
fn ends_outside(file: &[u8], rela: Rela) -> bool
    requires table { HasTable file.now }
    requires target { rela.target < section_count file.now }
    ensures { result ≡ ends_outside file.now rela }
{
    ends_past(rela.offset, width(rela.typ), header(file, rela.target).size)
}
