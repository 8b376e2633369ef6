//! The table of symbols, the rows on it and on its symbols, and what an object says of them.

ghost use Rattle.std.specs.Prelude.{◌≡◌, ◌⊎◌, ◌<◌, ◌||◌, IfErr, IfOk, IfSome, IsTrue, List, None, OnOk, Some, is_none, is_some, not, ℕ};
ghost use Rattle.ad_elf.specs.Below.{first};
ghost use Rattle.ad_elf.specs.Private.Checked.{AreDirected, AreInFile, HasTable, IsTable};
ghost use Rattle.ad_elf.specs.declared.refusal.ElfRefusal.TheVariants.{OutOfMemory as MemoryWanted, SymbolTable as TableRefused};
ghost use Rattle.ad_elf.specs.Fields.{header, section_count, symbol_entry as entry_of};
ghost use Rattle.ad_elf.specs.File.{one_table, section_names, string_at, symbol, symbol_count, symbol_names, symbols, table, table_from};
ghost use Rattle.ad_elf.specs.Refusals.{first_row, has_form, is_astray, leaves_section, symbol_rows, unnamed_symbol};

use crate::elf::{SHN_ABS, SHN_UNDEF, SHT_SYMTAB, SYMBOL_BYTES};
use crate::file::{SectionHeader, SymbolEntry, content, header, section_count, symbol_entry};
use crate::header::are_strings;
use crate::object::Symbol;
use crate::refusal::ElfRefusal;
use crate::relas::first_misdirected;
use crate::strings::string_at;
use crate::table::SymbolTable;
use ad_base::{Name, OutOfMemory};
use std::alloc::Global;

/// What an object says of the symbols, or the first row on symbols and on sections of relocations.
pub(crate) fn read_symbols(
    alloc: Global,
    file: &[u8],
    names: &[u8],
) -> Result<Vec<Symbol>, ElfRefusal>
    requires table { HasTable file.now }
    requires inside { AreInFile file.now }
    requires names { names.now ≡ section_names file.now }
    ensures symbols { IfOk result (λ v. v.items ≡ symbols file.now) }
    ensures directed { OnOk result (AreDirected file.now) }
    ensures fine { OnOk result (first_row (symbol_rows file.now) ≡ None) }
    ensures refused { IfErr result (λ r. (r ≡ MemoryWanted) ⊎ (first_row (symbol_rows file.now) ≡ Some r)) }
{
    let Some(table) = symbol_table(file) else {
        return Err(ElfRefusal::SymbolTable);
    };
    let symbols = symbols(alloc, file, table)?;
    if let Some(j) = first_astray(file, table) {
        return Err(ElfRefusal::SymbolSection(j));
    }
    match first_misdirected(file, names, table.number) {
        Some(i) => Err(ElfRefusal::RelaTarget(i)),
        None => Ok(symbols),
    }
}

/// The table of symbols, or `None` where there isn't one that has its form.
fn symbol_table(file: &[u8]) -> Option<SymbolTable<'_>>
    requires table { HasTable file.now }
    requires inside { AreInFile file.now }
    ensures value { is_none result ≡ (is_none (one_table file.now) || not (has_form file.now (table file.now))) }
    ensures table { IfSome result (λ t. IsTable file.now t) }
{
    let number = one_table(file)?;
    let section = header(file, number);
    if !has_form(file, section) {
        return None;
    }
    Some(SymbolTable {
        number,
        header: section,
        names: content(file, header(file, u64::from(section.link))),
    })
}

/// The number of the first table of symbols, where none comes after it.
#[tactic(auto, unfolding(crate::specs::File::one_table))]
fn one_table(file: &[u8]) -> Option<u64>
    requires { HasTable file.now }
    ensures value { result ≡ one_table file.now }
    ensures there { IfSome result (λ k. k < section_count file.now) }
    ensures typ { IfSome result (λ k. (header file.now k).typ ≡ SHT_SYMTAB) }
{
    let number = table_from(file, 0)?;
    match table_from(file, number + 1) {
        None => Some(number),
        Some(_) => None,
    }
}

/// The number of the first table of symbols from a section on.
#[tactic(auto, using(crate::proofs::Below::loop_steps))]
fn table_from(file: &[u8], from: u64) -> Option<u64>
    requires { HasTable file.now }
    ensures value { result ≡ table_from file.now from }
    ensures there { IfSome result (λ k. k < section_count file.now) }
    ensures typ { IfSome result (λ k. (header file.now k).typ ≡ SHT_SYMTAB) }
{
    for i in 0..section_count(file) {
        if from <= i && header(file, i).typ == SHT_SYMTAB {
            return Some(i);
        }
    }
    None
}

/// Tests the form of a table of symbols.
fn has_form(file: &[u8], section: SectionHeader) -> bool
    requires { HasTable file.now }
    ensures { result ≡ has_form file.now section }
{
    section.entry_size == SYMBOL_BYTES
        && section.size % SYMBOL_BYTES == 0
        && are_strings(file, u64::from(section.link))
}

/// The first symbol that isn't in its section.
#[tactic(auto, using(crate::proofs::Below::loop_steps))]
fn first_astray(file: &[u8], table: SymbolTable<'_>) -> Option<u64>
    requires table { HasTable file.now }
    requires symbols { IsTable file.now table }
    ensures { result ≡ first (is_astray file.now) (symbol_count file.now) }
{
    for j in 0..table.header.size / SYMBOL_BYTES {
        if j != 0 && leaves_section(file, symbol_entry(file, table.header, j)) {
            return Some(j);
        }
    }
    None
}

/// Tests whether a symbol isn't in its section.
#[tactic(auto, unfolding(crate::specs::Refusals::leaves_section))]
fn leaves_section(file: &[u8], symbol: SymbolEntry) -> bool
    requires { HasTable file.now }
    ensures { result ≡ leaves_section file.now symbol }
{
    let number = u64::from(symbol.shndx);
    symbol.shndx != SHN_UNDEF
        && symbol.shndx != SHN_ABS
        && (number >= section_count(file) || symbol.value > header(file, number).size)
}

/// What an object says of all symbols, or the row on their table where the name of one doesn't end, or is too
/// long.
#[tactic(auto, using(crate::proofs::Below::loop_steps))]
fn symbols(alloc: Global, file: &[u8], table: SymbolTable<'_>) -> Result<Vec<Symbol>, ElfRefusal>
    requires { IsTable file.now table }
    ensures symbols { IfOk result (λ v. v.items ≡ symbols file.now) }
    ensures named { OnOk result (unnamed_symbol file.now ≡ None) }
    ensures refused { IfErr result (λ r. (r ≡ MemoryWanted) ⊎ ((r ≡ TableRefused) × IsTrue (is_some (unnamed_symbol file.now)))) }
{
    let mut symbols = Vec::new(alloc);
    for j in 0..table.header.size / SYMBOL_BYTES {
        let entry = symbol_entry(file, table.header, j);
        match string_at(table.names, entry.name) {
            Some(name) => symbols.push(symbol(alloc, entry, name)?)?,
            None => return Err(ElfRefusal::SymbolTable),
        }
    }
    Ok(symbols)
}

/// What an object says of a symbol that has this name.
#[tactic(auto, unfolding(crate::specs::File::symbol))]
fn symbol(alloc: Global, entry: SymbolEntry, name: &[u8]) -> Result<Symbol, OutOfMemory>
    ensures { (file : List ℕ) (j : ℕ) → entry ≡ entry_of file (table file) j → name.now ≡ string_at (symbol_names file) entry.name → IfOk result (λ s. s ≡ symbol file j) }
{
    Ok(Symbol {
        name: Name::of(alloc, name)?,
        bind: entry.info / 16,
        kind: entry.info % 16,
        shndx: entry.shndx,
        value: entry.value,
        size: entry.size,
    })
}
