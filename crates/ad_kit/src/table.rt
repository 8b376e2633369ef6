//! The section table.

ghost use Rattle.std.specs.Prelude.{◌≡◌, ◌+◌, ◌*◌, ◌++◌, ◌∷◌, ◌<◌, ◌≤◌, [], All, IfOk, OnOk, codes, count_by, flat_map, length, map, slice_index_or, take};
ghost use Rattle.ad_kit.specs.declared.object.KitSection.{KitSection};
ghost use Rattle.ad_kit.specs.ObjectFile.{begin_behind, end_of, header, header_of, header_names, headers, headers_behind, headers_of, is_local, names as symbols_named, null_header, names_of, number as number_behind, place, rela_header, rela_name, relas_bytes, section_names, sections_bytes, strings_header, symbols_header, to_relas, to_symbols};
ghost use Rattle.ad_kit.specs.Private.Written.{AreBegun, ArePlaces, AreRelasBegun, AreStrings, IsHeaderFit, IsShort};

use crate::body::Places;
use crate::header::{Header, put_header};
use crate::object::{KitSection, KitSymbol};
use crate::strings::{Strings, entry};
use ad_base::OutOfMemory;
use ad_elf::{RELA_BYTES, SHT_NULL, SHT_RELA, SHT_STRTAB, SHT_SYMTAB, SYMBOL_BYTES};
use std::alloc::Global;

/// The header of no section.
const NULL_HEADER: Header = Header {
    name: 0,
    typ: SHT_NULL,
    flags: 0,
    offset: 0,
    size: 0,
    link: 0,
    info: 0,
    align: 0,
    entry_size: 0,
};

/// The headers of the section table.
pub(crate) fn headers(
    alloc: Global,
    sections: &[KitSection],
    symbols: &[KitSymbol],
    names: &Strings,
    strings: &Strings,
    places: &Places,
) -> Result<Vec<Header>, OutOfMemory>
    requires names { AreStrings (header_names sections.now) names.now }
    requires strings { AreStrings (symbols_named symbols.now) strings.now }
    requires places { ArePlaces sections.now symbols.now places.now }
    requires short { All IsShort sections.now }
    requires few { length sections.now < 10000 }
    requires few_symbols { length symbols.now < 10000 }
    ensures headers { IfOk result (λ v. v.items ≡ headers sections.now symbols.now) }
    ensures count { IfOk result (λ v. length v.items ≡ number_behind sections.now + 3) }
    ensures small { IfOk result (λ v. length v.items < 30000) }
{
    let table = section_count(sections);
    let last = table as usize - 1;
    let mut headers = first_headers(alloc, sections, names, table, places)?;
    let name = entry(names.places.as_slice(), last);
    headers.push(symbols_header(sections, symbols, name, table, places.symbols))?;
    let name = entry(names.places.as_slice(), last + 1);
    headers.push(strings_header(name, places.strings, strings))?;
    let name = entry(names.places.as_slice(), last + 2);
    headers.push(strings_header(name, places.names, names))?;
    Ok(headers)
}

/// How many headers there are of no section, and of the sections that were given and their relocations.
fn section_count(sections: &[KitSection]) -> u32
    requires { length sections.now < 10000 }
    ensures count { result ≡ number_behind sections.now }
    ensures small { result ≤ 20001 }
{
    let mut count: u32 = 1;
    for k in 0..sections.len() {
        count += headers_of_one(&sections[k]);
    }
    count
}

/// How many headers there are of a section and its relocations.
#[tactic(auto, unfolding(crate::specs::ObjectFile::names_of))]
fn headers_of_one(section: &KitSection) -> u32
    ensures value { result ≡ length (names_of section.now) }
    ensures small { result ≤ 2 }
{
    if section.has_relas() { 2 } else { 1 }
}

/// The header of no section, and those of the sections that were given and their relocations.
fn first_headers(
    alloc: Global,
    sections: &[KitSection],
    names: &Strings,
    table: u32,
    places: &Places,
) -> Result<Vec<Header>, OutOfMemory>
    requires names { AreStrings (header_names sections.now) names.now }
    requires table { table ≡ number_behind sections.now }
    requires sections { AreBegun sections.now (length sections.now) places.now.sections.items }
    requires relas { AreRelasBegun sections.now (length sections.now) places.now.relas.items }
    requires short { All IsShort sections.now }
    requires few { length sections.now < 10000 }
    ensures headers { IfOk result (λ v. v.items ≡ null_header ∷ headers_behind sections.now [] sections.now) }
    ensures count { IfOk result (λ v. length v.items ≡ number_behind sections.now) }
{
    let mut headers = Vec::new(alloc);
    headers.push(NULL_HEADER)?;
    for k in 0..sections.len() {
        push_headers(
            &mut headers,
            sections,
            k,
            names.places.as_slice(),
            table,
            places,
        )?;
    }
    Ok(headers)
}

/// Appends the header of section `k` and that of its relocations.
#[tactic(auto, unfolding(crate::specs::ObjectFile::headers_of))]
fn push_headers(
    headers: &mut Vec<Header>,
    sections: &[KitSection],
    k: usize,
    names: &[u32],
    table: u32,
    places: &Places,
) -> Result<(), OutOfMemory>
    requires below { k < length sections.now }
    requires names { names.now ≡ map (place (section_names sections.now)) (header_names sections.now) }
    requires table { table ≡ number_behind sections.now }
    requires sections { AreBegun sections.now (length sections.now) places.now.sections.items }
    requires relas { AreRelasBegun sections.now (length sections.now) places.now.relas.items }
    requires short { All IsShort sections.now }
    requires number { length headers.old.items ≡ number_behind (take k sections.now) }
    requires small { length headers.old.items < 30000 }
    ensures { OnOk result ((s : KitSection) → headers.new.items ≡ headers.old.items ++ headers_of sections.now (take k sections.now) (slice_index_or sections.now k s)) }
{
    let section = &sections[k];
    let number = headers.len();
    let name = entry(names, number - 1);
    headers.push(header_of(sections, k, section, name, places.sections[k]))?;
    if section.has_relas() {
        let name = entry(names, number);
        let at = places.relas[k];
        headers.push(rela_header(sections, k, section, name, table, number as u32, at))?;
    }
    Ok(())
}

/// The header of section `k`, which begins at a place.
#[tactic(auto, unfolding(crate::specs::ObjectFile::header_of))]
fn header_of(sections: &[KitSection], k: usize, section: &KitSection, name: u32, at: u64) -> Header
    requires name { name ≡ place (section_names sections.now) section.now.name }
    requires place { at ≡ begin_behind section.now.align (sections_bytes (take k sections.now)) }
    ensures { result ≡ header_of sections.now (take k sections.now) section.now }
{
    Header {
        name,
        typ: section.typ,
        flags: section.flags,
        offset: at,
        size: section.full_size(),
        link: 0,
        info: 0,
        align: section.align,
        entry_size: 0,
    }
}

/// The header of the relocations of section `k`, which begin at a place.
#[tactic(auto, unfolding(crate::specs::ObjectFile::rela_header))]
fn rela_header(
    sections: &[KitSection],
    k: usize,
    section: &KitSection,
    name: u32,
    table: u32,
    number: u32,
    at: u64,
) -> Header
    requires name { name ≡ place (section_names sections.now) (rela_name section.now) }
    requires table { table ≡ number_behind sections.now }
    requires number { number ≡ number_behind (take k sections.now) }
    requires place { at ≡ end_of (to_relas sections.now ++ relas_bytes (take k sections.now)) }
    requires short { IsShort section.now }
    ensures { result ≡ rela_header sections.now (take k sections.now) section.now }
{
    Header {
        name,
        typ: SHT_RELA,
        flags: 0,
        offset: at,
        size: RELA_BYTES * section.relas.len(),
        link: table,
        info: number,
        align: 8,
        entry_size: RELA_BYTES,
    }
}

/// The header of the table of symbols, whose number is given and which begins at a place.
#[tactic(auto, unfolding(crate::specs::ObjectFile::symbols_header))]
fn symbols_header(
    sections: &[KitSection],
    symbols: &[KitSymbol],
    name: u32,
    table: u32,
    at: u64,
) -> Header
    requires name { name ≡ place (section_names sections.now) (codes ".symtab") }
    requires table { table ≡ number_behind sections.now }
    requires small { table ≤ 20001 }
    requires place { at ≡ end_of (to_symbols sections.now) }
    requires few { length symbols.now < 10000 }
    ensures { result ≡ symbols_header sections.now symbols.now }
{
    Header {
        name,
        typ: SHT_SYMTAB,
        flags: 0,
        offset: at,
        size: SYMBOL_BYTES * (1 + symbols.len() as u64),
        link: table + 1,
        info: 1 + local_count(symbols),
        align: 8,
        entry_size: SYMBOL_BYTES,
    }
}

/// How many symbols are local.
fn local_count(symbols: &[KitSymbol]) -> u32
    requires { length symbols.now < 10000 }
    ensures value { result ≡ count_by is_local symbols.now }
    ensures small { result < 10000 }
{
    symbols
        .iter()
        .filter(|symbol| symbol.info / 16 == 0)
        .count() as u32
}

/// The header of a section of strings, which begins at a place.
fn strings_header(name: u32, at: u64, strings: &Strings) -> Header
    ensures { result ≡ strings_header name at (length strings.now.bytes.items) }
{
    Header {
        name,
        typ: SHT_STRTAB,
        flags: 0,
        offset: at,
        size: strings.bytes.len() as u64,
        link: 0,
        info: 0,
        align: 1,
        entry_size: 0,
    }
}

/// Appends the headers.
pub(crate) fn put_headers(file: &mut Vec<u8>, headers: &[Header]) -> Result<(), OutOfMemory>
    ensures bytes { OnOk result (file.new.items ≡ file.old.items ++ flat_map header headers.now) }
    ensures fit { OnOk result (All IsHeaderFit headers.now) }
{
    for k in 0..headers.len() {
        put_header(file, headers[k])?;
    }
    Ok(())
}
