//! What stands between the header of a file and its section table.

ghost use Rattle.std.specs.Prelude.{◌≡◌, ◌+◌, ◌++◌, ◌==◌, ◌<◌, ◌≤◌, ◌^◌, ℕ, [], All, IfOk, List, OnOk, flat_map, length, map, replicate, true};
ghost use Rattle.std.specs.List.{list_any};
ghost use Rattle.ad_parts.specs.Ends.{next};
ghost use Rattle.ad_kit.specs.declared.object.KitRela.{KitRela};
ghost use Rattle.ad_kit.specs.declared.object.KitSection.{KitSection};
ghost use Rattle.ad_kit.specs.ObjectFile.{begin_behind, end_of, header_names, names as symbols_named, padded, place, rela, sections_bytes, symbol_at, symbol_names, symbols_bytes, to_relas, to_symbols, to_table};
ghost use Rattle.ad_kit.specs.ReadBack.{IsRelaFit, IsSymbolFit};
ghost use Rattle.ad_kit.specs.Writable.{IsWritable, powers};
ghost use Rattle.ad_kit.specs.Private.Written.{AreBegun, ArePlaces, AreRelasBegun, AreStrings};

use crate::header::{put_rela, put_u8, put_u16, put_u32, put_u64};
use crate::object::{KitRela, KitSection, KitSymbol};
use crate::strings::{Strings, entry};
use ad_base::OutOfMemory;
use ad_elf::{FILE_HEADER_BYTES, SYMBOL_BYTES};
use std::alloc::Global;

/// Where the parts of a file begin.
#[derive(Drop)]
pub(crate) struct Places {
    /// The sections that were given, one each.
    pub sections: Vec<u64>,
    /// Their relocations, one each.
    pub relas: Vec<u64>,
    /// The table of symbols.
    pub symbols: u64,
    /// The names of the symbols.
    pub strings: u64,
    /// The names of the sections.
    pub names: u64,
}

/// Appends all that stands between the header of a file and its section table, and gives where its
/// parts begin.
pub(crate) fn put_body(
    body: &mut Vec<u8>,
    alloc: Global,
    sections: &[KitSection],
    symbols: &[KitSymbol],
    names: &Strings,
    strings: &Strings,
) -> Result<Places, OutOfMemory>
    requires empty { body.old.items ≡ [] }
    requires writable { IsWritable sections.now symbols.now }
    requires names { AreStrings (header_names sections.now) names.now }
    requires strings { AreStrings (symbols_named symbols.now) strings.now }
    ensures bytes { OnOk result (body.new.items ≡ to_table sections.now symbols.now) }
    ensures places { IfOk result (λ p. ArePlaces sections.now symbols.now p) }
    ensures relas { OnOk result (All (λ (s : KitSection). All IsRelaFit s.relas) sections.now) }
    ensures symbols { OnOk result (All IsSymbolFit symbols.now) }
{
    let section_places = put_sections(body, alloc, sections)?;
    pad(body, 8)?;
    let rela_places = put_relas(body, alloc, sections)?;
    let symbols_at = end_of(body.as_slice());
    put_symbols(body, strings.places.as_slice(), symbols)?;
    let strings_at = end_of(body.as_slice());
    body.extend_from_slice(strings.bytes.as_slice())?;
    let names_at = end_of(body.as_slice());
    body.extend_from_slice(names.bytes.as_slice())?;
    pad(body, 8)?;
    Ok(Places {
        sections: section_places,
        relas: rela_places,
        symbols: symbols_at,
        strings: strings_at,
        names: names_at,
    })
}

/// The place in the file behind these bytes, which stand behind the file's header.
pub(crate) fn end_of(body: &[u8]) -> u64
    ensures value { result ≡ end_of body.now }
    ensures small { result < 2 ^ 63 + 64 }
{
    FILE_HEADER_BYTES + body.len() as u64
}

/// The least multiple of an alignment that isn't below a number.
#[tactic(auto, unfolding(ad_parts::specs::Ends::next))]
fn next(align: u64, number: u64) -> u64
    requires some { 0 < align }
    requires low { align ≤ 4096 }
    requires small { number < 2 ^ 63 + 64 }
    ensures value { result ≡ next align number }
    ensures from { number ≤ result }
    ensures near { result ≤ number + 4095 }
{
    (number + (align - 1)) / align * align
}

/// Appends zeros up to the next multiple of an alignment, which it gives.
#[tactic(auto, unfolding(crate::specs::ObjectFile::padded), using(std::proofs::lemmas::List::take_all))]
pub(crate) fn pad(body: &mut Vec<u8>, align: u64) -> Result<u64, OutOfMemory>
    requires some { 0 < align }
    requires low { align ≤ 4096 }
    ensures place { IfOk result (λ at. at ≡ begin_behind align body.old.items) }
    ensures padded { OnOk result (body.new.items ≡ padded align body.old.items) }
{
    let at = next(align, end_of(body.as_slice()));
    body.resize((at - FILE_HEADER_BYTES) as usize, 0)?;
    Ok(at)
}

/// Appends the sections, and gives where each begins.
pub(crate) fn put_sections(
    body: &mut Vec<u8>,
    alloc: Global,
    sections: &[KitSection],
) -> Result<Vec<u64>, OutOfMemory>
    requires empty { body.old.items ≡ [] }
    requires aligned { All (λ (s : KitSection). list_any (λ a. a == s.align) powers ≡ true) sections.now }
    ensures bytes { OnOk result (body.new.items ≡ sections_bytes sections.now) }
    ensures places { IfOk result (λ v. AreBegun sections.now (length sections.now) v.items) }
{
    let mut places = Vec::new(alloc);
    for k in 0..sections.len() {
        let section = &sections[k];
        places.push(pad(body, section.align)?)?;
        body.extend_from_slice(section.stored())?;
    }
    Ok(places)
}

/// Appends the relocations of all sections, and gives where those of each begin.
pub(crate) fn put_relas(
    body: &mut Vec<u8>,
    alloc: Global,
    sections: &[KitSection],
) -> Result<Vec<u64>, OutOfMemory>
    requires before { body.old.items ≡ to_relas sections.now }
    requires symbols { All (λ (s : KitSection). All (λ (r : KitRela). r.symbol < 2 ^ 32) s.relas) sections.now }
    ensures bytes { OnOk result (body.new.items ≡ to_symbols sections.now) }
    ensures places { IfOk result (λ v. AreRelasBegun sections.now (length sections.now) v.items) }
    ensures fit { OnOk result (All (λ (s : KitSection). All IsRelaFit s.relas) sections.now) }
{
    let mut places = Vec::new(alloc);
    for k in 0..sections.len() {
        places.push(end_of(body.as_slice()))?;
        put_relas_of(body, sections[k].relas.as_slice())?;
    }
    Ok(places)
}

/// Appends the relocations of one section.
fn put_relas_of(body: &mut Vec<u8>, relas: &[KitRela]) -> Result<(), OutOfMemory>
    requires { All (λ (r : KitRela). r.symbol < 2 ^ 32) relas.now }
    ensures bytes { OnOk result (body.new.items ≡ body.old.items ++ flat_map rela relas.now) }
    ensures fit { OnOk result (All IsRelaFit relas.now) }
{
    for k in 0..relas.len() {
        put_rela(body, relas[k])?;
    }
    Ok(())
}

/// Appends the table of symbols, whose names begin at these places.
#[tactic(auto, unfolding(crate::specs::ObjectFile::symbols_bytes))]
pub(crate) fn put_symbols(
    body: &mut Vec<u8>,
    places: &[u32],
    symbols: &[KitSymbol],
) -> Result<(), OutOfMemory>
    requires { places.now ≡ map (place (symbol_names symbols.now)) (symbols_named symbols.now) }
    ensures bytes { OnOk result (body.new.items ≡ body.old.items ++ symbols_bytes (symbol_names symbols.now) symbols.now) }
    ensures fit { OnOk result (All IsSymbolFit symbols.now) }
{
    put_zeros(body, SYMBOL_BYTES as usize)?;
    for k in 0..symbols.len() {
        put_symbol(body, entry(places, k), &symbols[k])?;
    }
    Ok(())
}

/// Appends so many zeros.
fn put_zeros(body: &mut Vec<u8>, count: usize) -> Result<(), OutOfMemory>
    requires { count ≤ 24 }
    ensures { OnOk result (body.new.items ≡ body.old.items ++ replicate count 0) }
{
    body.resize(body.len() + count, 0)?;
    Ok(())
}

/// Appends a symbol, whose name begins at a place.
fn put_symbol(body: &mut Vec<u8>, name: u32, made: &KitSymbol) -> Result<(), OutOfMemory>
    ensures bytes { OnOk result (body.new.items ≡ body.old.items ++ symbol_at name made.now) }
    ensures fit { OnOk result (IsSymbolFit made.now) }
{
    put_u32(body, name)?;
    put_u8(body, made.info)?;
    put_u8(body, 0)?;
    put_u16(body, made.shndx)?;
    put_u64(body, made.value)?;
    put_u64(body, made.size)?;
    Ok(())
}
