//! Sections of strings (gABI, "String Table").

ghost use Rattle.std.specs.Prelude.{◌≡◌, ◌+◌, ◌++◌, ◌<◌, ◌≤◌, ◌^◌, [], IfOk, List, OnOk, flat_map, length, map, slice_index, sum_by, ℕ};
ghost use Rattle.ad_kit.specs.declared.object.KitSymbol.{KitSymbol};
ghost use Rattle.ad_kit.specs.ObjectFile.{header_names, names_of, place, rela_name, used, with_name};
ghost use Rattle.ad_kit.specs.Private.Written.{AreFound, AreStrings};

use crate::object::{KitSection, KitSymbol};
use ad_base::{Name, OutOfMemory};
use std::alloc::Global;
use std::collections::BTreeMap;

/// A section of strings.
#[derive(Drop)]
pub(crate) struct Strings {
    pub bytes: Vec<u8>,
    /// Where each name begins that it was made of.
    pub places: Vec<u32>,
}

/// A section of strings that names are put into, and where they begin.
#[derive(Drop)]
pub(crate) struct Found<'a> {
    pub bytes: Vec<u8>,
    pub places: BTreeMap<&'a [u8], u32>,
}

/// The section of strings of these names.
pub(crate) fn strings_of(alloc: Global, names: &[Name]) -> Result<Strings, OutOfMemory>
    requires { sum_by (λ (n : List ℕ). length n + 1) names.now + 1 < 2 ^ 32 }
    ensures { IfOk result (λ s. AreStrings names.now s) }
{
    let found = found_of(alloc, names)?;
    let places = places_of(alloc, &found, names)?;
    Ok(Strings {
        bytes: found.bytes,
        places,
    })
}

/// The section of strings of these names, and where they begin.
fn found_of<'a>(alloc: Global, names: &'a [Name]) -> Result<Found<'a>, OutOfMemory>
    requires { sum_by (λ (n : List ℕ). length n + 1) names.now + 1 < 2 ^ 32 }
    ensures { IfOk result (λ f. AreFound (used names.now) f) }
{
    let mut found = nothing_found(alloc)?;
    for k in 0..names.len() {
        add(&mut found, names[k].bytes())?;
    }
    Ok(found)
}

/// The section of strings of no name.
fn nothing_found<'a>(alloc: Global) -> Result<Found<'a>, OutOfMemory>
    ensures strings { IfOk result (λ f. AreFound [] f) }
    ensures size { IfOk result (λ f. length f.bytes.items ≡ 1) }
{
    let mut bytes = Vec::new(alloc);
    bytes.push(0)?;
    Ok(Found {
        bytes,
        places: BTreeMap::new(alloc),
    })
}

/// Appends a name, unless it is there.
fn add<'a>(found: &mut Found<'a>, name: &'a [u8]) -> Result<(), OutOfMemory>
    requires { length found.old.bytes.items + length name.now + 1 < 2 ^ 32 }
    ensures found { (ns : List (List ℕ)) → AreFound ns found.old → OnOk result (AreFound (with_name ns name.now) found.new) }
    ensures size { OnOk result (length found.new.bytes.items ≤ length found.old.bytes.items + length name.now + 1) }
{
    if name.is_empty() || found.places.contains_key(&name) {
        return Ok(());
    }
    let at = found.bytes.len() as u32;
    found.bytes.extend_from_slice(name)?;
    found.bytes.push(0)?;
    found.places.insert(name, at)?;
    Ok(())
}

/// Where each of these names begins.
fn places_of<'a>(
    alloc: Global,
    found: &Found<'a>,
    names: &'a [Name],
) -> Result<Vec<u32>, OutOfMemory>
    ensures { (ns : List (List ℕ)) → AreFound ns found.now → IfOk result (λ v. v.items ≡ map (place ns) names.now) }
{
    let mut places = Vec::new(alloc);
    for k in 0..names.len() {
        places.push(place(found, names[k].bytes()))?;
    }
    Ok(places)
}

/// Where a name begins.
fn place<'a>(found: &Found<'a>, name: &'a [u8]) -> u32
    ensures { (ns : List (List ℕ)) → AreFound ns found.now → result ≡ place ns name.now }
{
    found.places.get(&name).copied().unwrap_or(0)
}

/// The place of this number, or 0.
pub(crate) fn entry(places: &[u32], number: usize) -> u32
    ensures { result ≡ slice_index places.now number }
{
    places.get(number).copied().unwrap_or(0)
}

/// The names of the sections and of their relocations, and of the last three sections.
pub(crate) fn header_names(alloc: Global, sections: &[KitSection]) -> Result<Vec<Name>, OutOfMemory>
    ensures { IfOk result (λ v. v.items ≡ header_names sections.now) }
{
    let mut names = Vec::new(alloc);
    for k in 0..sections.len() {
        push_names(&mut names, alloc, &sections[k])?;
    }
    names.push(Name::of(alloc, b".symtab")?)?;
    names.push(Name::of(alloc, b".strtab")?)?;
    names.push(Name::of(alloc, b".shstrtab")?)?;
    Ok(names)
}

/// Appends the name of a section, and that of its relocations.
#[tactic(auto, unfolding(crate::specs::ObjectFile::names_of))]
fn push_names(names: &mut Vec<Name>, alloc: Global, section: &KitSection) -> Result<(), OutOfMemory>
    ensures { OnOk result (names.new.items ≡ names.old.items ++ names_of section.now) }
{
    names.push(Name::of(alloc, section.name.bytes())?)?;
    if section.has_relas() {
        names.push(rela_name(alloc, section)?)?;
    }
    Ok(())
}

/// The name of the section of a section's relocations.
fn rela_name(alloc: Global, section: &KitSection) -> Result<Name, OutOfMemory>
    ensures { IfOk result (λ n. n ≡ rela_name section.now) }
{
    let mut bytes = Vec::from_slice(alloc, b".rela")?;
    bytes.extend_from_slice(section.name.bytes())?;
    Name::of(alloc, bytes.as_slice())
}

/// The names of the symbols.
pub(crate) fn symbol_names(alloc: Global, symbols: &[KitSymbol]) -> Result<Vec<Name>, OutOfMemory>
    ensures { IfOk result (λ v. v.items ≡ map (λ (y : KitSymbol). y.name) symbols.now) }
{
    let mut names = Vec::new(alloc);
    for k in 0..symbols.len() {
        names.push(Name::of(alloc, symbols[k].name.bytes())?)?;
    }
    Ok(names)
}
