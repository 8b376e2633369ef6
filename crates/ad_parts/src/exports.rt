//! The exports of an object.

ghost use Rattle.std.specs.Prelude.{◌≡◌, ◌+◌, ◌<◌, ◌++◌, ◌∷◌, [], IfOk, IfSome, OnOk, filter_map, length};
ghost use Rattle.ad_parts.specs.Private.Lying.{AreInside, IsInPart, IsInside};
ghost use Rattle.ad_parts.specs.Symbols.{AreInOrder, export, export_at, exports, first_repeated, is_callable, is_text};

use crate::layout::{Group, Spot};
use crate::position::home;
use ad_base::{Export, Name, OutOfMemory};
use ad_elf::{STB_GLOBAL, STT_FUNC, STT_NOTYPE, Symbol};
use std::alloc::Global;
use std::collections::BTreeSet;

/// The exports, in the order of the table of symbols.
pub(crate) fn exports_of(
    alloc: Global,
    spots: &[Spot],
    symbols: &[Symbol],
) -> Result<Vec<Export>, OutOfMemory>
    requires order { AreInOrder spots.now }
    requires inside { AreInside spots.now symbols.now }
    ensures { IfOk result (λ v. v.items ≡ exports spots.now symbols.now) }
{
    let mut exports = Vec::new(alloc);
    for k in 1..symbols.len() {
        push_export(&mut exports, alloc, spots, &symbols[k])?;
    }
    Ok(exports)
}

/// Appends a symbol as an export, if it is one.
fn push_export(
    exports: &mut Vec<Export>,
    alloc: Global,
    spots: &[Spot],
    symbol: &Symbol,
) -> Result<(), OutOfMemory>
    requires order { AreInOrder spots.now }
    requires inside { IsInside spots.now symbol.now }
    ensures { OnOk result (exports.new.items ≡ exports.old.items ++ filter_map (export spots.now) (symbol.now ∷ [])) }
{
    if let Some(export) = export(alloc, spots, symbol)? {
        exports.push(export)?;
    }
    Ok(())
}

/// A symbol as an export, if it is one.
#[tactic(auto, unfolding(crate::specs::Symbols::export))]
fn export(alloc: Global, spots: &[Spot], symbol: &Symbol) -> Result<Option<Export>, OutOfMemory>
    requires order { AreInOrder spots.now }
    requires inside { IsInside spots.now symbol.now }
    ensures { IfOk result (λ e. e ≡ export spots.now symbol.now) }
{
    if !is_callable(symbol) {
        return Ok(None);
    }
    match home(spots, symbol) {
        None => Ok(None),
        Some(spot) => export_at(alloc, symbol, spot),
    }
}

/// A symbol of this section as an export, if the section is of the text of the movable part.
fn export_at(alloc: Global, symbol: &Symbol, spot: Spot) -> Result<Option<Export>, OutOfMemory>
    requires { IsInPart spot (spot.offset + symbol.now.value) }
    ensures { IfOk result (λ e. e ≡ export_at symbol.now spot) }
{
    if spot.movable && is_text(spot.group) {
        Ok(Some(Export {
            name: Name::of(alloc, symbol.name.bytes())?,
            offset: spot.offset as u64 + symbol.value,
        }))
    } else {
        Ok(None)
    }
}

/// Tests whether a symbol is global, and a function or without a type.
fn is_callable(symbol: &Symbol) -> bool
    ensures { result ≡ is_callable symbol.now }
{
    symbol.bind == STB_GLOBAL && (symbol.kind == STT_FUNC || symbol.kind == STT_NOTYPE)
}

/// Tests for text.
fn is_text(group: Group) -> bool
    ensures { result ≡ is_text group }
{
    match group {
        Group::Text => true,
        Group::ReadOnly | Group::Local | Group::Writable => false,
    }
}

/// The first export whose name one before it has, by its number.
pub(crate) fn first_repeated(
    alloc: Global,
    exports: &[Export],
) -> Result<Option<usize>, OutOfMemory>
    ensures value { IfOk result (λ j. j ≡ first_repeated exports.now) }
    ensures number { IfOk result (λ j. IfSome j (λ k. k < length exports.now)) }
{
    let mut names = BTreeSet::new(alloc);
    for k in 0..exports.len() {
        if !names.insert(exports[k].name.bytes())? {
            return Ok(Some(k));
        }
    }
    Ok(None)
}
