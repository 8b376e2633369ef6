//! What entries are refused for, beside their values.

ghost use Rattle.std.specs.Prelude.{◌≡◌, ◌<◌, length, slice_index};
ghost use Rattle.std.specs.List.{slice_get};
ghost use Rattle.ad_parts.specs.Symbols.{AreInOrder};
ghost use Rattle.ad_tables.specs.Tables.{in_movable};
ghost use Rattle.ad_reloc.specs.Addresses.{field_offset};
ghost use Rattle.ad_reloc.specs.Refusals.{are_pair, behind_one, before_one, crosses, in_local_area, is_far, is_misaligned, is_near, is_out_of_range, leaves_pointer, is_opposite, moves};

use crate::row::row_of;
use ad_base::WORD_BYTES;
use ad_elf::{
    Object, R_RISCV_32, R_RISCV_32_PCREL, R_RISCV_64, R_RISCV_ADD32, R_RISCV_ADD64, R_RISCV_BRANCH,
    R_RISCV_CALL, R_RISCV_CALL_PLT, R_RISCV_GOT_HI20, R_RISCV_JAL, R_RISCV_PCREL_HI20,
    R_RISCV_SUB32, R_RISCV_SUB64, Rela,
};
use ad_parts::{Group, Layout};
use ad_tables::resolve;

/// Whether the section of this number is in the movable part.
pub(crate) fn in_movable(layout: &Layout, section: u64) -> bool
    requires { AreInOrder layout.now.spots }
    ensures { result ≡ in_movable layout.now.spots section }
{
    match layout.spot(section) {
        Some(spot) => spot.movable,
        None => false,
    }
}

/// Whether the symbol of an entry is in the movable part.
pub(crate) fn moves(object: &Object, layout: &Layout, rela: &Rela) -> bool
    requires { AreInOrder layout.now.spots }
    ensures { result ≡ moves object.now layout.now rela.now }
{
    match resolve(object, layout, rela.symbol) {
        Some(symbol) => symbol.is_movable(),
        None => false,
    }
}

/// Whether an entry needs the distance from one part to the other.
#[tactic(auto, unfolding(crate::specs::Refusals::crosses))]
pub(crate) fn crosses(object: &Object, layout: &Layout, rela: &Rela) -> bool
    requires { AreInOrder layout.now.spots }
    ensures { result ≡ crosses object.now layout.now rela.now }
{
    let moves = moves(object, layout, rela);
    if in_movable(layout, rela.target) {
        is_near(rela.typ) && !moves
    } else {
        (is_near(rela.typ) || is_far(rela.typ)) && moves
    }
}

/// The types that need the distance to what is in their own part.
fn is_near(typ: u32) -> bool
    ensures { result ≡ is_near typ }
{
    matches!(
        typ,
        R_RISCV_BRANCH | R_RISCV_JAL | R_RISCV_PCREL_HI20 | R_RISCV_32_PCREL
    )
}

/// The types that may go through a table.
fn is_far(typ: u32) -> bool
    ensures { result ≡ is_far typ }
{
    matches!(typ, R_RISCV_CALL | R_RISCV_CALL_PLT | R_RISCV_GOT_HI20)
}

/// Whether the section that an entry applies to is in the local area.
pub(crate) fn in_local_area(layout: &Layout, rela: &Rela) -> bool
    requires { AreInOrder layout.now.spots }
    ensures { result ≡ in_local_area layout.now rela.now }
{
    match layout.spot(rela.target) {
        Some(spot) => match spot.group {
            Group::Local => true,
            Group::Text | Group::ReadOnly | Group::Writable => false,
        },
        None => false,
    }
}

/// Whether the second entry takes away from a field what the first adds to it.
#[tactic(auto, unfolding(crate::specs::Refusals::are_pair))]
fn are_pair(object: &Object, layout: &Layout, first: &Rela, second: &Rela) -> bool
    requires { AreInOrder layout.now.spots }
    ensures { result ≡ are_pair object.now layout.now first.now second.now }
{
    first.section == second.section
        && first.offset == second.offset
        && is_opposite(first.typ, second.typ)
        && moves(object, layout, first)
        && moves(object, layout, second)
}

/// Whether the second type takes away what the first adds.
fn is_opposite(first: u32, second: u32) -> bool
    ensures { result ≡ is_opposite first second }
{
    match first {
        R_RISCV_ADD32 => second == R_RISCV_SUB32,
        R_RISCV_ADD64 => second == R_RISCV_SUB64,
        _ => false,
    }
}

/// Whether entry `k` stands before another that takes away what it adds.
fn stands_before(object: &Object, layout: &Layout, rela: &Rela, k: usize) -> bool
    requires order { AreInOrder layout.now.spots }
    requires number { k < length object.now.relas }
    ensures { result ≡ before_one object.now layout.now rela.now k }
{
    match object.relas.as_slice().get(k + 1) {
        Some(next) => are_pair(object, layout, rela, next),
        None => false,
    }
}

/// Whether entry `k` stands behind another that adds what it takes away.
fn stands_behind(object: &Object, layout: &Layout, rela: &Rela, k: usize) -> bool
    requires { AreInOrder layout.now.spots }
    ensures { result ≡ behind_one object.now layout.now rela.now k }
{
    if k == 0 {
        return false;
    }
    match object.relas.as_slice().get(k - 1) {
        Some(last) => are_pair(object, layout, last, rela),
        None => false,
    }
}

/// Whether entry `k` leaves an address of the movable part where it stays once the part has moved.
#[tactic(auto, unfolding(crate::specs::Refusals::leaves_pointer))]
pub(crate) fn leaves_pointer(object: &Object, layout: &Layout, rela: &Rela, k: usize) -> bool
    requires order { AreInOrder layout.now.spots }
    requires number { k < length object.now.relas }
    ensures { result ≡ leaves_pointer object.now layout.now rela.now k }
{
    if !moves(object, layout, rela) {
        return false;
    }
    match rela.typ {
        R_RISCV_32 => true,
        R_RISCV_64 => !in_local_area(layout, rela),
        R_RISCV_ADD32 | R_RISCV_ADD64 => !stands_before(object, layout, rela, k),
        R_RISCV_SUB32 | R_RISCV_SUB64 => !stands_behind(object, layout, rela, k),
        _ => false,
    }
}

/// Whether a value is out of the range of a type.
#[tactic(auto, unfolding(crate::specs::Refusals::is_out_of_range))]
pub(crate) fn is_out_of_range(typ: u32, value: i128) -> bool
    ensures { result ≡ is_out_of_range typ value }
{
    match row_of(typ) {
        Some(row) => match row.range {
            Some((from, to)) => value < from || to <= value,
            None => false,
        },
        None => false,
    }
}
