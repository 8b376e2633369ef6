//! What entries are looked at with, and the values that they compute.

ghost use Rattle.std.specs.Prelude.{◌≡◌, ◌+◌, ◌^◌, ◌<◌, ◌<ℤ◌, neg_ℤ, pos};
ghost use Rattle.ad_tables.specs.Tables.{need_of};
ghost use Rattle.ad_reloc.specs.Addresses.{field_address, field_offset, own_value, symbol_address, word_address};
ghost use Rattle.ad_reloc.specs.Private.Linking.{CanLink, tables_of};

use crate::addresses::{address_of, computed, local_from, part_base, stubs_from, table_from};
use crate::checks::in_movable;
use crate::highs::Highs;
use crate::index::Index;
use crate::row::row_of;
use crate::words::STUB_BYTES;
use ad_base::{Place, WORD_BYTES};
use ad_elf::{Object, Rela};
use ad_parts::Layout;
use ad_tables::{Need, is_call, needed, resolve};

/// What entries are looked at with.
#[derive(Drop)]
pub(crate) struct Linking<'a> {
    pub object: &'a Object,
    pub layout: &'a Layout,
    pub local: Index<'a>,
    pub table: Index<'a>,
    pub highs: Highs<'a>,
    /// Where the immovable part lies.
    pub fixed: Place,
}

impl<'a> Linking<'a> {
    /// The value of an entry by itself, but for the number that its field has.
    #[tactic(auto, unfolding(crate::specs::Addresses::own_value))]
    pub(crate) fn own_value(&self, rela: &Rela) -> i128
        requires { CanLink self.now }
        ensures value { result ≡ own_value self.now.object.now self.now.layout.now (tables_of self.now) self.now.fixed rela.now }
        ensures from { neg_ℤ (pos (2 ^ 70)) <ℤ result }
        ensures to { result <ℤ pos (2 ^ 70) }
    {
        match row_of(rela.typ) {
            None => 0,
            Some(row) => computed(
                row.formula,
                self.symbol_address(rela),
                self.word_address(rela),
                self.field_address(rela),
                rela.addend,
            ),
        }
    }

    /// Whose word an entry needs.
    #[tactic(auto, unfolding(ad_tables::specs::Tables::need_of))]
    fn need_of(&self, rela: &Rela) -> Need
        requires { CanLink self.now }
        ensures { result ≡ need_of self.now.object.now self.now.layout.now rela.now }
    {
        match resolve(self.object, self.layout, rela.symbol) {
            None => Need::Nothing,
            Some(symbol) => needed(in_movable(self.layout, rela.target), rela.typ, symbol),
        }
    }

    /// The address of an entry's symbol, or that of its stub for a call that needs one.
    #[tactic(auto, unfolding(crate::specs::Addresses::symbol_address))]
    fn symbol_address(&self, rela: &Rela) -> u128
        requires { CanLink self.now }
        ensures value { result ≡ symbol_address self.now.object.now self.now.layout.now (tables_of self.now) self.now.fixed rela.now }
        ensures small { result < 2 ^ 65 }
    {
        if is_call(rela.typ) && self.need_of(rela) == Need::Fixed {
            let movable = in_movable(self.layout, rela.target);
            let entry = self.table.place(rela.symbol).unwrap_or(0);
            let stub = stubs_from(self.layout.sizes, movable);
            return u128::from(part_base(self.fixed, movable) + stub)
                + u128::from(STUB_BYTES) * u128::from(entry);
        }
        match resolve(self.object, self.layout, rela.symbol) {
            None => 0,
            Some(symbol) => address_of(self.fixed, symbol),
        }
    }

    /// The address of the word that has the address of an entry's symbol.
    #[tactic(auto, unfolding(crate::specs::Addresses::word_address))]
    fn word_address(&self, rela: &Rela) -> u128
        requires { CanLink self.now }
        ensures value { result ≡ word_address self.now.object.now self.now.layout.now (tables_of self.now) self.now.fixed rela.now }
        ensures small { result < 2 ^ 65 }
    {
        if self.need_of(rela) == Need::Local {
            let entry = self.local.place(rela.symbol).unwrap_or(0);
            return u128::from(local_from(self.layout.sizes))
                + u128::from(WORD_BYTES) * u128::from(entry);
        }
        let movable = in_movable(self.layout, rela.target);
        let entry = self.table.place(rela.symbol).unwrap_or(0);
        let table = table_from(self.layout.sizes, movable);
        u128::from(part_base(self.fixed, movable) + table)
            + u128::from(WORD_BYTES) * u128::from(entry)
    }

    /// The address of an entry's field.
    #[tactic(auto, unfolding(crate::specs::Addresses::field_address))]
    fn field_address(&self, rela: &Rela) -> u128
        requires { CanLink self.now }
        ensures value { result ≡ field_address self.now.layout.now self.now.fixed rela.now }
        ensures small { result < 2 ^ 65 }
    {
        let base = part_base(self.fixed, in_movable(self.layout, rela.target));
        u128::from(base) + self.field_offset(rela)
    }

    /// Where the field of an entry is in its part.
    #[tactic(auto, unfolding(crate::specs::Addresses::field_offset))]
    pub(crate) fn field_offset(&self, rela: &Rela) -> u128
        requires { CanLink self.now }
        ensures value { result ≡ field_offset self.now.layout.now rela.now }
        ensures small { result < 2 ^ 64 + 2 ^ 63 }
    {
        match self.layout.spot(rela.target) {
            None => 0,
            Some(spot) => spot.offset + u128::from(rela.offset),
        }
    }
}
