//! Entries that are applied to the bytes of the parts.

ghost use Rattle.std.specs.Prelude.{◌≡◌, ◌+◌, ◌^◌, ◌≤◌, ◌<ℤ◌, None, length, neg_ℤ, pos};
ghost use Rattle.ad_elf.specs.Relocation.{width};
ghost use Rattle.ad_tables.specs.Tables.{in_movable};
ghost use Rattle.ad_reloc.specs.Addresses.{field_offset};
ghost use Rattle.ad_reloc.specs.Image.{Applies, AppliesIn, AreApplied, makes_word};
ghost use Rattle.ad_reloc.specs.Private.Linking.{CanLink, tables_of};
ghost use Rattle.ad_reloc.specs.Private.Parts.{FieldsFit, HasField, IsFine, lists_of};
ghost use Rattle.ad_reloc.specs.Refusals.{first_row, value_of};

use crate::checks::{in_local_area, in_movable, moves};
use crate::linking::Linking;
use crate::part::set_field;
use crate::parts::Parts;
use crate::row::row_of;
use ad_elf::{R_RISCV_64, Rela};
use ad_tables::is_low;

impl<'a> Linking<'a> {
    /// Applies the entries in their order.
    pub(crate) fn apply_all(&self, parts: &mut Parts)
        requires link { CanLink self.now }
        requires fine { first_row self.now.object.now self.now.layout.now (tables_of self.now) self.now.fixed ≡ None }
        requires fields { FieldsFit self.now.object.now self.now.layout.now (lists_of parts.old) }
        ensures applied { AreApplied self.now.object.now self.now.layout.now (tables_of self.now) self.now.fixed self.now.object.now.relas (lists_of parts.old) (lists_of parts.new) }
        ensures movable { length parts.new.movable.items ≡ length parts.old.movable.items }
        ensures fixed { length parts.new.fixed.items ≡ length parts.old.fixed.items }
    {
        let relas = self.object.relas.as_slice();
        for k in 0..relas.len() {
            self.apply(&relas[k], parts);
        }
    }

    /// Applies an entry.
    fn apply(&self, rela: &Rela, parts: &mut Parts)
        requires link { CanLink self.now }
        requires fine { IsFine self.now.object.now self.now.layout.now (tables_of self.now) self.now.fixed rela.now }
        requires field { HasField self.now.layout.now (lists_of parts.old) rela.now }
        ensures applied { Applies self.now.object.now self.now.layout.now (tables_of self.now) self.now.fixed rela.now (lists_of parts.old) (lists_of parts.new) }
        ensures movable { length parts.new.movable.items ≡ length parts.old.movable.items }
        ensures fixed { length parts.new.fixed.items ≡ length parts.old.fixed.items }
    {
        if in_movable(self.layout, rela.target) {
            self.apply_in(rela, &mut parts.movable);
        } else {
            self.apply_in(rela, &mut parts.fixed);
        }
    }

    /// Applies an entry to the bytes of its part.
    fn apply_in(&self, rela: &Rela, part: &mut [u8])
        requires link { CanLink self.now }
        requires fine { IsFine self.now.object.now self.now.layout.now (tables_of self.now) self.now.fixed rela.now }
        requires field { field_offset self.now.layout.now rela.now + width rela.now.typ ≤ length part.old }
        ensures applied { AppliesIn self.now.object.now self.now.layout.now (tables_of self.now) self.now.fixed rela.now part.old part.new }
        ensures whole { length part.new ≡ length part.old }
    {
        if self.makes_word(rela) {
            return;
        }
        if let Some(row) = row_of(rela.typ) {
            let at = self.field_offset(rela) as u64;
            set_field(part, at, row, self.value_of(rela));
        }
    }

    /// Whether an entry points from the local area to the movable part.
    pub(crate) fn makes_word(&self, rela: &Rela) -> bool
        requires { CanLink self.now }
        ensures { result ≡ makes_word self.now.object.now self.now.layout.now rela.now }
    {
        rela.typ == R_RISCV_64
            && moves(self.object, self.layout, rela)
            && in_local_area(self.layout, rela)
    }

    /// The value of an entry, which for a low entry is that of its high entry.
    #[tactic(auto, unfolding(crate::specs::Refusals::value_of))]
    fn value_of(&self, rela: &Rela) -> i128
        requires { CanLink self.now }
        ensures value { result ≡ value_of self.now.object.now self.now.layout.now (tables_of self.now) self.now.fixed rela.now }
        ensures from { neg_ℤ (pos (2 ^ 70)) <ℤ result }
        ensures to { result <ℤ pos (2 ^ 70) }
    {
        if !is_low(rela.typ) {
            return self.own_value(rela);
        }
        match self.highs.of_low(self.object, rela) {
            None => 0,
            Some(high) => self.own_value(&high),
        }
    }
}
