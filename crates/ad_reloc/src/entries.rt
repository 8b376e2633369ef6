//! Why entries are refused.

ghost use Rattle.std.specs.Prelude.{◌≡◌, ◌<◌, None, Some, IfErr, OnOk, int_lt, length, neg_ℤ, pos, ◌<ℤ◌};
ghost use Rattle.ad_reloc.specs.Private.Linking.{CanLink, tables_of};
ghost use Rattle.ad_reloc.specs.Refusals.{entry_row, is_even, is_misaligned, low_row, plain_row, row_of, value_row};

use crate::checks::{crosses, is_out_of_range, leaves_pointer, moves};
use crate::linking::Linking;
use crate::refusal::RelocRefusal;
use crate::row::row_of;
use ad_base::WORD_BYTES;
use ad_elf::{R_RISCV_64, R_RISCV_BRANCH, R_RISCV_JAL, Rela};
use ad_tables::is_low;

impl<'a> Linking<'a> {
    /// Whether an entry is refused that stands at place `k`.
    #[tactic(auto, unfolding(crate::specs::Refusals::row_of))]
    pub(crate) fn check(&self, rela: &Rela, k: usize) -> Result<(), RelocRefusal>
        requires link { CanLink self.now }
        requires number { k < length self.now.object.now.relas }
        ensures fine { OnOk result (row_of self.now.object.now self.now.layout.now (tables_of self.now) self.now.fixed rela.now k ≡ None) }
        ensures refused { IfErr result (λ r. row_of self.now.object.now self.now.layout.now (tables_of self.now) self.now.fixed rela.now k ≡ Some r) }
    {
        if row_of(rela.typ).is_none() {
            Err(RelocRefusal::Unlisted(u64::from(rela.typ)))
        } else if is_low(rela.typ) {
            self.check_low(rela)
        } else {
            self.check_plain(rela, k)
        }
    }

    /// Whether a low entry is refused: it has no high entry, or that has no value.
    fn check_low(&self, rela: &Rela) -> Result<(), RelocRefusal>
        requires { CanLink self.now }
        ensures fine { OnOk result (low_row self.now.object.now self.now.layout.now (tables_of self.now) self.now.fixed rela.now ≡ None) }
        ensures refused { IfErr result (λ r. low_row self.now.object.now self.now.layout.now (tables_of self.now) self.now.fixed rela.now ≡ Some r) }
    {
        match self.highs.of_low(self.object, rela) {
            None => Err(RelocRefusal::NoHi(rela.section, rela.entry)),
            Some(high) => self.check_value(rela, &high),
        }
    }

    /// Whether the value of an entry can be had, for the entry that asks for it.
    #[tactic(auto, unfolding(crate::specs::Refusals::value_row))]
    fn check_value(&self, asks: &Rela, rela: &Rela) -> Result<(), RelocRefusal>
        requires { CanLink self.now }
        ensures fine { OnOk result (value_row self.now.object.now self.now.layout.now (tables_of self.now) self.now.fixed asks.now rela.now ≡ None) }
        ensures refused { IfErr result (λ r. value_row self.now.object.now self.now.layout.now (tables_of self.now) self.now.fixed asks.now rela.now ≡ Some r) }
    {
        if crosses(self.object, self.layout, rela) {
            return Err(RelocRefusal::CrossPart(asks.section, asks.entry));
        }
        let value = self.own_value(rela);
        if is_out_of_range(rela.typ, value) {
            return Err(RelocRefusal::Range(asks.section, asks.entry, value));
        }
        Ok(())
    }

    /// Whether an entry is refused that is no low one.
    #[tactic(auto, unfolding(crate::specs::Refusals::plain_row))]
    fn check_plain(&self, rela: &Rela, k: usize) -> Result<(), RelocRefusal>
        requires link { CanLink self.now }
        requires number { k < length self.now.object.now.relas }
        ensures fine { OnOk result (plain_row self.now.object.now self.now.layout.now (tables_of self.now) self.now.fixed rela.now k ≡ None) }
        ensures refused { IfErr result (λ r. plain_row self.now.object.now self.now.layout.now (tables_of self.now) self.now.fixed rela.now k ≡ Some r) }
    {
        let (section, entry) = (rela.section, rela.entry);
        if crosses(self.object, self.layout, rela) {
            return Err(RelocRefusal::CrossPart(section, entry));
        }
        if leaves_pointer(self.object, self.layout, rela, k) {
            return Err(RelocRefusal::MovablePointer(section, entry));
        }
        let value = self.own_value(rela);
        if is_out_of_range(rela.typ, value) {
            return Err(RelocRefusal::Range(section, entry, value));
        }
        if self.is_misaligned(rela, value) {
            return Err(RelocRefusal::Misaligned(section, entry));
        }
        Ok(())
    }

    /// Whether an entry's value is odd where it is a branch's, or its field no word of the local area where it points there.
    #[tactic(auto, unfolding(crate::specs::Refusals::is_misaligned))]
    fn is_misaligned(&self, rela: &Rela, value: i128) -> bool
        requires { CanLink self.now }
        ensures { result ≡ is_misaligned self.now.object.now self.now.layout.now rela.now value }
    {
        match rela.typ {
            R_RISCV_BRANCH | R_RISCV_JAL => !is_even(value),
            R_RISCV_64 => {
                moves(self.object, self.layout, rela)
                    && self.field_offset(rela) % u128::from(WORD_BYTES) != 0
            }
            _ => false,
        }
    }
}

/// Tests for even numbers.
fn is_even(value: i128) -> bool
    ensures { result ≡ is_even value }
{
    value.unsigned_abs() % 2 == 0
}
