//! The entries that others take their values from.

ghost use Rattle.std.specs.Prelude.{◌≡◌, IfOk, length};
ghost use Rattle.ad_reloc.specs.Highs.{high_at, high_of, is_high};
ghost use Rattle.ad_reloc.specs.Private.HighPlaces.{ArePlaces};

use ad_base::OutOfMemory;
use ad_elf::{Object, R_RISCV_GOT_HI20, R_RISCV_PCREL_HI20, Rela, SHN_UNDEF};
use std::alloc::Global;
use std::collections::BTreeMap;
use std::marker::Model;

/// Entries, with an index of those whose fields have high halves.
#[derive(Drop)]
pub(crate) struct Highs<'a> {
    relas: &'a [Rela],
    /// The first of them at each offset of a section.
    places: BTreeMap<(u64, u64), u64>,
}

impl<'a> Model for Highs<'a> {
    ghost use Rattle.std.specs.Prelude.{List, length};
    ghost use Rattle.ad_elf.specs.declared.object.Rela.{Rela};
    ghost use Rattle.ad_reloc.specs.Private.HighPlaces.{ArePlaces};

    ghost Value = { List Rela };

    ghost view = { λ h. h.relas.now };

    ghost invariant = { λ h. ArePlaces (length h.relas.now) h.relas.now h.places };
}

impl<'a> Highs<'a> {
    /// The index of entries.
    pub(crate) fn of(alloc: Global, relas: &'a [Rela]) -> Result<Highs<'a>, OutOfMemory>
        ensures { IfOk result (λ h. h ≡ relas.now) }
    {
        Ok(Highs {
            relas,
            places: places_of(alloc, relas)?,
        })
    }

    /// The entry of an object that a low entry takes its value from.
    #[tactic(auto, unfolding(crate::specs::Highs::high_of))]
    pub(crate) fn of_low(&self, object: &Object, low: &Rela) -> Option<Rela>
        requires { self.now ≡ object.now.relas }
        ensures { result ≡ high_of object.now low.now }
    {
        if low.symbol == 0 {
            return None;
        }
        let symbol = object.symbols.as_slice().get(low.symbol as usize)?;
        if u64::from(symbol.shndx) == low.target && symbol.shndx != SHN_UNDEF {
            self.at(low.target, symbol.value)
        } else {
            None
        }
    }

    /// The first entry with a high half at an offset of a section.
    fn at(&self, target: u64, offset: u64) -> Option<Rela>
        ensures { result ≡ high_at self.now target offset }
    {
        let place = self.places.get(&(target, offset))?;
        self.relas.get(*place as usize).copied()
    }
}

/// Tests for the types whose fields have high halves.
fn is_high(typ: u32) -> bool
    ensures { result ≡ is_high typ }
{
    typ == R_RISCV_PCREL_HI20 || typ == R_RISCV_GOT_HI20
}

/// Where the first entry with a high half is, for each offset of a section.
fn places_of(alloc: Global, relas: &[Rela]) -> Result<BTreeMap<(u64, u64), u64>, OutOfMemory>
    ensures { IfOk result (λ m. ArePlaces (length relas.now) relas.now m) }
{
    let mut places = BTreeMap::new(alloc);
    for k in 0..relas.len() {
        let rela = relas[k];
        let place = (rela.target, rela.offset);
        if is_high(rela.typ) && !places.contains_key(&place) {
            places.insert(place, k as u64)?;
        }
    }
    Ok(places)
}
