//! Where a symbol is.

ghost use Rattle.std.specs.Prelude.{◌≡◌, ◌≢◌, ◌<◌, ◌^◌, Contains, IfSome, OnSome};
ghost use Rattle.ad_parts.specs.Symbols.{AreInOrder, home, position, spot_of, symbol_position};

use crate::layout::{Layout, Spot};
use ad_elf::{Object, SHN_UNDEF, Symbol};

/// Where a symbol is that is defined in one of the sections.
#[derive(Clone, Copy, Debug, PartialEq, Eq)]
pub struct Position {
    /// Whether its part is the movable one.
    pub movable: bool,
    /// The offset from the start of that part, in bytes.
    pub offset: u128,
}

impl Layout {
    /// Where the section of this number goes, if it is one of the object's. It is found by halving.
    pub fn spot(&self, section: u64) -> Option<Spot>
        requires { AreInOrder self.now.spots }
        ensures value { result ≡ spot_of self.now.spots section }
        ensures among { IfSome result (λ t. Contains self.now.spots t) }
    {
        spot_of(self.spots.as_slice(), section)
    }

    /// Where symbol `number` of the object is that is laid out so: in one of the two parts, or nowhere,
    /// as one that is undefined, and one that is a number. Its section is found by halving.
    pub fn position(&self, object: &Object, number: u64) -> Option<Position>
        requires { AreInOrder self.now.spots }
        ensures { result ≡ position self.now.spots object.now.symbols number }
    {
        if number == 0 {
            return None;
        }
        let symbol = object.symbols.as_slice().get(number as usize)?;
        symbol_position(self.spots.as_slice(), symbol)
    }
}

/// Where a symbol is that isn't symbol 0.
fn symbol_position(spots: &[Spot], symbol: &Symbol) -> Option<Position>
    requires { AreInOrder spots.now }
    ensures { result ≡ symbol_position spots.now symbol.now }
{
    let spot = home(spots, symbol)?;
    Some(Position {
        movable: spot.movable,
        offset: spot.offset + u128::from(symbol.value),
    })
}

/// The spot of the section that a symbol is defined in, if it is in one.
#[tactic(auto, unfolding(crate::specs::Symbols::home))]
pub(crate) fn home(spots: &[Spot], symbol: &Symbol) -> Option<Spot>
    requires { AreInOrder spots.now }
    ensures value { result ≡ home spots.now symbol.now }
    ensures defined { OnSome result (symbol.now.shndx ≢ SHN_UNDEF) }
    ensures number { IfSome result (λ t. t.section ≡ symbol.now.shndx) }
    ensures among { IfSome result (λ t. Contains spots.now t) }
    ensures begin { IfSome result (λ t. t.offset < 2 ^ 127) }
{
    if symbol.shndx == SHN_UNDEF {
        None
    } else {
        spot_of(spots, u64::from(symbol.shndx))
    }
}

/// The spot of the section of this number.
fn spot_of(spots: &[Spot], number: u64) -> Option<Spot>
    requires { AreInOrder spots.now }
    ensures number { IfSome result (λ t. t.section ≡ number) }
    ensures among { IfSome result (λ t. Contains spots.now t) }
    ensures begin { IfSome result (λ t. t.offset < 2 ^ 127) }
    ensures value { result ≡ spot_of spots.now number }
{
    match spots.binary_search_by_key(&number, |spot| spot.section) {
        Ok(k) => Some(spots[k]),
        Err(_) => None,
    }
}
