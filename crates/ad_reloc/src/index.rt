//! Indexes of lists of symbols.

ghost use Rattle.std.specs.Prelude.{◌≡◌, ◌^◌, ◌<◌, IfOk, IfSome, length};
ghost use Rattle.ad_reloc.specs.Addresses.{place_in};
ghost use Rattle.ad_reloc.specs.Private.Indexed.{IsIndexed};

use ad_base::OutOfMemory;
use std::alloc::Global;
use std::collections::BTreeMap;
use std::marker::Model;

/// A list of symbols with an index.
#[derive(Drop)]
pub(crate) struct Index<'a> {
    symbols: &'a [u64],
    places: BTreeMap<u64, u64>,
}

impl<'a> Model for Index<'a> {
    ghost use Rattle.std.specs.Prelude.{List, ℕ, length};
    ghost use Rattle.ad_reloc.specs.Private.Indexed.{IsIndexed};

    ghost Value = { List ℕ };

    ghost view = { λ i. i.symbols.now };

    ghost invariant = { λ i. IsIndexed (length i.symbols.now) i.symbols.now i.places };
}

impl<'a> Index<'a> {
    /// The index of a list.
    pub(crate) fn of(alloc: Global, symbols: &'a [u64]) -> Result<Index<'a>, OutOfMemory>
        ensures { IfOk result (λ i. i ≡ symbols.now) }
    {
        Ok(Index {
            symbols,
            places: places_of(alloc, symbols)?,
        })
    }

    /// The list.
    pub(crate) fn symbols(&self) -> &[u64]
        ensures { result.now ≡ self.now }
    {
        self.symbols
    }

    /// Where a symbol is in the list first, if it is there.
    pub(crate) fn place(&self, symbol: u64) -> Option<u64>
        ensures value { result ≡ place_in self.now symbol }
        ensures small { IfSome result (λ e. e < 2 ^ 60) }
    {
        self.places.get(&symbol).copied()
    }
}

/// Where each symbol of a list is first.
fn places_of(alloc: Global, symbols: &[u64]) -> Result<BTreeMap<u64, u64>, OutOfMemory>
    ensures { IfOk result (λ m. IsIndexed (length symbols.now) symbols.now m) }
{
    let mut places = BTreeMap::new(alloc);
    for k in 0..symbols.len() {
        let symbol = symbols[k];
        if !places.contains_key(&symbol) {
            places.insert(symbol, k as u64)?;
        }
    }
    Ok(places)
}
