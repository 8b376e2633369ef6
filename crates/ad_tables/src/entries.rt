//! The symbols that a table has a word for.

ghost use Rattle.std.specs.Prelude.{◌≡◌, [], length, OnOk};
ghost use Rattle.ad_tables.specs.Private.Entries.{with_symbol};

use ad_base::{OutOfMemory, Sequence};
use std::alloc::Global;
use std::collections::BTreeSet;
use std::marker::Model;

/// Symbols in order of first use, each once, with an index.
#[derive(Drop)]
pub(crate) struct Entries {
    symbols: Vec<u64>,
    members: BTreeSet<u64>,
}

impl Model for Entries {
    ghost use Rattle.std.specs.Prelude.{List, ℕ};
    ghost use Rattle.ad_tables.specs.Private.Entries.{HasSymbols};

    ghost Value = { List ℕ };

    ghost view = { λ e. e.symbols.items };

    ghost invariant = { λ e. HasSymbols e.symbols.items e.members };
}

impl Entries {
    /// None.
    pub(crate) fn new(alloc: Global) -> Entries
        ensures { result ≡ [] }
    {
        Entries {
            symbols: Vec::new(alloc),
            members: BTreeSet::new(alloc),
        }
    }

    /// Puts a symbol at the end, if it isn't there yet.
    pub(crate) fn add(&mut self, symbol: u64) -> Result<(), OutOfMemory>
        ensures { OnOk result (self.new ≡ with_symbol self.old symbol) }
    {
        self.symbols.reserve(1)?;
        if self.members.insert(symbol)? {
            self.symbols.push_reserved(symbol);
        }
        Ok(())
    }

    /// How many there are.
    pub(crate) fn len(&self) -> u64
        ensures { result ≡ length self.now }
    {
        self.symbols.len() as u64
    }

    /// The symbols.
    pub(crate) fn into_symbols(self) -> Sequence<u64>
        ensures { result ≡ self }
    {
        Sequence::of(self.symbols)
    }
}
