//! Which worker is inside which mapping.
ghost use Rattle.std.specs.Prelude.{◌≡◌, ◌≢◌, ◌↔◌, ℕ, IsTrue, Some, None, OnOk, OnErr};
ghost use Rattle.std.specs.FinMap as map;

use crate::by_number::ByNumber;
use ad_base::OutOfMemory;
use std::alloc::Global;
use std::collections::BTreeMap;
use std::marker::Model;

/// The mapping that each worker is inside, with the number of workers inside each mapping.
#[derive(Drop)]
pub(crate) struct Inside {
    pairs: BTreeMap<u64, u64>,
    counts: ByNumber<u64>,
}

impl Model for Inside {
    ghost use Rattle.std.specs.Prelude.{ℕ};
    ghost use Rattle.std.specs.Ordering.{nat_cmp};
    ghost use Rattle.std.specs.FinMap as map;
    ghost use Rattle.std.specs.Coded.{coded_ℕ};
    ghost use Rattle.ad_events.specs.Inside.{IsCounted};

    ghost Value = { map.FinMap nat_cmp ℕ };

    ghost coded = { map.code coded_ℕ coded_ℕ };

    ghost view = { λ a. map.from_entries a.pairs.entries };

    ghost invariant = { λ a. IsCounted a.counts a.pairs.entries };
}

impl Inside {
    pub(crate) fn new(alloc: Global) -> Inside
        ensures { result ≡ map.empty }
    {
        Inside {
            pairs: BTreeMap::new(alloc),
            counts: ByNumber::new(alloc),
        }
    }

    /// The mapping that the worker is inside.
    pub(crate) fn get(&self, worker: u64) -> Option<u64>
        ensures { result ≡ map.get self.now worker }
    {
        self.pairs.get(&worker).copied()
    }

    /// Whether no worker is inside the mapping.
    pub(crate) fn is_free(&self, mapping: u64) -> bool
        ensures { IsTrue result ↔ ((worker : ℕ) → map.get self.now worker ≢ Some mapping) }
    {
        match self.counts.get(mapping) {
            Some(count) => count == 0,
            None => true,
        }
    }

    /// Puts the worker inside the mapping.
    pub(crate) fn put(&mut self, worker: u64, mapping: u64) -> Result<(), OutOfMemory>
        requires { map.get self.old worker ≡ None }
        ensures ok { OnOk result (self.new ≡ map.insert self.old worker mapping) }
        ensures err { OnErr result (self.new ≡ self.old) }
    {
        let count = self.counts.get(mapping).unwrap_or(0);
        // Both maps have room before the count changes.
        self.counts.insert(mapping, count)?;
        self.pairs.insert(worker, mapping)?;
        // The count is at most the map's length. This call tells the prover that the length is below 2^63.
        let _ = self.pairs.len();
        self.counts.set(mapping, count + 1);
        Ok(())
    }

    /// Takes the worker's pair away.
    pub(crate) fn remove(&mut self, worker: u64)
        ensures { self.new ≡ map.remove self.old worker }
    {
        if let Some(mapping) = self.pairs.remove(&worker) {
            let count = self.counts.get(mapping).unwrap_or(0);
            self.counts.set(mapping, count - 1);
        }
    }
}
