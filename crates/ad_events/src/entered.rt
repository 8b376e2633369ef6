//! The workers of a world that have entered and haven't read.
ghost use Rattle.std.specs.Prelude.{◌≡◌, OnOk, OnErr};
ghost use Rattle.std.specs.FinSet as set;

use ad_base::OutOfMemory;
use std::alloc::Global;
use std::collections::BTreeSet;
use std::marker::Model;

/// A set of workers.
#[derive(Drop)]
pub(crate) struct Entered {
    workers: BTreeSet<u64>,
}

impl Model for Entered {
    ghost use Rattle.std.specs.Ordering.{nat_cmp};
    ghost use Rattle.std.specs.FinSet as set;
    ghost use Rattle.std.specs.Coded.{coded_ℕ};

    ghost Value = { set.FinSet nat_cmp };

    ghost coded = { set.code coded_ℕ };

    ghost view = { λ a. set.from_list a.workers.keys };
}

impl Entered {
    pub(crate) fn new(alloc: Global) -> Entered
        ensures { result ≡ set.empty }
    {
        Entered {
            workers: BTreeSet::new(alloc),
        }
    }

    pub(crate) fn contains(&self, worker: u64) -> bool
        ensures { result ≡ set.contains self.now worker }
    {
        self.workers.contains(&worker)
    }

    pub(crate) fn insert(&mut self, worker: u64) -> Result<(), OutOfMemory>
        ensures ok { OnOk result (self.new ≡ set.insert self.old worker) }
        ensures err { OnErr result (self.new ≡ self.old) }
    {
        let _ = self.workers.insert(worker)?;
        Ok(())
    }

    pub(crate) fn remove(&mut self, worker: u64)
        ensures { self.new ≡ set.remove self.old worker }
    {
        let _ = self.workers.remove(&worker);
    }
}
