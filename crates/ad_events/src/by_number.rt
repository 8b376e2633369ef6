//! A finite map from numbers to values.
ghost use Rattle.std.specs.Prelude.{◌≡◌, IsSome, OnOk, OnErr};
ghost use Rattle.std.specs.FinMap as map;

use ad_base::OutOfMemory;
use std::alloc::Global;
use std::collections::BTreeMap;
use std::marker::Model;

/// A value at each of some numbers.
#[derive(Drop)]
pub(crate) struct ByNumber<V> {
    entries: BTreeMap<u64, V>,
}

impl<V> Model for ByNumber<V> {
    ghost use Rattle.std.specs.Ordering.{nat_cmp};
    ghost use Rattle.std.specs.FinMap as map;
    ghost use Rattle.std.specs.Coded.{coded_ℕ};

    ghost Value = { map.FinMap nat_cmp V };

    ghost coded = { map.code coded_ℕ V.code };

    ghost view = { λ a. map.from_entries a.entries.entries };
}

impl<V: Copy> ByNumber<V> {
    pub(crate) fn new(alloc: Global) -> Self
        ensures { result ≡ map.empty }
    {
        Self {
            entries: BTreeMap::new(alloc),
        }
    }

    /// The value at the number.
    pub(crate) fn get(&self, number: u64) -> Option<V>
        ensures { result ≡ map.get self.now number }
    {
        self.entries.get(&number).copied()
    }

    /// Puts the value at the number.
    pub(crate) fn insert(&mut self, number: u64, value: V) -> Result<(), OutOfMemory>
        ensures ok { OnOk result (self.new ≡ map.insert self.old number value) }
        ensures err { OnErr result (self.new ≡ self.old) }
    {
        let _ = self.entries.insert(number, value)?;
        Ok(())
    }

    /// Changes the value at the number, which takes no memory.
    pub(crate) fn set(&mut self, number: u64, value: V)
        requires { IsSome (map.get self.old number) }
        ensures { self.new ≡ map.insert self.old number value }
    {
        if let Some(old) = self.entries.get_mut(&number) {
            *old = value;
        }
    }
}
