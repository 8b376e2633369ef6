//! The draws of a worker.

ghost use Rattle.std.specs.Prelude.{◌≡◌, ◌-◌, ◌<◌, length, slice_index, slice_set, IfOk};

use ad_base::OutOfMemory;
use std::alloc::Global;
use std::marker::Model;

/// How often a worker may draw: one number for each module. Contracts see the list of the numbers.
#[derive(Debug, Drop)]
pub struct Counts {
    numbers: Vec<u64>,
}

impl Model for Counts {
    ghost use Rattle.std.specs.Prelude.{List, ℕ};

    ghost Value = { List ℕ };

    ghost view = { λ c. c.numbers.items };
}

impl Counts {
    /// The list of these numbers. The one error is want of memory.
    pub fn of(alloc: Global, numbers: &[u64]) -> Result<Counts, OutOfMemory>
        ensures { IfOk result (λ counts. counts ≡ numbers.now) }
    {
        let mut copy = Vec::with_capacity(alloc, numbers.len())?;
        copy.extend_from_slice(numbers)?;
        Ok(Counts { numbers: copy })
    }

    /// An equal list.
    pub(crate) fn copy(&self, alloc: Global) -> Result<Counts, OutOfMemory>
        ensures { IfOk result (λ counts. counts ≡ self.now) }
    {
        Counts::of(alloc, self.numbers.as_slice())
    }

    /// The number of a module.
    pub(crate) fn get(&self, module: u64) -> u64
        requires { «module» < length self.now }
        ensures { result ≡ slice_index self.now «module» }
    {
        self.numbers[module as usize]
    }

    /// Lowers the number of a module by one.
    pub(crate) fn lower(&mut self, module: u64)
        requires { 0 < slice_index self.old «module» }
        ensures { self.new ≡ slice_set self.old «module» (slice_index self.old «module» - 1) }
    {
        self.numbers[module as usize] -= 1;
    }
}
