//! Want of memory, the one answer of a call that has no cause in its contract.

ghost use Rattle.std.specs.Prelude.{◌≡◌, vec_len, All, IfOk};

use std::alloc::{AllocError, AllocFailed, Global};
use std::error::Error;
use std::fmt;

/// There was no memory for what a call had to keep.
#[derive(Clone, Copy, Debug, PartialEq, Eq)]
pub struct OutOfMemory;

impl fmt::Display for OutOfMemory {
    ghost use Rattle.std.specs.Prelude.{Some, codes};

    ghost output = { λ _. Some (codes "out of memory") };

    fn fmt<W: fmt::Write>(&self, f: &mut fmt::Formatter<W>) -> fmt::Result {
        write!(f, "out of memory")
    }
}

impl Error for OutOfMemory {}

impl From<AllocError> for OutOfMemory {
    fn from(_error: AllocError) -> OutOfMemory {
        OutOfMemory
    }
}

impl<T: Drop> From<AllocFailed<T>> for OutOfMemory {
    fn from(_error: AllocFailed<T>) -> OutOfMemory {
        OutOfMemory
    }
}

/// So many words that are 0. The one error is want of memory.
pub fn zero_words(alloc: Global, count: usize) -> Result<Vec<u64>, OutOfMemory>
    ensures len { IfOk result (λ words. vec_len words ≡ count) }
    ensures zero { IfOk result (λ words. All (λ word. word ≡ 0) words.items) }
{
    Ok(vec![in alloc; 0; count]?)
}
