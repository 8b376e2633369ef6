//! Files that are read by name.

ghost use Rattle.std.specs.Prelude.{◌≡◌, ◌≢◌, ◌≤◌, ◌<◌, ◌++◌, length, List, ℕ, Some, Err, OnOk, IfSome};
ghost use Rattle.ad_base.specs.Count.{Rose};
ghost use Rattle.ad_base.specs.Outside.{Outside, Tells, asked_after};

use crate::layout::FILE_BYTES;
use std::alloc::Global;

/// Why a file wasn't read.
#[derive(Clone, Copy, Debug, PartialEq, Eq)]
pub enum Fetch {
    /// The outside failed, or has no such file.
    Failed,
    /// The file has more bytes than may be read.
    TooLarge,
    /// There was no memory for it.
    OutOfMemory,
}

/// Files that are read whole, by name.
pub trait Files {
    /// What is told of the files: the bytes of each name, the names asked for so far, and how many faults
    /// there were.
    ghost outside: { Self → Outside };

    /// Appends the whole file of this name. Nothing is said of `into` after an error.
    fn fetch(&mut self, alloc: Global, name: &str, into: &mut Vec<u8>) -> Result<(), Fetch>
        ensures whole { OnOk result ((file : List ℕ) × Tells ((outside self.old).told name.now) file
            × (length file ≤ FILE_BYTES) × (into.new.items ≡ into.old.items ++ file)) }
        ensures too_large { result ≡ Err Fetch.TooLarge
            → IfSome ((outside self.old).told name.now) (λ file. FILE_BYTES < length file) }
        ensures failed { result ≡ Err Fetch.Failed
            → Rose (outside self.old).faults (outside self.new).faults }
        ensures no_fault { result ≢ Err Fetch.Failed
            → (outside self.new).faults ≡ (outside self.old).faults }
        ensures asked { IfSome (outside self.old).asked
            (λ names. (outside self.new).asked ≡ Some (asked_after result names name.now)) }
        ensures same { (outside self.new).told ≡ (outside self.old).told };
}
