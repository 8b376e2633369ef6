//! Why an object has no tables.

ghost use Rattle.std.specs.Prelude.{◌≡◌};
ghost use Rattle.ad_tables.specs.declared.refusal.TableRefusal.TheVariants.{OutOfMemory as MemoryWanted};

use ad_base::{Name, OutOfMemory};

/// Why an object has no tables. The number of a refusal is its place in this list, counted from 1.
#[derive(Debug, Drop)]
pub enum TableRefusal {
    /// The local area has more words than it may have.
    LocalFull,
    /// The fixed table has more words than it may have.
    FixedFull,
    /// The symbol of this name is unresolved.
    Unresolved(Name),
    /// There was no memory for the tables.
    OutOfMemory,
}

impl From<OutOfMemory> for TableRefusal {
    ghost from_gives = { λ _ r. r ≡ MemoryWanted };

    fn from(_error: OutOfMemory) -> TableRefusal {
        TableRefusal::OutOfMemory
    }
}
