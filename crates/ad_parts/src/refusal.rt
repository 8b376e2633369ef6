//! Why an object has no layout.

ghost use Rattle.std.specs.Prelude.{◌≡◌};
ghost use Rattle.ad_parts.specs.declared.refusal.PartRefusal.TheVariants.{OutOfMemory as MemoryWanted};

use ad_base::{Name, OutOfMemory};

/// Why an object has no layout, in the order in which it is looked at. The number of a refusal is its
/// place in this list, counted from 1.
#[derive(Debug, Drop)]
pub enum PartRefusal {
    /// The section of this number has an alignment that is no power of two up to 4,096.
    Alignment(u64),
    /// A part has so many pages, which is more than a part may have.
    TooManyPages(u64),
    /// No symbol is an export.
    NoExport,
    /// Two exports have this name. It is the first name that an earlier export has too.
    Duplicate(Name),
    /// There was no memory for the layout.
    OutOfMemory,
}

impl From<OutOfMemory> for PartRefusal {
    ghost from_gives = { λ _ r. r ≡ MemoryWanted };

    fn from(_error: OutOfMemory) -> PartRefusal {
        PartRefusal::OutOfMemory
    }
}
