//! Why an object has no image.

ghost use Rattle.std.specs.Prelude.{◌≡◌};
ghost use Rattle.ad_reloc.specs.declared.refusal.RelocRefusal.TheVariants.{OutOfMemory as MemoryWanted};

use ad_base::OutOfMemory;

/// Why an object has no image. The number of a refusal is its place in this list, counted from 1. All but the first say
/// the number of the section that the entry stands in, and the entry's number there, counted from 0.
#[derive(Clone, Copy, Debug, PartialEq, Eq)]
pub enum RelocRefusal {
    /// The type of this number isn't taken.
    Unlisted(u64),
    /// This value is out of the range of the entry's type.
    Range(u64, u64, i128),
    /// No entry has the high half for this one's low half.
    NoHi(u64, u64),
    /// The entry would leave an address of the movable part where it stays once the part has moved.
    MovablePointer(u64, u64),
    /// The entry needs the distance from one part to the other.
    CrossPart(u64, u64),
    /// The value is odd, or the field is no word of the local area.
    Misaligned(u64, u64),
    /// There was no memory for the image.
    OutOfMemory,
}

impl From<OutOfMemory> for RelocRefusal {
    ghost from_gives = { λ _ r. r ≡ MemoryWanted };

    fn from(_error: OutOfMemory) -> RelocRefusal {
        RelocRefusal::OutOfMemory
    }
}
