//! How many words the table has.

/// Lanes at most, one for each worker.
pub const LANES: usize = 64;

/// Mappings are numbered below this.
pub const NUMBERS: usize = 4096;

/// Words of the table: one for each lane, then the record of each mapping, then the mark of each.
pub(crate) const WORDS: usize = LANES + 2 * NUMBERS;
