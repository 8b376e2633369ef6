//! How many words the table has.

use ad_base::MODULES;

/// Modules at most.
pub(crate) const BOOKS: usize = MODULES as usize;

/// Words of the table: one that stays 0, on which seats are split, made and joined; then, for each module, how many
/// tickets of it were drawn; then, for each module, the ticket that is served.
pub(crate) const WORDS: usize = 1 + 2 * BOOKS;
