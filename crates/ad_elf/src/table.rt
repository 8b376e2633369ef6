//! The table of symbols.

use crate::file::SectionHeader;

/// The table of symbols of a file.
#[derive(Clone, Copy, Debug)]
pub(crate) struct SymbolTable<'a> {
    /// The number of its section.
    pub number: u64,
    /// The header of its section.
    pub header: SectionHeader,
    /// The names of the symbols.
    pub names: &'a [u8],
}
