//! Why a file isn't linked.

use ad_elf::ElfRefusal;
use ad_parts::PartRefusal;
use ad_reloc::RelocRefusal;
use ad_tables::TableRefusal;

/// Why a file isn't linked: the stage that refuses it, and why.
#[derive(Debug, Drop)]
pub enum LinkRefusal {
    /// It is no object file that is taken.
    Object(ElfRefusal),
    /// Its sections have no layout.
    Parts(PartRefusal),
    /// Its relocations have no tables.
    Tables(TableRefusal),
    /// Its relocations can't be applied.
    Reloc(RelocRefusal),
    /// There was no memory for the link. No stage's refusal says so.
    OutOfMemory,
}
