//! Why a file is refused.

ghost use Rattle.std.specs.Prelude.{◌≡◌};
ghost use Rattle.ad_elf.specs.declared.refusal.ElfRefusal.TheVariants.{OutOfMemory as MemoryWanted};

use ad_base::OutOfMemory;
use std::alloc::{AllocError, AllocFailed};

/// Why a file is no object that is taken, in the order in which the file is looked at. The number of
/// a refusal is its place in this list, counted from 1. Sections, symbols and the entries of a section
/// are counted from 0.
#[derive(Clone, Copy, Debug, PartialEq, Eq)]
pub enum ElfRefusal {
    /// The file is shorter than its header.
    Short,
    /// The file doesn't begin as an ELF file of the known version.
    Magic,
    /// The file isn't of 64 bits with the lowest byte first.
    Class,
    /// The file is for another machine.
    Machine,
    /// The file isn't relocatable.
    NotRelocatable,
    /// The file has flags that ask for what isn't there: compressed instructions, a float ABI, half of
    /// the registers.
    Flags(u32),
    /// The table of sections isn't in the file, is empty or too long, or names no strings.
    SectionTable,
    /// This section isn't in the file, or the sections up to it are longer than the file, or it is too
    /// long a section of zeros.
    SectionBounds(u64),
    /// This section has relocations without addends, or is loaded and of a type or with a flag that
    /// isn't taken.
    SectionType(u64),
    /// The name of this section doesn't end, or is too long.
    StringIndex(u64),
    /// There isn't one table of symbols, or its form or the name of a symbol is wrong.
    SymbolTable,
    /// This symbol isn't in its section.
    SymbolSection(u64),
    /// This section of relocations has a wrong form, or applies to no section, or to one of zeros.
    RelaTarget(u64),
    /// In this section of relocations, this entry names no symbol.
    RelaSymbol(u64, u64),
    /// In this section of relocations, this entry's field isn't in the section that it applies to.
    RelaOffset(u64, u64),
    /// There was no memory for what the file says.
    OutOfMemory,
}

impl From<OutOfMemory> for ElfRefusal {
    ghost from_gives = { λ _ e. e ≡ MemoryWanted };

    fn from(_error: OutOfMemory) -> ElfRefusal {
        ElfRefusal::OutOfMemory
    }
}

impl From<AllocError> for ElfRefusal {
    ghost from_gives = { λ _ e. e ≡ MemoryWanted };

    fn from(_error: AllocError) -> ElfRefusal {
        ElfRefusal::OutOfMemory
    }
}

impl<T: Drop> From<AllocFailed<T>> for ElfRefusal {
    ghost from_gives = { λ _ e. e ≡ MemoryWanted };

    fn from(_error: AllocFailed<T>) -> ElfRefusal {
        ElfRefusal::OutOfMemory
    }
}
