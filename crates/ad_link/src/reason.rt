//! Which refusal a refused file has: its stage, and its number there.

ghost use Rattle.std.specs.Prelude.{◌≡◌};
ghost use Rattle.ad_link.specs.Reason.{object_number, parts_number, reason_of, reloc_number, tables_number};

use crate::refusal::LinkRefusal;
use ad_elf::ElfRefusal;
use ad_parts::PartRefusal;
use ad_reloc::RelocRefusal;
use ad_tables::TableRefusal;
use std::fmt;

/// A stage of a link, in the order in which they come.
#[derive(Clone, Copy, Debug, PartialEq, Eq)]
pub enum Stage {
    /// The file is read as an object.
    Object,
    /// The object's sections get their places in the parts.
    Parts,
    /// The words of the tables are listed.
    Tables,
    /// The relocations are applied.
    Reloc,
}

impl fmt::Display for Stage {
    ghost use Rattle.std.specs.Prelude.{Some};
    ghost use Rattle.ad_link.specs.Reason.{stage_text};

    ghost output = { λ s. Some (stage_text s) };

    fn fmt<W: fmt::Write>(&self, f: &mut fmt::Formatter<W>) -> fmt::Result {
        match self {
            Stage::Object => write!(f, "object"),
            Stage::Parts => write!(f, "parts"),
            Stage::Tables => write!(f, "tables"),
            Stage::Reloc => write!(f, "reloc"),
        }
    }
}

/// Which refusal it is: the stage, and the place of the refusal in the list of this stage's, counted from 1.
#[derive(Clone, Copy, Debug)]
pub struct Reason {
    pub stage: Stage,
    pub number: u64,
}

impl LinkRefusal {
    /// Which refusal it is. It is `None` for want of memory alone, which is no stage's.
    pub fn reason(&self) -> Option<Reason>
        ensures { result ≡ reason_of self.now }
    {
        let (stage, number) = match self {
            LinkRefusal::Object(refusal) => (Stage::Object, object_number(refusal)),
            LinkRefusal::Parts(refusal) => (Stage::Parts, parts_number(refusal)),
            LinkRefusal::Tables(refusal) => (Stage::Tables, tables_number(refusal)),
            LinkRefusal::Reloc(refusal) => (Stage::Reloc, reloc_number(refusal)),
            LinkRefusal::OutOfMemory => return None,
        };
        Some(Reason { stage, number })
    }
}

fn object_number(refusal: &ElfRefusal) -> u64
    ensures { result ≡ object_number refusal.now }
{
    match refusal {
        ElfRefusal::Short => 1,
        ElfRefusal::Magic => 2,
        ElfRefusal::Class => 3,
        ElfRefusal::Machine => 4,
        ElfRefusal::NotRelocatable => 5,
        ElfRefusal::Flags(_) => 6,
        ElfRefusal::SectionTable => 7,
        ElfRefusal::SectionBounds(_) => 8,
        ElfRefusal::SectionType(_) => 9,
        ElfRefusal::StringIndex(_) => 10,
        ElfRefusal::SymbolTable => 11,
        ElfRefusal::SymbolSection(_) => 12,
        ElfRefusal::RelaTarget(_) => 13,
        ElfRefusal::RelaSymbol(_, _) => 14,
        ElfRefusal::RelaOffset(_, _) => 15,
        ElfRefusal::OutOfMemory => 16,
    }
}

fn parts_number(refusal: &PartRefusal) -> u64
    ensures { result ≡ parts_number refusal.now }
{
    match refusal {
        PartRefusal::Alignment(_) => 1,
        PartRefusal::TooManyPages(_) => 2,
        PartRefusal::NoExport => 3,
        PartRefusal::Duplicate(_) => 4,
        PartRefusal::OutOfMemory => 5,
    }
}

fn tables_number(refusal: &TableRefusal) -> u64
    ensures { result ≡ tables_number refusal.now }
{
    match refusal {
        TableRefusal::LocalFull => 1,
        TableRefusal::FixedFull => 2,
        TableRefusal::Unresolved(_) => 3,
        TableRefusal::OutOfMemory => 4,
    }
}

fn reloc_number(refusal: &RelocRefusal) -> u64
    ensures { result ≡ reloc_number refusal.now }
{
    match refusal {
        RelocRefusal::Unlisted(_) => 1,
        RelocRefusal::Range(_, _, _) => 2,
        RelocRefusal::NoHi(_, _) => 3,
        RelocRefusal::MovablePointer(_, _) => 4,
        RelocRefusal::CrossPart(_, _) => 5,
        RelocRefusal::Misaligned(_, _) => 6,
        RelocRefusal::OutOfMemory => 7,
    }
}
