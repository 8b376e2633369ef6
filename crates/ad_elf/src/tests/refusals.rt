//! Files with one fault or two.

use super::files::{COUNTER, Patch, SUM, push_name, put};
use crate::elf::NAME_BYTES;
use crate::object::Object;
use crate::read::read_object;
use crate::refusal::ElfRefusal;
use std::alloc::Global;
use std::test::Fail;

/// What one number makes of the file that adds.
#[rattlefmt::skip]
const SUM_CASES: [(Patch, Option<ElfRefusal>); 49] = [
    (Patch { at: 0, bytes: 1, value: 0 }, Some(ElfRefusal::Magic)),
    (Patch { at: 3, bytes: 1, value: 71 }, Some(ElfRefusal::Magic)),
    (Patch { at: 6, bytes: 1, value: 2 }, Some(ElfRefusal::Magic)),
    (Patch { at: 4, bytes: 1, value: 1 }, Some(ElfRefusal::Class)),
    (Patch { at: 5, bytes: 1, value: 2 }, Some(ElfRefusal::Class)),
    (Patch { at: 18, bytes: 2, value: 62 }, Some(ElfRefusal::Machine)),
    (Patch { at: 16, bytes: 2, value: 2 }, Some(ElfRefusal::NotRelocatable)),
    (Patch { at: 48, bytes: 4, value: 1 }, Some(ElfRefusal::Flags(1))),
    (Patch { at: 48, bytes: 4, value: 6 }, Some(ElfRefusal::Flags(6))),
    (Patch { at: 48, bytes: 4, value: 17 }, Some(ElfRefusal::Flags(0x11))),
    (Patch { at: 48, bytes: 4, value: 16 }, None),
    (Patch { at: 58, bytes: 2, value: 63 }, Some(ElfRefusal::SectionTable)),
    (Patch { at: 60, bytes: 2, value: 0 }, Some(ElfRefusal::SectionTable)),
    (Patch { at: 60, bytes: 2, value: 65280 }, Some(ElfRefusal::SectionTable)),
    (Patch { at: 40, bytes: 8, value: 161 }, Some(ElfRefusal::SectionTable)),
    (Patch { at: 40, bytes: 8, value: 18446744073709551552 }, Some(ElfRefusal::SectionTable)),
    (Patch { at: 62, bytes: 2, value: 5 }, Some(ElfRefusal::SectionTable)),
    (Patch { at: 62, bytes: 2, value: 1 }, Some(ElfRefusal::SectionTable)),
    (Patch { at: 62, bytes: 2, value: 3 }, Some(ElfRefusal::StringIndex(2))),
    (Patch { at: 248, bytes: 8, value: 472 }, None),
    (Patch { at: 248, bytes: 8, value: 473 }, Some(ElfRefusal::SectionBounds(1))),
    (Patch { at: 256, bytes: 8, value: 18446744073709551552 }, Some(ElfRefusal::SectionBounds(1))),
    (Patch { at: 256, bytes: 8, value: 394 }, None),
    (Patch { at: 256, bytes: 8, value: 395 }, Some(ElfRefusal::SectionBounds(4))),
    (Patch { at: 228, bytes: 4, value: 9 }, Some(ElfRefusal::SectionType(1))),
    (Patch { at: 228, bytes: 4, value: 14 }, Some(ElfRefusal::SectionType(1))),
    (Patch { at: 228, bytes: 4, value: 7 }, None),
    (Patch { at: 232, bytes: 8, value: 1026 }, Some(ElfRefusal::SectionType(1))),
    (Patch { at: 232, bytes: 8, value: 2050 }, Some(ElfRefusal::SectionType(1))),
    (Patch { at: 232, bytes: 8, value: 1024 }, None),
    (Patch { at: 224, bytes: 4, value: 32 }, None),
    (Patch { at: 224, bytes: 4, value: 33 }, Some(ElfRefusal::StringIndex(1))),
    (Patch { at: 157, bytes: 1, value: 65 }, Some(ElfRefusal::StringIndex(4))),
    (Patch { at: 292, bytes: 4, value: 1 }, Some(ElfRefusal::SymbolTable)),
    (Patch { at: 356, bytes: 4, value: 2 }, Some(ElfRefusal::SymbolTable)),
    (Patch { at: 344, bytes: 8, value: 23 }, Some(ElfRefusal::SymbolTable)),
    (Patch { at: 320, bytes: 8, value: 47 }, Some(ElfRefusal::SymbolTable)),
    (Patch { at: 328, bytes: 4, value: 1 }, Some(ElfRefusal::SymbolTable)),
    (Patch { at: 328, bytes: 4, value: 5 }, Some(ElfRefusal::SymbolTable)),
    (Patch { at: 96, bytes: 4, value: 4 }, None),
    (Patch { at: 96, bytes: 4, value: 5 }, Some(ElfRefusal::SymbolTable)),
    (Patch { at: 124, bytes: 1, value: 65 }, Some(ElfRefusal::SymbolTable)),
    (Patch { at: 102, bytes: 2, value: 5 }, Some(ElfRefusal::SymbolSection(1))),
    (Patch { at: 102, bytes: 2, value: 65522 }, Some(ElfRefusal::SymbolSection(1))),
    (Patch { at: 102, bytes: 2, value: 65521 }, None),
    (Patch { at: 102, bytes: 2, value: 0 }, None),
    (Patch { at: 104, bytes: 8, value: 8 }, None),
    (Patch { at: 104, bytes: 8, value: 9 }, Some(ElfRefusal::SymbolSection(1))),
    (Patch { at: 78, bytes: 2, value: 9 }, None),
];

/// What one number makes of the file of a compiler.
#[rattlefmt::skip]
const COUNTER_CASES: [(Patch, Option<ElfRefusal>); 15] = [
    (Patch { at: 988, bytes: 4, value: 0 }, Some(ElfRefusal::RelaTarget(3))),
    (Patch { at: 988, bytes: 4, value: 11 }, Some(ElfRefusal::RelaTarget(3))),
    (Patch { at: 988, bytes: 4, value: 4 }, Some(ElfRefusal::RelaTarget(3))),
    (Patch { at: 988, bytes: 4, value: 6 }, None),
    (Patch { at: 984, bytes: 4, value: 1 }, Some(ElfRefusal::RelaTarget(3))),
    (Patch { at: 1000, bytes: 8, value: 23 }, Some(ElfRefusal::RelaTarget(3))),
    (Patch { at: 976, bytes: 8, value: 119 }, Some(ElfRefusal::RelaTarget(3))),
    (Patch { at: 476, bytes: 4, value: 9 }, None),
    (Patch { at: 476, bytes: 4, value: 10 }, Some(ElfRefusal::RelaSymbol(3, 0))),
    (Patch { at: 572, bytes: 4, value: 10 }, Some(ElfRefusal::RelaSymbol(3, 4))),
    (Patch { at: 464, bytes: 8, value: 76 }, None),
    (Patch { at: 464, bytes: 8, value: 77 }, Some(ElfRefusal::RelaOffset(3, 0))),
    (Patch { at: 464, bytes: 8, value: 18446744073709551612 }, Some(ElfRefusal::RelaOffset(3, 0))),
    (Patch { at: 560, bytes: 8, value: 72 }, None),
    (Patch { at: 560, bytes: 8, value: 73 }, Some(ElfRefusal::RelaOffset(3, 4))),
];

/// What two numbers make of the file that adds: the first row counts, and in it the first section. A header that
/// describes no section may say what it likes.
#[rattlefmt::skip]
const SUM_PAIRS: [(Patch, Patch, Option<ElfRefusal>); 17] = [
    (Patch { at: 6, bytes: 1, value: 2 }, Patch { at: 4, bytes: 1, value: 1 }, Some(ElfRefusal::Magic)),
    (Patch { at: 4, bytes: 1, value: 1 }, Patch { at: 18, bytes: 2, value: 62 }, Some(ElfRefusal::Class)),
    (Patch { at: 18, bytes: 2, value: 62 }, Patch { at: 16, bytes: 2, value: 2 }, Some(ElfRefusal::Machine)),
    (Patch { at: 16, bytes: 2, value: 2 }, Patch { at: 48, bytes: 4, value: 1 }, Some(ElfRefusal::NotRelocatable)),
    (Patch { at: 48, bytes: 4, value: 1 }, Patch { at: 62, bytes: 2, value: 1 }, Some(ElfRefusal::Flags(1))),
    (Patch { at: 62, bytes: 2, value: 1 }, Patch { at: 248, bytes: 8, value: 473 }, Some(ElfRefusal::SectionTable)),
    (Patch { at: 228, bytes: 4, value: 9 }, Patch { at: 312, bytes: 8, value: 480 }, Some(ElfRefusal::SectionBounds(2))),
    (Patch { at: 292, bytes: 4, value: 9 }, Patch { at: 224, bytes: 4, value: 33 }, Some(ElfRefusal::SectionType(2))),
    (Patch { at: 344, bytes: 8, value: 23 }, Patch { at: 224, bytes: 4, value: 33 }, Some(ElfRefusal::StringIndex(1))),
    (Patch { at: 96, bytes: 4, value: 5 }, Patch { at: 102, bytes: 2, value: 5 }, Some(ElfRefusal::SymbolTable)),
    (Patch { at: 248, bytes: 8, value: 473 }, Patch { at: 312, bytes: 8, value: 480 }, Some(ElfRefusal::SectionBounds(1))),
    (Patch { at: 228, bytes: 4, value: 9 }, Patch { at: 292, bytes: 4, value: 9 }, Some(ElfRefusal::SectionType(1))),
    (Patch { at: 224, bytes: 4, value: 33 }, Patch { at: 288, bytes: 4, value: 33 }, Some(ElfRefusal::StringIndex(1))),
    (Patch { at: 228, bytes: 4, value: 8 }, Patch { at: 256, bytes: 8, value: 4294967296 }, None),
    (Patch { at: 228, bytes: 4, value: 8 }, Patch { at: 256, bytes: 8, value: 4294967297 }, Some(ElfRefusal::SectionBounds(1))),
    (Patch { at: 184, bytes: 8, value: 18446744073709551615 }, Patch { at: 192, bytes: 8, value: 18446744073709551615 }, None),
    (Patch { at: 78, bytes: 2, value: 9 }, Patch { at: 104, bytes: 8, value: 9 }, Some(ElfRefusal::SymbolSection(1))),
];

/// What two numbers make of the file of a compiler: the first row counts, and in it the first symbol, section or
/// entry.
#[rattlefmt::skip]
const COUNTER_PAIRS: [(Patch, Patch, Option<ElfRefusal>); 9] = [
    (Patch { at: 988, bytes: 4, value: 0 }, Patch { at: 398, bytes: 2, value: 11 }, Some(ElfRefusal::SymbolSection(7))),
    (Patch { at: 476, bytes: 4, value: 10 }, Patch { at: 984, bytes: 4, value: 1 }, Some(ElfRefusal::RelaTarget(3))),
    (Patch { at: 464, bytes: 8, value: 77 }, Patch { at: 572, bytes: 4, value: 10 }, Some(ElfRefusal::RelaSymbol(3, 4))),
    (Patch { at: 398, bytes: 2, value: 11 }, Patch { at: 422, bytes: 2, value: 11 }, Some(ElfRefusal::SymbolSection(7))),
    (Patch { at: 988, bytes: 4, value: 0 }, Patch { at: 1140, bytes: 4, value: 4 }, Some(ElfRefusal::RelaTarget(3))),
    (Patch { at: 476, bytes: 4, value: 10 }, Patch { at: 572, bytes: 4, value: 10 }, Some(ElfRefusal::RelaSymbol(3, 0))),
    (Patch { at: 560, bytes: 8, value: 73 }, Patch { at: 464, bytes: 8, value: 77 }, Some(ElfRefusal::RelaOffset(3, 0))),
    (Patch { at: 472, bytes: 4, value: 26 }, Patch { at: 464, bytes: 8, value: 80 }, None),
    (Patch { at: 472, bytes: 4, value: 26 }, Patch { at: 464, bytes: 8, value: 81 }, Some(ElfRefusal::RelaOffset(3, 0))),
];

/// Why a file is refused, or `None` where it is read.
fn refusal(alloc: Global, file: &[u8]) -> Option<ElfRefusal> {
    match read_object(alloc, file) {
        Ok(_object) => None,
        Err(refusal) => Some(refusal),
    }
}

/// Why a file is refused once one number is put, or two.
fn refusal_of(
    alloc: Global,
    file: &[u8],
    one: Patch,
    other: Patch,
) -> Result<Option<ElfRefusal>, Fail> {
    let mut changed = Vec::from_slice(alloc, file)?;
    put(&mut changed, one);
    put(&mut changed, other);
    Ok(refusal(alloc, changed.as_slice()))
}

#[test]
fn one_fault(rt: HostRuntime) -> Result<(), Fail> {
    for (patch, expected) in SUM_CASES {
        assert_eq!(rt;
            refusal_of(rt.alloc(), &SUM, patch, patch)?,
            expected,
            "{patch:?}"
        );
    }
    for (patch, expected) in COUNTER_CASES {
        assert_eq!(rt;
            refusal_of(rt.alloc(), &COUNTER, patch, patch)?,
            expected,
            "{patch:?}"
        );
    }
    Ok(())
}

#[test]
fn two_faults(rt: HostRuntime) -> Result<(), Fail> {
    for (one, other, expected) in SUM_PAIRS {
        assert_eq!(rt;
            refusal_of(rt.alloc(), &SUM, one, other)?,
            expected,
            "{one:?} {other:?}"
        );
    }
    for (one, other, expected) in COUNTER_PAIRS {
        assert_eq!(rt;
            refusal_of(rt.alloc(), &COUNTER, one, other)?,
            expected,
            "{one:?} {other:?}"
        );
    }
    Ok(())
}

#[test]
fn every_front_is_refused(rt: HostRuntime) {
    for bytes in 0..SUM.len() {
        let expected = if bytes < 64 {
            ElfRefusal::Short
        } else {
            ElfRefusal::SectionTable
        };
        assert_eq!(rt;
            refusal(rt.alloc(), &SUM[..bytes]),
            Some(expected),
            "{bytes}"
        );
    }
    assert_eq!(rt; refusal(rt.alloc(), &SUM), None);
    // 63 and 64 bytes that don't begin as an ELF file.
    assert_eq!(rt; refusal(rt.alloc(), &SUM[1..64]), Some(ElfRefusal::Short));
    assert_eq!(rt; refusal(rt.alloc(), &SUM[1..65]), Some(ElfRefusal::Magic));
}

/// The file that adds, whose strings are one name of so many letters.
fn named(alloc: Global, letters: usize) -> Result<Vec<u8>, Fail> {
    let mut file = Vec::from_slice(alloc, &SUM)?;
    push_name(&mut file, letters)?;
    let zero = Patch {
        at: 96,
        bytes: 4,
        value: 0,
    };
    put(&mut file, zero);
    put(
        &mut file,
        Patch {
            at: 376,
            bytes: 8,
            value: 480,
        },
    );
    put(
        &mut file,
        Patch {
            at: 384,
            bytes: 8,
            value: (letters as u64).saturating_add(1),
        },
    );
    Ok(file)
}

#[test]
fn a_name_has_its_most_bytes(rt: HostRuntime) -> Result<(), Fail> {
    let most = NAME_BYTES as usize;
    let file = named(rt.alloc(), most)?;
    assert_eq!(rt; refusal(rt.alloc(), file.as_slice()), None);
    let longer = named(rt.alloc(), most + 1)?;
    assert_eq!(rt;
        refusal(rt.alloc(), longer.as_slice()),
        Some(ElfRefusal::SymbolTable)
    );
    Ok(())
}

/// The sections that a file keeps, as text: for each its number, its name, and how many bytes it has.
fn sections_text(alloc: Global, object: &Object) -> Result<String, Fail> {
    let mut text = String::new(alloc);
    for section in object.sections.as_slice() {
        let (index, name, bytes) = (section.index, &section.name, section.bytes.len());
        write!(text, "{index} {name} {bytes}, ")?;
    }
    Ok(text)
}

#[test]
fn section_0_is_kept_where_it_is_loaded(rt: HostRuntime) -> Result<(), Fail> {
    let mut file = Vec::from_slice(rt.alloc(), &SUM)?;
    // The type and the flags of a section that is loaded, and a size of 4 bytes.
    for (at, value) in [(164, 1 + (2 << 32)), (192, 4)] {
        put(
            &mut file,
            Patch {
                at,
                bytes: 8,
                value,
            },
        );
    }
    let object = read_object(rt.alloc(), file.as_slice())
        .ok()
        .ok_or("the file is read")?;
    let sections = sections_text(rt.alloc(), &object)?;
    assert_eq!(rt; sections.as_str(), "0  4, 1 .text 8, ");
    Ok(())
}

#[test]
fn the_file_of_a_compiler_is_read(rt: HostRuntime) -> Result<(), Fail> {
    let object = read_object(rt.alloc(), &COUNTER)
        .ok()
        .ok_or("the file is read")?;
    let sections = sections_text(rt.alloc(), &object)?;
    assert_eq!(rt;
        sections.as_str(),
        "2 .text 80, 4 .bss 0, 5 .rodata.cst16 16, "
    );
    assert_eq!(rt; object.symbols.len(), 10);
    let mut relas = String::new(rt.alloc());
    for rela in object.relas.as_slice() {
        let (section, entry, target) = (rela.section, rela.entry, rela.target);
        let (offset, symbol, typ) = (rela.offset, rela.symbol, rela.typ);
        write!(
            relas,
            "{section}.{entry} on {target} at {offset}: {symbol} {typ}, "
        )?;
    }
    assert_eq!(rt;
        relas.as_str(),
        "3.0 on 2 at 0: 3 23, 3.1 on 2 at 4: 2 24, 3.2 on 2 at 32: 5 23, 3.3 on 2 at 36: 4 24, 3.4 on 2 at 60: 9 19, "
    );
    Ok(())
}
