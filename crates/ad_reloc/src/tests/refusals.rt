//! Relocations at the ends of their ranges, and each refusal.

ghost use Rattle.ad_elf.specs.Range.{IsInRange};
ghost use Rattle.ad_parts.specs.Parts.{IsLayout};

use super::file::{DATA, Entry, FIXED_TEXT, LOCAL_DATA, TEXT, file};
use crate::applicable::check_relocations;
use ad_base::Place;
use ad_elf::{Object, read_object};
use ad_parts::{Layout, split};
use ad_tables::tables;
use std::alloc::Global;
use std::test::Fail;

/// Where the immovable part lies: its first byte is at 0x81000.
const FIXED: Place = Place {
    region: 2,
    start: 1,
    pages: 3,
    mapping: 1,
    frame: 0,
};

/// What is told of a file with these relocations.
fn told(alloc: Global, target: u64, entries: &[Entry]) -> Result<String, Fail> {
    let bytes = file(alloc, target, entries)?;
    let object = read_object(alloc, bytes.as_slice())
        .ok()
        .ok_or("the file is read")?;
    told_of_object(alloc, &object)
}

/// What is told of an object.
fn told_of_object(alloc: Global, object: &Object) -> Result<String, Fail>
    requires { IsInRange object.now }
{
    let layout = split(alloc, object).ok().ok_or("the object is laid out")?;
    told_of_layout(alloc, object, &layout)
}

/// What is told of an object that is laid out.
fn told_of_layout(alloc: Global, object: &Object, layout: &Layout) -> Result<String, Fail>
    requires range { IsInRange object.now }
    requires laid { IsLayout object.now layout.now }
{
    let set = tables(alloc, object, layout)
        .ok()
        .ok_or("the object has tables")?;
    let mut text = String::new(alloc);
    match check_relocations(alloc, object, layout, &set, FIXED) {
        Ok(()) => write!(text, "fine")?,
        Err(refusal) => write!(text, "{refusal:?}")?,
    }
    Ok(text)
}

const F: u32 = 1;

const G: u32 = 2;

const K_IN: u32 = 3;

const NUMBER: u32 = 4;

const HERE: u32 = 5;

/// Types of relocations (RISC-V ELF psABI, "Relocations").
const ABS32: u32 = 1;

const ABS64: u32 = 2;

const BRANCH: u32 = 16;

const JAL: u32 = 17;

const CALL: u32 = 18;

const GOT: u32 = 20;

const HIGH: u32 = 23;

const LOW_I: u32 = 24;

const LOW_S: u32 = 25;

const ADD32: u32 = 35;

const ADD64: u32 = 36;

const SUB32: u32 = 39;

const SUB64: u32 = 40;

const RELAX: u32 = 51;

const PCREL32: u32 = 57;

/// One entry that applies to the text of the movable part, and what is told of it.
#[rattlefmt::skip]
const RANGES: [(Entry, &str); 26] = [
    ((8, BRANCH, F, -4088), "fine"), ((8, BRANCH, F, -4089), "Range(5, 0, -4097)"),
    ((8, BRANCH, F, 4102), "fine"), ((8, BRANCH, F, 4103), "Range(5, 0, 4095)"),
    ((8, BRANCH, F, 9), "Misaligned(5, 0)"), ((8, JAL, F, 11), "Misaligned(5, 0)"),
    ((0, JAL, F, -0x10_0000), "fine"), ((0, JAL, F, -0x10_0001), "Range(5, 0, -1048577)"),
    ((0, JAL, F, 0xf_fffe), "fine"), ((0, JAL, F, 0xf_ffff), "Range(5, 0, 1048575)"),
    ((0, CALL, F, 0x7fff_f7ff), "fine"), ((0, CALL, F, 0x7fff_f800), "Range(5, 0, 2147481600)"),
    ((0, CALL, F, -0x8000_0800), "fine"), ((0, CALL, F, -0x8000_0801), "Range(5, 0, -2147485697)"),
    ((0, HIGH, F, 0x7fff_f7ff), "fine"), ((0, HIGH, F, 0x7fff_f800), "Range(5, 0, 2147481600)"),
    ((0, GOT, K_IN, 0x7fff_d7ff), "fine"), ((0, GOT, K_IN, 0x7fff_d800), "Range(5, 0, 2147481600)"),
    ((0, GOT, F, 0x7fff_c7ef), "fine"), ((0, GOT, F, 0x7fff_c7f0), "Range(5, 0, 2147481600)"),
    ((0, ABS32, NUMBER, 0xffff_fffa), "fine"), ((0, ABS32, NUMBER, 0xffff_fffb), "Range(5, 0, 4294967296)"),
    ((0, ABS32, NUMBER, -0x8000_0005), "fine"), ((0, ABS32, NUMBER, -0x8000_0006), "Range(5, 0, -2147483649)"),
    ((0, PCREL32, F, -0x8000_0000), "fine"), ((0, PCREL32, F, 0x8000_0000), "Range(5, 0, 2147483648)"),
];

#[test]
fn ends_of_ranges(rt: HostRuntime) -> Result<(), Fail> {
    for (entry, expected) in RANGES {
        let found = told(rt.alloc(), TEXT, &[entry])?;
        assert_eq!(rt; found.as_str(), expected);
    }
    Ok(())
}

/// The section that the entries apply to, the entries, and what is told of them.
#[rattlefmt::skip]
const CASES: [(u64, &[Entry], &str); 33] = [
    (TEXT, &[(0, CALL, K_IN, 0), (0, RELAX, 0, 0), (8, ABS64, G, 0)], "fine"),
    (TEXT, &[(0, 43, F, 0)], "Unlisted(43)"),
    (TEXT, &[(0, 26, F, 0), (0, ABS32, F, 0)], "Unlisted(26)"),
    (TEXT, &[(0, HIGH, K_IN, 0)], "CrossPart(5, 0)"),
    (TEXT, &[(0, PCREL32, G, 0)], "CrossPart(5, 0)"),
    (TEXT, &[(0, BRANCH, NUMBER, 1)], "CrossPart(5, 0)"),
    (TEXT, &[(0, CALL, G, 0)], "fine"),
    (FIXED_TEXT, &[(0, GOT, F, 0)], "CrossPart(5, 0)"),
    (FIXED_TEXT, &[(0, CALL, F, 0)], "CrossPart(5, 0)"),
    (FIXED_TEXT, &[(0, JAL, F, 0)], "CrossPart(5, 0)"),
    (FIXED_TEXT, &[(0, JAL, G, 0), (4, HIGH, K_IN, 0), (8, CALL, G, 0)], "fine"),
    (TEXT, &[(0, ABS32, F, 0)], "MovablePointer(5, 0)"),
    (TEXT, &[(0, ABS64, F, 0)], "MovablePointer(5, 0)"),
    (DATA, &[(0, ABS64, F, 0)], "MovablePointer(5, 0)"),
    (DATA, &[(0, ABS64, G, 0), (8, ABS64, F, 0)], "MovablePointer(5, 1)"),
    (LOCAL_DATA, &[(0, ABS64, F, 0)], "fine"),
    (LOCAL_DATA, &[(4, ABS64, F, 0)], "Misaligned(5, 0)"),
    (LOCAL_DATA, &[(4, ABS64, G, 0)], "fine"),
    (DATA, &[(0, ADD32, F, 0), (0, SUB32, F, 4)], "fine"),
    (DATA, &[(0, ADD64, F, 0), (0, SUB64, F, 4)], "fine"),
    (DATA, &[(0, ADD32, F, 0)], "MovablePointer(5, 0)"),
    (DATA, &[(0, ADD32, F, 0), (4, SUB32, F, 4)], "MovablePointer(5, 0)"),
    (DATA, &[(0, ADD64, F, 0), (0, SUB32, F, 4)], "MovablePointer(5, 0)"),
    (DATA, &[(0, ADD32, F, 0), (0, SUB32, G, 4)], "MovablePointer(5, 0)"),
    (DATA, &[(0, ADD32, G, 0), (0, SUB32, F, 4)], "MovablePointer(5, 1)"),
    (TEXT, &[(8, HIGH, F, 0), (12, LOW_I, HERE, 0)], "fine"),
    (TEXT, &[(12, LOW_S, HERE, 0), (8, GOT, F, 0)], "fine"),
    (TEXT, &[(12, LOW_I, HERE, 0)], "NoHi(5, 0)"),
    (TEXT, &[(4, HIGH, F, 0), (12, LOW_I, HERE, 0)], "NoHi(5, 1)"),
    (TEXT, &[(8, HIGH, F, 0), (12, LOW_I, 0, 0)], "NoHi(5, 1)"),
    (FIXED_TEXT, &[(8, HIGH, G, 0), (12, LOW_I, HERE, 0)], "NoHi(5, 1)"),
    (TEXT, &[(12, LOW_I, HERE, 0), (8, HIGH, K_IN, 0)], "CrossPart(5, 0)"),
    (TEXT, &[(12, LOW_I, HERE, 0), (8, HIGH, F, 0x7fff_f808)], "Range(5, 0, 2147481600)"),
];

#[test]
fn refusals_of_entries(rt: HostRuntime) -> Result<(), Fail> {
    for (target, entries, expected) in CASES {
        let found = told(rt.alloc(), target, entries)?;
        assert_eq!(rt; found.as_str(), expected);
    }
    Ok(())
}
