//! Images of objects with a few relocations.

ghost use Rattle.ad_elf.specs.Range.{IsInRange};
ghost use Rattle.ad_parts.specs.Parts.{IsLayout};

use super::file::{DATA, Entry, TEXT, file};
use crate::image::relocate;
use ad_base::{Image, Place};
use ad_elf::{Object, read_object};
use ad_parts::{Layout, split};
use ad_tables::tables;
use std::alloc::Global;
use std::test::Fail;

/// Where the immovable part lies, which has a page of text and no data.
const FIXED: Place = Place {
    region: 2,
    start: 1,
    pages: 3,
    mapping: 1,
    frame: 0,
};

/// Numbers of symbols.
const F: u32 = 1;

const K_IN: u32 = 3;

const HERE: u32 = 5;

/// Types of relocations (RISC-V ELF psABI, "Relocations").
const ABS64: u32 = 2;

const CALL_PLT: u32 = 19;

const HIGH: u32 = 23;

const LOW_I: u32 = 24;

const RELAX: u32 = 51;

/// The image of a file with these relocations, or what is told of its refusal.
fn linked(alloc: Global, target: u64, entries: &[Entry]) -> Result<(Option<Image>, String), Fail> {
    let bytes = file(alloc, target, entries)?;
    let object = read_object(alloc, bytes.as_slice())
        .ok()
        .ok_or("the file is read")?;
    linked_object(alloc, &object)
}

/// The image of an object, or what is told of its refusal.
fn linked_object(alloc: Global, object: &Object) -> Result<(Option<Image>, String), Fail>
    requires { IsInRange object.now }
{
    let layout = split(alloc, object).ok().ok_or("the object is laid out")?;
    linked_layout(alloc, object, &layout)
}

/// The image of an object that is laid out, or what is told of its refusal.
fn linked_layout(
    alloc: Global,
    object: &Object,
    layout: &Layout,
) -> Result<(Option<Image>, String), Fail>
    requires range { IsInRange object.now }
    requires laid { IsLayout object.now layout.now }
{
    let set = tables(alloc, object, layout)
        .ok()
        .ok_or("the object has tables")?;
    let sizes = layout.sizes;
    let mut text = String::new(alloc);
    if sizes.fixed_text_pages != 1 || sizes.fixed_read_pages != 0 || sizes.fixed_data_pages != 0 {
        return Ok((None, text));
    }
    match relocate(alloc, object, layout, &set, FIXED) {
        Ok(image) => Ok((Some(image), text)),
        Err(refusal) => {
            write!(text, "{refusal:?}")?;
            Ok((None, text))
        }
    }
}

/// Numbers, and the bytes of an upper immediate and of a load or addition that add up to each.
#[rattlefmt::skip]
const PAIRS: [(i64, &[u8]); 3] = [
    (0x1ffc, &[0, 0x20, 0, 0, 0, 0, 0xc0, 0xff]), (0x7ff, &[0, 0, 0, 0, 0, 0, 0xf0, 0x7f]),
    (0x800, &[0, 0x10, 0, 0, 0, 0, 0, 0x80]),
];

#[test]
fn pairs_of_halves(rt: HostRuntime) -> Result<(), Fail> {
    for (value, expected) in PAIRS {
        assert!(rt; 0 <= value && value < 0x1_0000);
        let entries = [(8, HIGH, F, value + 8), (12, LOW_I, HERE, 0)];
        let image = linked(rt.alloc(), TEXT, &entries)?.0.ok_or("it is linked")?;
        let code = image.code.as_slice();
        assert!(rt; code.len() == 0x2000);
        assert_eq!(rt; &code[8..16], expected);
    }
    Ok(())
}

#[test]
fn an_entry_without_a_field_changes_nothing(rt: HostRuntime) -> Result<(), Fail> {
    let call = (0, CALL_PLT, K_IN, 0);
    let one = linked(rt.alloc(), TEXT, &[call])?.0.ok_or("it is linked")?;
    let two = linked(rt.alloc(), TEXT, &[call, (0, RELAX, 0, 0)])?
        .0
        .ok_or("it is linked")?;
    let code = one.code.as_slice();
    assert!(rt; code.len() == 0x2000);
    assert_eq!(rt; &code[..8], [0, 0x10, 0, 0, 0, 0, 0, 0].as_slice());
    assert_eq!(rt;
        &code[0x1000..0x1010],
        [
            0x17, 0x1e, 0, 0, 3, 0x3e, 0xe, 0, 0x67, 0, 0xe, 0, 0x13, 0, 0, 0
        ]
        .as_slice()
    );
    assert_eq!(rt; one.table.as_slice(), [262_208].as_slice());
    assert_eq!(rt; code, two.code.as_slice());
    assert_eq!(rt; one.table.as_slice(), two.table.as_slice());
    assert_eq!(rt; one.cells.as_slice(), two.cells.as_slice());
    Ok(())
}

#[test]
fn a_pointer_in_data_is_refused(rt: HostRuntime) -> Result<(), Fail> {
    let told = linked(rt.alloc(), DATA, &[(0, ABS64, F, 0)])?.1;
    assert_eq!(rt; told.as_str(), "MovablePointer(5, 0)");
    Ok(())
}
