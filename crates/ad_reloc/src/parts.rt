//! The bytes of both parts, before any relocation.

ghost use Rattle.std.specs.Prelude.{◌≡◌, ◌+◌, ◌≤◌, length, IfOk};
ghost use Rattle.ad_elf.specs.Range.{IsInRange};
ghost use Rattle.ad_parts.specs.Area.{area_in};
ghost use Rattle.ad_parts.specs.Layout.{area_to};
ghost use Rattle.ad_parts.specs.Parts.{IsLayout};
ghost use Rattle.ad_parts.specs.declared.layout.Group.TheVariants as group;
ghost use Rattle.ad_tables.specs.declared.table_set.TableSet.{TableSet};
ghost use Rattle.ad_tables.specs.Tables.{AreTables};
ghost use Rattle.ad_reloc.specs.Image.{laid_out, with_bytes, with_section};
ghost use Rattle.ad_reloc.specs.Private.Small.{AreSmall};
ghost use Rattle.ad_reloc.specs.Private.Parts.{Fit};

use ad_base::{LOCAL_PAGES, OutOfMemory, PAGE_BYTES, STUB_PAGES, TABLE_PAGES};
use ad_elf::{Object, Section};
use ad_parts::{Layout, Sizes, Spot};
use std::alloc::Global;

/// The bytes of both parts, each from its first to its last.
#[derive(Drop)]
pub(crate) struct Parts {
    pub movable: Vec<u8>,
    pub fixed: Vec<u8>,
}

/// How many bytes a part has.
pub(crate) fn part_bytes(sizes: Sizes, movable: bool) -> u64
    ensures value { result ≡ area_to sizes (area_in movable group.Writable) }
{
    let pages = if movable {
        u64::from(sizes.text_pages)
            + u64::from(STUB_PAGES)
            + u64::from(sizes.read_pages)
            + u64::from(TABLE_PAGES)
            + u64::from(LOCAL_PAGES)
            + u64::from(sizes.data_pages)
    } else {
        u64::from(sizes.fixed_text_pages)
            + u64::from(STUB_PAGES)
            + u64::from(sizes.fixed_read_pages)
            + u64::from(TABLE_PAGES)
            + u64::from(sizes.fixed_data_pages)
    };
    pages * PAGE_BYTES
}

/// The bytes of a part before any relocation: those of its sections, and zeros.
pub(crate) fn laid_part(
    alloc: Global,
    object: &Object,
    layout: &Layout,
    movable: bool,
) -> Result<Vec<u8>, OutOfMemory>
    requires { Fit object.now layout.now }
    ensures bytes { IfOk result (λ part. part.items ≡ laid_out object.now layout.now movable) }
    ensures whole { IfOk result (λ part. length part.items ≡ area_to layout.now.sizes (area_in movable group.Writable)) }
{
    let mut part = Vec::new(alloc);
    part.resize(part_bytes(layout.sizes, movable) as usize, 0)?;
    let sections = object.sections.as_slice();
    let spots = layout.spots.as_slice();
    for k in 0..sections.len() {
        put_section(&mut part, &sections[k], spots[k], movable);
    }
    Ok(part)
}

/// Puts the bytes of a section that goes there into a part, if it is the section's.
fn put_section(part: &mut [u8], section: &Section, spot: Spot, movable: bool)
    requires { spot.movable ≡ movable → spot.offset + length section.now.bytes ≤ length part.old }
    ensures bytes { part.new ≡ with_section movable part.old (section.now, spot) }
    ensures whole { length part.new ≡ length part.old }
{
    if spot.movable == movable {
        put_bytes(part, spot.offset as usize, section.bytes.as_slice());
    }
}

/// Puts bytes at an offset.
pub(crate) fn put_bytes(part: &mut [u8], at: usize, bytes: &[u8])
    requires { at + length bytes.now ≤ length part.old }
    ensures bytes { part.new ≡ with_bytes at bytes.now part.old }
    ensures whole { length part.new ≡ length part.old }
{
    part[at..at + bytes.len()].copy_from_slice(bytes);
}
