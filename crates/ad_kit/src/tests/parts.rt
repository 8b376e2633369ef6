//! Objects of both parts that are written, read back and split.

use super::objects::{symbol, written};
use crate::KitSection;
use ad_base::{Name, Sequence};
use ad_elf::{SHF_ALLOC, SHF_EXECINSTR, SHF_WRITE, SHT_NOBITS, SHT_PROGBITS, read_object};
use ad_parts::{Group, Layout, PartRefusal, Sizes, Spot, split};
use std::alloc::Global;
use std::test::Fail;

/// A section that is loaded, of zeros where its name begins with `.bss`.
fn loaded(
    alloc: Global,
    name: &str,
    flags: u64,
    align: u64,
    size: u64,
) -> Result<KitSection, Fail> {
    let is_zeros = name.as_bytes().starts_with(b".bss");
    let mut bytes = Vec::new(alloc);
    if !is_zeros {
        bytes.resize(size as usize, 0)?;
    }
    Ok(KitSection {
        name: Name::of(alloc, name.as_bytes())?,
        typ: if is_zeros { SHT_NOBITS } else { SHT_PROGBITS },
        flags: SHF_ALLOC | flags,
        align,
        bytes: Sequence::of(bytes),
        size,
        relas: Sequence::of(Vec::new(alloc)),
    })
}

/// The layout of an object of these sections, of which the first has a function.
fn layout(alloc: Global, sections: &[KitSection]) -> Result<Result<Layout, PartRefusal>, Fail> {
    let start = symbol(alloc, b"start", 0x12, 1, 0)?;
    let file = written(alloc, sections, &[start])?;
    match read_object(alloc, file.as_slice()) {
        Ok(object) => Ok(split(alloc, &object)),
        Err(_refusal) => Err("the file is read")?,
    }
}

/// Sections that are loaded: the name, the other flags, the alignment and the size; then whether the part is the
/// movable one, the group, and the offset in the part.
#[rattlefmt::skip]
const SPOTS: [(&str, u64, u64, u64, bool, Group, u128); 13] = [
    (".text", SHF_EXECINSTR, 4, 8, true, Group::Text, 0),
    (".fixed", SHF_EXECINSTR, 4, 8, false, Group::Text, 0),
    (".rodata.fixed", 0, 8, 16, false, Group::ReadOnly, 8192),
    (".data.fixed", SHF_WRITE, 8, 24, false, Group::Writable, 16384),
    (".bss.fixed", SHF_WRITE, 16, 4096, false, Group::Writable, 16416),
    (".data.rel.ro", SHF_WRITE, 8, 16, true, Group::Local, 16384),
    (".my.fixed", SHF_WRITE, 8, 8, true, Group::Writable, 20480),
    (".rodata", 0, 8, 16, true, Group::ReadOnly, 8192),
    (".text.fixed.slow", SHF_EXECINSTR, 16, 4, false, Group::Text, 16),
    (".data.rel.ro.local", 0, 16, 8, true, Group::Local, 16400),
    (".fixedly", 0, 8, 4, false, Group::ReadOnly, 8208),
    (".text.my.fixed", SHF_EXECINSTR, 4, 4, true, Group::Text, 8),
    (".bss", SHF_WRITE, 32, 100, true, Group::Writable, 20512),
];

#[test]
fn both_parts_are_laid_out(rt: HostRuntime) -> Result<(), Fail> {
    let alloc = rt.alloc();
    let mut sections = Vec::new(alloc);
    for (name, flags, align, size, _movable, _group, _offset) in SPOTS {
        sections.push(loaded(alloc, name, flags, align, size)?)?;
    }
    let layout = layout(alloc, sections.as_slice())?
        .ok()
        .ok_or("the object is split")?;
    let spots = layout.spots.as_slice();
    assert_eq!(rt; spots.len(), SPOTS.len());
    for k in 0..SPOTS.len() {
        let (name, _flags, _align, _size, movable, group, offset) = SPOTS[k];
        let spot = Spot {
            section: (k as u64).saturating_add(1),
            movable,
            group,
            offset,
        };
        assert_eq!(rt; spots.get(k), Some(&spot), "{name}");
    }
    // 4,128 bytes of data in the immovable part take two pages; all else takes one.
    let sizes = Sizes {
        text_pages: 1,
        read_pages: 1,
        data_pages: 1,
        fixed_text_pages: 1,
        fixed_read_pages: 1,
        fixed_data_pages: 2,
        local_bytes: 24,
    };
    assert_eq!(rt; layout.sizes, sizes);
    Ok(())
}

/// Bytes of data in the movable part, which has four pages besides, and in the immovable part, which has two; and
/// the pages that are too many.
#[rattlefmt::skip]
const PAGES: [(u64, u64, Option<u64>); 6] = [
    (237_568, 245_760, None),
    (237_568, 245_761, Some(63)),
    (237_569, 245_760, Some(63)),
    (237_568, 249_857, Some(64)),
    (237_569, 249_857, Some(63)),
    (241_665, 245_761, Some(64)),
];

#[test]
fn pages_of_both_parts_are_counted(rt: HostRuntime) -> Result<(), Fail> {
    let alloc = rt.alloc();
    for (movable, fixed, expected) in PAGES {
        let text = loaded(alloc, ".text", SHF_EXECINSTR, 4, 8)?;
        let data = loaded(alloc, ".bss", SHF_WRITE, 8, movable)?;
        let fixed_data = loaded(alloc, ".bss.fixed", SHF_WRITE, 8, fixed)?;
        let found = match layout(alloc, &[text, data, fixed_data])? {
            Ok(_layout) => None,
            Err(PartRefusal::TooManyPages(pages)) => Some(pages),
            Err(_refusal) => Err("the alignments and the exports are right")?,
        };
        assert_eq!(rt; found, expected, "{movable} {fixed}");
    }
    Ok(())
}
