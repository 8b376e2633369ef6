//! Links of small files, and of the same files with one fault in them.

mod files;

use crate::planning::plan;
use crate::refusal::LinkRefusal;
use ad_base::{Image, Place};
use ad_elf::ElfRefusal;
use ad_parts::PartRefusal;
use ad_reloc::RelocRefusal;
use files::{COUNTER, SUM};
use std::alloc::Global;
use std::test::Fail;

/// Where the file of the sum has the binding and the type of its one symbol.
const BIND: usize = 100;

/// Where the file of the counter has the type of its first relocation.
const TYPE: usize = 96;

/// Where the immovable part lies. It has no section: a page of stubs and one of the fixed table.
const FIXED: Place = Place {
    region: 2,
    start: 1,
    pages: 2,
    mapping: 1,
    frame: 0,
};

/// What the link of a file with such an immovable part comes to.
fn linked(alloc: Global, bytes: &[u8]) -> Result<Result<Image, LinkRefusal>, Fail> {
    let plan = plan(alloc, bytes).map_err(|_| "a plan")?;
    if plan.fixed_pages() != FIXED.pages {
        return Err("an immovable part of two pages".into());
    }
    Ok(plan.finish(alloc, FIXED))
}

#[test]
fn a_file_is_planned(rt: HostRuntime) -> Result<(), Fail> {
    let plan = plan(rt.alloc(), &SUM).map_err(|_| "a plan")?;
    // Text, stub page, fixed table and local area; and stub page and fixed table.
    assert_eq!(rt; plan.movable_pages(), 4);
    assert_eq!(rt; plan.fixed_pages(), 2);
    Ok(())
}

#[test]
fn each_stage_refuses(rt: HostRuntime) {
    let short = plan(rt.alloc(), &SUM[..63]);
    assert!(rt; matches!(short, Err(LinkRefusal::Object(ElfRefusal::Short))));
    // The symbol is a local one.
    let mut file = SUM;
    file[BIND] = 2;
    let no_export = plan(rt.alloc(), &file);
    assert!(rt; matches!(no_export, Err(LinkRefusal::Parts(PartRefusal::NoExport))));
}

#[test]
fn a_link_is_finished(rt: HostRuntime) -> Result<(), Fail> {
    let image = linked(rt.alloc(), &COUNTER)?.map_err(|_| "an image")?;
    let code = image.code.as_slice();
    assert!(rt; code.len() == 0x2000);
    // The word of data lies in page 4, 0x4000 bytes ahead: a high half of 4, and a low one of 0.
    assert_eq!(rt; &code[..8], [0x97, 0x42, 0, 0, 0x93, 0x82, 2, 0].as_slice());
    assert_eq!(rt; &code[8..24], &COUNTER[72..88]);
    assert_eq!(rt; image.writable.as_slice().len(), 0x1000);
    assert_eq!(rt; image.cells.as_slice().len(), 0);
    assert_eq!(rt; image.exports.as_slice().len(), 1);
    Ok(())
}

#[test]
fn a_relocation_is_refused(rt: HostRuntime) -> Result<(), Fail> {
    // R_RISCV_HI20 is 26 (RISC-V ELF psABI, "Relocations").
    let mut file = COUNTER;
    file[TYPE] = 26;
    let refused = linked(rt.alloc(), &file)?;
    assert!(rt; matches!(refused, Err(LinkRefusal::Reloc(RelocRefusal::Unlisted(26)))));
    Ok(())
}
