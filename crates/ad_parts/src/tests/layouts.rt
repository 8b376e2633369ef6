//! Where sections go, and why they may not.

use super::files::{CLANG, GCC};
use super::written::{CALL, RELAXED, SUM};
use crate::position::Position;
use crate::refusal::PartRefusal;
use crate::splitting::split;
use ad_elf::read_object;
use std::alloc::Global;
use std::test::Fail;

/// A number of 8 bytes that is put at a place of a file.
#[derive(Clone, Copy, Debug)]
struct Patch {
    at: usize,
    value: u64,
}

/// Puts a number at its place.
fn put(file: &mut Vec<u8>, patch: Patch) {
    let mut rest = patch.value;
    for k in 0..8 {
        let at = patch.at.saturating_add(k);
        if at < file.len() {
            file[at] = (rest % 256) as u8;
        }
        rest /= 256;
    }
}

/// The layout of a file in which two numbers are put, as text: for each section its number, whether it is
/// movable, its group and its offset; then the pages of the groups, and the bytes of the local area.
fn layout_text(alloc: Global, file: &[u8], one: Patch, other: Patch) -> Result<String, Fail> {
    let mut changed = Vec::from_slice(alloc, file)?;
    put(&mut changed, one);
    put(&mut changed, other);
    let object = read_object(alloc, changed.as_slice())
        .ok()
        .ok_or("the file is read")?;
    let mut text = String::new(alloc);
    match split(alloc, &object) {
        Err(PartRefusal::Duplicate(name)) => write!(text, "the name {name} is repeated")?,
        Err(refusal) => write!(text, "{refusal:?}")?,
        Ok(layout) => {
            for spot in layout.spots.as_slice() {
                let (section, movable) = (spot.section, spot.movable);
                let (group, offset) = (spot.group, spot.offset);
                write!(text, "{section} {movable} {group:?} {offset}, ")?;
            }
            let sizes = layout.sizes;
            let (code, read, data) = (sizes.text_pages, sizes.read_pages, sizes.data_pages);
            let local = sizes.local_bytes;
            write!(text, "{code} {read} {data} {local}")?;
            for export in layout.exports.as_slice() {
                let (name, offset) = (&export.name, export.offset);
                write!(text, ", {name} {offset}")?;
            }
        }
    }
    Ok(text)
}

/// A number that stands there already.
const NOTHING: Patch = Patch {
    at: usize::MAX,
    value: 0,
};

#[test]
fn files_of_compilers_are_laid_out(rt: HostRuntime) -> Result<(), Fail> {
    let gcc = layout_text(rt.alloc(), &GCC, NOTHING, NOTHING)?;
    assert_eq!(rt;
        gcc.as_str(),
        "1 true Text 0, 3 true Writable 20480, 4 true Writable 20480, 5 true ReadOnly 8192, 1 1 1 0, add 0, step 24, send 52"
    );
    let clang = layout_text(rt.alloc(), &CLANG, NOTHING, NOTHING)?;
    assert_eq!(rt;
        clang.as_str(),
        "2 true Text 0, 4 true Writable 20480, 5 true ReadOnly 8192, 1 1 1 0, add 0, step 24, send 52"
    );
    Ok(())
}

/// The place of the size and of the alignment of `.bss` in the header that clang made.
const BSS_SIZE: usize = 752 + 4 * 64 + 32;

const BSS_ALIGN: usize = 752 + 4 * 64 + 48;

#[test]
fn limits_of_a_layout(rt: HostRuntime) -> Result<(), Fail> {
    let alloc = rt.alloc();
    let most = Patch {
        at: BSS_ALIGN,
        value: 4096,
    };
    let fine = layout_text(alloc, &CLANG, most, NOTHING)?;
    assert_eq!(rt;
        fine.as_str(),
        "2 true Text 0, 4 true Writable 20480, 5 true ReadOnly 8192, 1 1 1 0, add 0, step 24, send 52"
    );
    let more = layout_text(
        alloc,
        &CLANG,
        Patch {
            at: BSS_ALIGN,
            value: 8192,
        },
        NOTHING,
    )?;
    assert_eq!(rt; more.as_str(), "Alignment(4)");
    let odd = layout_text(
        alloc,
        &CLANG,
        Patch {
            at: BSS_ALIGN,
            value: 6,
        },
        NOTHING,
    )?;
    assert_eq!(rt; odd.as_str(), "Alignment(4)");
    let none = layout_text(
        alloc,
        &CLANG,
        Patch {
            at: BSS_ALIGN,
            value: 0,
        },
        NOTHING,
    )?;
    assert_eq!(rt;
        none.as_str(),
        "2 true Text 0, 4 true Writable 20480, 5 true ReadOnly 8192, 1 1 1 0, add 0, step 24, send 52"
    );
    // Text, stubs, read-only data, table and local area have a page each, so 57 are left for data.
    let full = layout_text(
        alloc,
        &CLANG,
        Patch {
            at: BSS_SIZE,
            value: 57 * 4096,
        },
        NOTHING,
    )?;
    assert_eq!(rt;
        full.as_str(),
        "2 true Text 0, 4 true Writable 20480, 5 true ReadOnly 8192, 1 1 57 0, add 0, step 24, send 52"
    );
    let over = layout_text(
        alloc,
        &CLANG,
        Patch {
            at: BSS_SIZE,
            value: 57 * 4096 + 1,
        },
        NOTHING,
    )?;
    assert_eq!(rt; over.as_str(), "TooManyPages(63)");
    let both = layout_text(
        alloc,
        &CLANG,
        Patch {
            at: BSS_SIZE,
            value: 57 * 4096 + 1,
        },
        Patch {
            at: BSS_ALIGN,
            value: 3,
        },
    )?;
    assert_eq!(rt; both.as_str(), "Alignment(4)");
    Ok(())
}

/// The header of `.text`, its flags, and symbol 7 with its number of a section, in the file that clang made.
const TEXT_FLAGS: usize = 752 + 2 * 64 + 8;

const SYMBOL_7: usize = 224 + 7 * 24;

/// What the first 8 bytes of symbol 7 make of the exports: a function that is weak, one that is local, a
/// symbol without a type, an object, a function that is undefined, a number, and a function in a section
/// that isn't kept.
#[rattlefmt::skip]
const EXPORT_CASES: [(u64, &str); 7] = [
    (563095982309440, "add 0, send 52"),
    (562958543355968, "add 0, send 52"),
    (563018672898112, "add 0, step 24, send 52"),
    (563022967865408, "add 0, send 52"),
    (77309411392, "add 0, send 52"),
    (18442522026368303168, "add 0, send 52"),
    (1688927169675328, "add 0, send 52"),
];

#[test]
fn exports_of_a_layout(rt: HostRuntime) -> Result<(), Fail> {
    let alloc = rt.alloc();
    let before = "2 true Text 0, 4 true Writable 20480, 5 true ReadOnly 8192, 1 1 1 0, ";
    for (value, exports) in EXPORT_CASES {
        let patch = Patch {
            at: SYMBOL_7,
            value,
        };
        let text = layout_text(alloc, &CLANG, patch, NOTHING)?;
        let wanted = format!(in alloc; "{before}{exports}")?;
        assert_eq!(rt; text.as_str(), wanted.as_str());
    }
    let same = Patch {
        at: SYMBOL_7,
        value: 563027262832744,
    };
    let repeated = layout_text(alloc, &CLANG, same, NOTHING)?;
    assert_eq!(rt; repeated.as_str(), "the name add is repeated");
    let unexecuted = Patch {
        at: TEXT_FLAGS,
        value: 2,
    };
    let none = layout_text(alloc, &CLANG, unexecuted, NOTHING)?;
    assert_eq!(rt; none.as_str(), "NoExport");
    let both = layout_text(
        alloc,
        &CLANG,
        same,
        Patch {
            at: BSS_SIZE,
            value: 57 * 4096 + 1,
        },
    )?;
    assert_eq!(rt; both.as_str(), "TooManyPages(63)");
    Ok(())
}

/// Where the symbols of the file are that clang made: those in zeros, in constants and in text; symbol 0,
/// a number, an undefined symbol, and a number of none.
const POSITIONS: [(u64, Option<u128>); 7] = [
    (3, Some(20480)),
    (5, Some(8192)),
    (7, Some(24)),
    (0, None),
    (1, None),
    (9, None),
    (10, None),
];

#[test]
fn symbols_have_positions(rt: HostRuntime) -> Result<(), Fail> {
    let alloc = rt.alloc();
    let object = read_object(alloc, &CLANG).ok().ok_or("the file is read")?;
    let layout = split(alloc, &object).ok().ok_or("the object is split")?;
    for (number, offset) in POSITIONS {
        let position = layout.position(&object, number);
        let wanted = offset.map(|offset| Position {
            movable: true,
            offset,
        });
        assert_eq!(rt; position, wanted);
    }
    Ok(())
}

/// The name and the type of `.text`, and its size, in the file that adds.
const SUM_TYPE: usize = 160 + 64;

const SUM_SIZE: usize = 160 + 64 + 32;

#[test]
fn text_of_59_pages_fits(rt: HostRuntime) -> Result<(), Fail> {
    let alloc = rt.alloc();
    let zeros = Patch {
        at: SUM_TYPE,
        value: 1 + (8 << 32),
    };
    let most = Patch {
        at: SUM_SIZE,
        value: 241_664,
    };
    let full = layout_text(alloc, &SUM, zeros, most)?;
    assert_eq!(rt; full.as_str(), "1 true Text 0, 59 0 0 0, sum 0");
    let more = Patch {
        at: SUM_SIZE,
        value: 241_665,
    };
    let over = layout_text(alloc, &SUM, zeros, more)?;
    assert_eq!(rt; over.as_str(), "TooManyPages(63)");
    Ok(())
}

/// What a file says of its relocations, as text.
fn relas_text(alloc: Global, file: &[u8]) -> Result<String, Fail> {
    let object = read_object(alloc, file).ok().ok_or("the file is read")?;
    let mut text = String::new(alloc);
    for rela in object.relas.as_slice() {
        let (section, entry, target) = (rela.section, rela.entry, rela.target);
        let (offset, symbol, typ) = (rela.offset, rela.symbol, rela.typ);
        write!(text, "{section} {entry} {target} {offset} {symbol} {typ}, ")?;
    }
    Ok(text)
}

#[test]
fn files_in_the_manner_of_a_compiler_are_taken(rt: HostRuntime) -> Result<(), Fail> {
    let alloc = rt.alloc();
    let wanted = "1 true Text 0, 3 true Writable 16384, 4 true Writable 16384, 1 0 0 0, get 0";
    let plain = layout_text(alloc, &CALL, NOTHING, NOTHING)?;
    assert_eq!(rt; plain.as_str(), wanted);
    let relaxed = layout_text(alloc, &RELAXED, NOTHING, NOTHING)?;
    assert_eq!(rt; relaxed.as_str(), wanted);
    // The relocations of `.eh_frame` aren't kept.
    let relas = relas_text(alloc, &CALL)?;
    assert_eq!(rt; relas.as_str(), "2 0 1 0 4 19, ");
    let relas = relas_text(alloc, &RELAXED)?;
    assert_eq!(rt; relas.as_str(), "2 0 1 0 4 19, 2 1 1 0 0 51, ");
    Ok(())
}
