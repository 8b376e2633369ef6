//! The files of a run: the script, and modules.

use ad_base::{MemFile, Name, Sequence};
use ad_elf::{SHF_ALLOC, SHF_EXECINSTR, SHT_PROGBITS};
use ad_generator::built;
use ad_kit::{KitSection, KitSymbol, is_writable, write_object};
use std::alloc::Global;
use std::test::Fail;

/// `jalr x0, 0(ra)`.
const RETURN: u32 = 0x0000_8067;

/// Modules of one function: its name, the name of its file, and its words.
const FUNCTIONS: [(&[u8], &[u8], &[u32]); 3] = [
    // The function returns its own address: `auipc a0, 0`.
    (b"whereami", b"whereami.o", &[0x0000_0517, RETURN]),
    // It adds three to its argument: `addi a0, a0, 1`, three times.
    (
        b"count",
        b"count.o",
        &[0x0015_0513, 0x0015_0513, 0x0015_0513, RETURN],
    ),
    // It stores 8 bytes below its stack: `lui t0, 0xffffc; addi t0, t0, -8; add t0, t0, sp; sd zero, 0(t0)`.
    (
        b"below",
        b"below.o",
        &[0xffff_c2b7, 0xff82_8293, 0x0022_82b3, 0x0002_b023, RETURN],
    ),
];

/// `auipc a0, 0; sd a0, 0(t0); addi a0, x0, 0`. In the place of the third to fifth word of the counter, where t0 has the address of
/// its word of data, they store an address of the module's text there and return 0.
const KEEPS_AN_ADDRESS: [u32; 3] = [0x0000_0517, 0x00a2_b023, 0x0000_0513];

/// Where the third word of the text stands in the counter's file.
const THIRD_WORD: usize = 72;

/// The file `s`, with this script, and the modules.
pub fn all(alloc: Global, script: &str) -> Result<Vec<MemFile>, Fail> {
    let mut files = Vec::new(alloc);
    let script = Vec::from_slice(alloc, script.as_bytes())?;
    files.push(file(alloc, b"s", script)?)?;
    for (name, file_name, words) in FUNCTIONS {
        let object = function(alloc, words, name)?;
        files.push(file(alloc, file_name, object)?)?;
    }
    files.push(file(alloc, b"sum.o", built(alloc, 0)?)?)?;
    files.push(file(alloc, b"cnt.o", built(alloc, 1)?)?)?;
    files.push(file(alloc, b"keeps.o", keeps(alloc)?)?)?;
    Ok(files)
}

fn file(alloc: Global, name: &[u8], bytes: Vec<u8>) -> Result<MemFile, Fail> {
    Ok(MemFile {
        name: Name::of(alloc, name)?,
        bytes: Sequence::of(bytes),
    })
}

/// The object of a function that is the one export.
fn function(alloc: Global, words: &[u32], name: &[u8]) -> Result<Vec<u8>, Fail> {
    let bytes = word_bytes(alloc, words)?;
    let size = bytes.len() as u64;
    let section = KitSection {
        name: Name::of(alloc, b".text")?,
        typ: SHT_PROGBITS,
        flags: SHF_ALLOC + SHF_EXECINSTR,
        align: 4,
        bytes: Sequence::of(bytes),
        size: 0,
        relas: Sequence::of(Vec::new(alloc)),
    };
    let symbol = KitSymbol {
        name: Name::of(alloc, name)?,
        info: 0x12,
        shndx: 1,
        value: 0,
        size,
    };
    let (sections, symbols) = ([section], [symbol]);
    if !is_writable(&sections, &symbols) {
        return Err("lists that can be written".into());
    }
    Ok(write_object(alloc, &sections, &symbols)?)
}

fn word_bytes(alloc: Global, words: &[u32]) -> Result<Vec<u8>, Fail> {
    let mut bytes = Vec::new(alloc);
    for word in words {
        bytes.extend_from_slice(&word.to_le_bytes())?;
    }
    Ok(bytes)
}

/// The counter's file, with other words in its text.
fn keeps(alloc: Global) -> Result<Vec<u8>, Fail> {
    let object = built(alloc, 1)?;
    let words = word_bytes(alloc, &KEEPS_AN_ADDRESS)?;
    let mut changed = Vec::new(alloc);
    for (at, byte) in object.iter().enumerate() {
        let word = at
            .checked_sub(THIRD_WORD)
            .and_then(|offset| words.get(offset));
        changed.push(*word.unwrap_or(byte))?;
    }
    Ok(changed)
}
