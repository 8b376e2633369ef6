//! Object files that tests are made of.

use std::alloc::Global;
use std::test::Fail;

/// An entry of relocations: the offset of its field, its type, the number of its symbol, and its addend.
pub(crate) type Entry = (u64, u32, u32, i64);

/// The sections that relocations apply to, by their numbers.
pub(crate) const TEXT: u64 = 1;

pub(crate) const FIXED_TEXT: u64 = 2;

pub(crate) const LOCAL_DATA: u64 = 3;

pub(crate) const DATA: u64 = 4;

const NAMES: &[u8] = b"\0f\0g\0k_in\0number\0here\0";

const SECTION_NAMES: &[u8] =
    b"\0.text\0.text.fixed\0.data.rel.ro\0.data\0.rela\0.symtab\0.strtab\0.shstrtab\0";

/// Name, binding and type, section and value of the symbols: 1 `f` in `.text`, 2 `g` in `.text.fixed`, 3 `k_in`, 4 `number`,
/// which is 5, and 5 `here` in `.text`.
#[rattlefmt::skip]
const SYMBOLS: [(u64, u64, u64, u64); 6] = [
    (0, 0, 0, 0), (1, 0x12, 1, 0), (3, 0x12, 2, 8), (5, 0x10, 0, 0), (10, 0x10, 0xfff1, 5), (17, 0, 1, 8),
];

/// Appends a number of so many bytes, the lowest first.
fn put(out: &mut Vec<u8>, bytes: u32, number: u64) -> Result<(), Fail> {
    let mut rest = number;
    for _ in 0..bytes {
        out.push((rest % 256) as u8)?;
        rest /= 256;
    }
    Ok(())
}

/// Where the next byte is in the file, behind its header.
fn place(out: &Vec<u8>) -> u64 {
    out.len() as u64 % 0x1000_0000 + 64
}

/// A section: its name, type, flags, place, size, link, section that it applies to, and size of an entry.
type Header = [u64; 8];

/// Appends the header of a section.
fn put_header(out: &mut Vec<u8>, header: Header) -> Result<(), Fail> {
    put(out, 4, header[0])?;
    put(out, 4, header[1])?;
    put(out, 8, header[2])?;
    put(out, 8, 0)?;
    put(out, 8, header[3])?;
    put(out, 8, header[4])?;
    put(out, 4, header[5])?;
    put(out, 4, header[6])?;
    put(out, 8, 8)?;
    put(out, 8, header[7])
}

/// The bytes of a file whose section `target` has these relocations, which stand in section 5. It has `.text` and
/// `.text.fixed` of 64 bytes, and `.data.rel.ro` and `.data` of 16.
pub(crate) fn file(alloc: Global, target: u64, entries: &[Entry]) -> Result<Vec<u8>, Fail> {
    let mut body = Vec::new(alloc);
    put(&mut body, 160, 0)?;
    for (name, info, section, value) in SYMBOLS {
        put(&mut body, 4, name)?;
        put(&mut body, 2, info)?;
        put(&mut body, 2, section)?;
        put(&mut body, 8, value)?;
        put(&mut body, 8, 0)?;
    }
    let relas = place(&body);
    for (offset, typ, symbol, addend) in entries {
        put(&mut body, 8, *offset)?;
        put(&mut body, 4, u64::from(*typ))?;
        put(&mut body, 4, u64::from(*symbol))?;
        put(&mut body, 8, addend.cast_unsigned())?;
    }
    let names = place(&body);
    body.extend_from_slice(NAMES)?;
    let section_names = place(&body);
    body.extend_from_slice(SECTION_NAMES)?;
    let table = place(&body);
    let rela_bytes = names.saturating_sub(relas);
    put_header(&mut body, [0; 8])?;
    put_header(&mut body, [1, 1, 6, 64, 64, 0, 0, 0])?;
    put_header(&mut body, [7, 1, 6, 128, 64, 0, 0, 0])?;
    put_header(&mut body, [19, 1, 3, 192, 16, 0, 0, 0])?;
    put_header(&mut body, [32, 1, 3, 208, 16, 0, 0, 0])?;
    put_header(&mut body, [38, 4, 0, relas, rela_bytes, 6, target, 24])?;
    put_header(&mut body, [44, 2, 0, 224, 144, 7, 1, 24])?;
    put_header(&mut body, [52, 3, 0, names, NAMES.len() as u64, 0, 0, 0])?;
    put_header(
        &mut body,
        [60, 3, 0, section_names, SECTION_NAMES.len() as u64, 0, 0, 0],
    )?;
    let mut file = Vec::from_slice(alloc, b"\x7fELF\x02\x01\x01")?;
    for (bytes, number) in [
        (9, 0),
        (2, 1),
        (2, 243),
        (4, 1),
        (16, 0),
        (8, table),
        (4, 0),
    ] {
        put(&mut file, bytes, number)?;
    }
    for (bytes, number) in [(2, 64), (4, 0), (2, 64), (2, 9), (2, 8)] {
        put(&mut file, bytes, number)?;
    }
    file.extend_from_slice(body.as_slice())?;
    Ok(file)
}
