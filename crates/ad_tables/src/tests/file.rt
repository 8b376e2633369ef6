//! Object files that tests are made of.

use std::alloc::Global;
use std::test::Fail;

/// An entry of relocations: its type, and the number of its symbol.
pub(crate) type Entry = (u32, u32);

/// What is told of a file. It has the sections 1 `.text` and 2 `.text.fixed`, of 64 bytes, and 3 `.data.rel.ro`, of
/// zeros; and the symbols 1 `f` in `.text`, 2 `g` in `.text.fixed`, 3 `k_in` and 5 `missing`, which are undefined, 4
/// `number`, which is absolute, 6 a second `k_in`, 7 a weak `k_out`, and behind them absolute ones.
#[derive(Clone, Copy, Debug)]
pub(crate) struct Sketch<'a> {
    /// Bytes of `.data.rel.ro`.
    pub local_bytes: u64,
    /// How many symbols there are more than those named.
    pub more_symbols: u32,
    /// The entries that apply to `.text`.
    pub text: &'a [Entry],
    /// The entries that apply to `.text.fixed`.
    pub fixed: &'a [Entry],
}

/// The names of symbols, and those of sections.
const NAMES: &[u8] = b"\0f\0g\0k_in\0number\0missing\0k_out\0";

const SECTION_NAMES: &[u8] =
    b"\0.text\0.text.fixed\0.data.rel.ro\0.rela.text\0.rela.text.fixed\0.symtab\0.strtab\0.shstrtab\0";

/// Name, binding and type, section and value of the named symbols.
#[rattlefmt::skip]
const SYMBOLS: [(u64, u64, u64, u64); 8] = [
    (0, 0, 0, 0), (1, 0x12, 1, 0), (3, 0x12, 2, 8), (5, 0x10, 0, 0), (10, 0x10, 0xfff1, 5), (17, 0x10, 0, 0),
    (5, 0x10, 0, 0), (25, 0x20, 0, 0),
];

/// Appends a number of so many bytes, the lowest first.
fn put(out: &mut Vec<u8>, bytes: u32, number: u64) -> Result<(), Fail> {
    let mut rest = number;
    for _ in 0..bytes {
        out.push((rest % 256) as u8)?;
        rest /= 256;
    }
    Ok(())
}

/// Appends a symbol.
fn put_symbol(out: &mut Vec<u8>, symbol: (u64, u64, u64, u64)) -> Result<(), Fail> {
    put(out, 4, symbol.0)?;
    put(out, 2, symbol.1)?;
    put(out, 2, symbol.2)?;
    put(out, 8, symbol.3)?;
    put(out, 8, 0)
}

/// Appends entries, whose fields lie one behind the other as far as there is room.
fn put_entries(out: &mut Vec<u8>, entries: &[Entry]) -> Result<(), Fail> {
    for k in 0..entries.len() {
        put(out, 8, (k % 8) as u64 * 8)?;
        put(out, 4, u64::from(entries[k].0))?;
        put(out, 4, u64::from(entries[k].1))?;
        put(out, 8, 0)?;
    }
    Ok(())
}

/// A section: its name, type, flags, place, size, link, section that it applies to, alignment and size of an entry.
type Header = [u64; 9];

/// Appends the header of a section.
fn put_header(out: &mut Vec<u8>, header: Header) -> Result<(), Fail> {
    put(out, 4, header[0])?;
    put(out, 4, header[1])?;
    put(out, 8, header[2])?;
    put(out, 8, 0)?;
    put(out, 8, header[3])?;
    put(out, 8, header[4])?;
    put(out, 4, header[5])?;
    put(out, 4, header[6])?;
    put(out, 8, header[7])?;
    put(out, 8, header[8])
}

/// The bytes of the file.
pub(crate) fn file(alloc: Global, sketch: Sketch<'_>) -> Result<Vec<u8>, Fail> {
    let mut body = Vec::new(alloc);
    put(&mut body, 128, 0)?;
    let symbols = 192;
    for symbol in SYMBOLS {
        put_symbol(&mut body, symbol)?;
    }
    for _ in 0..sketch.more_symbols {
        put_symbol(&mut body, (10, 0x10, 0xfff1, 6))?;
    }
    let text_entries = body.len() as u64 % 0x1000_0000 + 64;
    put_entries(&mut body, sketch.text)?;
    let fixed_entries = body.len() as u64 % 0x1000_0000 + 64;
    put_entries(&mut body, sketch.fixed)?;
    let names = body.len() as u64 % 0x1000_0000 + 64;
    body.extend_from_slice(NAMES)?;
    body.extend_from_slice(SECTION_NAMES)?;
    let table = body.len() as u64 % 0x1000_0000 + 64;
    let symbol_bytes = text_entries.saturating_sub(192);
    let text_bytes = fixed_entries.saturating_sub(text_entries);
    let fixed_bytes = names.saturating_sub(fixed_entries);
    put_header(&mut body, [0; 9])?;
    put_header(&mut body, [1, 1, 6, 64, 64, 0, 0, 4, 0])?;
    put_header(&mut body, [7, 1, 6, 128, 64, 0, 0, 4, 0])?;
    put_header(&mut body, [19, 8, 3, 0, sketch.local_bytes, 0, 0, 8, 0])?;
    put_header(&mut body, [32, 4, 0, text_entries, text_bytes, 6, 1, 8, 24])?;
    put_header(
        &mut body,
        [43, 4, 0, fixed_entries, fixed_bytes, 6, 2, 8, 24],
    )?;
    put_header(&mut body, [60, 2, 0, symbols, symbol_bytes, 7, 1, 8, 24])?;
    put_header(&mut body, [68, 3, 0, names, NAMES.len() as u64, 0, 0, 1, 0])?;
    put_header(
        &mut body,
        [76, 3, 0, names + 31, SECTION_NAMES.len() as u64, 0, 0, 1, 0],
    )?;
    let mut file = Vec::from_slice(alloc, b"\x7fELF\x02\x01\x01")?;
    put(&mut file, 9, 0)?;
    put(&mut file, 2, 1)?;
    put(&mut file, 2, 243)?;
    put(&mut file, 4, 1)?;
    put(&mut file, 16, 0)?;
    put(&mut file, 8, table)?;
    put(&mut file, 4, 0)?;
    put(&mut file, 2, 64)?;
    put(&mut file, 4, 0)?;
    put(&mut file, 2, 64)?;
    put(&mut file, 2, 9)?;
    put(&mut file, 2, 8)?;
    file.extend_from_slice(body.as_slice())?;
    Ok(file)
}
