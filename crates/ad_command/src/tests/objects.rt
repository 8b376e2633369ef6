//! Object files of small modules.

use ad_base::{Name, Sequence};
use ad_elf::{SHF_ALLOC, SHF_EXECINSTR, SHF_WRITE, SHT_NOBITS, SHT_PROGBITS};
use ad_kit::{KitRela, KitSection, KitSymbol, is_writable, write_object};
use std::alloc::Global;
use std::test::Fail;

/// A relocation: the offset of its field, the number of its symbol, and its type.
pub type Entry = (u64, u64, u32);

/// A section that is loaded, and the relocations that apply to it.
#[derive(Clone, Copy)]
pub struct Part<'a> {
    pub name: &'a [u8],
    pub flags: u64,
    /// Its bytes, or none for a section of zeros.
    pub bytes: &'a [u8],
    /// How many bytes a section of zeros has.
    pub zeros: u64,
    pub entries: &'a [Entry],
}

/// A symbol: its name, its binding and type, the number of its section, and its value.
pub type Named<'a> = (&'a [u8], u8, u16, u64);

/// A section of instructions.
pub fn text<'a>(bytes: &'a [u8], entries: &'a [Entry]) -> Part<'a> {
    Part {
        name: b".text",
        flags: SHF_ALLOC + SHF_EXECINSTR,
        bytes,
        zeros: 0,
        entries,
    }
}

/// A section of so many zeros that are written to.
pub fn zeros<'a>(size: u64) -> Part<'a> {
    Part {
        name: b".bss",
        flags: SHF_ALLOC + SHF_WRITE,
        bytes: b"",
        zeros: size,
        entries: &[],
    }
}

/// The bytes of instruction words.
pub fn word_bytes(alloc: Global, words: &[u32]) -> Result<Vec<u8>, Fail> {
    let mut bytes = Vec::new(alloc);
    for word in words {
        bytes.extend_from_slice(&word.to_le_bytes())?;
    }
    Ok(bytes)
}

/// The object of these instruction words, which are the one export.
pub fn function(alloc: Global, words: &[u32], name: &[u8]) -> Result<Vec<u8>, Fail> {
    let bytes = word_bytes(alloc, words)?;
    let section = section(alloc, &text(bytes.as_slice(), &[]))?;
    let symbol = KitSymbol {
        name: Name::of(alloc, name)?,
        info: 0x12,
        shndx: 1,
        value: 0,
        size: bytes.len() as u64,
    };
    written(alloc, &[section], &[symbol])
}

/// The object of these sections and symbols, of which local ones come first.
pub fn object(alloc: Global, parts: &[Part], names: &[Named]) -> Result<Vec<u8>, Fail> {
    let mut sections = Vec::new(alloc);
    for part in parts {
        sections.push(section(alloc, part)?)?;
    }
    let symbols = symbols(alloc, names)?;
    written(alloc, sections.as_slice(), symbols.as_slice())
}

fn section(alloc: Global, part: &Part) -> Result<KitSection, Fail> {
    let typ = if part.zeros == 0 {
        SHT_PROGBITS
    } else {
        SHT_NOBITS
    };
    Ok(KitSection {
        name: Name::of(alloc, part.name)?,
        typ,
        flags: part.flags,
        align: 4,
        bytes: Sequence::of(Vec::from_slice(alloc, part.bytes)?),
        size: part.zeros,
        relas: Sequence::of(relas(alloc, part.entries)?),
    })
}

fn relas(alloc: Global, entries: &[Entry]) -> Result<Vec<KitRela>, Fail> {
    let mut relas = Vec::new(alloc);
    for (offset, symbol, typ) in entries {
        let (offset, symbol, typ) = (*offset, *symbol, *typ);
        relas.push(KitRela {
            offset,
            symbol,
            typ,
            addend: 0,
        })?;
    }
    Ok(relas)
}

fn symbols(alloc: Global, names: &[Named]) -> Result<Vec<KitSymbol>, Fail> {
    let mut symbols = Vec::new(alloc);
    for (name, info, shndx, value) in names {
        let (info, shndx, value) = (*info, *shndx, *value);
        symbols.push(KitSymbol {
            name: Name::of(alloc, name)?,
            info,
            shndx,
            value,
            size: 0,
        })?;
    }
    Ok(symbols)
}

/// The file of sections and symbols.
fn written(alloc: Global, sections: &[KitSection], symbols: &[KitSymbol]) -> Result<Vec<u8>, Fail> {
    if !is_writable(sections, symbols) {
        return Err("lists that can be written".into());
    }
    Ok(write_object(alloc, sections, symbols)?)
}
