//! Object files that are written, and read back.

use crate::{KitRela, KitSection, KitSymbol, is_writable, write_object};
use ad_base::{Name, Sequence};
use ad_elf::{
    ElfRefusal, Object, R_RISCV_32, R_RISCV_64, R_RISCV_CALL_PLT, R_RISCV_RELAX, SHF_ALLOC,
    SHF_COMPRESSED, SHF_EXECINSTR, SHF_TLS, SHF_WRITE, SHN_ABS, SHT_NOBITS, SHT_NOTE, SHT_PROGBITS,
    SHT_REL, SHT_RELA, SHT_STRTAB, SHT_SYMTAB, read_object,
};
use ad_parts::split;
use std::alloc::Global;
use std::test::Fail;

/// A section of the program with so many bytes of one kind, which is loaded.
fn section(alloc: Global, name: &[u8], byte: u8, count: usize) -> Result<KitSection, Fail> {
    let mut bytes = Vec::new(alloc);
    bytes.resize(count, byte)?;
    Ok(KitSection {
        name: Name::of(alloc, name)?,
        typ: SHT_PROGBITS,
        flags: SHF_ALLOC,
        align: 8,
        bytes: Sequence::of(bytes),
        size: 0,
        relas: Sequence::of(Vec::new(alloc)),
    })
}

/// A section of so many zeros, which is loaded.
fn zeros(alloc: Global, size: u64) -> Result<KitSection, Fail> {
    let mut made = section(alloc, b".bss", 0, 0)?;
    made.typ = SHT_NOBITS;
    made.flags = SHF_ALLOC + SHF_WRITE;
    made.size = size;
    Ok(made)
}

/// The same section with one relocation.
fn with_rela(
    alloc: Global,
    section: KitSection,
    offset: u64,
    symbol: u64,
    typ: u32,
) -> Result<KitSection, Fail> {
    let mut made = section;
    let rela = KitRela {
        offset,
        symbol,
        typ,
        addend: -4,
    };
    made.relas = Sequence::of(Vec::from_slice(alloc, &[rela])?);
    Ok(made)
}

/// A symbol of a section.
pub(crate) fn symbol(
    alloc: Global,
    name: &[u8],
    info: u8,
    shndx: u16,
    value: u64,
) -> Result<KitSymbol, Fail> {
    Ok(KitSymbol {
        name: Name::of(alloc, name)?,
        info,
        shndx,
        value,
        size: 8,
    })
}

/// The file of sections and symbols.
pub(crate) fn written(
    alloc: Global,
    sections: &[KitSection],
    symbols: &[KitSymbol],
) -> Result<Vec<u8>, Fail> {
    if !is_writable(sections, symbols) {
        return Err("the lists can be written")?;
    }
    Ok(
        write_object(alloc, sections, symbols)
            .ok()
            .ok_or("the file is written")?,
    )
}

/// The object that is read back, or why its file is refused.
fn read_back(
    alloc: Global,
    sections: &[KitSection],
    symbols: &[KitSymbol],
) -> Result<Result<Object, ElfRefusal>, Fail> {
    let file = written(alloc, sections, symbols)?;
    Ok(read_object(alloc, file.as_slice()))
}

/// Why the file is refused, or `None` where it is read.
fn refusal(
    alloc: Global,
    sections: &[KitSection],
    symbols: &[KitSymbol],
) -> Result<Option<ElfRefusal>, Fail> {
    match read_back(alloc, sections, symbols)? {
        Ok(_object) => Ok(None),
        Err(refusal) => Ok(Some(refusal)),
    }
}

/// What an object says, as text.
fn told(alloc: Global, object: &Object) -> Result<String, Fail> {
    let mut text = String::new(alloc);
    for section in object.sections.as_slice() {
        let (index, name, typ, size) = (section.index, &section.name, section.typ, section.size);
        let (align, bytes) = (section.align, section.bytes.len());
        write!(text, "{index} {name} {typ} {size} {align} {bytes}; ")?;
    }
    for symbol in object.symbols.as_slice() {
        let (name, bind, kind) = (&symbol.name, symbol.bind, symbol.kind);
        let (shndx, value) = (symbol.shndx, symbol.value);
        write!(text, "{name} {bind} {kind} {shndx} {value}; ")?;
    }
    for rela in object.relas.as_slice() {
        let (section, entry, target) = (rela.section, rela.entry, rela.target);
        let (offset, symbol, typ, addend) = (rela.offset, rela.symbol, rela.typ, rela.addend);
        write!(
            text,
            "{section}.{entry} {target} {offset} {symbol} {typ} {addend}; "
        )?;
    }
    Ok(text)
}

#[test]
fn an_object_of_nothing_is_written(rt: HostRuntime) -> Result<(), Fail> {
    let alloc = rt.alloc();
    let file = write_object(alloc, &[], &[])
        .ok()
        .ok_or("the file is written")?;
    // The header of the file, symbol 0, a zero byte, the names `.symtab`, `.strtab` and `.shstrtab`
    // behind another, 4 bytes up to a multiple of 8, and four headers.
    assert_eq!(rt; file.len(), 64 + 24 + 1 + 27 + 4 + 4 * 64);
    let object = read_object(alloc, file.as_slice())
        .ok()
        .ok_or("the file is read")?;
    assert_eq!(rt; told(alloc, &object)?.as_str(), " 0 0 0 0; ");
    Ok(())
}

#[test]
fn a_written_object_is_read_back(rt: HostRuntime) -> Result<(), Fail> {
    let alloc = rt.alloc();
    let mut text = section(alloc, b".text", 0x13, 12)?;
    text.flags = SHF_ALLOC + SHF_EXECINSTR;
    text.align = 4;
    let relax = KitRela {
        offset: 4,
        symbol: 0,
        typ: R_RISCV_RELAX,
        addend: 0,
    };
    let call = KitRela {
        offset: 4,
        symbol: 3,
        typ: R_RISCV_CALL_PLT,
        addend: 0,
    };
    text.relas = Sequence::of(Vec::from_slice(alloc, &[call, relax])?);
    let mut comment = section(alloc, b".comment", b'c', 5)?;
    comment.flags = 0;
    let data = section(alloc, b".data", 7, 16)?;
    let frame = section(alloc, b".eh_frame", 1, 8)?;
    let sections = vec![in alloc;
        text,
        zeros(alloc, 24)?,
        comment,
        with_rela(alloc, data, 8, 1, R_RISCV_64)?,
        with_rela(alloc, frame, 4, 1, R_RISCV_32)?,
    ]?;
    let symbols = vec![in alloc;
        symbol(alloc, b"here", 1, 3, 24)?,
        symbol(alloc, b"start", 0x12, 1, 4)?,
        symbol(alloc, b"k_in", 0x10, 0, 0)?,
        symbol(alloc, b"here", 0x10, SHN_ABS, 99)?,
    ]?;
    let object = read_back(alloc, sections.as_slice(), symbols.as_slice())?
        .ok()
        .ok_or("the file is read")?;
    // Each section with relocations has one number more, so the sections are 1, 3, 4, 5 and 7.
    assert_eq!(rt;
        told(alloc, &object)?.as_str(),
        "1 .text 1 12 4 12; 3 .bss 8 24 8 0; 5 .data 1 16 8 16;  0 0 0 0; here 0 1 3 24; start 1 2 1 4; k_in 1 0 0 0; here 1 0 65521 99; 2.0 1 4 3 19 0; 2.1 1 4 0 51 0; 6.0 5 8 1 2 -4; "
    );
    Ok(())
}

#[test]
fn a_list_can_be_written_or_not(rt: HostRuntime) -> Result<(), Fail> {
    let alloc = rt.alloc();
    for (align, expected) in [
        (0, false),
        (1, true),
        (3, false),
        (2048, true),
        (4096, true),
        (8192, false),
    ] {
        let mut made = section(alloc, b".data", 7, 16)?;
        made.align = align;
        assert_eq!(rt; is_writable(&[made], &[]), expected, "{align}");
    }
    for (number, expected) in [((1 << 32) - 1, true), (1 << 32, false)] {
        let made = section(alloc, b".data", 7, 16)?;
        let made = with_rela(alloc, made, 0, number, R_RISCV_64)?;
        assert_eq!(rt; is_writable(&[made], &[]), expected, "{number}");
    }
    let zero = section(alloc, b".da\0ta", 7, 16)?;
    assert_eq!(rt; is_writable(&[zero], &[]), false);
    let zero = symbol(alloc, b"\0", 0, 0, 0)?;
    assert_eq!(rt; is_writable(&[], &[zero]), false);
    for (first, second, expected) in [
        (0, 0, true),
        (15, 16, true),
        (0x12, 0x22, true),
        (16, 15, false),
        (0x20, 0, false),
    ] {
        let one = symbol(alloc, b"one", first, 0, 0)?;
        let two = symbol(alloc, b"two", second, 0, 0)?;
        assert_eq!(rt; is_writable(&[], &[one, two]), expected, "{first} {second}");
    }
    Ok(())
}

#[test]
fn fewer_than_10_000_are_written(rt: HostRuntime) -> Result<(), Fail> {
    let alloc = rt.alloc();
    for (symbols, expected) in [(9_997, true), (9_998, false)] {
        let made = section(alloc, b".data", 7, 16)?;
        let made = with_rela(alloc, made, 0, 1, R_RISCV_64)?;
        let mut list = Vec::new(alloc);
        for _ in 0..symbols {
            list.push(symbol(alloc, b"", 0, 0, 0)?)?;
        }
        assert_eq!(rt;
            is_writable(&[made], list.as_slice()),
            expected,
            "{symbols}"
        );
    }
    Ok(())
}

#[test]
fn a_section_is_read_or_refused(rt: HostRuntime) -> Result<(), Fail> {
    let alloc = rt.alloc();
    for (typ, flags, expected) in [
        (SHT_PROGBITS, SHF_ALLOC, None),
        (SHT_NOTE, SHF_ALLOC, None),
        (SHT_STRTAB, 0, None),
        (SHT_STRTAB, SHF_ALLOC, Some(ElfRefusal::SectionType(1))),
        (
            SHT_PROGBITS,
            SHF_ALLOC + SHF_TLS,
            Some(ElfRefusal::SectionType(1)),
        ),
        (
            SHT_PROGBITS,
            SHF_ALLOC + SHF_COMPRESSED,
            Some(ElfRefusal::SectionType(1)),
        ),
        (SHT_PROGBITS, SHF_TLS + SHF_COMPRESSED, None),
        (SHT_REL, 0, Some(ElfRefusal::SectionType(1))),
        (SHT_SYMTAB, 0, Some(ElfRefusal::SymbolTable)),
        (SHT_RELA, 0, Some(ElfRefusal::RelaTarget(1))),
    ] {
        let mut made = section(alloc, b".data", 7, 16)?;
        made.typ = typ;
        made.flags = flags;
        assert_eq!(rt; refusal(alloc, &[made], &[])?, expected, "{typ} {flags}");
    }
    for (size, expected) in [
        (1 << 32, None),
        ((1 << 32) + 1, Some(ElfRefusal::SectionBounds(1))),
    ] {
        assert_eq!(rt;
            refusal(alloc, &[zeros(alloc, size)?], &[])?,
            expected,
            "{size}"
        );
    }
    let made = with_rela(alloc, zeros(alloc, 16)?, 0, 0, R_RISCV_64)?;
    assert_eq!(rt;
        refusal(alloc, &[made], &[])?,
        Some(ElfRefusal::RelaTarget(2))
    );
    Ok(())
}

#[test]
fn a_name_is_read_or_refused(rt: HostRuntime) -> Result<(), Fail> {
    let alloc = rt.alloc();
    for (letters, plain, related, named) in [
        (4091, None, None, None),
        (4092, None, Some(ElfRefusal::StringIndex(2)), None),
        (4096, None, Some(ElfRefusal::StringIndex(2)), None),
        (
            4097,
            Some(ElfRefusal::StringIndex(1)),
            Some(ElfRefusal::StringIndex(1)),
            Some(ElfRefusal::SymbolTable),
        ),
    ] {
        let mut name = Vec::new(alloc);
        name.resize(letters, b'a')?;
        let name = name.as_slice();
        let made = section(alloc, name, 7, 16)?;
        assert_eq!(rt; refusal(alloc, &[made], &[])?, plain, "{letters}");
        let made = section(alloc, name, 7, 16)?;
        let made = with_rela(alloc, made, 0, 0, R_RISCV_64)?;
        assert_eq!(rt; refusal(alloc, &[made], &[])?, related, "{letters}");
        let made = symbol(alloc, name, 0, 0, 0)?;
        assert_eq!(rt; refusal(alloc, &[], &[made])?, named, "{letters}");
    }
    Ok(())
}

#[test]
fn a_symbol_and_a_relocation_are_read_or_refused(rt: HostRuntime) -> Result<(), Fail> {
    let alloc = rt.alloc();
    // `.data` is section 1 and `.rela.data` section 2, with one entry; section 5 is the last.
    for (shndx, value, expected) in [
        (1, 16, None),
        (1, 17, Some(ElfRefusal::SymbolSection(1))),
        (2, 24, None),
        (2, 25, Some(ElfRefusal::SymbolSection(1))),
        (5, 0, None),
        (6, 0, Some(ElfRefusal::SymbolSection(1))),
        (0, 99, None),
        (SHN_ABS, 99, None),
    ] {
        let made = section(alloc, b".data", 7, 16)?;
        let made = with_rela(alloc, made, 0, 1, R_RISCV_64)?;
        let one = symbol(alloc, b"one", 0, shndx, value)?;
        assert_eq!(rt;
            refusal(alloc, &[made], &[one])?,
            expected,
            "{shndx} {value}"
        );
    }
    for (offset, number, typ, expected) in [
        (8, 1, R_RISCV_64, None),
        (9, 1, R_RISCV_64, Some(ElfRefusal::RelaOffset(2, 0))),
        (12, 1, R_RISCV_32, None),
        (13, 1, R_RISCV_32, Some(ElfRefusal::RelaOffset(2, 0))),
        (16, 1, R_RISCV_RELAX, None),
        (17, 1, R_RISCV_RELAX, Some(ElfRefusal::RelaOffset(2, 0))),
        (8, 2, R_RISCV_64, Some(ElfRefusal::RelaSymbol(2, 0))),
    ] {
        let made = section(alloc, b".data", 7, 16)?;
        let made = with_rela(alloc, made, offset, number, typ)?;
        let one = symbol(alloc, b"one", 0, 1, 0)?;
        assert_eq!(rt;
            refusal(alloc, &[made], &[one])?,
            expected,
            "{offset} {number} {typ}"
        );
    }
    Ok(())
}

/// Bytes of the local area of an object that is written, read back and laid out.
fn local_bytes(
    alloc: Global,
    sections: &[KitSection],
    symbols: &[KitSymbol],
) -> Result<u128, Fail> {
    let file = written(alloc, sections, symbols)?;
    match read_object(alloc, file.as_slice()) {
        Ok(object) => match split(alloc, &object) {
            Ok(layout) => Ok(layout.sizes.local_bytes),
            Err(_refusal) => Err("it has a layout")?,
        },
        Err(_refusal) => Err("the file is read")?,
    }
}

#[test]
fn a_local_area_has_its_bytes(rt: HostRuntime) -> Result<(), Fail> {
    let alloc = rt.alloc();
    for bytes in [4096, 4104] {
        let mut text = section(alloc, b".text", 0x13, 8)?;
        text.flags = SHF_ALLOC + SHF_EXECINSTR;
        let local = section(alloc, b".data.rel.ro", 0, bytes)?;
        let start = symbol(alloc, b"start", 0x12, 1, 0)?;
        assert_eq!(rt;
            local_bytes(alloc, &[text, local], &[start])?,
            bytes as u128
        );
    }
    Ok(())
}
