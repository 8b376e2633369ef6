//! The words that entries need.

ghost use Rattle.ad_elf.specs.Range.{IsInRange};

use super::file::{Entry, Sketch, file};
use crate::refusal::TableRefusal;
use crate::table_set::tables;
use ad_elf::{Object, read_object};
use ad_parts::split;
use std::alloc::Global;
use std::test::Fail;

/// The tables of a file, as text: the symbols that have a word of the local area, and those of the fixed table.
fn words_text(alloc: Global, sketch: Sketch<'_>) -> Result<String, Fail> {
    let bytes = file(alloc, sketch)?;
    let object = read_object(alloc, bytes.as_slice())
        .ok()
        .ok_or("the file is read")?;
    tables_text(alloc, &object)
}

/// The tables of an object, as text.
fn tables_text(alloc: Global, object: &Object) -> Result<String, Fail>
    requires { IsInRange object.now }
{
    let layout = split(alloc, object).ok().ok_or("the object is laid out")?;
    let mut text = String::new(alloc);
    match tables(alloc, object, &layout) {
        Err(TableRefusal::Unresolved(name)) => write!(text, "{name} is unresolved")?,
        Err(refusal) => write!(text, "{refusal:?}")?,
        Ok(set) => {
            let (local, fixed) = (set.local.as_slice(), set.fixed.as_slice());
            write!(text, "{local:?} {fixed:?}")?;
        }
    }
    Ok(text)
}

const F: u32 = 1;

const G: u32 = 2;

const K_IN: u32 = 3;

const NUMBER: u32 = 4;

const MISSING: u32 = 5;

const K_IN_AGAIN: u32 = 6;

const WEAK_K_OUT: u32 = 7;

/// Types of relocations, of which the last is none that is taken.
const CALL: u32 = 18;

const CALL_PLT: u32 = 19;

const GOT: u32 = 20;

const PCREL_HI: u32 = 23;

const LOW: u32 = 24;

const RELAX: u32 = 51;

const ALIGN: u32 = 43;

/// Bytes of the local area's sections, entries of the movable and of the immovable part, and the tables.
#[rattlefmt::skip]
const CASES: [(u64, &[Entry], &[Entry], &str); 19] = [
    (0, &[], &[], "[] []"),
    (0, &[(GOT, F), (GOT, F)], &[], "[1] []"),
    (0, &[(GOT, G), (CALL, K_IN), (GOT, NUMBER), (GOT, G)], &[(CALL_PLT, K_IN)], "[] [2, 3, 4]"),
    (0, &[(CALL, F)], &[(GOT, F), (CALL, G)], "[] []"),
    (0, &[(CALL, G)], &[(GOT, NUMBER)], "[] [2, 4]"),
    (0, &[(PCREL_HI, K_IN), (2, K_IN)], &[(PCREL_HI, NUMBER)], "[] []"),
    (0, &[(GOT, K_IN), (GOT, K_IN_AGAIN)], &[], "[] [3, 6]"),
    (0, &[(GOT, 0)], &[], "[] [0]"),
    (0, &[(LOW, MISSING), (ALIGN, MISSING), (RELAX, MISSING)], &[], "[] []"),
    (0, &[(PCREL_HI, MISSING)], &[], "missing is unresolved"),
    (0, &[(2, F)], &[(2, WEAK_K_OUT)], "k_out is unresolved"),
    (4096, &[], &[], "[] []"),
    (4097, &[(2, MISSING)], &[], "LocalFull"),
    (4104, &[], &[], "LocalFull"),
    (4088, &[(GOT, F)], &[], "[1] []"),
    (4089, &[(GOT, F)], &[], "LocalFull"),
    (4096, &[(2, MISSING), (GOT, F)], &[], "missing is unresolved"),
    (4096, &[(GOT, F), (2, MISSING)], &[], "LocalFull"),
    (4096, &[(CALL, K_IN), (CALL, F)], &[], "[] [3]"),
];

#[test]
fn words_of_entries(rt: HostRuntime) -> Result<(), Fail> {
    for (local_bytes, text, fixed, expected) in CASES {
        let sketch = Sketch {
            local_bytes,
            more_symbols: 0,
            text,
            fixed,
        };
        let found = words_text(rt.alloc(), sketch)?;
        assert_eq!(rt; found.as_str(), expected);
    }
    Ok(())
}

/// The tables, as text, of an object whose entries load the addresses of so many symbols, from symbol 8 on.
fn loads_text(alloc: Global, symbols: u32) -> Result<String, Fail> {
    let mut entries = Vec::new(alloc);
    for number in 0..symbols {
        entries.push((GOT, number % 0x1_0000 + 8))?;
    }
    let sketch = Sketch {
        local_bytes: 0,
        more_symbols: 300,
        text: entries.as_slice(),
        fixed: &[],
    };
    words_text(alloc, sketch)
}

#[test]
fn a_table_of_256_words(rt: HostRuntime) -> Result<(), Fail> {
    let alloc = rt.alloc();
    let mut full = String::new(alloc);
    write!(full, "[] [8")?;
    for number in 9..264 {
        write!(full, ", {number}")?;
    }
    write!(full, "]")?;
    assert_eq!(rt; loads_text(alloc, 256)?.as_str(), full.as_str());
    assert_eq!(rt; loads_text(alloc, 257)?.as_str(), "FixedFull");
    Ok(())
}
