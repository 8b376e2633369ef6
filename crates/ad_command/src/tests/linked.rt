//! Modules that are linked: what they reply, what is listed of them, and which are refused.

use super::objects::{Entry, Named, Part, function, object, text, word_bytes, zeros};
use super::{Given, RETURN, SUM, expect_fault, expect_refused, predict, seq, serve};
use ad_elf::{SHF_ALLOC, SHF_EXECINSTR, SHF_WRITE, SHN_ABS};
use std::process::Abort;
use std::sync::Wait;
use std::test::Fail;
use std::thread::Threads;

/// Types of relocations (RISC-V ELF psABI, "Relocations").
const NUMBER32: u32 = 1;

const NUMBER64: u32 = 2;

const BRANCH: u32 = 16;

const CALL_PLT: u32 = 19;

const GOT_HIGH: u32 = 20;

const HIGH: u32 = 23;

const LOW: u32 = 24;

const ABSOLUTE_HIGH: u32 = 26;

const ADD64: u32 = 36;

const RELAX: u32 = 51;

/// Numbers of the symbols in `NAMES`.
const HERE: u64 = 1;

const WORD: u64 = 2;

const E: u64 = 3;

const K_IN: u64 = 4;

const NOWHERE: u64 = 5;

/// Symbols of a module whose text is section 1 and has relocations, which are section 2, and whose data are section 3: the
/// text's start, the word of data, the function at the text's start, a service, and one that is nowhere.
const NAMES: [Named<'static>; 5] = [
    (b"here", 0, 1, 0),
    (b"word", 1, 3, 0),
    (b"e", 0x12, 1, 0),
    (b"k_in", 0x10, 0, 0),
    (b"nowhere", 0x10, 0, 0),
];

/// A function that adds its argument to a word, and returns the sum: `auipc t0, 0; addi t0, t0, 0; ld t1, 0(t0);
/// add a0, a0, t1; sd a0, 0(t0)`.
pub const COUNTER: [u32; 6] = [
    0x0000_0297,
    0x0002_8293,
    0x0002_b303,
    0x0065_0533,
    0x00a2_b023,
    RETURN,
];

/// A function that keeps its own address in a word, and returns 0: `auipc t0, 0; addi t0, t0, 0; auipc a0, 0;
/// sd a0, 0(t0); addi a0, x0, 0`.
pub const KEEPER: [u32; 6] = [
    0x0000_0297,
    0x0002_8293,
    0x0000_0517,
    0x00a2_b023,
    0x0000_0513,
    RETURN,
];

/// Where both have the address of the word.
pub const OF_WORD: [Entry; 2] = [(0, WORD, HIGH), (4, HERE, LOW)];

/// A function that jumps to a service by its word in the table: `auipc t0, 0; ld t0, 0(t0); jalr x0, 0(t0)`.
const BY_TABLE: [u32; 3] = [0x0000_0297, 0x0002_b283, 0x0002_8067];

const OF_TABLE: [Entry; 2] = [(0, K_IN, GOT_HIGH), (4, HERE, LOW)];

/// The counter, which has the address of its word from the local area: `auipc t0, 0; ld t0, 0(t0); ..`.
const BY_LOCAL_WORD: [u32; 6] = [
    0x0000_0297,
    0x0002_b283,
    0x0002_b303,
    0x0065_0533,
    0x00a2_b023,
    RETURN,
];

const OF_LOCAL_WORD: [Entry; 2] = [(0, WORD, GOT_HIGH), (4, HERE, LOW)];

/// A function that jumps to a service by a stub: `auipc t1, 0; jalr x0, 0(t1)`.
const BY_STUB: [u32; 2] = [0x0000_0317, 0x0003_0067];

const OF_STUB: [Entry; 1] = [(0, K_IN, CALL_PLT)];

/// A module of a text and a word of data.
#[derive(Clone, Copy)]
pub struct Source<'a> {
    pub words: &'a [u32],
    pub entries: &'a [Entry],
}

pub fn made(rt: &impl AllocGlobal, source: Source) -> Result<Vec<u8>, Fail> {
    let alloc = rt.alloc();
    let bytes = word_bytes(alloc, source.words)?;
    object(
        alloc,
        &[text(bytes.as_slice(), source.entries), zeros(8)],
        &NAMES,
    )
}

#[test]
fn replies_of_linked_modules(rt: HostRuntime) -> Result<(), Fail> {
    let cases: [(&[u32], &[Entry], &str, &str, &str); 5] = [
        (
            &COUNTER,
            &OF_WORD,
            "call 0 m.e 5\ncall 0 m.e 2\nmove m\ncall 0 m.e 5\n",
            "call 2 w0 m.e at 0 under 3: returned 5\n\
             call 3 w0 m.e at 1 under 3: returned 7\n\
             move 4 m: mapping 4\n\
             call 5 w0 m.e at 2 under 4: returned 12\n\
             map 1 ",
            "call 2 w0 m.e: returned 5\ncall 3 w0 m.e: returned 7\ncall 5 w0 m.e: returned 12\nend calls 3\n",
        ),
        (
            &BY_LOCAL_WORD,
            &OF_LOCAL_WORD,
            "call 0 m.e 5\nmove m\ncall 0 m.e 2\n",
            "call 2 w0 m.e at 0 under 3: returned 5\n\
             move 3 m: mapping 4\n\
             call 4 w0 m.e at 1 under 4: returned 7\n\
             map 1 ",
            "call 2 w0 m.e: returned 5\ncall 4 w0 m.e: returned 7\nend calls 2\n",
        ),
        (
            &KEEPER,
            &OF_WORD,
            "call 0 m.e\ncall 0 m.e\n",
            "call 2 w0 m.e at 0 under 3: returned 0\n\
             call 3 w0 m.e at 1 under 3: returned 0\n\
             map 1 ",
            "call 2 w0 m.e: keeps\ncall 3 w0 m.e: lost\nend calls 2\n",
        ),
        (
            &BY_TABLE,
            &OF_TABLE,
            "call 0 m.e 7\nmove m\ncall 0 m.e 7\n",
            "call 2 w0 m.e at 0 under 3: returned 0\n\
             move 3 m: mapping 4\n\
             call 4 w0 m.e at 1 under 4: returned 0\n\
             map 1 ",
            "call 2 w0 m.e: returned 0\ncall 4 w0 m.e: returned 0\nend calls 2\n",
        ),
        (
            &BY_STUB,
            &OF_STUB,
            "call 0 m.e 7\nmove m\ncall 0 m.e 7\n",
            "call 2 w0 m.e at 0 under 3: returned 0\n\
             move 3 m: mapping 4\n\
             call 4 w0 m.e at 1 under 4: returned 0\n\
             map 1 ",
            "call 2 w0 m.e: returned 0\ncall 4 w0 m.e: returned 0\nend calls 2\n",
        ),
    ];
    for (words, entries, lines, begin, prediction) in cases {
        let module = made(&rt, Source { words, entries })?;
        let script = format!(in rt.alloc(); "load m f\n{lines}")?;
        let ran = serve(&rt, &seq(script.as_bytes(), module.as_slice()))?;
        expect_fault(&rt, &ran, 0, "");
        assert!(rt;
            ran.written.as_slice().starts_with(begin.as_bytes()),
            "{begin}"
        );
        let told = serve(&rt, &predict(script.as_bytes(), module.as_slice()))?;
        expect_fault(&rt, &told, 0, "");
        assert_eq!(rt; std::str::from_utf8(told.written.as_slice())?, prediction);
    }
    Ok(())
}

/// `show f`, where nothing fails.
fn show<'a>(module: &'a [u8]) -> Given<'a> {
    Given {
        words: &["show", "f"],
        ..seq(b"", module)
    }
}

/// Asserts what is listed of a module.
fn expect_listing(
    rt: &(impl Abort + AllocGlobal + Threads + Wait + Sync),
    module: &[u8],
    listing: &str,
) -> Result<(), Fail> {
    let served = serve(rt, &show(module))?;
    expect_fault(rt, &served, 0, "");
    assert_eq!(rt; std::str::from_utf8(served.written.as_slice())?, listing);
    assert_eq!(rt; served.asked, 1);
    assert_eq!(rt; (served.books, served.moves, served.rows), (0, 0, 0));
    Ok(())
}

#[test]
fn listings(rt: HostRuntime) -> Result<(), Fail> {
    let alloc = rt.alloc();
    let sum = function(alloc, &SUM, b"sum")?;
    expect_listing(
        &rt,
        sum.as_slice(),
        "movable pages 4 text 1 read 0 data 0\nfixed pages 2 text 0 read 0 data 0\nexport sum 0\n",
    )?;
    let by_table = made(
        &rt,
        Source {
            words: &BY_TABLE,
            entries: &OF_TABLE,
        },
    )?;
    // The service lies at 262,160 and 16 bytes for each one before it.
    expect_listing(
        &rt,
        by_table.as_slice(),
        "movable pages 5 text 1 read 0 data 1\nfixed pages 2 text 0 read 0 data 0\n\
         export e 0\ntable 0 262208\n",
    )?;
    // Text, stubs, fixed table and local area lie before the word of data.
    let by_local_word = made(
        &rt,
        Source {
            words: &BY_LOCAL_WORD,
            entries: &OF_LOCAL_WORD,
        },
    )?;
    expect_listing(
        &rt,
        by_local_word.as_slice(),
        "movable pages 5 text 1 read 0 data 1\nfixed pages 2 text 0 read 0 data 0\n\
         export e 0\nlocal 0 off 16384\n",
    )?;
    let words = word_bytes(alloc, &SUM)?;
    let fixed = Part {
        name: b".fixed",
        flags: SHF_ALLOC + SHF_WRITE,
        bytes: &[1; 4097],
        zeros: 0,
        entries: &[],
    };
    let pointers = Part {
        name: b".data.rel.ro",
        flags: SHF_ALLOC,
        bytes: &[2, 0, 0, 0, 0, 0, 0, 1, 0, 0, 0, 0, 0, 0, 0, 0],
        zeros: 0,
        entries: &[(8, 1, NUMBER64), (8, 2, NUMBER64)],
    };
    // Data of the immovable part, and a number and a pointer in the local area: the last entry of a word counts.
    let names: [Named; 2] = [(b"e", 0x12, 1, 0), (b"\xff", 0x12, 1, 4)];
    let module = object(
        alloc,
        &[text(words.as_slice(), &[]), fixed, pointers],
        &names,
    )?;
    let served = serve(&rt, &show(module.as_slice()))?;
    expect_fault(&rt, &served, 0, "");
    assert_eq!(rt;
        served.written.as_slice(),
        b"movable pages 4 text 1 read 0 data 0\nfixed pages 4 text 0 read 0 data 2\n\
          export e 0\nexport \xff 4\nlocal 0 num 72057594037927938\nlocal 1 off 4\n"
            .as_slice()
    );
    Ok(())
}

/// Asserts that a module is refused so by each command.
fn expect_refused_module(
    rt: &(impl Abort + AllocGlobal + Threads + Wait + Sync),
    module: &[u8],
    cause: &str,
) -> Result<(), Fail> {
    let fault = format!(in rt.alloc(); "adelie: module f: {cause}")?;
    let call: &[u8] = b"load m f\ncall 0 m.e\n";
    expect_refused(rt, &serve(rt, &seq(call, module))?, 3, fault.as_str(), 2);
    expect_refused(rt, &serve(rt, &show(module))?, 3, fault.as_str(), 1);
    Ok(())
}

#[test]
fn files_that_are_no_objects(rt: HostRuntime) -> Result<(), Fail> {
    let mut file = function(rt.alloc(), &SUM, b"sum")?;
    assert_eq!(rt; file.len(), 480);
    file.truncate(479);
    expect_refused_module(&rt, file.as_slice(), "object 7")?;
    file.truncate(63);
    expect_refused_module(&rt, file.as_slice(), "object 1")?;
    expect_refused_module(&rt, b"", "object 1")
}

#[test]
fn relocations_that_are_refused(rt: HostRuntime) -> Result<(), Fail> {
    let last: u64 = 0xffff_ffff_ffff_fffc;
    let cases: [(&[Entry], &str); 8] = [
        (&[(last, WORD, HIGH)], "object 15"),
        (&[(0, NOWHERE, CALL_PLT)], "tables 3"),
        (&[(0, WORD, ABSOLUTE_HIGH)], "reloc 1"),
        // The word of data lies 16,384 bytes behind the text, and a branch reaches 4,094.
        (&[(0, WORD, BRANCH)], "reloc 2"),
        (&[(4, HERE, LOW)], "reloc 3"),
        (&[(0, WORD, NUMBER32)], "reloc 4"),
        (&[(0, WORD, ADD64)], "reloc 4"),
        (&[(0, K_IN, HIGH), (4, HERE, LOW)], "reloc 5"),
    ];
    for (entries, cause) in cases {
        let module = made(
            &rt,
            Source {
                words: &COUNTER,
                entries,
            },
        )?;
        expect_refused_module(&rt, module.as_slice(), cause)?;
    }
    Ok(())
}

/// A module with a section more, behind a text without relocations.
fn with_part(rt: &impl AllocGlobal, part: Part) -> Result<Vec<u8>, Fail> {
    let alloc = rt.alloc();
    let bytes = word_bytes(alloc, &SUM)?;
    let names: [Named; 2] = [(b"here", 0, 1, 2), (b"e", 0x12, 1, 0)];
    object(alloc, &[text(bytes.as_slice(), &[]), part], &names)
}

#[test]
fn pointers_that_are_refused(rt: HostRuntime) -> Result<(), Fail> {
    let data = Part {
        name: b".data",
        flags: SHF_ALLOC + SHF_WRITE,
        bytes: &[0; 16],
        zeros: 0,
        entries: &[(8, 1, NUMBER64)],
    };
    expect_refused_module(&rt, with_part(&rt, data)?.as_slice(), "reloc 4")?;
    // A pointer of the local area that isn't one of its words.
    let between = Part {
        name: b".data.rel.ro",
        entries: &[(4, 1, NUMBER64)],
        ..data
    };
    expect_refused_module(&rt, with_part(&rt, between)?.as_slice(), "reloc 6")?;
    // A branch to an odd address.
    let code = Part {
        name: b".text.other",
        flags: SHF_ALLOC + SHF_EXECINSTR,
        entries: &[(0, 1, BRANCH)],
        ..data
    };
    let odd: [Named; 2] = [(b"here", 0, 1, 3), (b"e", 0x12, 1, 0)];
    let bytes = word_bytes(rt.alloc(), &SUM)?;
    let module = object(rt.alloc(), &[text(bytes.as_slice(), &[]), code], &odd)?;
    expect_refused_module(&rt, module.as_slice(), "reloc 6")?;
    // Immovable code that calls movable code.
    let fixed = Part {
        name: b".text.fixed",
        entries: &[(0, 1, CALL_PLT)],
        ..code
    };
    expect_refused_module(&rt, with_part(&rt, fixed)?.as_slice(), "reloc 5")
}

/// Asserts that a module links, with so many pages of its movable part.
fn expect_pages(
    rt: &(impl Abort + AllocGlobal + Threads + Wait + Sync),
    module: &[u8],
    pages: u64,
) -> Result<(), Fail> {
    let served = serve(rt, &show(module))?;
    expect_fault(rt, &served, 0, "");
    let begin = format!(in rt.alloc(); "movable pages {pages} ")?;
    assert!(rt;
        served.written.as_slice().starts_with(begin.as_bytes()),
        "{begin}"
    );
    Ok(())
}

#[test]
fn the_largest_parts(rt: HostRuntime) -> Result<(), Fail> {
    let alloc = rt.alloc();
    let mut bytes = vec![in alloc; 0; 241_664]?;
    let names: [Named; 1] = [(b"e", 0x12, 1, 0)];
    let most = object(alloc, &[text(bytes.as_slice(), &[])], &names)?;
    expect_pages(&rt, most.as_slice(), 62)?;
    bytes.push(0)?;
    let more = object(alloc, &[text(bytes.as_slice(), &[])], &names)?;
    expect_refused_module(&rt, more.as_slice(), "parts 2")?;
    let words = vec![in alloc; 0; 4104]?;
    assert!(rt; words.len() == 4104);
    let most = Part {
        name: b".data.rel.ro",
        flags: SHF_ALLOC,
        bytes: &words.as_slice()[..4096],
        zeros: 0,
        entries: &[],
    };
    expect_pages(&rt, with_part(&rt, most)?.as_slice(), 4)?;
    let more = Part {
        bytes: words.as_slice(),
        ..most
    };
    expect_refused_module(&rt, with_part(&rt, more)?.as_slice(), "tables 1")
}

/// A module whose text loads so many numbers from the fixed table: 0, 1 and so on.
fn numbers(
    rt: &(impl Abort + AllocGlobal + Threads + Wait + Sync),
    count: u64,
) -> Result<Vec<u8>, Fail> {
    let alloc = rt.alloc();
    assert!(rt; count <= 257);
    let mut names: Vec<Named> = Vec::new(alloc);
    let mut entries: Vec<Entry> = Vec::new(alloc);
    for k in 0..count {
        names.push((b"n", 0, SHN_ABS, k))?;
        entries.push((4 * k, k + 1, GOT_HIGH))?;
    }
    names.push((b"e", 0x12, 1, 0))?;
    let bytes = vec![in alloc; 0; 4 * count as usize]?;
    let part = text(bytes.as_slice(), entries.as_slice());
    object(alloc, &[part], names.as_slice())
}

#[test]
fn the_longest_table(rt: HostRuntime) -> Result<(), Fail> {
    let served = serve(&rt, &show(numbers(&rt, 256)?.as_slice()))?;
    expect_fault(&rt, &served, 0, "");
    assert!(rt;
        served
            .written
            .as_slice()
            .ends_with(b"\ntable 254 254\ntable 255 255\n")
    );
    expect_refused_module(&rt, numbers(&rt, 257)?.as_slice(), "tables 2")
}

#[test]
fn a_compilers_object(rt: HostRuntime) -> Result<(), Fail> {
    let alloc = rt.alloc();
    let bytes = word_bytes(alloc, &BY_STUB)?;
    // Sections that aren't loaded, and unwinding tables, change nothing, and neither does the mark of a call that may be
    // made shorter.
    let comment = Part {
        name: b".comment",
        flags: 0,
        bytes: b"\0compiled\0",
        zeros: 0,
        entries: &[],
    };
    let unwinding = Part {
        name: b".eh_frame",
        flags: SHF_ALLOC,
        bytes: &[0; 16],
        entries: &[(8, 1, NUMBER32)],
        ..comment
    };
    let marked: [Entry; 2] = [(0, K_IN, CALL_PLT), (0, 0, RELAX)];
    let parts = [
        text(bytes.as_slice(), &marked),
        zeros(8),
        comment,
        unwinding,
    ];
    let usual = made(
        &rt,
        Source {
            words: &BY_STUB,
            entries: &OF_STUB,
        },
    )?;
    let compiled = object(alloc, &parts, &NAMES)?;
    let script: &[u8] = b"load m f\ncall 0 m.e 7\nmove m\ncall 0 m.e 7\n";
    let one = serve(&rt, &seq(script, usual.as_slice()))?;
    let other = serve(&rt, &seq(script, compiled.as_slice()))?;
    expect_fault(&rt, &other, 0, "");
    assert_eq!(rt; one.written.as_slice(), other.written.as_slice());
    let listed = serve(&rt, &show(usual.as_slice()))?;
    expect_listing(
        &rt,
        compiled.as_slice(),
        std::str::from_utf8(listed.written.as_slice())?,
    )
}
