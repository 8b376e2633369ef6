//! The command over files and a sink in memory: worked examples of runs, and each refusal.

mod built;
mod large;
mod linked;
mod objects;
mod scripts;

use crate::serve::{Ended, top};
use ad_base::{MemFile, MemFiles, MemSink, Name, NoGate, Sequence};
use objects::function;
use std::alloc::Global;
use std::process::Abort;
use std::sync::Wait;
use std::test::Fail;
use std::thread::Threads;

/// `jalr x0, 0(ra)`.
const RETURN: u32 = 0x0000_8067;

/// A function that returns the sum of its two arguments: `add a0, a0, a1`.
const SUM: [u32; 2] = [0x00b5_0533, RETURN];

/// A function that returns its own address: `auipc a0, 0`.
const WHEREAMI: [u32; 2] = [0x0000_0517, RETURN];

/// A function that jumps to its argument: `jalr x0, 0(a0)`.
const JUMP: [u32; 2] = [0x0005_0067, RETURN];

/// A function that returns the end of its stack: `addi a0, sp, 0`.
const STACK_END: [u32; 2] = [0x0001_0513, RETURN];

/// A function that returns three more than its argument: `addi a0, a0, 1`, three times.
const COUNT: [u32; 4] = [0x0015_0513, 0x0015_0513, 0x0015_0513, RETURN];

/// A function that stores 8 bytes below its stack: `lui t0, 0xffffc; addi t0, t0, -8; add t0, t0, sp; sd zero, 0(t0)`.
const BELOW: [u32; 5] = [0xffff_c2b7, 0xff82_8293, 0x0022_82b3, 0x0002_b023, RETURN];

/// The same, 5,000 bytes below: `lui t0, 0xffffb; addi t0, t0, -904; add t0, t0, sp; sd zero, 0(t0)`.
const FAR_BELOW: [u32; 5] = [0xffff_b2b7, 0xc782_8293, 0x0022_82b3, 0x0002_b023, RETURN];

/// A function that calls the service at its second argument as often as its third says:
/// `mv t2, ra; jalr a1; addi a2, a2, -1; bnez a2, -8; jr t2`.
const REPEATED: [u32; 5] = [
    0x0000_8393,
    0x0005_80e7,
    0xfff6_0613,
    0xfe06_1ce3,
    0x0003_8067,
];

/// A function that notes its argument, and returns it: `lui t0, 0x40`, `jalr x0, 16(t0)`.
const NOTE: [u32; 2] = [0x0004_02b7, 0x0102_8067];

/// A function that notes its argument twice, and gives up with it: `lui t1, 0x40`, `jalr ra, 16(t1)` twice,
/// `jalr x0, 32(t1)`.
const NOTE_TWICE: [u32; 4] = [0x0004_0337, 0x0103_00e7, 0x0103_00e7, 0x0203_0067];

/// No instruction has this word.
const NO_INSTRUCTION: [u32; 1] = [0];

/// Bytes that the sink has room for.
const ROOM: u64 = 4_194_304;

/// The words of a command, and the outside that it is served in. Fetches and writes are counted from 1.
#[derive(Clone, Copy)]
struct Given<'a> {
    words: &'a [&'a str],
    /// The bytes of the file `s`.
    script: &'a [u8],
    /// The bytes of the file `f`.
    module: &'a [u8],
    /// The bytes of the file `g`.
    other: &'a [u8],
    /// The fetches that fail.
    fetches: &'a [u64],
    /// Bytes that a write takes at most.
    most: u64,
    /// The writes that fail.
    writes: &'a [u64],
}

/// `seq s` where nothing fails.
fn seq<'a>(script: &'a [u8], module: &'a [u8]) -> Given<'a> {
    Given {
        words: &["seq", "s"],
        script,
        module,
        other: b"",
        fetches: &[],
        most: ROOM,
        writes: &[],
    }
}

/// `predict s` where nothing fails.
fn predict<'a>(script: &'a [u8], module: &'a [u8]) -> Given<'a> {
    Given {
        words: &["predict", "s"],
        ..seq(script, module)
    }
}

/// What came of a command, in plain values.
#[derive(Drop)]
struct Served {
    status: u8,
    /// The text of the fault, which is empty where there is none.
    fault: String,
    written: Vec<u8>,
    /// How many files were asked for.
    asked: usize,
    books: usize,
    /// How many calls the first book has.
    calls: u64,
    moves: usize,
    rows: usize,
}

fn word_list(alloc: Global, list: &[&str]) -> Result<Vec<String>, Fail> {
    let mut words = Vec::new(alloc);
    for word in list {
        words.push(String::from_str(alloc, word)?)?;
    }
    Ok(words)
}

fn file(alloc: Global, name: &[u8], bytes: &[u8]) -> Result<MemFile, Fail> {
    Ok(MemFile {
        name: Name::of(alloc, name)?,
        bytes: Sequence::of(Vec::from_slice(alloc, bytes)?),
    })
}

fn files(alloc: Global, given: &Given) -> Result<MemFiles, Fail> {
    let mut list = Vec::new(alloc);
    list.push(file(alloc, b"s", given.script)?)?;
    list.push(file(alloc, b"f", given.module)?)?;
    list.push(file(alloc, b"g", given.other)?)?;
    Ok(MemFiles::new(list, Vec::from_slice(alloc, given.fetches)?))
}

fn sink(alloc: Global, given: &Given) -> Result<MemSink, Fail> {
    let writes = Vec::from_slice(alloc, given.writes)?;
    Ok(MemSink::new(alloc, ROOM, given.most.max(1), writes)?)
}

fn plain_values(
    alloc: Global,
    ended: &Ended,
    files: &MemFiles,
    out: &MemSink,
) -> Result<Served, Fail> {
    Ok(Served {
        status: ended.status,
        fault: match &ended.fault {
            None => String::new(alloc),
            Some(trouble) => format!(in alloc; "{trouble}")?,
        },
        written: Vec::from_slice(alloc, out.taken())?,
        asked: files.asked().len(),
        books: ended.books.len(),
        calls: ended.books.first().map_or(0, |book| book.history.len()),
        moves: ended.moves.len(),
        rows: ended.ledger.len(),
    })
}

/// Serves a command. Nothing else here calls `top`, whose contract is long.
fn serve(rt: &(impl AllocGlobal + Threads + Wait + Sync), given: &Given) -> Result<Served, Fail> {
    let alloc = rt.alloc();
    let words = word_list(alloc, given.words)?;
    let mut files = files(alloc, given)?;
    let mut out = sink(alloc, given)?;
    let ended = top(rt, words.as_slice(), &mut files, &mut out, &NoGate);
    plain_values(alloc, &ended, &files, &out)
}

/// Asserts the status and the text of the fault.
fn expect_fault(rt: &impl Abort, served: &Served, status: u8, fault: &str) {
    assert_eq!(rt; served.fault.as_str(), fault);
    assert_eq!(rt; served.status, status, "{fault}");
}

/// Asserts that a command was refused for this, before anything was done or written.
fn expect_refused(rt: &impl Abort, served: &Served, status: u8, fault: &str, asked: usize) {
    expect_fault(rt, served, status, fault);
    assert_eq!(rt; served.asked, asked, "{fault}");
    assert_eq!(rt; served.written.len(), 0, "{fault}");
    assert_eq!(rt;
        (served.books, served.moves, served.rows),
        (0, 0, 0),
        "{fault}"
    );
}

const SUM_REPORT: &[u8] = b"call 2 w0 m.sum at 0 under 3: returned 5
map 1 stack w0 region 47222 start 24 pages 4 retired 0 unmapped 0
map 2 fixed m region 29432 start 1 pages 2 retired 0 unmapped 0
map 3 code m region 13105 start 43 pages 4 retired 0 unmapped 0
end calls 1 moves 0 mappings 3
";

const WHEREAMI_REPORT: &[u8] = b"call 2 w0 m.whereami at 0 under 3: returned 3435573248
move 3 m: mapping 4
call 4 w0 m.whereami at 1 under 4: returned 7143641088
map 1 stack w0 region 47222 start 24 pages 4 retired 0 unmapped 0
map 2 fixed m region 29432 start 1 pages 2 retired 0 unmapped 0
map 3 code m region 13105 start 43 pages 4 retired 3 unmapped 1
map 4 code m region 27250 start 53 pages 4 retired 0 unmapped 0
end calls 2 moves 1 mappings 4
";

const LOAD_REPORT: &[u8] = b"map 1 stack w0 region 47222 start 24 pages 4 retired 0 unmapped 0
map 2 fixed m region 29432 start 1 pages 2 retired 0 unmapped 0
map 3 code m region 13105 start 43 pages 4 retired 0 unmapped 0
end calls 0 moves 0 mappings 3
";

#[test]
fn whole_reports(rt: HostRuntime) -> Result<(), Fail> {
    let cases: [(&[u32], &[u8], &[u8], &[u8]); 3] = [
        (&SUM, b"sum", b"load m f\ncall 0 m.sum 2 3\n", SUM_REPORT),
        (
            &WHEREAMI,
            b"whereami",
            b"load m f\ncall 0 m.whereami\nmove m\ncall 0 m.whereami\n",
            WHEREAMI_REPORT,
        ),
        (&SUM, b"sum", b"load m f\n", LOAD_REPORT),
    ];
    for (words, name, script, report) in cases {
        let module = function(rt.alloc(), words, name)?;
        let served = serve(&rt, &seq(script, module.as_slice()))?;
        expect_fault(&rt, &served, 0, "");
        assert_eq!(rt; served.written.as_slice(), report);
        assert_eq!(rt; (served.asked, served.books), (2, 1));
    }
    Ok(())
}

#[test]
fn predictions(rt: HostRuntime) -> Result<(), Fail> {
    let cases: [(&[u32], &str, &str); 9] = [
        (&SUM, "", "end calls 0\n"),
        (
            &SUM,
            "call 0 m.e 2 3\n",
            "call 2 w0 m.e: returned 5\nend calls 1\n",
        ),
        // The call returns an address, which is another number after each move.
        (
            &WHEREAMI,
            "call 0 m.e\nmove m\ncall 0 m.e\n",
            "call 2 w0 m.e: keeps\ncall 4 w0 m.e: lost\nend calls 2\n",
        ),
        (
            &BELOW,
            "call 0 m.e\n",
            "call 2 w0 m.e: trap fault\nend calls 1\n",
        ),
        (
            &FAR_BELOW,
            "call 0 m.e\ncall 0 m.e\n",
            "call 2 w0 m.e: unclear step 3 reason 3\ncall 3 w0 m.e: lost\nend calls 2\n",
        ),
        (
            &NOTE,
            "call 0 m.e 7\nmove m\ncall 0 m.e 18446744073709551615\n",
            "call 2 w0 m.e: returned 7 notes 7\n\
             call 4 w0 m.e: returned 18446744073709551615 notes 18446744073709551615\nend calls 2\n",
        ),
        (
            &NOTE_TWICE,
            "call 0 m.e 9\n",
            "call 2 w0 m.e: abort 9 notes 9 9\nend calls 1\n",
        ),
        // The immovable part lies where `seq` puts it, from 7715426304 on: its stubs have no instruction, and its table
        // isn't fetched from.
        (
            &JUMP,
            "call 0 m.e 7715426304\ncall 0 m.e 7715430400\n",
            "call 2 w0 m.e: trap illegal\ncall 3 w0 m.e: trap denied\nend calls 2\n",
        ),
        // Any part may lie at this number.
        (
            &JUMP,
            "move m\ncall 0 m.e 262144\ncall 0 m.e 1048576\ncall 0 m.e 262144\n",
            "call 3 w0 m.e: returned 262144\ncall 4 w0 m.e: unclear step 1 reason 3\n\
             call 5 w0 m.e: lost\nend calls 3\n",
        ),
    ];
    for (words, lines, text) in cases {
        let module = function(rt.alloc(), words, b"e")?;
        let script = format!(in rt.alloc(); "load m f\n{lines}")?;
        let served = serve(&rt, &predict(script.as_bytes(), module.as_slice()))?;
        expect_fault(&rt, &served, 0, "");
        assert_eq!(rt; std::str::from_utf8(served.written.as_slice())?, text);
        assert_eq!(rt;
            (served.asked, served.books, served.moves, served.rows),
            (2, 0, 0, 0)
        );
    }
    Ok(())
}

#[test]
fn predictions_that_are_refused(rt: HostRuntime) -> Result<(), Fail> {
    let adder = function(rt.alloc(), &SUM, b"sum")?;
    let sum = adder.as_slice();
    let call: &[u8] = b"load m f\ncall 0 m.sum 2 3\n";
    let none: &[u8] = b"load m f\ncall 0 m.sum\ncall 0 m.none\n";
    let cases: [(&[u8], &[u8], u8, &str, usize); 3] = [
        (b"call", sum, 2, "adelie: script line 1: word", 1),
        (call, b"", 3, "adelie: module f: object 1", 2),
        (none, sum, 3, "adelie: line 3: no export", 2),
    ];
    for (script, module, status, fault, asked) in cases {
        let served = serve(&rt, &predict(script, module))?;
        expect_refused(&rt, &served, status, fault, asked);
    }
    Ok(())
}

/// Asserts that the report of a module's lines begins so. The module's one export is `e`.
fn expect_begin(
    rt: &(impl Abort + AllocGlobal + Threads + Wait + Sync),
    words: &[u32],
    lines: &str,
    begin: &str,
) -> Result<(), Fail> {
    let module = function(rt.alloc(), words, b"e")?;
    let script = format!(in rt.alloc(); "load m f\n{lines}")?;
    let served = serve(rt, &seq(script.as_bytes(), module.as_slice()))?;
    expect_fault(rt, &served, 0, "");
    assert!(rt;
        served.written.as_slice().starts_with(begin.as_bytes()),
        "{begin}"
    );
    Ok(())
}

#[test]
fn replies(rt: HostRuntime) -> Result<(), Fail> {
    let cases: [(&[u32], &str, &str); 15] = [
        (&SUM, " 2 3", "returned 5"),
        (&SUM, "", "returned 0"),
        (&SUM, " 18446744073709551615 1", "returned 0"),
        (&SUM, " 002 3 9 9 9 9 9 9", "returned 5"),
        (&COUNT, " 4", "returned 7"),
        (&NO_INSTRUCTION, "", "trap illegal"),
        // The movable part lies at 3435573248. A jump to its start goes on until the fuel is spent.
        (&JUMP, " 3435573248", "trap fuel"),
        (&JUMP, " 3435573250", "trap misaligned"),
        (&JUMP, " 0", "trap fault"),
        // Behind the text page and the stub page lies the page of the fixed table.
        (&JUMP, " 3435581440", "trap denied"),
        (&JUMP, " 262144", "returned 262144"),
        // The stack lies from 12379062272 on, and has 16,384 bytes.
        (&STACK_END, "", "returned 12379078656"),
        (&BELOW, "", "trap fault"),
        (&FAR_BELOW, "", "trap fault"),
        // The service at 262160 makes a note, and there is room for sixteen.
        (
            &REPEATED,
            " 9 262160 17",
            "trap notes notes 9 9 9 9 9 9 9 9 9 9 9 9 9 9 9 9",
        ),
    ];
    for (words, args, end) in cases {
        let line = format!(in rt.alloc(); "call 0 m.e{args}\n")?;
        let begin = format!(in rt.alloc(); "call 2 w0 m.e at 0 under 3: {end}\n")?;
        expect_begin(&rt, words, line.as_str(), begin.as_str())?;
    }
    Ok(())
}

#[test]
fn addresses_after_a_move(rt: HostRuntime) -> Result<(), Fail> {
    // Each mapping of the movable part has its own base.
    expect_begin(
        &rt,
        &WHEREAMI,
        "call 0 m.e\nmove m\ncall 0 m.e\nmove m\ncall 0 m.e\n",
        "call 2 w0 m.e at 0 under 3: returned 3435573248\n\
         move 3 m: mapping 4\n\
         call 4 w0 m.e at 1 under 4: returned 7143641088\n\
         move 5 m: mapping 5\n\
         call 6 w0 m.e at 2 under 5: returned 3441586176\n\
         map 1 ",
    )?;
    // An address of the part, which a caller kept over a move, is of no use.
    expect_begin(
        &rt,
        &JUMP,
        "call 0 m.e 3435573248\nmove m\ncall 0 m.e 3435573248\ncall 0 m.e 7143641088\n",
        "call 2 w0 m.e at 0 under 3: trap fuel\n\
         move 3 m: mapping 4\n\
         call 4 w0 m.e at 1 under 4: trap fault\n\
         call 5 w0 m.e at 2 under 4: trap fuel\n\
         map 1 ",
    )
}

/// The script that loads the module and then has these lines over and over, so many times.
fn repeated(alloc: Global, lines: &[u8], times: usize) -> Result<Vec<u8>, Fail> {
    let mut script = Vec::from_slice(alloc, b"load m f\n")?;
    for _ in 0..times {
        script.extend_from_slice(lines)?;
    }
    Ok(script)
}

/// Asserts that the report of a script of the adder has these lines, and ends so.
fn expect_lines_and_end(
    rt: &(impl Abort + AllocGlobal + Threads + Wait + Sync),
    script: &[u8],
    lines: &str,
    end: &str,
) -> Result<(), Fail> {
    let module = function(rt.alloc(), &SUM, b"sum")?;
    let served = serve(rt, &seq(script, module.as_slice()))?;
    expect_fault(rt, &served, 0, "");
    let report = std::str::from_utf8(served.written.as_slice())?;
    assert!(rt; report.contains(lines), "{lines}");
    assert!(rt; report.ends_with(end), "{end}");
    Ok(())
}

#[test]
fn the_last_mapping_number(rt: HostRuntime) -> Result<(), Fail> {
    let script = repeated(rt.alloc(), b"move m\n", 4093)?;
    expect_lines_and_end(
        &rt,
        script.as_slice(),
        "\nmove 4093 m: mapping 4095\nmove 4094 m: spent\nmap 1 ",
        "\nmap 4094 code m region 22592 start 38 pages 4 retired 4093 unmapped 1\n\
         map 4095 code m region 19861 start 31 pages 4 retired 0 unmapped 0\n\
         end calls 0 moves 4092 mappings 4095\n",
    )
}

#[test]
fn the_longest_script(rt: HostRuntime) -> Result<(), Fail> {
    let alloc = rt.alloc();
    let calls = b"call 0 m.sum 2 3\ncall 0 m.sum\ncall 0 m.sum 1\ncall 0 m.sum 4 4\n";
    let mut lines = Vec::from_slice(alloc, calls)?;
    lines.extend_from_slice(b"move m\n")?;
    // The load, 3,999 times five lines, and four calls more.
    let mut script = repeated(alloc, lines.as_slice(), 3999)?;
    script.extend_from_slice(calls)?;
    expect_lines_and_end(
        &rt,
        script.as_slice(),
        "\nmove 19996 m: mapping 4002\n\
         call 19997 w0 m.sum at 15996 under 4002: returned 5\n\
         call 19998 w0 m.sum at 15997 under 4002: returned 0\n\
         call 19999 w0 m.sum at 15998 under 4002: returned 1\n\
         call 20000 w0 m.sum at 15999 under 4002: returned 8\n\
         map 1 ",
        "\nmap 4001 code m region 5119 start 57 pages 4 retired 19996 unmapped 1\n\
         map 4002 code m region 3419 start 32 pages 4 retired 0 unmapped 0\n\
         end calls 16000 moves 3999 mappings 4002\n",
    )
}

#[test]
fn words_of_no_grammar(rt: HostRuntime) -> Result<(), Fail> {
    let module = function(rt.alloc(), &SUM, b"sum")?;
    let lists: [&[&str]; 23] = [
        &[],
        &["seq"],
        &["predict"],
        &["show"],
        &["show", "-f"],
        &["predict", "--fuel"],
        &["run"],
        &["run", "s", "t"],
        &["run", "s", "--slots", "0"],
        &["run", "s", "--slots=17"],
        &["run", "--frames", "1", "s"],
        &["run", "--frames=17", "s"],
        &["seq", "-s"],
        &["seq", "s", "f"],
        &["s", "seq"],
        &["seq", "s", "--fuel", "0"],
        &["seq", "--seed=", "s"],
        &["show", "f", "--fuel", "1"],
        &["gen"],
        &["gen", "0"],
        &["gen", "19001"],
        &["gen", "s"],
        &["gen", "8", "--slots", "4"],
    ];
    for words in lists {
        let given = Given {
            words,
            ..seq(b"load m f\n", module.as_slice())
        };
        let served = serve(&rt, &given)?;
        expect_refused(&rt, &served, 1, "adelie: usage", 0);
    }
    Ok(())
}

#[test]
fn options(rt: HostRuntime) -> Result<(), Fail> {
    let module = function(rt.alloc(), &COUNT, b"e")?;
    let script: &[u8] = b"load m f\ncall 0 m.e 4\n";
    let cases: [(&[&str], &str); 4] = [
        (
            &["seq", "s", "--fuel", "3"],
            "call 2 w0 m.e at 0 under 3: trap fuel\nmap 1 stack w0 region 47222 ",
        ),
        (
            &["seq", "--fuel=4", "--seed", "0", "--", "s"],
            "call 2 w0 m.e at 0 under 3: returned 7\nmap 1 stack w0 region 47222 ",
        ),
        (
            &["predict", "--fuel=3", "s"],
            "call 2 w0 m.e: trap fuel\nend calls 1\n",
        ),
        (
            &["predict", "s", "--fuel", "4"],
            "call 2 w0 m.e: returned 7\nend calls 1\n",
        ),
    ];
    for (words, begin) in cases {
        let given = Given {
            words,
            ..seq(script, module.as_slice())
        };
        let served = serve(&rt, &given)?;
        expect_fault(&rt, &served, 0, "");
        assert!(rt;
            served.written.as_slice().starts_with(begin.as_bytes()),
            "{begin}"
        );
    }
    // Another seed puts the stack elsewhere.
    let given = Given {
        words: &["seq", "s", "--seed", "1"],
        ..seq(script, module.as_slice())
    };
    let served = serve(&rt, &given)?;
    let report = std::str::from_utf8(served.written.as_slice())?;
    assert!(rt;
        report.starts_with("call 2 w0 m.e at 0 under 3: returned 7\nmap 1 stack w0 region ")
    );
    assert!(rt; !report.contains(" region 47222 "));
    Ok(())
}

#[test]
fn modules_that_are_refused(rt: HostRuntime) -> Result<(), Fail> {
    let adder = function(rt.alloc(), &SUM, b"sum")?;
    let sum = adder.as_slice();
    let other = function(rt.alloc(), &SUM, b"sun")?;
    // The table of sections ends past the file's end.
    let mut cut = adder.clone()?;
    cut.truncate(479);
    let short = cut.as_slice();
    let call: &[u8] = b"load m f\ncall 0 m.sum 2 3\n";
    let none: &[u8] = b"load m f\ncall 0 m.none\n";
    let later: &[u8] = b"load m f\ncall 0 m.sum\nmove m\ncall 0 m.none\ncall 0 m.one\n";
    // The second module isn't one, and is linked before any export is looked for.
    let second: &[u8] = b"load m f\nload n g\nload k f\ncall 0 m.none\n";
    let cases: [(&[u8], &[u8], &str, usize); 7] = [
        (call, short, "adelie: module f: object 7", 2),
        (call, b"", "adelie: module f: object 1", 2),
        (none, short, "adelie: module f: object 7", 2),
        (none, sum, "adelie: line 2: no export", 2),
        (later, sum, "adelie: line 4: no export", 2),
        (call, other.as_slice(), "adelie: line 2: no export", 2),
        (second, sum, "adelie: module g: object 1", 3),
    ];
    for (script, module, fault, asked) in cases {
        let served = serve(&rt, &seq(script, module))?;
        expect_refused(&rt, &served, 3, fault, asked);
    }
    Ok(())
}

#[test]
fn files_that_are_not_read(rt: HostRuntime) -> Result<(), Fail> {
    let adder = function(rt.alloc(), &SUM, b"sum")?;
    let sum = adder.as_slice();
    let call: &[u8] = b"load m f\ncall 0 m.sum 2 3\n";
    let absent: &[u8] = b"load m h\ncall 0 m.sum 2 3\n";
    let spaces = vec![in rt.alloc(); b' '; 1_048_577]?;
    let long = spaces.as_slice();
    let cases: [(&str, &[u8], &[u8], &[u64], &str, usize); 7] = [
        ("-", call, sum, &[], "adelie: read -", 1),
        ("s", call, sum, &[1], "adelie: read s", 1),
        ("s", call, sum, &[2], "adelie: read f", 2),
        ("t", call, sum, &[], "adelie: read t", 1),
        ("s", absent, sum, &[], "adelie: read h", 2),
        ("s", long, sum, &[], "adelie: read s: too large", 1),
        ("s", call, long, &[], "adelie: read f: too large", 2),
    ];
    for (operand, script, module, fetches, fault, asked) in cases {
        let given = Given {
            words: &["seq", operand],
            fetches,
            ..seq(script, module)
        };
        let served = serve(&rt, &given)?;
        expect_refused(&rt, &served, 4, fault, asked);
    }
    Ok(())
}

#[test]
fn writes_that_fail(rt: HostRuntime) -> Result<(), Fail> {
    let module = function(rt.alloc(), &WHEREAMI, b"whereami")?;
    let script = b"load m f\ncall 0 m.whereami\nmove m\ncall 0 m.whereami\n";
    let cases: [(u64, &[u64], usize, u8, &str); 4] = [
        (16, &[1], 0, 5, "adelie: write"),
        (16, &[2], 16, 5, "adelie: write"),
        (1, &[419], 418, 5, "adelie: write"),
        (16, &[], 419, 0, ""),
    ];
    for (most, writes, taken, status, fault) in cases {
        let usual = seq(script, module.as_slice());
        let served = serve(
            &rt,
            &Given {
                most,
                writes,
                ..usual
            },
        )?;
        expect_fault(&rt, &served, status, fault);
        assert_eq!(rt; served.written.len(), taken);
        assert!(rt; WHEREAMI_REPORT.starts_with(served.written.as_slice()));
        assert_eq!(rt; (served.calls, served.moves, served.rows), (2, 1, 4));
    }
    Ok(())
}
