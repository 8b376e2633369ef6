//! Scripts: those that say little, those of several modules and workers, and those that are refused.

use super::linked::{COUNTER, KEEPER, OF_WORD, Source, made};
use super::objects::function;
use super::{Given, STACK_END, SUM, expect_fault, expect_refused, predict, seq, serve};
use std::process::Abort;
use std::sync::Wait;
use std::test::Fail;
use std::thread::Threads;

/// Asserts that a command prints this, once it asked for so many files.
fn expect_text(
    rt: &(impl Abort + AllocGlobal + Threads + Wait + Sync),
    given: &Given,
    text: &str,
    asked: usize,
) -> Result<(), Fail> {
    let served = serve(rt, given)?;
    expect_fault(rt, &served, 0, "");
    assert_eq!(rt; std::str::from_utf8(served.written.as_slice())?, text);
    assert_eq!(rt; served.asked, asked);
    Ok(())
}

#[test]
fn scripts_without_modules(rt: HostRuntime) -> Result<(), Fail> {
    let nothing = "map 1 stack w0 region 47222 start 24 pages 4 retired 0 unmapped 0\n\
                   end calls 0 moves 0 mappings 1\n";
    let stack = "stack 1 w0: mapping 2\n\
                 map 1 stack w0 region 47222 start 24 pages 4 retired 1 unmapped 1\n\
                 map 2 stack w0 region 56640 start 55 pages 4 retired 0 unmapped 0\n\
                 end calls 0 moves 1 mappings 2\n";
    // As many bytes as a file may have, and as many lines as a script may have.
    let spaces = vec![in rt.alloc(); b' '; 1_048_576]?;
    let lines = vec![in rt.alloc(); b'\n'; 20_000]?;
    let cases: [(&[u8], &str); 9] = [
        (b"", nothing),
        (b"\n", nothing),
        (b"\r\n\t\n", nothing),
        (b"# load m f", nothing),
        (b"workers 1\n", nothing),
        (spaces.as_slice(), nothing),
        (lines.as_slice(), nothing),
        (b"stack 0\n", stack),
        (b"\tstack 0x0 # the first worker's\r\n", stack),
    ];
    for (script, report) in cases {
        expect_text(&rt, &seq(script, b""), report, 1)?;
        expect_text(&rt, &predict(script, b""), "end calls 0\n", 1)?;
    }
    Ok(())
}

/// Two modules, four workers, moves and fresh stacks. The first module adds numbers, and the second tells where the caller's
/// stack ends.
const WHOLE: &[u8] = b"# Two modules and four workers.
workers 4
load a f
load b g

call 0 a.e 5
call 3 b.e
stack 3
call 3 b.e
move a b
call 2 a.e 0x10
move b
stack 1
stack 1
call 1 b.e # behind two stacks
call 1 a.e
move b a
call 0 b.e
";

/// Regions and starts were worked out from the words of ChaCha20 at seed 0, apart from this program.
const WHOLE_REPORT: &str = "call 6 w0 a.e at 0 under 6: returned 5
call 7 w3 b.e at 0 under 8: returned 12258086912
stack 8 w3: mapping 9
call 9 w3 b.e at 1 under 8: returned 9101623296
move 10 a: mapping 10
move 10 b: mapping 11
call 11 w2 a.e at 1 under 10: returned 21
move 12 b: mapping 12
stack 13 w1: mapping 13
stack 14 w1: mapping 14
call 15 w1 b.e at 2 under 12: returned 16229330944
call 16 w1 a.e at 2 under 10: returned 21
move 17 b: mapping 15
move 17 a: mapping 16
call 18 w0 b.e at 3 under 15: returned 12379078656
map 1 stack w0 region 47222 start 24 pages 4 retired 0 unmapped 0
map 2 stack w1 region 56640 start 55 pages 4 retired 13 unmapped 1
map 3 stack w2 region 53949 start 43 pages 4 retired 0 unmapped 0
map 4 stack w3 region 46760 start 53 pages 4 retired 8 unmapped 1
map 5 fixed a region 13128 start 40 pages 2 retired 0 unmapped 0
map 6 code a region 9213 start 25 pages 5 retired 10 unmapped 1
map 7 fixed b region 5724 start 20 pages 2 retired 0 unmapped 0
map 8 code b region 11941 start 56 pages 4 retired 10 unmapped 1
map 9 stack w3 region 34719 start 56 pages 4 retired 0 unmapped 0
map 10 code a region 11520 start 32 pages 5 retired 17 unmapped 1
map 11 code b region 4219 start 13 pages 4 retired 12 unmapped 1
map 12 code b region 16230 start 15 pages 4 retired 17 unmapped 1
map 13 stack w1 region 46889 start 11 pages 4 retired 14 unmapped 1
map 14 stack w1 region 61909 start 59 pages 4 retired 0 unmapped 0
map 15 code b region 3509 start 24 pages 4 retired 0 unmapped 0
map 16 code a region 24026 start 20 pages 5 retired 0 unmapped 0
end calls 7 moves 8 mappings 16
";

const WHOLE_PREDICTION: &str = "call 6 w0 a.e: returned 5
call 7 w3 b.e: keeps
call 9 w3 b.e: lost
call 11 w2 a.e: returned 21
call 15 w1 b.e: lost
call 16 w1 a.e: returned 21
call 18 w0 b.e: lost
end calls 7
";

#[test]
fn several_modules_and_workers(rt: HostRuntime) -> Result<(), Fail> {
    let counter = made(
        &rt,
        Source {
            words: &COUNTER,
            entries: &OF_WORD,
        },
    )?;
    let stack_end = function(rt.alloc(), &STACK_END, b"e")?;
    let other = stack_end.as_slice();
    let run = Given {
        other,
        ..seq(WHOLE, counter.as_slice())
    };
    expect_text(&rt, &run, WHOLE_REPORT, 3)?;
    let told = Given {
        other,
        ..predict(WHOLE, counter.as_slice())
    };
    expect_text(&rt, &told, WHOLE_PREDICTION, 3)
}

#[test]
fn calls_beside_a_module_that_keeps(rt: HostRuntime) -> Result<(), Fail> {
    let keeper = made(
        &rt,
        Source {
            words: &KEEPER,
            entries: &OF_WORD,
        },
    )?;
    let counter = made(
        &rt,
        Source {
            words: &COUNTER,
            entries: &OF_WORD,
        },
    )?;
    let both: &[u8] =
        b"load a f\nload b g\ncall 0 a.e\ncall 0 b.e 5\nmove a b\ncall 0 a.e\ncall 0 b.e 2\n";
    // The same without the first module, line by line.
    let alone: &[u8] = b"#\nload b g\n#\ncall 0 b.e 5\nmove b\n#\ncall 0 b.e 2\n";
    let given = Given {
        other: counter.as_slice(),
        ..predict(both, keeper.as_slice())
    };
    let text = "call 3 w0 a.e: keeps\ncall 4 w0 b.e: returned 5\n\
                call 6 w0 a.e: lost\ncall 7 w0 b.e: returned 7\nend calls 4\n";
    expect_text(&rt, &given, text, 3)?;
    let without = Given {
        script: alone,
        ..given
    };
    let text = "call 4 w0 b.e: returned 5\ncall 7 w0 b.e: returned 7\nend calls 2\n";
    expect_text(&rt, &without, text, 2)?;
    let run = Given {
        words: &["seq", "s"],
        ..given
    };
    let served = serve(&rt, &run)?;
    expect_fault(&rt, &served, 0, "");
    let begin = b"call 3 w0 a.e at 0 under 3: returned 0\n\
                  call 4 w0 b.e at 0 under 5: returned 5\n\
                  move 5 a: mapping 6\nmove 5 b: mapping 7\n\
                  call 6 w0 a.e at 1 under 6: returned 0\n\
                  call 7 w0 b.e at 1 under 7: returned 7\nmap 1 ";
    assert!(rt; served.written.as_slice().starts_with(begin.as_slice()));
    assert_eq!(rt; (served.books, served.calls), (2, 2));
    Ok(())
}

#[test]
fn scripts_that_are_refused(rt: HostRuntime) -> Result<(), Fail> {
    let lines = vec![in rt.alloc(); b'\n'; 20_001]?;
    let cases: [(&[u8], &str); 13] = [
        (b"load m f\nrun\n", "line 2: word"),
        (b"workers 65\n", "line 1: number"),
        (b"call 0 m.sum\n", "line 1: module"),
        (b"load m f\ncall 1 m.sum\n", "line 2: worker"),
        (b"load m sum.o\nload m sum.o\n", "line 2: duplicate"),
        (b"load m f\n\nmove m\nload n f\n", "line 4: late load"),
        (lines.as_slice(), "line 20001: too many"),
        (b"load m f\n# \x80\n", "line 2: not text"),
        (b"load m f\ncall 0 m\n", "line 2: export"),
        (
            b"load m f\ncall 0 m.sum 1 2 3 4 5 6 7 8 9\n",
            "line 2: args",
        ),
        // The first line that is refused is told, with its first cause, and no module is read.
        (b"load m f\nmove n\nrun\n", "line 2: module"),
        (b"load m absent\nstack 1", "line 2: worker"),
        (b"call 9 m x", "line 1: number"),
    ];
    let module = function(rt.alloc(), &SUM, b"sum")?;
    for (script, cause) in cases {
        let fault = format!(in rt.alloc(); "adelie: script {cause}")?;
        let served = serve(&rt, &seq(script, module.as_slice()))?;
        expect_refused(&rt, &served, 2, fault.as_str(), 1);
        let served = serve(&rt, &predict(script, module.as_slice()))?;
        expect_refused(&rt, &served, 2, fault.as_str(), 1);
    }
    Ok(())
}
