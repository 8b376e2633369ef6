//! Texts that are scripts, with what they say, and texts that are refused, each with its line and its cause.

use crate::{
    ARGUMENTS, Cause, Load, SCRIPT_LINES, Script, ScriptRefusal, Step, law_accepted,
    law_first_bad_line, law_in_range, law_most, read_script,
};
use std::alloc::Global;
use std::fmt::Write;
use std::test::Fail;

/// What a script says, as text: the workers, the loads by line, and the steps by line.
fn told(alloc: Global, script: &Script) -> Result<String, Fail> {
    let mut text = format!(in alloc; "workers {}", script.workers)?;
    for load in script.loads.as_slice() {
        write_load(&mut text, load)?;
    }
    for step in script.steps.as_slice() {
        write_step(&mut text, step)?;
    }
    Ok(text)
}

fn write_load(text: &mut String, load: &Load) -> Result<(), Fail> {
    write!(text, "; {} load {} {}", load.line, load.name, load.file)?;
    Ok(())
}

fn write_step(text: &mut String, step: &Step) -> Result<(), Fail> {
    match step {
        Step::Call {
            line,
            worker,
            module,
            export,
            args,
        } => {
            write!(text, "; {line} call {worker} {module}.{export}")?;
            for arg in args.as_slice() {
                write!(text, " {arg}")?;
            }
        }
        Step::Move { line, modules } => {
            write!(text, "; {line} move")?;
            for module in modules.as_slice() {
                write!(text, " {module}")?;
            }
        }
        Step::Stack { line, worker } => write!(text, "; {line} stack {worker}")?,
    }
    Ok(())
}

/// Texts of scripts, and what they say.
const SCRIPTS: [(&[u8], &str); 38] = [
    // Lines that say nothing.
    (b"", "workers 1"),
    (b"\n", "workers 1"),
    (b"\n\n\n", "workers 1"),
    (b" \t \n\t", "workers 1"),
    (b"# load m f\n", "workers 1"),
    (b"#", "workers 1"),
    (b" #call 0 m.e\n", "workers 1"),
    // The ends of lines: LF, CR LF, none, and a CR alone at the end of the text.
    (b"workers 2", "workers 2"),
    (b"workers 2\r", "workers 2"),
    (b"workers 2\r\n", "workers 2"),
    (b"\r\nworkers 2\r\n\r\n", "workers 2"),
    (b"workers 2\n\r", "workers 2"),
    (b"load m f\r\nmove m", "workers 1; 1 load m f; 2 move 0"),
    // Spaces and tabs, and comments behind words.
    (b"  workers\t \t3  ", "workers 3"),
    (b"workers 3 # four", "workers 3"),
    (b"workers 3 #", "workers 3"),
    (b"load m a#b # c", "workers 1; 1 load m a#b"),
    // Numbers, with leading zeros and in both cases.
    (b"workers 1", "workers 1"),
    (b"workers 64", "workers 64"),
    (b"workers 0x40", "workers 64"),
    (b"workers 000000000000000000000000000064", "workers 64"),
    (
        b"workers 0x00000000000000000000000000000000002a",
        "workers 42",
    ),
    (
        b"load m f\ncall 0x0 m.e 18446744073709551615 0xffffffffFFFFFFFF 0xaB 007",
        "workers 1; 1 load m f; 2 call 0 0.e 18446744073709551615 18446744073709551615 171 7",
    ),
    (
        b"load m f\ncall 0 m.e 0 1 2 3 4 5 6 7",
        "workers 1; 1 load m f; 2 call 0 0.e 0 1 2 3 4 5 6 7",
    ),
    // Names.
    (
        b"load _m9 f\ncall 0 _m9..$_Z9",
        "workers 1; 1 load _m9 f; 2 call 0 0..$_Z9",
    ),
    (
        b"load abcdefghijklmnopqrstuvwxyzABCDEF f",
        "workers 1; 1 load abcdefghijklmnopqrstuvwxyzABCDEF f",
    ),
    (
        b"load abcdefghijklmnopqrstuvwxyzABCDEF f\nmove abcdefghijklmnopqrstuvwxyzABCDEF\ncall 0 abcdefghijklmnopqrstuvwxyzABCDEF.e",
        "workers 1; 1 load abcdefghijklmnopqrstuvwxyzABCDEF f; 2 move 0; 3 call 0 0.e",
    ),
    (b"load m !~", "workers 1; 1 load m !~"),
    (
        b"load load load\ncall 0 load.call\nmove load",
        "workers 1; 1 load load load; 2 call 0 0.call; 3 move 0",
    ),
    (
        b"load m m.e\ncall 0 m.m.e",
        "workers 1; 1 load m m.e; 2 call 0 0.m.e",
    ),
    // Several modules and workers, in any order before the first step.
    (
        b"load m f\nworkers 2\nload n f\ncall 1 n.e\ncall 0 m.e",
        "workers 2; 1 load m f; 3 load n f; 4 call 1 1.e; 5 call 0 0.e",
    ),
    (
        b"load m f\nload n g\nmove n m\nmove m n\nmove n",
        "workers 1; 1 load m f; 2 load n g; 3 move 1 0; 4 move 0 1; 5 move 1",
    ),
    (
        b"workers 3\nstack 2\nstack 0\nstack 2",
        "workers 3; 2 stack 2; 3 stack 0; 4 stack 2",
    ),
    (b"stack 0", "workers 1; 1 stack 0"),
    (b"workers 64\nstack 63", "workers 64; 2 stack 63"),
    (
        b"load m f\nload M f\ncall 0 M.e",
        "workers 1; 1 load m f; 2 load M f; 3 call 0 1.e",
    ),
    (
        b"load a f\nload b f\nload c f\nload d f\nload e f\nload f f\nload g f\nload h f\nmove h g f e d c b a",
        "workers 1; 1 load a f; 2 load b f; 3 load c f; 4 load d f; 5 load e f; 6 load f f; 7 load g f; 8 load h f; 9 move 7 6 5 4 3 2 1 0",
    ),
    (
        b"\n# two\nload m f\n\ncall 0 m.e\n",
        "workers 1; 3 load m f; 5 call 0 0.e",
    ),
];

/// Texts that are refused: the line, and the cause.
const REFUSED: [(&[u8], u64, Cause); 104] = [
    // A byte is no text: also in comments, behind words and in lines without words.
    (b"\x00", 1, Cause::NotText),
    (b"\x1f", 1, Cause::NotText),
    (b"\x7f", 1, Cause::NotText),
    (b"\x80", 1, Cause::NotText),
    (b"\xc3\xa9", 1, Cause::NotText),
    (b"# \x07", 1, Cause::NotText),
    (b"\n\n#\xff\n", 3, Cause::NotText),
    (b"\r\r\n", 1, Cause::NotText),
    (b"\r\r", 1, Cause::NotText),
    (b"workers\r2", 1, Cause::NotText),
    (b"\rworkers 2", 1, Cause::NotText),
    (b"workers 2\r \n", 1, Cause::NotText),
    (b"load m f\nmove m\r\r\n", 2, Cause::NotText),
    (b"# a\rb", 1, Cause::NotText),
    (b"load m f\x0b", 1, Cause::NotText),
    (b"load\x00m f g", 1, Cause::NotText),
    // The words are those of no line.
    (b"loads m f", 1, Cause::Word),
    (b"Load m f", 1, Cause::Word),
    (b"run", 1, Cause::Word),
    (b"workers", 1, Cause::Word),
    (b"workers 1 2", 1, Cause::Word),
    (b"load", 1, Cause::Word),
    (b"load m", 1, Cause::Word),
    (b"load m # f", 1, Cause::Word),
    (b"load m #f", 1, Cause::Word),
    (b"load m f g", 1, Cause::Word),
    (b"call", 1, Cause::Word),
    (b"call 0", 1, Cause::Word),
    (b"move", 1, Cause::Word),
    (b"stack", 1, Cause::Word),
    (b"stack 0 1", 1, Cause::Word),
    // Names in loads and moves.
    (b"load 1m f", 1, Cause::Word),
    (b"load m.n f", 1, Cause::Word),
    (b"load m- f", 1, Cause::Word),
    (b"load abcdefghijklmnopqrstuvwxyzABCDEFG f", 1, Cause::Word),
    (b"load m f\nmove 1m", 2, Cause::Word),
    (b"load m f\nmove m m.e", 2, Cause::Word),
    (b"move abcdefghijklmnopqrstuvwxyzABCDEFG", 1, Cause::Word),
    // A bad name is told before too many names, and that before others.
    (b"move a b c d e f g h 1", 1, Cause::Word),
    (b"move a b c d e f g h i", 1, Cause::Args),
    (b"load m f\nmove m m m m m m m m m", 2, Cause::Args),
    (b"load m f\ncall 0 m.e 0 1 2 3 4 5 6 7 8", 2, Cause::Args),
    (b"call x y 0 1 2 3 4 5 6 7 z", 1, Cause::Args),
    // What should stand before the steps.
    (b"stack 0\nload m f", 2, Cause::LateLoad),
    (b"stack 0\nworkers 1", 2, Cause::LateLoad),
    (b"load m f\ncall 0 m.e\nload n f", 3, Cause::LateLoad),
    (b"load m f\nmove m\nworkers 2", 3, Cause::LateLoad),
    (b"load m f\nmove m\nload m f", 3, Cause::LateLoad),
    (b"stack 0\nworkers x", 2, Cause::LateLoad),
    (b"workers 2\nstack 0\nworkers 2", 3, Cause::LateLoad),
    (b"stack 0\nload 1m f", 2, Cause::Word),
    (
        b"load a f\nload b f\nload c f\nload d f\nload e f\nload f f\nload g f\nload h f\nstack 0\nload i f",
        10,
        Cause::LateLoad,
    ),
    // Numbers.
    (b"workers 0", 1, Cause::Number),
    (b"workers 65", 1, Cause::Number),
    (b"workers x", 1, Cause::Number),
    (b"workers +1", 1, Cause::Number),
    (b"workers -1", 1, Cause::Number),
    (b"workers 0x", 1, Cause::Number),
    (b"workers 0X1", 1, Cause::Number),
    (b"workers 0xg", 1, Cause::Number),
    (b"workers 0x+1", 1, Cause::Number),
    (b"workers 1f", 1, Cause::Number),
    (b"workers 18446744073709551617", 1, Cause::Number),
    (b"workers 0x10000000000000001", 1, Cause::Number),
    (b"workers 1_0", 1, Cause::Number),
    (b"workers 2\nworkers 0", 2, Cause::Number),
    (b"workers 2\nworkers x", 2, Cause::Number),
    (b"stack x", 1, Cause::Number),
    (b"stack 18446744073709551616", 1, Cause::Number),
    (b"load m f\ncall x m.e", 2, Cause::Number),
    (b"load m f\ncall 0 m.e 1 2 x", 2, Cause::Number),
    (
        b"load m f\ncall 0 m.e 18446744073709551616",
        2,
        Cause::Number,
    ),
    (
        b"load m f\ncall 0 m.e 0x10000000000000000",
        2,
        Cause::Number,
    ),
    (b"load m f\ncall 0 m.e -1", 2, Cause::Number),
    (b"call 9 y x", 1, Cause::Number),
    // Workers.
    (b"stack 1", 1, Cause::Worker),
    (b"workers 2\nstack 2", 2, Cause::Worker),
    (b"load m f\ncall 1 m.e", 2, Cause::Worker),
    (b"load m f\nworkers 64\ncall 64 m.e", 3, Cause::Worker),
    (b"stack 18446744073709551615", 1, Cause::Worker),
    (b"call 1 y", 1, Cause::Worker),
    // What is called.
    (b"call 0 m", 1, Cause::Export),
    (b"call 0 .e", 1, Cause::Export),
    (b"call 0 m.", 1, Cause::Export),
    (b"call 0 1m.e", 1, Cause::Export),
    (b"call 0 m.e-f", 1, Cause::Export),
    (b"call 0 m-n.e", 1, Cause::Export),
    (
        b"call 0 abcdefghijklmnopqrstuvwxyzABCDEFG.e",
        1,
        Cause::Export,
    ),
    // Modules that weren't loaded.
    (b"call 0 m.sum", 1, Cause::Module),
    (b"load m f\ncall 0 n.e", 2, Cause::Module),
    (b"load m f\ncall 0 M.e", 2, Cause::Module),
    (b"load m f\ncall 0 mm.e", 2, Cause::Module),
    (b"move m", 1, Cause::Module),
    (b"load m f\nmove m n", 2, Cause::Module),
    (b"load m f\nmove m m n", 2, Cause::Module),
    // What was said before.
    (b"load m sum.o\nload m sum.o", 2, Cause::Duplicate),
    (b"workers 1\nworkers 1", 2, Cause::Duplicate),
    (b"load m f\nmove m m", 2, Cause::Duplicate),
    (b"load m f\nload n f\nmove m n m", 3, Cause::Duplicate),
    (
        b"load a f\nload b f\nload c f\nload d f\nload e f\nload f f\nload g f\nload h f\nload a f",
        9,
        Cause::Duplicate,
    ),
    (
        b"load a f\nload b f\nload c f\nload d f\nload e f\nload f f\nload g f\nload h f\nload i f",
        9,
        Cause::TooMany,
    ),
    // The first bad line counts.
    (b"\nfoo\n\x00\n", 2, Cause::Word),
    (b"\r\n\r\nfoo\r\n", 3, Cause::Word),
    (b"workers 2\nload m f\n\nmove n\nfoo\n", 4, Cause::Module),
];

#[test]
fn scripts_say_this(rt: HostRuntime) -> Result<(), Fail> {
    for (text, says) in &SCRIPTS {
        let script = read_script(rt.alloc(), text);
        let Ok(script) = script else {
            return Err("a text of a script was refused".into());
        };
        assert_eq!(rt; told(rt.alloc(), &script)?.as_str(), *says, "{text:?}");
    }
    Ok(())
}

fn refusal(alloc: Global, text: &[u8]) -> Option<ScriptRefusal> {
    read_script(alloc, text).err()
}

#[test]
fn other_texts_are_refused(rt: HostRuntime) -> Result<(), Fail> {
    for (text, line, cause) in &REFUSED {
        let at = ScriptRefusal::At {
            line: *line,
            cause: *cause,
        };
        assert_eq!(rt; refusal(rt.alloc(), text), Some(at), "{text:?}");
    }
    Ok(())
}

/// So many lines that give the one worker a fresh stack, and a last line.
fn stacks(alloc: Global, count: u64, last: &[u8]) -> Result<Vec<u8>, Fail> {
    let mut text = Vec::new(alloc);
    for _ in 0..count {
        text.extend_from_slice(b"stack 0\n")?;
    }
    text.extend_from_slice(last)?;
    Ok(text)
}

#[test]
fn has_at_most_20_000_lines(rt: HostRuntime) -> Result<(), Fail> {
    assert_eq!(rt; SCRIPT_LINES, 20_000);
    assert_eq!(rt; ARGUMENTS, 8);
    let cases: [(u64, &[u8], Option<Cause>); 9] = [
        (20_000, b"", None),
        (20_000, b"\r", Some(Cause::TooMany)),
        (0, b"", None),
        (19_999, b"stack 0", None),
        (20_000, b"stack 0", Some(Cause::TooMany)),
        (20_000, b"\n", Some(Cause::TooMany)),
        (20_000, b"# x", Some(Cause::TooMany)),
        (20_000, b"foo", Some(Cause::TooMany)),
        (20_000, b"# \x07", Some(Cause::NotText)),
    ];
    for (count, last, cause) in cases {
        let text = stacks(rt.alloc(), count, last)?;
        let at = cause.map(|cause| ScriptRefusal::At {
            line: 20_001,
            cause,
        });
        assert_eq!(rt; refusal(rt.alloc(), &text), at, "{last:?}");
    }
    Ok(())
}

/// A text with so many letters behind it.
fn with_letters(alloc: Global, text: &[u8], count: u64) -> Result<Vec<u8>, Fail> {
    let mut longer = Vec::from_slice(alloc, text)?;
    for _ in 0..count {
        longer.push(b'e')?;
    }
    Ok(longer)
}

#[test]
fn names_have_at_most_so_many_bytes(rt: HostRuntime) -> Result<(), Fail> {
    let cases: [(&[u8], u64, Option<(u64, Cause)>); 6] = [
        (b"load m f\nmove m\nload ", 1, Some((3, Cause::Word))),
        (b"load m ", 255, None),
        (b"load m ", 256, Some((1, Cause::Word))),
        (b"load m f\ncall 0 m.", 128, None),
        (b"load m f\ncall 0 m.", 129, Some((2, Cause::Export))),
        (b"load m f\nmove ", 33, Some((2, Cause::Word))),
    ];
    for (text, count, refused) in cases {
        let longer = with_letters(rt.alloc(), text, count)?;
        let at = refused.map(|(line, cause)| ScriptRefusal::At { line, cause });
        assert_eq!(rt; refusal(rt.alloc(), &longer), at, "{text:?}");
    }
    Ok(())
}

#[test]
fn laws_are_called() {
    law_first_bad_line();
    law_in_range();
    law_most();
    law_accepted();
}

#[test]
fn causes_are_printed(rt: HostRuntime) -> Result<(), Fail> {
    let cases = [
        (Cause::Word, "word"),
        (Cause::Number, "number"),
        (Cause::Module, "module"),
        (Cause::Worker, "worker"),
        (Cause::Duplicate, "duplicate"),
        (Cause::LateLoad, "late load"),
        (Cause::TooMany, "too many"),
        (Cause::NotText, "not text"),
        (Cause::Export, "export"),
        (Cause::Args, "args"),
    ];
    for (cause, text) in cases {
        assert_eq!(rt; format!(in rt.alloc(); "{cause}")?.as_str(), text);
    }
    Ok(())
}
