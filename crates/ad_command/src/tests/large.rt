//! The largest scripts: as many lines as there may be, over as many modules and workers as there may be. What they come to is worked
//! out from their lines.

use super::objects::function;
use super::{Given, SUM, expect_fault, expect_refused, seq, serve};
use std::alloc::Global;
use std::process::Abort;
use std::sync::Wait;
use std::test::Fail;
use std::thread::Threads;

/// The names of the modules.
const MODULES: [&str; 8] = ["a", "b", "c", "d", "e", "f", "g", "h"];

/// How many lines a script may have.
const LINES: u64 = 20_000;

/// What is mapped before the first step: a stack for each of 64 workers, and two parts of each module.
const OPENING: usize = 80;

/// The commands on a script.
const COMMANDS: [&[&str]; 3] = [&["seq", "s"], &["predict", "s"], &["run", "s"]];

/// The line of this number. Lines 10 to 20,000 are the steps: five moves, five fresh stacks, and else calls, of each module by
/// all workers in turn. A module is moved five times at most, so that no frame of it is ever asked for twice.
fn line(alloc: Global, number: u64) -> Result<String, Fail> {
    let worker = number % 64;
    let name = MODULES[(number / 64 % 8) as usize];
    Ok(match number % 4_000 {
        10 => format!(in alloc; "move h a e\n")?,
        2_010 => format!(in alloc; "stack {worker}\n")?,
        _ => format!(in alloc; "call {worker} {name}.sum {number}\n")?,
    })
}

/// The whole script.
fn script(alloc: Global) -> Result<String, Fail> {
    let mut text = String::from_str(alloc, "workers 64\n")?;
    for name in MODULES {
        let load = format!(in alloc; "load {name} f\n")?;
        text.push_str(load.as_str())?;
    }
    for number in 10..=LINES {
        let line = line(alloc, number)?;
        text.push_str(line.as_str())?;
    }
    Ok(text)
}

/// How the line of a reply begins, and how it ends.
#[derive(Drop)]
struct Reply {
    begin: String,
    end: String,
}

/// What is to be written of the lines of a script.
#[derive(Drop)]
struct Expected {
    replies: Vec<Reply>,
    calls: usize,
    /// How many places the moves and the fresh stacks make.
    moves: usize,
}

impl Expected {
    /// Adds what is to be written of a line: a call returns its argument, and the mappings are numbered one after another.
    fn add(&mut self, alloc: Global, number: u64, line: &str) -> Result<(), Fail> {
        let mut words = line.split(' ');
        match words.next() {
            Some("call") => {
                let worker = words.next().unwrap_or("");
                let target = words.next().unwrap_or("");
                let argument = words.next().unwrap_or("");
                let begin = format!(in alloc; "call {number} w{worker} {target}")?;
                self.add_call(alloc, begin, argument)
            }
            Some("move") => {
                for name in words {
                    self.add_move(alloc, format!(in alloc; "move {number} {name}: ")?)?;
                }
                Ok(())
            }
            Some("stack") => {
                let worker = words.next().unwrap_or("");
                self.add_move(alloc, format!(in alloc; "stack {number} w{worker}: ")?)
            }
            _ => Ok(()),
        }
    }

    fn add_call(&mut self, alloc: Global, begin: String, argument: &str) -> Result<(), Fail> {
        self.calls = self.calls.saturating_add(1);
        let end = format!(in alloc; ": returned {argument}")?;
        self.replies.push(Reply { begin, end })?;
        Ok(())
    }

    fn add_move(&mut self, alloc: Global, begin: String) -> Result<(), Fail> {
        self.moves = self.moves.saturating_add(1);
        let end = format!(in alloc; ": mapping {}", self.mappings())?;
        self.replies.push(Reply { begin, end })?;
        Ok(())
    }

    /// How many mappings there are so far.
    fn mappings(&self) -> usize {
        self.moves.saturating_add(OPENING)
    }
}

fn expected_of(alloc: Global, script: &str) -> Result<Expected, Fail> {
    let mut all = Expected {
        replies: Vec::new(alloc),
        calls: 0,
        moves: 0,
    };
    for (number, line) in (1..=LINES).zip(script.lines()) {
        all.add(alloc, number, line)?;
    }
    Ok(all)
}

/// Asserts that these are the first lines of a text.
fn expect_replies(rt: &impl Abort, text: &str, replies: &[Reply]) {
    for (line, reply) in text.lines().zip(replies) {
        let (begin, end) = (reply.begin.as_str(), reply.end.as_str());
        assert!(rt; line.starts_with(begin) && line.ends_with(end), "{begin}");
    }
}

/// Asserts that these are the calls among them, and the first lines of a prediction.
fn expect_predicted(rt: &impl Abort, text: &str, replies: &[Reply]) {
    let calls = replies
        .iter()
        .filter(|reply| reply.begin.as_str().starts_with("call "));
    for (line, reply) in text.lines().zip(calls) {
        let (begin, end) = (reply.begin.as_str(), reply.end.as_str());
        assert!(rt; line.starts_with(begin) && line.ends_with(end), "{begin}");
    }
}

/// Asserts how many lines a text has, and that it ends so.
fn expect_size_and_end(rt: &impl Abort, text: &str, lines: usize, end: &str) {
    assert_eq!(rt; text.lines().count(), lines);
    assert!(rt; text.ends_with(end), "{end}");
}

/// Serves a command on a script whose modules all add two numbers. It is done, and what it writes is the answer.
fn text_of(
    rt: &(impl Abort + AllocGlobal + Threads + Wait + Sync),
    words: &[&str],
    script: &str,
) -> Result<String, Fail> {
    let module = function(rt.alloc(), &SUM, b"sum")?;
    let given = Given {
        words,
        ..seq(script.as_bytes(), module.as_slice())
    };
    let served = serve(rt, &given)?;
    expect_fault(rt, &served, 0, "");
    // The script, and the file of each module.
    assert_eq!(rt; served.asked, 9);
    Ok(String::from_str(rt.alloc(), std::str::from_utf8(served.written.as_slice())?)?)
}

#[test]
fn the_largest_script(rt: HostRuntime) -> Result<(), Fail> {
    let alloc = rt.alloc();
    let script = script(alloc)?;
    assert_eq!(rt; script.as_str().lines().count(), 20_000);
    let all = expected_of(alloc, script.as_str())?;
    let (calls, moves, mappings) = (all.calls, all.moves, all.mappings());
    assert_eq!(rt; (calls, moves, mappings), (19_981, 20, 100));

    let end = format!(in alloc; "\nend calls {calls} moves {moves} mappings {mappings}\n")?;
    let lines = all.replies.len().saturating_add(mappings).saturating_add(1);
    for command in ["seq", "run"] {
        let text = text_of(&rt, &[command, "s"], script.as_str())?;
        expect_replies(&rt, text.as_str(), all.replies.as_slice());
        expect_size_and_end(&rt, text.as_str(), lines, end.as_str());
    }

    let text = text_of(&rt, &["predict", "s"], script.as_str())?;
    let end = format!(in alloc; "\nend calls {calls}\n")?;
    expect_predicted(&rt, text.as_str(), all.replies.as_slice());
    expect_size_and_end(&rt, text.as_str(), calls.saturating_add(1), end.as_str());
    Ok(())
}

/// One line more is one too many: it is refused, and no module is read.
#[test]
fn one_line_too_many(rt: HostRuntime) -> Result<(), Fail> {
    let mut script = script(rt.alloc())?;
    script.push_str("call 0 a.sum 1\n")?;
    let module = function(rt.alloc(), &SUM, b"sum")?;
    for words in COMMANDS {
        let given = Given {
            words,
            ..seq(script.as_bytes(), module.as_slice())
        };
        let served = serve(&rt, &given)?;
        expect_refused(&rt, &served, 2, "adelie: script line 20001: too many", 1);
    }
    Ok(())
}
