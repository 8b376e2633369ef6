//! Runs over files and a sink in memory. Some are held up, so that they end only where threads run beside one another. The
//! texts are worked out by hand from the formats.

mod files;

use crate::{Hold, HoldingGate, Stop};
use ad_base::{Book, End, MemFiles, MemSink, Point, Row};
use ad_command::{Trouble, top};
use std::alloc::Global;
use std::process::Abort;
use std::sync::Wait;
use std::test::Fail;
use std::thread::Threads;

/// Bytes that the sink has room for.
const ROOM: u64 = 1_048_576;

/// The words of a command, and the outside that it is served in.
#[derive(Clone, Copy)]
struct Given<'a> {
    /// Words with a space between each two.
    words: &'a str,
    /// The bytes of the file `s`.
    script: &'a str,
    holds: &'a [Hold<'a>],
    /// Bytes that a write takes at most.
    most: u64,
    /// The writes that fail, counted from 1.
    writes: &'a [u64],
}

/// What came of it.
#[derive(Drop)]
struct Ran {
    fault: Option<Trouble>,
    written: String,
    books: Vec<Book>,
    rows: Vec<Row>,
    has_table: bool,
    gave_up: bool,
}

/// These words, this script and these holds, where nothing fails.
fn unfailing<'a>(words: &'a str, script: &'a str, holds: &'a [Hold<'a>]) -> Given<'a> {
    Given {
        words,
        script,
        holds,
        most: ROOM,
        writes: &[],
    }
}

/// The words as a process has them.
fn split(alloc: Global, words: &str) -> Result<Vec<String>, Fail> {
    let mut list = Vec::new(alloc);
    for word in words.split(' ') {
        list.push(String::from_str(alloc, word)?)?;
    }
    Ok(list)
}

fn sink(alloc: Global, given: &Given) -> Result<MemSink, Fail> {
    let writes = Vec::from_slice(alloc, given.writes)?;
    Ok(MemSink::new(alloc, ROOM, given.most.max(1), writes)?)
}

/// Serves a command. No other test calls `top`, whose contract is long.
fn serve<R: AllocGlobal + Threads + Wait + Sync>(rt: &R, given: &Given) -> Result<Ran, Fail> {
    let alloc = rt.alloc();
    let words = split(alloc, given.words)?;
    let mut files = MemFiles::new(files::all(alloc, given.script)?, Vec::new(alloc));
    let mut out = sink(alloc, given)?;
    let gate = HoldingGate::new(alloc, given.holds)?;
    let ended = top(rt, words.as_slice(), &mut files, &mut out, &gate);
    Ok(Ran {
        fault: ended.fault,
        written: String::from_str(alloc, std::str::from_utf8(out.taken())?)?,
        books: ended.books,
        rows: ended.ledger,
        has_table: ended.closed.is_some(),
        gave_up: gate.gave_up(),
    })
}

/// Asserts that the run was done, that nobody waited in vain, and that a mapping was unmapped exactly where it was retired.
fn expect_done(rt: &impl Abort, ran: &Ran) {
    assert!(rt; !ran.gave_up, "nobody waits in vain");
    assert!(rt; ran.fault.is_none());
    assert!(rt; ran.has_table);
    for row in &ran.rows {
        assert_eq!(rt; row.unmaps, u64::from(row.line != 0));
    }
}

const CALL_AND_THREE_MOVES: &str = "load m whereami.o\ncall 0 m.whereami\nmove m\nmove m\nmove m\n";

const CALL_AND_THREE_MOVES_REPORT: &str = "call 2 w0 m.whereami at 0 under 3: returned 3435573248
move 3 m: mapping 4
move 4 m: busy owner 4
move 5 m: mapping 5
map 1 stack w0 region 47222 start 24 pages 4 retired 0 unmapped 0
map 2 fixed m region 29432 start 1 pages 2 retired 0 unmapped 0
map 3 code m region 13105 start 43 pages 4 retired 3 unmapped 1
map 4 code m region 27250 start 53 pages 4 retired 5 unmapped 1
map 5 code m region 13128 start 39 pages 4 retired 0 unmapped 0
end calls 1 moves 2 mappings 5
";

/// The call is inside its mapping from before the first move until the last one begins. The last one waits until it has
/// ended. A mover that makes its moves before the calls waits in vain, and so does a call that leaves before it is its turn.
#[test]
fn a_module_moves_while_a_call_is_inside(rt: HostRuntime) -> Result<(), Fail> {
    for held_at in [Point::Entered, Point::Turn] {
        let holds = [
            Hold {
                at: Stop {
                    line: 3,
                    point: Point::Move,
                },
                until: &[Stop {
                    line: 2,
                    point: held_at,
                }],
            },
            Hold {
                at: Stop {
                    line: 2,
                    point: held_at,
                },
                until: &[Stop {
                    line: 5,
                    point: Point::Move,
                }],
            },
            Hold {
                at: Stop {
                    line: 5,
                    point: Point::Move,
                },
                until: &[Stop {
                    line: 2,
                    point: Point::Ended,
                }],
            },
        ];
        let words = "run --frames 2 s";
        let ran = serve(&rt, &unfailing(words, CALL_AND_THREE_MOVES, &holds))?;
        expect_done(&rt, &ran);
        assert_eq!(rt; ran.written.as_str(), CALL_AND_THREE_MOVES_REPORT);
    }
    Ok(())
}

const TWO_WORKERS: &str = "workers 2
load a sum.o
load b sum.o
call 0 a.sum 2 3
call 1 b.sum 4 5
move a
move b
";

/// It is the turn of worker 0's call until worker 1's call on the other module has ended and both modules were moved. A run
/// that makes one worker's calls after the other's, or holds one lock for each line, waits in vain.
const WORKER_0_HAS_ITS_TURN: [Hold; 2] = [
    Hold {
        at: Stop {
            line: 4,
            point: Point::Turn,
        },
        until: &[
            Stop {
                line: 5,
                point: Point::Ended,
            },
            Stop {
                line: 6,
                point: Point::Retired,
            },
            Stop {
                line: 7,
                point: Point::Retired,
            },
        ],
    },
    Hold {
        at: Stop {
            line: 6,
            point: Point::Move,
        },
        until: &[
            Stop {
                line: 4,
                point: Point::Turn,
            },
            Stop {
                line: 5,
                point: Point::Ended,
            },
        ],
    },
];

const MOVED_BETWEEN: &str = "load m whereami.o\ncall 0 m.whereami\nmove m\ncall 0 m.whereami\n";

/// Line 3 moves the module after the call of line 2 and before the next.
const LINE_3_IS_BETWEEN: [Hold; 2] = [
    Hold {
        at: Stop {
            line: 3,
            point: Point::Move,
        },
        until: &[Stop {
            line: 2,
            point: Point::Ended,
        }],
    },
    Hold {
        at: Stop {
            line: 2,
            point: Point::Ended,
        },
        until: &[Stop {
            line: 3,
            point: Point::Retired,
        }],
    },
];

/// The same of line 4 and the calls of the lines 3 and 5.
const LINE_4_IS_BETWEEN: [Hold; 2] = [
    Hold {
        at: Stop {
            line: 4,
            point: Point::Move,
        },
        until: &[Stop {
            line: 3,
            point: Point::Ended,
        }],
    },
    Hold {
        at: Stop {
            line: 3,
            point: Point::Ended,
        },
        until: &[Stop {
            line: 4,
            point: Point::Retired,
        }],
    },
];

/// Words, a script, who is held up, and how the report begins.
const RUNS: [(&str, &str, &[Hold], &str); 11] = [
    (
        "run s",
        "load m sum.o\ncall 0 m.sum 2 3\n",
        &[],
        "call 2 w0 m.sum at 0 under 3: returned 5
map 1 stack w0 region 47222 start 24 pages 4 retired 0 unmapped 0
map 2 fixed m region 29432 start 1 pages 2 retired 0 unmapped 0
map 3 code m region 13105 start 43 pages 4 retired 0 unmapped 0
end calls 1 moves 0 mappings 3
",
    ),
    (
        "run s",
        "",
        &[],
        "map 1 stack w0 region 47222 start 24 pages 4 retired 0 unmapped 0\nend calls 0 moves 0 mappings 1\n",
    ),
    (
        "run s",
        MOVED_BETWEEN,
        &LINE_3_IS_BETWEEN,
        "call 2 w0 m.whereami at 0 under 3: returned 3435573248
move 3 m: mapping 4
call 4 w0 m.whereami at 1 under 4: returned 7143641088
map 1 stack w0 region 47222 start 24 pages 4 retired 0 unmapped 0
map 2 fixed m region 29432 start 1 pages 2 retired 0 unmapped 0
map 3 code m region 13105 start 43 pages 4 retired 3 unmapped 1
map 4 code m region 27250 start 53 pages 4 retired 0 unmapped 0
end calls 2 moves 1 mappings 4
",
    ),
    (
        "run s",
        "load m cnt.o\ncall 0 m.add 5\ncall 0 m.add 2\nmove m\ncall 0 m.add 5\n",
        &LINE_4_IS_BETWEEN,
        "call 2 w0 m.add at 0 under 3: returned 5
call 3 w0 m.add at 1 under 3: returned 7
move 4 m: mapping 4
call 5 w0 m.add at 2 under 4: returned 12
",
    ),
    (
        "run s",
        TWO_WORKERS,
        &WORKER_0_HAS_ITS_TURN,
        "call 4 w0 a.sum at 0 under 4: returned 5
call 5 w1 b.sum at 0 under 6: returned 9
move 6 a: mapping 7
move 7 b: mapping 8
",
    ),
    (
        "run --frames=2 s",
        "load m sum.o\nmove m\nmove m\n",
        &[],
        "move 2 m: mapping 4
move 3 m: mapping 5
map 1 stack w0 region 47222 start 24 pages 4 retired 0 unmapped 0
map 2 fixed m region 29432 start 1 pages 2 retired 0 unmapped 0
map 3 code m region 13105 start 43 pages 4 retired 2 unmapped 1
map 4 code m region 27250 start 53 pages 4 retired 3 unmapped 1
map 5 code m region 13128 start 39 pages 4 retired 0 unmapped 0
end calls 0 moves 2 mappings 5
",
    ),
    (
        "run s",
        "stack 0\n",
        &[],
        "stack 1 w0: mapping 2
map 1 stack w0 region 47222 start 24 pages 4 retired 1 unmapped 1
map 2 stack w0 region 56640 start 55 pages 4 retired 0 unmapped 0
end calls 0 moves 1 mappings 2
",
    ),
    (
        "run s --fuel 3",
        "load m count.o\ncall 0 m.count 4\n",
        &[],
        "call 2 w0 m.count at 0 under 3: trap fuel\n",
    ),
    (
        "run s --fuel 4",
        "load m count.o\ncall 0 m.count 4\n",
        &[],
        "call 2 w0 m.count at 0 under 3: returned 7\n",
    ),
    (
        "run s",
        "load m below.o\ncall 0 m.below\ncall 0 m.below\n",
        &[],
        "call 2 w0 m.below at 0 under 3: trap fault\ncall 3 w0 m.below at 1 under 3: trap fault\n",
    ),
    (
        "run s",
        "load a keeps.o\nload b sum.o\ncall 0 a.add\ncall 0 a.add\ncall 0 b.sum 2 3\n",
        &[],
        "call 3 w0 a.add at 0 under 3: returned 0
call 4 w0 a.add at 1 under 3: returned 0
call 5 w0 b.sum at 0 under 5: returned 5
",
    ),
];

#[test]
fn worked_runs(rt: HostRuntime) -> Result<(), Fail> {
    for (words, script, holds, begin) in RUNS {
        let ran = serve(&rt, &unfailing(words, script, holds))?;
        expect_done(&rt, &ran);
        assert!(rt; ran.written.as_str().starts_with(begin), "{}", ran.written);
    }
    Ok(())
}

/// A script of counters in all modules, all workers of which call them, with moves and fresh stacks between.
fn counters_script(alloc: Global) -> Result<String, Fail> {
    let mut script = String::from_str(alloc, "workers 64\n")?;
    for module in 0..8u64 {
        writeln!(script, "load m{module} cnt.o")?;
    }
    for line in 0..640u64 {
        writeln!(script, "call {} m{}.add 1", line % 64, (line / 3) % 8)?;
        if line % 4 == 0 {
            writeln!(script, "move m{} m{}", line % 8, (line + 1) % 8)?;
        }
        if line % 16 == 0 {
            writeln!(script, "stack {}", line % 64)?;
        }
    }
    Ok(script)
}

/// Each call of a counter adds one, so its reply is how many calls its module has made, whatever the order of the workers.
#[test]
fn counters_of_64_workers(rt: HostRuntime) -> Result<(), Fail> {
    let script = counters_script(rt.alloc())?;
    for words in ["run --slots=1 --frames=2 s", "run --slots=16 --frames=16 s"] {
        let ran = serve(&rt, &unfailing(words, script.as_str(), &[]))?;
        expect_done(&rt, &ran);
        assert_eq!(rt; ran.books.len(), 8);
        let mut calls = 0u64;
        for book in &ran.books {
            let mut count = 0u64;
            for entry in book.history.as_slice() {
                count = count.saturating_add(1);
                assert_eq!(rt; entry.end, End::Returned(count));
            }
            calls = calls.saturating_add(count);
        }
        assert_eq!(rt; calls, 640);
    }
    Ok(())
}

/// A script that can't be read leaves no table; a report that can't be written does, and a first part of it went out.
#[test]
fn faults_of_a_run(rt: HostRuntime) -> Result<(), Fail> {
    let ran = serve(&rt, &unfailing("run absent", "", &[]))?;
    assert!(rt; matches!(ran.fault, Some(Trouble::Read { .. })));
    assert!(rt; !ran.has_table && ran.written.is_empty());
    let ran = serve(
        &rt,
        &Given {
            most: 16,
            writes: &[2],
            ..unfailing("run s", "", &[])
        },
    )?;
    assert!(rt; matches!(ran.fault, Some(Trouble::Write)));
    assert_eq!(rt; ran.written.as_str(), "map 1 stack w0 r");
    assert!(rt; ran.has_table && ran.rows.len() == 1);
    Ok(())
}
