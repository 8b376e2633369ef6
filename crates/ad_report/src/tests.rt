//! Printed texts, expected as the form of a report says them.

ghost use Rattle.std.specs.Prelude.{◌≡◌};
ghost use Rattle.ad_report.specs.Report.{AreMovesInOrder};

use crate::{report, summary};
use ad_base::{
    Args, Book, Device, End, Entry, History, Kind, MoveEnd, Moved, Name, Notes, OutOfMemory, Place,
    Row, Sequence,
};
use ad_script::{Load, Members, Script, Step};
use std::alloc::Global;
use std::test::Fail;

const WHOLE: &str = "call 4 w0 m.sum at 0 under 4: returned 5
move 5 m: mapping 7
move 5 count: busy owner 6
call 6 w1 count.bump at 0 under 6: abort 3 notes 1 18446744073709551615
stack 8 w1: mapping 8
call 9 w1 m.sum.2 at 1 under 7: trap fault
move 10 count: spent
stack 11 w0: spent
map 2 stack w1 region 56640 start 55 pages 4 retired 8 unmapped 1
map 3 fixed m region 29432 start 1 pages 2 retired 0 unmapped 0
map 4 code m region 13105 start 43 pages 5 retired 5 unmapped 1
map 6 code count region 32 start 3 pages 6 retired 0 unmapped 0
end calls 3 moves 2 mappings 4
";

/// What is printed where no call was made, and no module has the numbers that are named.
const NAMELESS: &str = "move 5 : mapping 7
move 5 : busy owner 6
stack 8 w1: mapping 8
move 10 : spent
stack 11 w0: spent
map 4 code  region 13105 start 43 pages 5 retired 5 unmapped 1
end calls 0 moves 2 mappings 1
";

/// What is printed where the calls of two workers ran in another order than that of the script.
const SHARED: &str = "call 4 w0 m.sum at 1 under 2: returned 5
call 5 w1 m.bump at 0 under 2: returned 6
call 6 w0 m.sum at 3 under 3: trap fault
call 7 w1 m.bump at 2 under 2: returned 8
end calls 4 moves 0 mappings 0
";

fn place(region: u16, start: u16, pages: u16, mapping: u16) -> Place {
    Place {
        region,
        start,
        pages,
        mapping,
        frame: 0,
    }
}

fn load(alloc: Global, line: u64, name: &[u8]) -> Result<Load, OutOfMemory> {
    Ok(Load {
        line,
        name: Name::of(alloc, name)?,
        file: Name::of(alloc, b"f")?,
    })
}

fn call(
    alloc: Global,
    line: u64,
    worker: u64,
    module: u64,
    export: &[u8],
) -> Result<Step, OutOfMemory> {
    Ok(Step::Call {
        line,
        worker,
        module,
        export: Name::of(alloc, export)?,
        args: Args::new(),
    })
}

fn one_module(number: u64) -> Members {
    let mut modules = Members::new();
    modules.push(number);
    modules
}

fn two_modules(first: u64, second: u64) -> Members {
    let mut modules = Members::new();
    modules.push(first);
    modules.push(second);
    modules
}

fn steps(alloc: Global) -> Result<Vec<Step>, OutOfMemory> {
    let mut steps = Vec::new(alloc);
    steps.push(call(alloc, 4, 0, 0, b"sum")?)?;
    steps.push(Step::Move {
        line: 5,
        modules: two_modules(0, 1),
    })?;
    steps.push(call(alloc, 6, 1, 1, b"bump")?)?;
    steps.push(Step::Stack { line: 8, worker: 1 })?;
    steps.push(call(alloc, 9, 1, 0, b"sum.2")?)?;
    steps.push(Step::Move {
        line: 10,
        modules: one_module(1),
    })?;
    steps.push(Step::Stack {
        line: 11,
        worker: 0,
    })?;
    Ok(steps)
}

fn entry(line: u64, worker: u64, mapping: u16, notes: Notes, end: End) -> Entry {
    Entry {
        line,
        worker,
        export: 0,
        args: Args::new(),
        under: place(2, 1, 1, mapping),
        stack: place(32_768, 1, 4, 1),
        notes,
        end,
    }
}

fn book(alloc: Global, history: History) -> Book {
    Book {
        writable: Sequence::of(Vec::new(alloc)),
        fixed: Sequence::of(Vec::new(alloc)),
        device: Device::new(),
        history,
    }
}

/// The book of a module of which these calls were made.
fn two_calls(alloc: Global, first: Entry, second: Entry) -> Result<Book, OutOfMemory> {
    let mut history = History::with_room(alloc, 2)?;
    history.push(first);
    history.push(second);
    Ok(book(alloc, history))
}

/// The book of a module of which this call was made.
fn one_call(alloc: Global, only: Entry) -> Result<Book, OutOfMemory> {
    let mut history = History::with_room(alloc, 1)?;
    history.push(only);
    Ok(book(alloc, history))
}

fn two_notes(first: u64, second: u64) -> Notes {
    let mut notes = Notes::new();
    notes.push(first);
    notes.push(second);
    notes
}

fn moved(line: u64, kind: Kind, who: u64, end: MoveEnd) -> Moved
    ensures { result.line ≡ line }
{
    Moved {
        line,
        kind,
        who,
        end,
    }
}

fn moves() -> [Moved; 5]
    ensures { AreMovesInOrder result }
{
    [
        moved(5, Kind::Code, 0, MoveEnd::Made(place(27_250, 53, 5, 7))),
        moved(5, Kind::Code, 1, MoveEnd::Busy(6)),
        moved(8, Kind::Stack, 1, MoveEnd::Made(place(40_000, 5, 4, 8))),
        moved(10, Kind::Code, 1, MoveEnd::Spent),
        moved(11, Kind::Stack, 0, MoveEnd::Spent),
    ]
}

fn row(kind: Kind, who: u64, place: Place, line: u64, unmaps: u64) -> Row {
    Row {
        mapping: place.mapping,
        kind,
        who,
        place,
        line,
        unmaps,
    }
}

#[test]
fn prints_a_run(rt: HostRuntime) -> Result<(), Fail> {
    let alloc = rt.alloc();
    let loads = vec![in alloc; load(alloc, 2, b"m")?, load(alloc, 3, b"count")?]?;
    let script = Script {
        workers: 2,
        loads: Sequence::of(loads),
        steps: Sequence::of(steps(alloc)?),
    };
    let first = entry(4, 0, 4, Notes::new(), End::Returned(5));
    let last = entry(9, 1, 7, Notes::new(), End::Fault);
    let other = entry(6, 1, 6, two_notes(1, u64::MAX), End::Abort(3));
    let books = [two_calls(alloc, first, last)?, one_call(alloc, other)?];
    let rows = [
        row(Kind::Stack, 1, place(56_640, 55, 4, 2), 8, 1),
        row(Kind::Fixed, 0, place(29_432, 1, 2, 3), 0, 0),
        row(Kind::Code, 0, place(13_105, 43, 5, 4), 5, 1),
        row(Kind::Code, 1, place(32, 3, 6, 6), 0, 0),
    ];
    let text = report(alloc, &script, &books, &moves(), &rows)?;
    assert_eq!(rt; std::str::from_utf8(text.as_slice())?, WHOLE);
    Ok(())
}

#[test]
fn prints_no_name_for_a_number_out_of_range(rt: HostRuntime) -> Result<(), Fail> {
    let alloc = rt.alloc();
    let script = Script {
        workers: 2,
        loads: Sequence::of(Vec::new(alloc)),
        steps: Sequence::of(steps(alloc)?),
    };
    let rows = [row(Kind::Code, 0, place(13_105, 43, 5, 4), 5, 1)];
    let text = report(alloc, &script, &[], &moves(), &rows)?;
    assert_eq!(rt; std::str::from_utf8(text.as_slice())?, NAMELESS);
    Ok(())
}

#[test]
fn prints_the_calls_of_two_workers_in_the_order_of_the_script(rt: HostRuntime) -> Result<(), Fail> {
    let alloc = rt.alloc();
    let steps = vec![in alloc;
        call(alloc, 4, 0, 0, b"sum")?,
        call(alloc, 5, 1, 0, b"bump")?,
        call(alloc, 6, 0, 0, b"sum")?,
        call(alloc, 7, 1, 0, b"bump")?,
    ]?;
    let script = Script {
        workers: 2,
        loads: Sequence::of(vec![in alloc; load(alloc, 2, b"m")?]?),
        steps: Sequence::of(steps),
    };
    let mut history = History::with_room(alloc, 4)?;
    history.push(entry(5, 1, 2, Notes::new(), End::Returned(6)));
    history.push(entry(4, 0, 2, Notes::new(), End::Returned(5)));
    history.push(entry(7, 1, 2, Notes::new(), End::Returned(8)));
    history.push(entry(6, 0, 3, Notes::new(), End::Fault));
    let text = report(alloc, &script, &[book(alloc, history)], &[], &[])?;
    assert_eq!(rt; std::str::from_utf8(text.as_slice())?, SHARED);
    Ok(())
}

/// A call that ended so.
fn ended(end: End) -> Entry {
    entry(4, 0, 2, Notes::new(), end)
}

#[test]
fn sums_up_what_calls_returned(rt: HostRuntime) -> Result<(), Fail> {
    let alloc = rt.alloc();
    let books = [
        two_calls(alloc, ended(End::Returned(1)), ended(End::Returned(2)))?,
        two_calls(alloc, ended(End::Returned(2)), ended(End::Returned(5)))?,
        two_calls(alloc, ended(End::Returned(4)), ended(End::Returned(5)))?,
        two_calls(alloc, ended(End::Fault), ended(End::Returned(10)))?,
        one_call(alloc, ended(End::Abort(3)))?,
    ];
    let rows = [row(Kind::Stack, 1, place(56_640, 55, 4, 2), 8, 1)];
    let text = summary(alloc, 8, &books, &moves(), &rows)?;
    assert_eq!(rt;
        std::str::from_utf8(text.as_slice())?,
        "gen 8 calls 9 moves 2 mappings 1 sum 29\n"
    );
    Ok(())
}

#[test]
fn a_sum_wraps(rt: HostRuntime) -> Result<(), Fail> {
    let alloc = rt.alloc();
    let most = End::Returned(u64::MAX);
    let books = [
        two_calls(alloc, ended(most), ended(End::Returned(3)))?,
        one_call(alloc, ended(most))?,
    ];
    let text = summary(alloc, 19_000, &books, &[], &[])?;
    assert_eq!(rt;
        std::str::from_utf8(text.as_slice())?,
        "gen 19000 calls 3 moves 0 mappings 0 sum 1\n"
    );
    Ok(())
}
