//! Files and sinks in memory, and gates.

use crate::{
    Failed, Fetch, Files, Gate, MemFile, MemFiles, MemSink, Name, NoGate, Point, Sequence, Sink,
    write_all,
};
use std::alloc::Global;
use std::test::Fail;

fn file(alloc: Global, name: &str, bytes: &[u8]) -> Result<MemFile, Fail> {
    Ok(MemFile {
        name: Name::of(alloc, name.as_bytes())?,
        bytes: Sequence::of(Vec::from_slice(alloc, bytes)?),
    })
}

fn three_files(alloc: Global) -> Result<Vec<MemFile>, Fail> {
    let mut files = Vec::new(alloc);
    files.push(file(alloc, "a", b"first")?)?;
    files.push(file(alloc, "b", b"")?)?;
    files.push(file(alloc, "a", b"second")?)?;
    Ok(files)
}

#[test]
fn files_in_memory_are_found_by_name(rt: HostRuntime) -> Result<(), Fail> {
    let fail = Vec::from_slice(rt.alloc(), &[2])?;
    let mut files = MemFiles::new(three_files(rt.alloc())?, fail);
    let mut into = Vec::from_slice(rt.alloc(), b"> ")?;
    assert_eq!(rt; files.fetch(rt.alloc(), "a", &mut into), Ok(()));
    assert_eq!(rt; into.as_slice(), b"> first".as_slice());
    assert_eq!(rt; files.fetch(rt.alloc(), "a", &mut into), Err(Fetch::Failed));
    assert_eq!(rt; files.fetch(rt.alloc(), "c", &mut into), Err(Fetch::Failed));
    assert_eq!(rt; files.fetch(rt.alloc(), "b", &mut into), Ok(()));
    let asked = files.asked();
    assert_eq!(rt; asked.len(), 4);
    assert_eq!(rt; asked[1].bytes(), b"a".as_slice());
    assert_eq!(rt; asked[2].bytes(), b"c".as_slice());
    assert_eq!(rt; asked[3].bytes(), b"b".as_slice());
    Ok(())
}

#[test]
fn a_file_of_more_than_a_mebibyte_is_too_large(rt: HostRuntime) -> Result<(), Fail> {
    let alloc = rt.alloc();
    let mut files = Vec::new(alloc);
    files.push(MemFile {
        name: Name::of(alloc, b"large")?,
        bytes: Sequence::of(vec![in alloc; 7u8; 1_048_577]?),
    })?;
    files.push(MemFile {
        name: Name::of(alloc, b"full")?,
        bytes: Sequence::of(vec![in alloc; 7u8; 1_048_576]?),
    })?;
    let mut files = MemFiles::new(files, Vec::new(alloc));
    let mut into = Vec::new(alloc);
    assert_eq!(rt;
        files.fetch(alloc, "large", &mut into),
        Err(Fetch::TooLarge)
    );
    let mut into = Vec::new(alloc);
    assert_eq!(rt; files.fetch(alloc, "full", &mut into), Ok(()));
    assert_eq!(rt; into.len(), 1_048_576);
    assert_eq!(rt; files.asked().len(), 2);
    Ok(())
}

#[test]
fn short_writes_are_gone_on_with(rt: HostRuntime) -> Result<(), Fail> {
    let text = b"a line of more than sixteen bytes\n";
    let alloc = rt.alloc();
    let mut sink = MemSink::new(alloc, 100, 16, Vec::new(alloc))?;
    assert_eq!(rt; sink.write(text), Ok(16));
    let mut sink = MemSink::new(alloc, 100, 16, Vec::new(alloc))?;
    assert_eq!(rt; write_all(&mut sink, text), Ok(()));
    assert_eq!(rt; sink.taken(), text.as_slice());
    let fail = Vec::from_slice(alloc, &[2])?;
    let mut sink = MemSink::new(alloc, 100, 16, fail)?;
    assert_eq!(rt; write_all(&mut sink, text), Err(Failed));
    assert_eq!(rt; sink.taken(), b"a line of more t".as_slice());
    let mut sink = MemSink::new(alloc, 20, 16, Vec::new(alloc))?;
    assert_eq!(rt; write_all(&mut sink, text), Err(Failed));
    assert_eq!(rt; sink.taken(), b"a line of more than ".as_slice());
    Ok(())
}

#[test]
fn no_gate_holds_nobody_up() {
    NoGate.pause(0, 1, Point::Entered);
    NoGate.pause(4, 2, Point::Retired);
}
