//! The files of the system, and readers and writers in its place.

use crate::disk_files::read_rest;
use crate::{DiskFiles, Failed, Fetch, Files, OutSink, Sink, write_all};
use std::path::PathBuf;
use std::test::Fail;
use std::{env, fs, io, process};

/// A path of this process alone, in the system's folder for such files.
fn path_of(rt: &HostRuntime, word: &str) -> Result<PathBuf, Fail> {
    let name = format!(in rt.alloc(); "ad_base-{word}-{}", process::id(rt.process()))?;
    Ok(env::temp_dir(rt)?.join(rt.alloc(), name.as_str())?)
}

#[test]
fn files_of_the_system_are_fetched(rt: HostRuntime) -> Result<(), Fail> {
    let path = path_of(&rt, "small")?;
    fs::write(&rt, path.as_path(), "kept")?;
    let mut files = DiskFiles::new(&rt);
    let mut into = Vec::from_slice(rt.alloc(), b"> ")?;
    let answer = files.fetch(rt.alloc(), path.as_str(), &mut into);
    fs::remove_file(&rt, path.as_path())?;
    assert_eq!(rt; answer, Ok(()));
    assert_eq!(rt; into.as_slice(), b"> kept".as_slice());
    Ok(())
}

#[test]
fn an_absent_file_and_a_folder_are_not_fetched(rt: HostRuntime) -> Result<(), Fail> {
    let absent = path_of(&rt, "absent")?;
    let mut files = DiskFiles::new(&rt);
    let mut into = Vec::new(rt.alloc());
    let answer = files.fetch(rt.alloc(), absent.as_str(), &mut into);
    assert_eq!(rt; answer, Err(Fetch::Failed));
    let folder = path_of(&rt, "folder")?;
    fs::create_dir(&rt, folder.as_path())?;
    let answer = files.fetch(rt.alloc(), folder.as_str(), &mut into);
    fs::remove_dir(&rt, folder.as_path())?;
    assert_eq!(rt; answer, Err(Fetch::Failed));
    Ok(())
}

/// Fetches a file of so many bytes: whether they are what was appended, or the error.
fn fetch_bytes(rt: &HostRuntime, len: usize) -> Result<Result<bool, Fetch>, Fail> {
    let path = path_of(rt, "large")?;
    let bytes = vec![in rt.alloc(); 7u8; len]?;
    fs::write(rt, path.as_path(), bytes.as_slice())?;
    let mut files = DiskFiles::new(rt);
    let mut into = Vec::new(rt.alloc());
    let answer = files.fetch(rt.alloc(), path.as_str(), &mut into);
    fs::remove_file(rt, path.as_path())?;
    Ok(answer.map(|()| into.as_slice() == bytes.as_slice()))
}

#[test]
fn a_file_of_the_system_has_a_mebibyte_at_most(rt: HostRuntime) -> Result<(), Fail> {
    assert_eq!(rt; fetch_bytes(&rt, 1_048_576)?, Ok(true));
    assert_eq!(rt; fetch_bytes(&rt, 1_048_577)?, Err(Fetch::TooLarge));
    Ok(())
}

/// A reader such as a pipe: one read gives at most so many bytes. The read of this number, counted
/// from 1, fails.
#[derive(Drop)]
struct Pipe<'a> {
    rest: &'a [u8],
    most: usize,
    fails: usize,
    reads: usize,
}

impl<'a> io::Read for Pipe<'a> {
    fn read(&mut self, buf: &mut [u8]) -> io::Result<usize> {
        self.reads = self.reads.saturating_add(1);
        if self.reads == self.fails {
            return Err(io::Error::from(io::ErrorKind::BrokenPipe));
        }
        let count = self.rest.len().min(buf.len()).min(self.most);
        buf[..count].copy_from_slice(&self.rest[..count]);
        self.rest = &self.rest[count..];
        Ok(count)
    }
}

/// Reads such a pipe of so many bytes: whether they are what was appended, or the error.
fn read_pipe(
    rt: &HostRuntime,
    len: usize,
    most: usize,
    fails: usize,
) -> Result<Result<bool, Fetch>, Fail> {
    let bytes = vec![in rt.alloc(); 7u8; len]?;
    let mut pipe = Pipe {
        rest: bytes.as_slice(),
        most,
        fails,
        reads: 0,
    };
    let mut into = Vec::new(rt.alloc());
    let answer = read_rest(&mut pipe, &mut into);
    Ok(answer.map(|()| into.as_slice() == bytes.as_slice()))
}

#[test]
fn a_pipe_is_read_to_its_end(rt: HostRuntime) -> Result<(), Fail> {
    assert_eq!(rt; read_pipe(&rt, 0, 9, 0)?, Ok(true));
    assert_eq!(rt; read_pipe(&rt, 50, 9, 0)?, Ok(true));
    assert_eq!(rt; read_pipe(&rt, 1_048_576, 1000, 0)?, Ok(true));
    assert_eq!(rt; read_pipe(&rt, 1_048_577, 1000, 0)?, Err(Fetch::TooLarge));
    for fails in 1..8 {
        assert_eq!(rt;
            read_pipe(&rt, 50, 9, fails)?,
            Err(Fetch::Failed),
            "at read {fails}"
        );
    }
    Ok(())
}

/// A writer that takes at most so many bytes at once, with room for so many in all.
#[derive(Drop)]
struct Narrow {
    taken: Vec<u8>,
    most: usize,
    room: usize,
}

impl io::Write for Narrow {
    fn write(&mut self, buf: &[u8]) -> io::Result<usize> {
        let count = buf.len().min(self.most).min(self.room);
        self.taken.extend_from_slice(&buf[..count])?;
        self.room -= count;
        Ok(count)
    }

    fn flush(&mut self) -> io::Result<()> {
        Ok(())
    }
}

#[test]
fn a_writer_is_a_sink(rt: HostRuntime) -> Result<(), Fail> {
    let mut narrow = Narrow {
        taken: Vec::new(rt.alloc()),
        most: 4,
        room: 10,
    };
    let mut sink = OutSink::new(&mut narrow);
    assert_eq!(rt; sink.write(b"short writes"), Ok(4));
    assert_eq!(rt; write_all(&mut sink, b"t wri"), Ok(()));
    assert_eq!(rt; write_all(&mut sink, b"tes"), Err(Failed));
    assert_eq!(rt; sink.write(b"s"), Err(Failed));
    assert_eq!(rt; narrow.taken.as_slice(), b"short writ".as_slice());
    Ok(())
}
