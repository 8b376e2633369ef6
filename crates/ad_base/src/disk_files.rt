//! The files of the system.

ghost use Rattle.std.specs.Prelude.{◌≡◌, ◌<◌, ◌≤◌, ◌++◌, length, List, ℕ, None, Err, OnOk, IfSome, IfErr};
ghost use Rattle.std.specs.Io.{ReadsAtMost};
ghost use Rattle.std.specs.Io.KnownBytes.{IsAtEnd, ReadConsumes};
ghost use Rattle.ad_base.specs.Outside.{Tells};

use crate::files::{Fetch, Files};
use crate::layout::FILE_BYTES;
use std::alloc::Global;
use std::io::Read;
use std::{fs, rt};

/// Bytes that one read asks for.
const PIECE: usize = 4096;

/// The files of the system. What they hold is told to nobody.
#[derive(Debug, Drop)]
pub struct DiskFiles<'a, R> {
    rt: &'a R,
    faults: u64,
}

impl<'a, R: rt::Files> DiskFiles<'a, R> {
    /// The files that this runtime reaches, with no fault so far.
    pub fn new(rt: &'a R) -> DiskFiles<'a, R>
        ensures { (⟦<DiskFiles<'a, R> as Files>⟧.outside result).faults ≡ 0 }
    {
        DiskFiles { rt, faults: 0 }
    }
}

impl<'a, R: rt::Files> Files for DiskFiles<'a, R> {
    ghost outside = { λ d. record { told = λ _. None; asked = None; faults = d.faults } };

    fn fetch(&mut self, _alloc: Global, name: &str, into: &mut Vec<u8>) -> Result<(), Fetch> {
        let answer = read_whole(self.rt, name, into);
        if answer == Err(Fetch::Failed) {
            self.faults = self.faults.saturating_add(1);
        }
        answer
    }
}

/// Appends a file of the system.
fn read_whole<R: rt::Files>(rt: &R, name: &str, into: &mut Vec<u8>) -> Result<(), Fetch>
    ensures { OnOk result ((file : List ℕ) × (length file ≤ FILE_BYTES)
        × (into.new.items ≡ into.old.items ++ file)) }
{
    let Ok(mut file) = fs::open(rt, name) else {
        return Err(Fetch::Failed);
    };
    read_rest(&mut file, into)
}

/// Appends all that a reader has left, which may be more than any file holds, and may never end.
pub(crate) fn read_rest<R: Read>(reader: &mut R, into: &mut Vec<u8>) -> Result<(), Fetch>
    ensures whole { OnOk result ((rest : List ℕ) × Tells (R.remaining reader.old) rest
        × (length rest ≤ FILE_BYTES) × (into.new.items ≡ into.old.items ++ rest)) }
    ensures end { OnOk result (IsAtEnd (R.remaining reader.new)) }
    ensures too_large { result ≡ Err Fetch.TooLarge
        → IfSome (R.remaining reader.old) (λ rest. FILE_BYTES < length rest) }
{
    let mut piece = [0u8; PIECE];
    let mut left = FILE_BYTES as usize;
    loop {
        let count = read_piece(reader, &mut piece)?;
        if count == 0 {
            return Ok(());
        }
        if count > left {
            return Err(Fetch::TooLarge);
        }
        if into.extend_from_slice(&piece[..count]).is_err() {
            return Err(Fetch::OutOfMemory);
        }
        left -= count;
    }
}

/// One read. An error of the reader is a fault of the files.
fn read_piece<R: Read>(reader: &mut R, piece: &mut [u8]) -> Result<usize, Fetch>
    ensures at_most { ReadsAtMost result piece.new }
    ensures bytes { ReadConsumes (R.remaining reader.old) (R.remaining reader.new) result piece.new }
    ensures failed { IfErr result (λ error. error ≡ Fetch.Failed) }
{
    match reader.read(piece) {
        Ok(count) => Ok(count),
        Err(_) => Err(Fetch::Failed),
    }
}
