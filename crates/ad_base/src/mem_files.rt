//! Files in memory, for tests.

ghost use Rattle.std.specs.Prelude.{◌≡◌, ◌++◌, ◌∷◌, [], OnOk, OnErr, IfSome, option_copied, find, bytes_eq};

use crate::files::{Fetch, Files};
use crate::layout::FILE_BYTES;
use crate::memory::OutOfMemory;
use crate::name::Name;
use crate::numbers::has_number;
use crate::sequence::Sequence;
use std::alloc::Global;
use std::marker::Model;

/// A file in memory.
#[derive(Debug, Drop)]
pub struct MemFile {
    pub name: Name,
    pub bytes: Sequence<u8>,
}

/// Files in memory, of which chosen calls fail. Of two files of equal name the first counts.
#[derive(Debug, Drop)]
pub struct MemFiles {
    files: Vec<MemFile>,
    fail: Vec<u64>,
    asked: Vec<Name>,
    calls: u64,
    faults: u64,
}

impl Model for MemFiles {
    ghost use Rattle.ad_base.specs.Memory.{FilesInMemory};

    ghost Value = { FilesInMemory };

    ghost view = { λ m. record {
      files = m.files.items;
      fail = m.fail.items;
      asked = m.asked.items;
      calls = m.calls;
      faults = m.faults;
    } };
}

impl MemFiles {
    /// These files, with no call so far. The calls of these numbers, counted from 1, fail. It takes
    /// no memory.
    pub fn new(files: Vec<MemFile>, fail: Vec<u64>) -> MemFiles
        ensures files { result.files ≡ files.items }
        ensures fail { result.fail ≡ fail.items }
        ensures asked { result.asked ≡ [] }
        ensures calls { result.calls ≡ 0 }
        ensures faults { result.faults ≡ 0 }
    {
        let alloc = *files.allocator();
        MemFiles {
            files,
            fail,
            asked: Vec::new(alloc),
            calls: 0,
            faults: 0,
        }
    }

    /// The names asked for so far, in order.
    pub fn asked(&self) -> &[Name]
        ensures { result.now ≡ self.now.asked }
    {
        self.asked.as_slice()
    }
}

impl Files for MemFiles {
    ghost use Rattle.std.specs.Prelude.{◌≡◌, ◌≢◌, ◌≤◌, ◌<◌, ◌++◌, length, List, ℕ, Some, Err, OnOk, IfSome};
    ghost use Rattle.ad_base.specs.Count.{Rose};
    ghost use Rattle.ad_base.specs.Outside.{Tells, asked_after};
    ghost use Rattle.ad_base.specs.Memory.{FetchAnswers, after_fetch, bytes_of};

    ghost outside = { λ m. record { told = bytes_of m.files; asked = Some m.asked; faults = m.faults } };

    fn fetch(&mut self, alloc: Global, name: &str, into: &mut Vec<u8>) -> Result<(), Fetch>
        ensures answers { FetchAnswers self.old name.now result }
        ensures after { self.new ≡ after_fetch self.old result name.now }
        ensures whole { OnOk result ((file : List ℕ) × Tells (bytes_of self.old.files name.now) file
            × (length file ≤ FILE_BYTES) × (into.new.items ≡ into.old.items ++ file)) }
        ensures too_large { result ≡ Err Fetch.TooLarge
            → IfSome (bytes_of self.old.files name.now) (λ file. FILE_BYTES < length file) }
        ensures failed { result ≡ Err Fetch.Failed → Rose self.old.faults self.new.faults }
        ensures no_fault { result ≢ Err Fetch.Failed → self.new.faults ≡ self.old.faults }
        ensures asked { IfSome (Some self.old.asked)
            (λ names. Some self.new.asked ≡ Some (asked_after result names name.now)) }
        ensures same { bytes_of self.new.files ≡ bytes_of self.old.files }
    {
        let answer = self.answer(name, into);
        self.count(alloc, name, answer)
    }
}

impl MemFiles {
    ghost use Rattle.std.specs.Prelude.{◌≤◌, ◌≢◌, ◌⊎◌};
    ghost use Rattle.ad_base.specs.Memory.{FetchAnswers, after_fetch, bytes_of};
    ghost use Rattle.ad_base.specs.Count.{Rose};

    /// What the next call answers, before it counts.
    fn answer(&self, name: &str, into: &mut Vec<u8>) -> Result<(), Fetch>
        ensures answers { FetchAnswers self.now name.now result }
        ensures whole { OnOk result (IfSome (bytes_of self.now.files name.now)
            (λ file. into.new.items ≡ into.old.items ++ file)) }
    {
        let Some(file) = file_of(self.files.as_slice(), name) else {
            return Err(Fetch::Failed);
        };
        if has_number(self.fail.as_slice(), self.calls.saturating_add(1)) {
            return Err(Fetch::Failed);
        }
        let bytes = file.bytes.as_slice();
        if bytes.len() as u64 > FILE_BYTES {
            return Err(Fetch::TooLarge);
        }
        if into.extend_from_slice(bytes).is_err() {
            return Err(Fetch::OutOfMemory);
        }
        Ok(())
    }

    /// Counts a call, and keeps the name asked for where there is memory.
    fn count(&mut self, alloc: Global, name: &str, answer: Result<(), Fetch>) -> Result<(), Fetch>
        ensures answer { (result ≡ answer) ⊎ (result ≡ Err Fetch.OutOfMemory) }
        ensures after { self.new ≡ after_fetch self.old result name.now }
        ensures failed { result ≡ Err Fetch.Failed → Rose self.old.faults self.new.faults }
    {
        self.calls = self.calls.saturating_add(1);
        if answer == Err(Fetch::OutOfMemory) || self.keep(alloc, name).is_err() {
            return Err(Fetch::OutOfMemory);
        }
        if answer == Err(Fetch::Failed) {
            self.faults = self.faults.saturating_add(1);
        }
        answer
    }

    /// Keeps a name that was asked for.
    fn keep(&mut self, alloc: Global, name: &str) -> Result<(), OutOfMemory>
        ensures kept { OnOk result (self.new ≡ record self.old { asked = self.old.asked ++ name.now ∷ [] }) }
        ensures unchanged { OnErr result (self.new ≡ self.old) }
    {
        let asked = Name::of(alloc, name.as_bytes())?;
        self.asked.push(asked)?;
        Ok(())
    }
}

/// The first file of a name.
fn file_of<'a>(files: &'a [MemFile], name: &str) -> Option<&'a MemFile>
    ensures { option_copied result ≡ find (λ f. bytes_eq f.name name.now) files.now }
{
    files
        .iter()
        .find(|file| file.name.bytes() == name.as_bytes())
}
