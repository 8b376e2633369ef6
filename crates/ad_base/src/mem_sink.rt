//! A sink in memory, for tests.

ghost use Rattle.std.specs.Prelude.{◌≡◌, ◌≤◌, [], IfOk};

use crate::memory::OutOfMemory;
use crate::numbers::has_number;
use crate::sink::{Failed, Sink};
use std::alloc::Global;
use std::marker::Model;

/// A sink that keeps what it takes, and of which chosen writes fail.
#[derive(Debug, Drop)]
pub struct MemSink {
    taken: Vec<u8>,
    room: u64,
    most: u64,
    fail: Vec<u64>,
    calls: u64,
    faults: u64,
}

impl Model for MemSink {
    ghost use Rattle.std.specs.Prelude.{◌+◌, ◌≤◌, vec_len, vec_capacity};
    ghost use Rattle.ad_base.specs.Memory.{SinkInMemory};

    ghost Value = { SinkInMemory };

    ghost view = { λ s. record {
      taken = s.taken.items;
      room = s.room;
      most = s.most;
      fail = s.fail.items;
      calls = s.calls;
      faults = s.faults;
    } };

    ghost invariant = { λ s. (1 ≤ s.most) × (vec_len s.taken + s.room ≤ vec_capacity s.taken) };
}

impl MemSink {
    /// A sink with room for so many bytes, which it takes memory for at once. A write takes at most
    /// `most` of them. The writes of these numbers, counted from 1, fail.
    pub fn new(alloc: Global, room: u64, most: u64, fail: Vec<u64>) -> Result<MemSink, OutOfMemory>
        requires { 1 ≤ most }
        ensures taken { IfOk result (λ sink. sink.taken ≡ []) }
        ensures room { IfOk result (λ sink. sink.room ≡ room) }
        ensures most { IfOk result (λ sink. sink.most ≡ most) }
        ensures fail { IfOk result (λ sink. sink.fail ≡ fail.items) }
        ensures calls { IfOk result (λ sink. sink.calls ≡ 0) }
        ensures faults { IfOk result (λ sink. sink.faults ≡ 0) }
    {
        Ok(MemSink {
            taken: Vec::with_capacity(alloc, room as usize)?,
            room,
            most,
            fail,
            calls: 0,
            faults: 0,
        })
    }

    /// The bytes taken so far, in order.
    pub fn taken(&self) -> &[u8]
        ensures { result.now ≡ self.now.taken }
    {
        self.taken.as_slice()
    }
}

impl Sink for MemSink {
    ghost use Rattle.std.specs.Prelude.{◌≡◌, ◌≤◌, ◌<◌, length, Some, OnErr, IfOk};
    ghost use Rattle.std.specs.Io.KnownBytes.{WriteAppends};
    ghost use Rattle.ad_base.specs.Count.{Rose};
    ghost use Rattle.ad_base.specs.Memory.{WriteAnswers, after_write};

    ghost output = { λ s. record { taken = Some s.taken; faults = s.faults } };

    fn write(&mut self, piece: &[u8]) -> Result<usize, Failed>
        requires { 0 < length piece.now }
        ensures answers { WriteAnswers self.old piece.now result }
        ensures after { self.new ≡ after_write self.old result piece.now }
        ensures some { IfOk result (λ n. 0 < n) }
        ensures at_most { IfOk result (λ n. n ≤ length piece.now) }
        ensures bytes { WriteAppends (Some self.old.taken) (Some self.new.taken) result piece.now }
        ensures failed { OnErr result (Rose self.old.faults self.new.faults) }
    {
        self.calls = self.calls.saturating_add(1);
        if self.room == 0 || has_number(self.fail.as_slice(), self.calls) {
            self.faults = self.faults.saturating_add(1);
            return Err(Failed);
        }
        let count = self.most.min(self.room.min(piece.len() as u64));
        self.taken
            .extend_from_slice(&piece[..count as usize])
            .unwrap();
        self.room -= count;
        Ok(count as usize)
    }
}
