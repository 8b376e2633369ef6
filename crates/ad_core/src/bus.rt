//! What a machine reaches of memory.

ghost use Rattle.std.specs.Prelude.{◌≡◌, ◌<◌, ◌%◌, ◌^◌, IfOk};
ghost use Rattle.ad_base.specs.Segments.{Access, Fetch, Load, Store, told};
ghost use Rattle.ad_isa.specs.Numbers.{numbers};
ghost use Rattle.ad_isa.specs.Services.{served};
ghost use Rattle.ad_isa.specs.Words.{IsSize};
ghost use Rattle.ad_core.specs.Bus.{IsLoaded, IsStored, answer_of, track_after};
ghost use Rattle.ad_core.specs.Memory.{HasWholeWords, Memory, channels_of, fetched, loaded, stored};

use ad_base::{FETCH_BYTES, SERVICES};

/// What is found at an address where an instruction is fetched.
#[derive(Clone, Copy, Debug, PartialEq, Eq)]
pub enum Fetched {
    /// The word there, the lowest byte first.
    Word(u32),
    /// The gate, where a call returns to.
    Gate,
    /// The service of this number.
    Service(u8),
    /// No segment holds the address, or it is another one of region 1.
    Fault,
    /// The first segment that holds the address may not be fetched.
    Denied,
}

/// Why a load or a store is refused.
#[derive(Clone, Copy, Debug, PartialEq, Eq)]
pub enum Refusal {
    /// No segment holds the address, or it is one of region 1.
    Fault,
    /// The first segment that holds the address lacks the right.
    Denied,
}

/// What a service answers.
#[derive(Clone, Copy, Debug, PartialEq, Eq)]
pub enum Served {
    /// a0 gets this number.
    Answer(u64),
    /// The call gives up, with this number.
    Abort(u64),
    /// There is no room for one note more.
    NotesFull,
}

/// A memory, as a list of segments, the notes of a call and a device queue. Where several segments hold an address,
/// the first counts.
pub trait Bus {
    /// What is kept of the accesses. It is plain data of the bus's own choice.
    type Track;

    /// What the bus stands for.
    ghost memory: { Self → Memory };

    /// What was kept of the accesses so far.
    ghost track: { Self → Self.Track };

    /// What is kept once there was one more access.
    ghost rule: { Self.Track → Access → Self.Track };

    /// An access that is a multiple of its size ends in the segment where it begins.
    ghost whole_words: { (bus : Self) → HasWholeWords (memory bus).segments };

    /// Fetches a word of four bytes.
    fn fetch(&mut self, at: u64) -> Fetched
        requires { at % FETCH_BYTES ≡ 0 }
        ensures found { result ≡ fetched (memory self.old).segments at }
        ensures memory { memory self.new ≡ memory self.old }
        ensures track { track self.new ≡ track_after rule (told Fetch FETCH_BYTES at) (track self.old) };

    /// Loads so many bytes as a number, the lowest byte first.
    fn load(&mut self, at: u64, size: u8) -> Result<u64, Refusal>
        requires size { IsSize size }
        requires aligned { at % size ≡ 0 }
        ensures found { IsLoaded result (loaded size (memory self.old).segments at) }
        ensures fits { IfOk result (λ number. number < 256 ^ size) }
        ensures memory { memory self.new ≡ memory self.old }
        ensures track { track self.new ≡ track_after rule (told Load size at) (track self.old) };

    /// Stores so many low bytes of a value, the lowest byte first.
    fn store(&mut self, at: u64, size: u8, value: u64) -> Result<(), Refusal>
        requires size { IsSize size }
        requires aligned { at % size ≡ 0 }
        ensures segments { IsStored result (memory self.old).segments (memory self.new).segments
            (stored size value (memory self.old).segments at) }
        ensures channels { channels_of (memory self.new) ≡ channels_of (memory self.old) }
        ensures track { track self.new ≡ track_after rule (told Store size at) (track self.old) };

    /// Makes the service of a number.
    fn service(&mut self, number: u8, a0: u64) -> Served
        requires { number < SERVICES }
        ensures answer { (answer_of result, channels_of (memory self.new))
            ≡ served numbers number a0 (channels_of (memory self.old)) }
        ensures segments { (memory self.new).segments ≡ (memory self.old).segments }
        ensures track { track self.new ≡ track self.old };
}
