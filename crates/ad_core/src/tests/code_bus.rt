//! A memory of a few words of code, beside notes and a queue.

ghost use Rattle.std.specs.Prelude.{◌≡◌, ◌<◌, ◌+◌, ◌*◌, ◌%◌, ◌^◌, [], ◌∷◌};
ghost use Rattle.ad_base.specs.declared.role.Role.TheVariants.{Code};
ghost use Rattle.ad_core.specs.Examples.{segment_of};
ghost use Rattle.ad_core.specs.Memory.{HasWholeWords};

use crate::{Bus, Fetched, Refusal, Served, make_service, service_at};
use ad_base::{Device, FETCH_BYTES, GATE, Notes, REGION_BYTES, field_u16, field_u32, field_u64};
use byteorder::{ByteOrder, LittleEndian};

/// Where the code lies.
pub const BASE: u64 = 0x100000;

/// A memory of four words of code.
#[derive(Debug, Drop)]
pub struct CodeBus {
    bytes: [u8; 16],
    notes: Notes,
    device: Device,
    /// What the accesses so far come to, in order.
    tally: u64,
    ghost whole: { HasWholeWords (segment_of Code 0x100000 bytes ∷ []) },
}

impl CodeBus {
    pub fn of(words: [u32; 4]) -> CodeBus {
        let mut bytes = [0; 16];
        LittleEndian::write_u32_into(&words, &mut bytes);
        CodeBus {
            bytes,
            notes: Notes::new(),
            device: Device::new(),
            tally: 0,
        }
    }
}

impl CodeBus {
    /// What the accesses so far came to.
    pub fn tally(&self) -> u64 {
        self.tally
    }
}

impl Bus for CodeBus {
    ghost use Rattle.std.specs.Prelude.{[], ◌∷◌};
    ghost use Rattle.ad_base.specs.declared.role.Role.TheVariants.{Code};
    ghost use Rattle.ad_core.specs.Examples.{segment_of, tally_with};

    type Track = u64;

    ghost memory = { λ b. record {
      segments = segment_of Code 0x100000 b.bytes ∷ [];
      notes = b.notes;
      queue = b.device;
    } };

    ghost track = { λ b. b.tally };

    ghost rule = { tally_with };

    ghost whole_words = { λ b. b.whole };

    #[tactic(auto, using(std::proofs::lemmas::Bool::Decides::nat_tests), unfolding(crate::specs::Memory::fetched))]
    fn fetch(&mut self, at: u64) -> Fetched {
        if at == GATE {
            return Fetched::Gate;
        }
        if at / REGION_BYTES == 1 {
            return service_at(at);
        }
        self.tally = with_access(self.tally, at, FETCH_BYTES as u8, FETCH);
        if at < BASE || at - BASE >= 16 {
            return Fetched::Fault;
        }
        Fetched::Word(field_u32(&self.bytes, at - BASE))
    }

    #[tactic(auto, using(std::proofs::lemmas::Bool::Decides::nat_tests), unfolding(crate::specs::Memory::loaded))]
    fn load(&mut self, at: u64, size: u8) -> Result<u64, Refusal> {
        if at / REGION_BYTES == 1 {
            return Err(Refusal::Fault);
        }
        self.tally = with_access(self.tally, at, size, LOAD);
        if at < BASE || at - BASE >= 16 {
            return Err(Refusal::Fault);
        }
        let offset = at - BASE;
        Ok(match size {
            1 => u64::from(self.bytes[offset as usize]),
            2 => u64::from(field_u16(&self.bytes, offset)),
            4 => u64::from(field_u32(&self.bytes, offset)),
            _ => field_u64(&self.bytes, offset),
        })
    }

    #[tactic(auto, using(std::proofs::lemmas::Bool::Decides::nat_tests), unfolding(crate::specs::Memory::stored))]
    fn store(&mut self, at: u64, size: u8, value: u64) -> Result<(), Refusal> {
        if at / REGION_BYTES == 1 {
            return Err(Refusal::Fault);
        }
        self.tally = with_access(self.tally, at, size, STORE);
        if at < BASE || at - BASE >= 16 {
            return Err(Refusal::Fault);
        }
        Err(Refusal::Denied)
    }

    fn service(&mut self, number: u8, a0: u64) -> Served {
        make_service(number, a0, &mut self.notes, &mut self.device)
    }
}

/// What an access does, as a number.
pub const FETCH: u64 = 1;

pub const LOAD: u64 = 2;

pub const STORE: u64 = 3;

/// The tally once there was one more access.
pub fn with_access(tally: u64, at: u64, size: u8, use_of: u64) -> u64
    requires { use_of < 4 }
    ensures { result ≡ (tally * 31 + (at + (size + use_of * 16))) % 2 ^ 64 }
{
    tally
        .wrapping_mul(31)
        .wrapping_add(at.wrapping_add(u64::from(size) + use_of * 16))
}
