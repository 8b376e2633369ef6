//! Pieces of the memory of the symbolic machine.

ghost use Rattle.std.specs.Prelude.{◌≡◌, ◌≤◌, ◌<◌, ◌+◌, ◌-◌, ◌%◌, ◌^◌, ◌&&◌, nat_le, nat_lt, length, replicate, take, drop};
ghost use Rattle.std.specs.List.{list_all};
ghost use Rattle.ad_base.specs.Segments.{with_bytes};
ghost use Rattle.ad_base.specs.declared.layout.TheConstants.{WORD_BYTES};
ghost use Rattle.ad_base.specs.declared.role.Role.{Role};
ghost use Rattle.ad_isa.specs.Words.{IsSize};
ghost use Rattle.ad_symbolic.specs.AddressSpace.{low_bytes};
ghost use Rattle.ad_symbolic.specs.Private.Pieces.{segment_of};
ghost use Rattle.ad_symbolic.specs.Replay.{is_number_byte};
ghost use Rattle.ad_symbolic.specs.declared.byte.Byte.TheVariants.{Number};

use crate::byte::{Byte, word_bytes};
use crate::value::Value;
use std::marker::Model;

/// Bytes from an offset or an address on: whole words at a multiple of a word.
#[derive(Drop)]
pub struct Piece {
    base: u64,
    bytes: Vec<Byte>,
}

impl Model for Piece {
    ghost use Rattle.std.specs.Prelude.{◌≡◌, ◌+◌, ◌%◌, ◌<◌, ◌^◌, length};
    ghost use Rattle.ad_base.specs.declared.layout.TheConstants.{WORD_BYTES};
    ghost use Rattle.ad_symbolic.specs.Private.Pieces.{Stretch};

    ghost Value = { Stretch };

    ghost view = { λ p. record { base = p.base; bytes = p.bytes.items } };

    ghost invariant = { λ p. (p.base % WORD_BYTES ≡ 0) × (length p.bytes.items % WORD_BYTES ≡ 0) × (p.base + length p.bytes.items < 2 ^ 63) };
}

impl Piece {
    /// These bytes from a base on.
    pub fn of(base: u64, bytes: Vec<Byte>) -> Piece
        requires base { base % WORD_BYTES ≡ 0 }
        requires whole { length bytes.items % WORD_BYTES ≡ 0 }
        requires low { base + length bytes.items < 2 ^ 63 }
        ensures { result ≡ record { base = base; bytes = bytes.items } }
    {
        Piece { base, bytes }
    }

    /// Where the bytes end.
    pub fn end(&self) -> u64
        ensures { result ≡ self.now.base + length self.now.bytes }
    {
        self.base + self.bytes.len() as u64
    }

    /// Whether a byte lies at an offset or an address.
    pub fn holds(&self, at: u64) -> bool
        ensures { result ≡ (nat_le self.now.base at && nat_lt at (self.now.base + length self.now.bytes)) }
    {
        at >= self.base && at - self.base < self.bytes.len() as u64
    }

    /// So many bytes from an offset or an address on.
    pub fn read(&self, at: u64, size: u8) -> &[Byte]
        requires size { IsSize size }
        requires aligned { at % size ≡ 0 }
        requires from { self.now.base ≤ at }
        requires below { at < self.now.base + length self.now.bytes }
        ensures found { result.now ≡ take size (drop (at - self.now.base) self.now.bytes) }
        ensures length { length result.now ≡ size }
    {
        let offset = (at - self.base) as usize;
        &self.bytes[offset..offset + usize::from(size)]
    }

    /// Puts so many low bytes of a value at an offset or an address.
    pub fn put(&mut self, at: u64, size: u8, value: Value)
        requires size { IsSize size }
        requires aligned { at % size ≡ 0 }
        requires from { self.old.base ≤ at }
        requires below { at < self.old.base + length self.old.bytes }
        ensures bytes { (role : Role) → segment_of role self.new ≡ with_bytes at (low_bytes size value) (segment_of role self.old) }
        ensures base { self.new.base ≡ self.old.base }
        ensures length { length self.new.bytes ≡ length self.old.bytes }
    {
        let offset = (at - self.base) as usize;
        let size = usize::from(size);
        self.bytes[offset..offset + size].copy_from_slice(&word_bytes(value)[..size]);
    }

    /// Makes each byte the number 0.
    pub fn clear(&mut self)
        ensures { self.new ≡ record { base = self.old.base; bytes = replicate (length self.old.bytes) (Number 0) } }
    {
        self.bytes.fill(Byte::Number(0));
    }

    /// Whether no byte is one of an address.
    pub fn has_numbers(&self) -> bool
        ensures { result ≡ list_all is_number_byte self.now.bytes }
    {
        self.bytes
            .iter()
            .all(|byte| matches!(*byte, Byte::Number(_)))
    }
}
