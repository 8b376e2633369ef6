//! Fetches, loads and stores, on both sides of each bound. The number of a case is what a0 holds at first. The stack has
//! 16,384 bytes, and sp is the byte behind it at first; the movable part has 20,480: a page each of text, stubs, table,
//! local area and data.

use super::{Case, told};
use crate::SymEnd;
use ad_base::{End, GATE};
use std::test::Fail;

/// The first address of the immovable part, which has a page of stubs and one of its table.
const FIXED_BASE: u64 = 29_432 * 262_144 + 4_096;

/// `sub t0, sp, a0; lbu a0, (t0); ret`.
const LOAD_BELOW: [u32; 8] = [0x40a1_02b3, 0x0002_c503, 0x0000_8067, 0, 0, 0, 0, 0];

/// `add t0, sp, a0; lbu a0, (t0); ret`.
const LOAD_ABOVE: [u32; 8] = [0x00a1_02b3, 0x0002_c503, 0x0000_8067, 0, 0, 0, 0, 0];

/// `sub t0, sp, a0; sb zero, (t0); li a0, 0; ret`.
const STORE_BELOW: [u32; 8] = [
    0x40a1_02b3,
    0x0002_8023,
    0x0000_0513,
    0x0000_8067,
    0,
    0,
    0,
    0,
];

/// `add t0, sp, a0; sb zero, (t0); li a0, 0; ret`.
const STORE_ABOVE: [u32; 8] = [
    0x00a1_02b3,
    0x0002_8023,
    0x0000_0513,
    0x0000_8067,
    0,
    0,
    0,
    0,
];

/// `sub t0, sp, a0; jr t0`.
const JUMP_BELOW: [u32; 8] = [0x40a1_02b3, 0x0002_8067, 0, 0, 0, 0, 0, 0];

/// `auipc t0, 0; add t0, t0, a0; lbu a0, (t0); ret`.
const LOAD_OWN: [u32; 8] = [
    0x0000_0297,
    0x00a2_82b3,
    0x0002_c503,
    0x0000_8067,
    0,
    0,
    0,
    0,
];

/// `auipc t0, 0; sub t0, t0, a0; lbu a0, (t0); ret`.
const LOAD_BEFORE: [u32; 8] = [
    0x0000_0297,
    0x40a2_82b3,
    0x0002_c503,
    0x0000_8067,
    0,
    0,
    0,
    0,
];

/// `auipc t0, 0; add t0, t0, a0; sb zero, (t0); li a0, 0; ret`.
const STORE_OWN: [u32; 8] = [
    0x0000_0297,
    0x00a2_82b3,
    0x0002_8023,
    0x0000_0513,
    0x0000_8067,
    0,
    0,
    0,
];

/// `auipc t0, 0; add t0, t0, a0; jr t0`.
const JUMP_OWN: [u32; 8] = [0x0000_0297, 0x00a2_82b3, 0x0002_8067, 0, 0, 0, 0, 0];

/// `auipc t0, 0; sub t0, t0, a0; jr t0`.
const JUMP_BEFORE: [u32; 8] = [0x0000_0297, 0x40a2_82b3, 0x0002_8067, 0, 0, 0, 0, 0];

/// Addresses of the stack and of the movable part.
const IN_PARTS: [Case; 43] = [
    (LOAD_BELOW, 16_384, SymEnd::Clear(End::Returned(0))),
    (LOAD_BELOW, 1, SymEnd::Clear(End::Returned(0))),
    (LOAD_BELOW, 0, SymEnd::Clear(End::Fault)),
    (LOAD_BELOW, 20_480, SymEnd::Clear(End::Fault)),
    (LOAD_BELOW, 20_481, SymEnd::Unclear { reason: 3, step: 1 }),
    (LOAD_ABOVE, 4_095, SymEnd::Clear(End::Fault)),
    (LOAD_ABOVE, 4_096, SymEnd::Unclear { reason: 3, step: 1 }),
    (STORE_BELOW, 16_384, SymEnd::Clear(End::Returned(0))),
    (STORE_BELOW, 1, SymEnd::Clear(End::Returned(0))),
    (STORE_BELOW, 0, SymEnd::Clear(End::Fault)),
    (STORE_BELOW, 20_480, SymEnd::Clear(End::Fault)),
    (STORE_BELOW, 20_481, SymEnd::Unclear { reason: 3, step: 1 }),
    (STORE_ABOVE, 4_095, SymEnd::Clear(End::Fault)),
    (STORE_ABOVE, 4_096, SymEnd::Unclear { reason: 3, step: 1 }),
    (JUMP_BELOW, 16_384, SymEnd::Clear(End::Denied)),
    (JUMP_BELOW, 4, SymEnd::Clear(End::Denied)),
    (JUMP_BELOW, 0, SymEnd::Clear(End::Fault)),
    (JUMP_BELOW, 20_480, SymEnd::Clear(End::Fault)),
    (JUMP_BELOW, 20_484, SymEnd::Unclear { reason: 3, step: 2 }),
    (LOAD_OWN, 0, SymEnd::Clear(End::Returned(0x97))),
    (LOAD_OWN, 20_479, SymEnd::Clear(End::Returned(0))),
    (LOAD_OWN, 20_480, SymEnd::Clear(End::Fault)),
    (LOAD_OWN, 24_575, SymEnd::Clear(End::Fault)),
    (LOAD_OWN, 24_576, SymEnd::Unclear { reason: 3, step: 2 }),
    (LOAD_BEFORE, 4_096, SymEnd::Clear(End::Fault)),
    (LOAD_BEFORE, 4_097, SymEnd::Unclear { reason: 3, step: 2 }),
    (STORE_OWN, 0, SymEnd::Clear(End::Denied)),
    (STORE_OWN, 4_096, SymEnd::Clear(End::Denied)),
    (STORE_OWN, 8_192, SymEnd::Clear(End::Denied)),
    (STORE_OWN, 16_383, SymEnd::Clear(End::Denied)),
    (STORE_OWN, 16_384, SymEnd::Clear(End::Returned(0))),
    (STORE_OWN, 20_479, SymEnd::Clear(End::Returned(0))),
    (STORE_OWN, 20_480, SymEnd::Clear(End::Fault)),
    (STORE_OWN, 24_576, SymEnd::Unclear { reason: 3, step: 2 }),
    (JUMP_OWN, 4_096, SymEnd::Clear(End::Illegal)),
    (JUMP_OWN, 8_192, SymEnd::Clear(End::Denied)),
    (JUMP_OWN, 12_288, SymEnd::Clear(End::Denied)),
    (JUMP_OWN, 16_384, SymEnd::Clear(End::Denied)),
    (JUMP_OWN, 20_480, SymEnd::Clear(End::Fault)),
    (JUMP_OWN, 24_572, SymEnd::Clear(End::Fault)),
    (JUMP_OWN, 24_576, SymEnd::Unclear { reason: 3, step: 3 }),
    (JUMP_BEFORE, 4_096, SymEnd::Clear(End::Fault)),
    (JUMP_BEFORE, 4_100, SymEnd::Unclear { reason: 3, step: 3 }),
];

#[test]
fn accesses_at_addresses_are_told(rt: HostRuntime) -> Result<(), Fail> {
    for (words, a0, end) in IN_PARTS {
        assert_eq!(rt; told(rt.alloc(), &words, a0)?, end, "{words:?} {a0}");
    }
    Ok(())
}

/// `lbu a0, (a0); ret`.
const LOAD: [u32; 8] = [0x0005_4503, 0x0000_8067, 0, 0, 0, 0, 0, 0];

/// `sb zero, (a0); li a0, 0; ret`.
const STORE: [u32; 8] = [0x0005_0023, 0x0000_0513, 0x0000_8067, 0, 0, 0, 0, 0];

/// `jr a0`.
const JUMP: [u32; 8] = [0x0005_0067, 0, 0, 0, 0, 0, 0, 0];

/// Numbers: of the gate, of services, of the immovable part, outside all places and among them.
const AT_NUMBERS: [Case; 41] = [
    (LOAD, 0, SymEnd::Clear(End::Fault)),
    (LOAD, 0x7_ffff, SymEnd::Clear(End::Fault)),
    (LOAD, 0x8_0000, SymEnd::Unclear { reason: 3, step: 0 }),
    (LOAD, 0x3_ffff_ffff, SymEnd::Unclear { reason: 3, step: 0 }),
    (LOAD, 0x4_0000_0000, SymEnd::Clear(End::Fault)),
    (LOAD, u64::MAX, SymEnd::Clear(End::Fault)),
    (LOAD, GATE, SymEnd::Clear(End::Fault)),
    (LOAD, GATE + 16, SymEnd::Clear(End::Fault)),
    (LOAD, FIXED_BASE - 1, SymEnd::Unclear { reason: 3, step: 0 }),
    (LOAD, FIXED_BASE, SymEnd::Clear(End::Returned(0))),
    (LOAD, FIXED_BASE + 8_191, SymEnd::Clear(End::Returned(0))),
    (
        LOAD,
        FIXED_BASE + 8_192,
        SymEnd::Unclear { reason: 3, step: 0 },
    ),
    (STORE, 0, SymEnd::Clear(End::Fault)),
    (STORE, 0x7_ffff, SymEnd::Clear(End::Fault)),
    (STORE, 0x8_0000, SymEnd::Unclear { reason: 3, step: 0 }),
    (STORE, 0x3_ffff_ffff, SymEnd::Unclear { reason: 3, step: 0 }),
    (STORE, 0x4_0000_0000, SymEnd::Clear(End::Fault)),
    (STORE, u64::MAX, SymEnd::Clear(End::Fault)),
    (STORE, GATE, SymEnd::Clear(End::Fault)),
    (STORE, GATE + 16, SymEnd::Clear(End::Fault)),
    (
        STORE,
        FIXED_BASE - 1,
        SymEnd::Unclear { reason: 3, step: 0 },
    ),
    (STORE, FIXED_BASE, SymEnd::Clear(End::Denied)),
    (STORE, FIXED_BASE + 8_191, SymEnd::Clear(End::Denied)),
    (
        STORE,
        FIXED_BASE + 8_192,
        SymEnd::Unclear { reason: 3, step: 0 },
    ),
    (JUMP, GATE, SymEnd::Clear(End::Returned(GATE))),
    (JUMP, GATE - 4, SymEnd::Clear(End::Fault)),
    (JUMP, GATE + 4, SymEnd::Clear(End::Fault)),
    (JUMP, GATE + 16, SymEnd::Clear(End::Returned(GATE + 16))),
    (JUMP, GATE + 20, SymEnd::Clear(End::Fault)),
    (JUMP, GATE + 32, SymEnd::Clear(End::Abort(GATE + 32))),
    (JUMP, GATE + 48, SymEnd::Clear(End::Returned(1))),
    (JUMP, GATE + 64, SymEnd::Clear(End::Returned(0))),
    (JUMP, GATE + 80, SymEnd::Clear(End::Fault)),
    (JUMP, 0x7_fffc, SymEnd::Clear(End::Fault)),
    (JUMP, 0x8_0000, SymEnd::Unclear { reason: 3, step: 1 }),
    (JUMP, 0x3_ffff_fffc, SymEnd::Unclear { reason: 3, step: 1 }),
    (JUMP, 0x4_0000_0000, SymEnd::Clear(End::Fault)),
    (JUMP, FIXED_BASE - 4, SymEnd::Unclear { reason: 3, step: 1 }),
    (JUMP, FIXED_BASE, SymEnd::Clear(End::Illegal)),
    (JUMP, FIXED_BASE + 4_096, SymEnd::Clear(End::Denied)),
    (
        JUMP,
        FIXED_BASE + 8_192,
        SymEnd::Unclear { reason: 3, step: 1 },
    ),
];

#[test]
fn accesses_at_numbers_are_told(rt: HostRuntime) -> Result<(), Fail> {
    for (words, a0, end) in AT_NUMBERS {
        assert_eq!(rt; told(rt.alloc(), &words, a0)?, end, "{words:?} {a0}");
    }
    Ok(())
}

/// `lh a0, (a0); ret`.
const LOAD_HALF_WORD: [u32; 8] = [0x0005_1503, 0x0000_8067, 0, 0, 0, 0, 0, 0];

/// `lw a0, (a0); ret`.
const LOAD_WORD: [u32; 8] = [0x0005_2503, 0x0000_8067, 0, 0, 0, 0, 0, 0];

/// `ld a0, (a0); ret`.
const LOAD_DOUBLE_WORD: [u32; 8] = [0x0005_3503, 0x0000_8067, 0, 0, 0, 0, 0, 0];

/// `sh zero, (a0); ret`.
const STORE_HALF_WORD: [u32; 8] = [0x0005_1023, 0x0000_8067, 0, 0, 0, 0, 0, 0];

/// `sw zero, (a0); ret`.
const STORE_WORD: [u32; 8] = [0x0005_2023, 0x0000_8067, 0, 0, 0, 0, 0, 0];

/// `sd zero, (a0); ret`.
const STORE_DOUBLE_WORD: [u32; 8] = [0x0005_3023, 0x0000_8067, 0, 0, 0, 0, 0, 0];

/// `add t0, sp, a0; ld a0, (t0); ret`.
const LOAD_DOUBLE_WORD_ABOVE: [u32; 8] = [0x00a1_02b3, 0x0002_b503, 0x0000_8067, 0, 0, 0, 0, 0];

/// `add t0, sp, a0; sd a0, (t0); ret`.
const STORE_DOUBLE_WORD_ABOVE: [u32; 8] = [0x00a1_02b3, 0x00a2_b023, 0x0000_8067, 0, 0, 0, 0, 0];

/// `sd sp, -8(sp); ld t0, -8(sp); sub a0, t0, sp; ret`.
const ADDRESS: [u32; 8] = [
    0xfe21_3c23,
    0xff81_3283,
    0x4022_8533,
    0x0000_8067,
    0,
    0,
    0,
    0,
];

/// `sd sp, -8(sp); lwu a0, -8(sp); ret`.
const WORD_OF_ADDRESS: [u32; 8] = [0xfe21_3c23, 0xff81_6503, 0x0000_8067, 0, 0, 0, 0, 0];

/// `sd sp, -8(sp); lb a0, -1(sp); ret`.
const BYTE_OF_ADDRESS: [u32; 8] = [0xfe21_3c23, 0xfff1_0503, 0x0000_8067, 0, 0, 0, 0, 0];

/// `sd sp, -8(sp); sb zero, -1(sp); ld a0, -8(sp); ret`.
const LAST_BYTE_REPLACED: [u32; 8] = [
    0xfe21_3c23,
    0xfe01_0fa3,
    0xff81_3503,
    0x0000_8067,
    0,
    0,
    0,
    0,
];

/// `sd sp, -8(sp); sb zero, -8(sp); ld a0, -8(sp); ret`.
const FIRST_BYTE_REPLACED: [u32; 8] = [
    0xfe21_3c23,
    0xfe01_0c23,
    0xff81_3503,
    0x0000_8067,
    0,
    0,
    0,
    0,
];

/// `auipc t0, 0; sd sp, -8(sp); sw t0, -8(sp); ld a0, -8(sp); ret`.
const HALF_REPLACED: [u32; 8] = [
    0x0000_0297,
    0xfe21_3c23,
    0xfe51_2c23,
    0xff81_3503,
    0x0000_8067,
    0,
    0,
    0,
];

/// `sw sp, -8(sp); ld a0, -8(sp); ret`.
const HALF_STORED: [u32; 8] = [0xfe21_2c23, 0xff81_3503, 0x0000_8067, 0, 0, 0, 0, 0];

/// `sd sp, -8(sp); sw a0, -8(sp); lwu a0, -8(sp); ret`.
const NUMBER_BESIDE: [u32; 8] = [
    0xfe21_3c23,
    0xfea1_2c23,
    0xff81_6503,
    0x0000_8067,
    0,
    0,
    0,
    0,
];

/// What is no multiple of the size is misaligned, whatever lies there.
const MISALIGNED: [Case; 23] = [
    (LOAD_HALF_WORD, 0x8_0000 + 1, SymEnd::Clear(End::Misaligned)),
    (
        LOAD_HALF_WORD,
        0x8_0000,
        SymEnd::Unclear { reason: 3, step: 0 },
    ),
    (LOAD_WORD, 0x8_0000 + 2, SymEnd::Clear(End::Misaligned)),
    (LOAD_WORD, 0x8_0000, SymEnd::Unclear { reason: 3, step: 0 }),
    (
        LOAD_DOUBLE_WORD,
        0x8_0000 + 4,
        SymEnd::Clear(End::Misaligned),
    ),
    (
        LOAD_DOUBLE_WORD,
        0x8_0000,
        SymEnd::Unclear { reason: 3, step: 0 },
    ),
    (
        STORE_HALF_WORD,
        0x8_0000 + 1,
        SymEnd::Clear(End::Misaligned),
    ),
    (
        STORE_HALF_WORD,
        0x8_0000,
        SymEnd::Unclear { reason: 3, step: 0 },
    ),
    (STORE_WORD, 0x8_0000 + 2, SymEnd::Clear(End::Misaligned)),
    (STORE_WORD, 0x8_0000, SymEnd::Unclear { reason: 3, step: 0 }),
    (
        STORE_DOUBLE_WORD,
        0x8_0000 + 4,
        SymEnd::Clear(End::Misaligned),
    ),
    (
        STORE_DOUBLE_WORD,
        0x8_0000,
        SymEnd::Unclear { reason: 3, step: 0 },
    ),
    (
        LOAD_DOUBLE_WORD,
        0x4_0000_0004,
        SymEnd::Clear(End::Misaligned),
    ),
    (
        LOAD_DOUBLE_WORD,
        FIXED_BASE + 4,
        SymEnd::Clear(End::Misaligned),
    ),
    (LOAD_DOUBLE_WORD, GATE + 4, SymEnd::Clear(End::Misaligned)),
    (JUMP, 0x8_0002, SymEnd::Clear(End::Misaligned)),
    (JUMP, GATE + 18, SymEnd::Clear(End::Misaligned)),
    (LOAD_DOUBLE_WORD_ABOVE, 4, SymEnd::Clear(End::Misaligned)),
    (
        LOAD_DOUBLE_WORD_ABOVE,
        4_100,
        SymEnd::Clear(End::Misaligned),
    ),
    (
        LOAD_DOUBLE_WORD_ABOVE,
        4_096,
        SymEnd::Unclear { reason: 3, step: 1 },
    ),
    (STORE_DOUBLE_WORD_ABOVE, 4, SymEnd::Clear(End::Misaligned)),
    (
        STORE_DOUBLE_WORD_ABOVE,
        4_100,
        SymEnd::Clear(End::Misaligned),
    ),
    (
        STORE_DOUBLE_WORD_ABOVE,
        4_096,
        SymEnd::Unclear { reason: 3, step: 1 },
    ),
];

#[test]
fn misaligned_accesses_are_told(rt: HostRuntime) -> Result<(), Fail> {
    for (words, a0, end) in MISALIGNED {
        assert_eq!(rt; told(rt.alloc(), &words, a0)?, end, "{words:?} {a0}");
    }
    Ok(())
}

/// Bytes of an address that were stored: all of one are that address, and others are mixed.
const BYTES: [Case; 8] = [
    (ADDRESS, 0, SymEnd::Clear(End::Returned(0))),
    (WORD_OF_ADDRESS, 0, SymEnd::Unclear { reason: 4, step: 1 }),
    (BYTE_OF_ADDRESS, 0, SymEnd::Unclear { reason: 4, step: 1 }),
    (
        LAST_BYTE_REPLACED,
        0,
        SymEnd::Unclear { reason: 4, step: 2 },
    ),
    (
        FIRST_BYTE_REPLACED,
        0,
        SymEnd::Unclear { reason: 4, step: 2 },
    ),
    (HALF_REPLACED, 0, SymEnd::Unclear { reason: 4, step: 3 }),
    (HALF_STORED, 0, SymEnd::Unclear { reason: 4, step: 1 }),
    (NUMBER_BESIDE, 7, SymEnd::Clear(End::Returned(7))),
];

#[test]
fn loads_of_the_bytes_of_addresses_are_told(rt: HostRuntime) -> Result<(), Fail> {
    for (words, a0, end) in BYTES {
        assert_eq!(rt; told(rt.alloc(), &words, a0)?, end, "{words:?} {a0}");
    }
    Ok(())
}
