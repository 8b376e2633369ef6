//! Operations on addresses: the row of each that is clear, on both sides of its bounds, and others. The number of a
//! case is what a0 holds at first; the result of an operation is told as its distance from an address.

use super::{Case, told};
use crate::SymEnd;
use ad_base::End;
use std::test::Fail;

/// `add t0, sp, a0; sub a0, t0, sp; ret`.
const SUM: [u32; 8] = [0x00a1_02b3, 0x4022_8533, 0x0000_8067, 0, 0, 0, 0, 0];

/// `add t0, a0, sp; sub a0, t0, sp; ret`.
const SUM_BACKWARDS: [u32; 8] = [0x0025_02b3, 0x4022_8533, 0x0000_8067, 0, 0, 0, 0, 0];

/// `add t0, sp, sp; ret`.
const SUM_OF_ADDRESSES: [u32; 8] = [0x0021_02b3, 0x0000_8067, 0, 0, 0, 0, 0, 0];

/// `addi t0, sp, -16; sub a0, t0, sp; ret`.
const SUM_WITH_CONSTANT: [u32; 8] = [0xff01_0293, 0x4022_8533, 0x0000_8067, 0, 0, 0, 0, 0];

/// `jal t0, 1f; 1: auipc t1, 0; sub a0, t1, t0; ret`.
const RETURN_ADDRESS: [u32; 8] = [
    0x0040_02ef,
    0x0000_0317,
    0x4053_0533,
    0x0000_8067,
    0,
    0,
    0,
    0,
];

/// `sub t0, sp, a0; sub a0, sp, t0; ret`.
const DIFFERENCE: [u32; 8] = [0x40a1_02b3, 0x4051_0533, 0x0000_8067, 0, 0, 0, 0, 0];

/// `sub a0, a0, sp; ret`.
const DIFFERENCE_FROM_NUMBER: [u32; 8] = [0x4025_0533, 0x0000_8067, 0, 0, 0, 0, 0, 0];

/// `auipc t0, 0; sub a0, sp, t0; ret`.
const DIFFERENCE_ACROSS_PARTS: [u32; 8] = [0x0000_0297, 0x4051_0533, 0x0000_8067, 0, 0, 0, 0, 0];

/// `addi t0, sp, -11; and t0, t0, a0; sub a0, t0, sp; ret`.
const HIGH_BITS: [u32; 8] = [
    0xff51_0293,
    0x00a2_f2b3,
    0x4022_8533,
    0x0000_8067,
    0,
    0,
    0,
    0,
];

/// `addi t0, sp, -11; and t0, a0, t0; sub a0, t0, sp; ret`.
const HIGH_BITS_BACKWARDS: [u32; 8] = [
    0xff51_0293,
    0x0055_72b3,
    0x4022_8533,
    0x0000_8067,
    0,
    0,
    0,
    0,
];

/// `addi t0, sp, -11; and a0, t0, a0; ret`.
const LOW_BITS: [u32; 8] = [0xff51_0293, 0x00a2_f533, 0x0000_8067, 0, 0, 0, 0, 0];

/// `addi t0, sp, -11; and a0, a0, t0; ret`.
const LOW_BITS_BACKWARDS: [u32; 8] = [0xff51_0293, 0x0055_7533, 0x0000_8067, 0, 0, 0, 0, 0];

/// `and a0, sp, sp; ret`.
const AND_OF_ADDRESSES: [u32; 8] = [0x0021_7533, 0x0000_8067, 0, 0, 0, 0, 0, 0];

/// `auipc t0, 0; jr 13(t0); li a0, 0; ret`.
const EVEN_TARGET: [u32; 8] = [
    0x0000_0297,
    0x00d2_8067,
    0x0000_0513,
    0x0000_8067,
    0,
    0,
    0,
    0,
];

/// `or a0, sp, a0; ret`.
const OR: [u32; 8] = [0x00a1_6533, 0x0000_8067, 0, 0, 0, 0, 0, 0];

/// `xor zero, sp, a0; ret`.
const XOR_DROPPED: [u32; 8] = [0x00a1_4033, 0x0000_8067, 0, 0, 0, 0, 0, 0];

/// `slli a0, sp, 1; ret`.
const SHIFT: [u32; 8] = [0x0011_1513, 0x0000_8067, 0, 0, 0, 0, 0, 0];

/// `addw a0, sp, a0; ret`.
const SUM_OF_WORDS: [u32; 8] = [0x00a1_053b, 0x0000_8067, 0, 0, 0, 0, 0, 0];

/// `mul a0, a0, sp; ret`.
const PRODUCT: [u32; 8] = [0x0225_0533, 0x0000_8067, 0, 0, 0, 0, 0, 0];

/// `remu a0, sp, a0; ret`.
const REMAINDER: [u32; 8] = [0x02a1_7533, 0x0000_8067, 0, 0, 0, 0, 0, 0];

/// Sums, differences and conjunctions. A mask has at most twelve bits below or above which it is all ones.
const OPERATIONS: [Case; 33] = [
    (SUM, 0, SymEnd::Clear(End::Returned(0))),
    (SUM, 7, SymEnd::Clear(End::Returned(7))),
    (SUM, u64::MAX, SymEnd::Clear(End::Returned(u64::MAX))),
    (SUM_BACKWARDS, 7, SymEnd::Clear(End::Returned(7))),
    (SUM_OF_ADDRESSES, 0, SymEnd::Unclear { reason: 1, step: 0 }),
    (
        SUM_WITH_CONSTANT,
        0,
        SymEnd::Clear(End::Returned(u64::MAX - 15)),
    ),
    (RETURN_ADDRESS, 0, SymEnd::Clear(End::Returned(0))),
    (DIFFERENCE, 7, SymEnd::Clear(End::Returned(7))),
    (DIFFERENCE, u64::MAX, SymEnd::Clear(End::Returned(u64::MAX))),
    (
        DIFFERENCE_FROM_NUMBER,
        7,
        SymEnd::Unclear { reason: 1, step: 0 },
    ),
    (
        DIFFERENCE_ACROSS_PARTS,
        0,
        SymEnd::Unclear { reason: 1, step: 1 },
    ),
    (
        HIGH_BITS,
        u64::MAX,
        SymEnd::Clear(End::Returned(u64::MAX - 10)),
    ),
    (
        HIGH_BITS,
        u64::MAX - 1,
        SymEnd::Clear(End::Returned(u64::MAX - 11)),
    ),
    (
        HIGH_BITS,
        u64::MAX - 4095,
        SymEnd::Clear(End::Returned(u64::MAX - 4095)),
    ),
    (
        HIGH_BITS,
        u64::MAX - 8191,
        SymEnd::Unclear { reason: 1, step: 1 },
    ),
    (
        HIGH_BITS,
        u64::MAX - 4096,
        SymEnd::Unclear { reason: 1, step: 1 },
    ),
    (
        HIGH_BITS_BACKWARDS,
        u64::MAX - 4095,
        SymEnd::Clear(End::Returned(u64::MAX - 4095)),
    ),
    (
        HIGH_BITS_BACKWARDS,
        u64::MAX - 8191,
        SymEnd::Unclear { reason: 1, step: 1 },
    ),
    (LOW_BITS, 0, SymEnd::Clear(End::Returned(0))),
    (LOW_BITS, 1, SymEnd::Clear(End::Returned(1))),
    (LOW_BITS, 4095, SymEnd::Clear(End::Returned(4085))),
    (LOW_BITS, 8191, SymEnd::Unclear { reason: 1, step: 1 }),
    (LOW_BITS, 5, SymEnd::Unclear { reason: 1, step: 1 }),
    (LOW_BITS_BACKWARDS, 4095, SymEnd::Clear(End::Returned(4085))),
    (
        LOW_BITS_BACKWARDS,
        8191,
        SymEnd::Unclear { reason: 1, step: 1 },
    ),
    (AND_OF_ADDRESSES, 0, SymEnd::Unclear { reason: 1, step: 0 }),
    (EVEN_TARGET, 7, SymEnd::Clear(End::Returned(7))),
    (OR, 0, SymEnd::Unclear { reason: 1, step: 0 }),
    (XOR_DROPPED, 0, SymEnd::Unclear { reason: 1, step: 0 }),
    (SHIFT, 0, SymEnd::Unclear { reason: 1, step: 0 }),
    (SUM_OF_WORDS, 0, SymEnd::Unclear { reason: 1, step: 0 }),
    (PRODUCT, 1, SymEnd::Unclear { reason: 1, step: 0 }),
    (REMAINDER, 8, SymEnd::Unclear { reason: 1, step: 0 }),
];

#[test]
fn operations_on_addresses_are_told(rt: HostRuntime) -> Result<(), Fail> {
    for (words, a0, end) in OPERATIONS {
        assert_eq!(rt; told(rt.alloc(), &words, a0)?, end, "{words:?} {a0}");
    }
    Ok(())
}
