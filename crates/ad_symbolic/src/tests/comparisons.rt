//! Comparisons of addresses, on both sides of each bound. The number of a case is what a0 holds at first. The stack has
//! 16,384 bytes, and sp is the byte behind it at first; the movable part has 20,480.

use super::{Case, told};
use crate::SymEnd;
use ad_base::End;
use std::test::Fail;

/// `sub t0, sp, a0; beq t0, sp, 1f; li a0, 0; ret; 1: li a0, 1; ret`.
const EQ: [u32; 8] = [
    0x40a1_02b3,
    0x0022_8663,
    0x0000_0513,
    0x0000_8067,
    0x0010_0513,
    0x0000_8067,
    0,
    0,
];

/// `sub t0, sp, a0; bne t0, sp, 1f; li a0, 0; ret; 1: li a0, 1; ret`.
const NE: [u32; 8] = [
    0x40a1_02b3,
    0x0022_9663,
    0x0000_0513,
    0x0000_8067,
    0x0010_0513,
    0x0000_8067,
    0,
    0,
];

/// `sub t0, sp, a0; blt t0, sp, 1f; li a0, 0; ret; 1: li a0, 1; ret`.
const LT: [u32; 8] = [
    0x40a1_02b3,
    0x0022_c663,
    0x0000_0513,
    0x0000_8067,
    0x0010_0513,
    0x0000_8067,
    0,
    0,
];

/// `sub t0, sp, a0; bge t0, sp, 1f; li a0, 0; ret; 1: li a0, 1; ret`.
const GE: [u32; 8] = [
    0x40a1_02b3,
    0x0022_d663,
    0x0000_0513,
    0x0000_8067,
    0x0010_0513,
    0x0000_8067,
    0,
    0,
];

/// `sub t0, sp, a0; bltu t0, sp, 1f; li a0, 0; ret; 1: li a0, 1; ret`.
const LTU: [u32; 8] = [
    0x40a1_02b3,
    0x0022_e663,
    0x0000_0513,
    0x0000_8067,
    0x0010_0513,
    0x0000_8067,
    0,
    0,
];

/// `sub t0, sp, a0; bgeu t0, sp, 1f; li a0, 0; ret; 1: li a0, 1; ret`.
const GEU: [u32; 8] = [
    0x40a1_02b3,
    0x0022_f663,
    0x0000_0513,
    0x0000_8067,
    0x0010_0513,
    0x0000_8067,
    0,
    0,
];

/// `add t0, sp, a0; beq t0, sp, 1f; li a0, 0; ret; 1: li a0, 1; ret`.
const EQ_ABOVE: [u32; 8] = [
    0x00a1_02b3,
    0x0022_8663,
    0x0000_0513,
    0x0000_8067,
    0x0010_0513,
    0x0000_8067,
    0,
    0,
];

/// `add t0, sp, a0; bltu sp, t0, 1f; li a0, 0; ret; 1: li a0, 1; ret`.
const LTU_ABOVE: [u32; 8] = [
    0x00a1_02b3,
    0x0051_6663,
    0x0000_0513,
    0x0000_8067,
    0x0010_0513,
    0x0000_8067,
    0,
    0,
];

/// `auipc t0, 0; beq t0, sp, 1f; li a0, 0; ret; 1: li a0, 1; ret`.
const EQ_ACROSS: [u32; 8] = [
    0x0000_0297,
    0x0022_8663,
    0x0000_0513,
    0x0000_8067,
    0x0010_0513,
    0x0000_8067,
    0,
    0,
];

/// `auipc t0, 0; bne t0, sp, 1f; li a0, 0; ret; 1: li a0, 1; ret`.
const NE_ACROSS: [u32; 8] = [
    0x0000_0297,
    0x0022_9663,
    0x0000_0513,
    0x0000_8067,
    0x0010_0513,
    0x0000_8067,
    0,
    0,
];

/// `auipc t0, 0; blt t0, sp, 1f; li a0, 0; ret; 1: li a0, 1; ret`.
const LT_ACROSS: [u32; 8] = [
    0x0000_0297,
    0x0022_c663,
    0x0000_0513,
    0x0000_8067,
    0x0010_0513,
    0x0000_8067,
    0,
    0,
];

/// `auipc t0, 0; bge t0, sp, 1f; li a0, 0; ret; 1: li a0, 1; ret`.
const GE_ACROSS: [u32; 8] = [
    0x0000_0297,
    0x0022_d663,
    0x0000_0513,
    0x0000_8067,
    0x0010_0513,
    0x0000_8067,
    0,
    0,
];

/// `auipc t0, 0; bltu t0, sp, 1f; li a0, 0; ret; 1: li a0, 1; ret`.
const LTU_ACROSS: [u32; 8] = [
    0x0000_0297,
    0x0022_e663,
    0x0000_0513,
    0x0000_8067,
    0x0010_0513,
    0x0000_8067,
    0,
    0,
];

/// `auipc t0, 0; bgeu t0, sp, 1f; li a0, 0; ret; 1: li a0, 1; ret`.
const GEU_ACROSS: [u32; 8] = [
    0x0000_0297,
    0x0022_f663,
    0x0000_0513,
    0x0000_8067,
    0x0010_0513,
    0x0000_8067,
    0,
    0,
];

/// `auipc t0, 5; add t0, t0, a0; bne t0, sp, 1f; li a0, 0; ret; 1: li a0, 1; ret`.
const NE_ACROSS_BEHIND: [u32; 8] = [
    0x0000_5297,
    0x00a2_82b3,
    0x0022_9663,
    0x0000_0513,
    0x0000_8067,
    0x0010_0513,
    0x0000_8067,
    0,
];

/// `beq sp, a0, 1f; li a0, 0; ret; 1: li a0, 1; ret`.
const EQ_NUMBER: [u32; 8] = [
    0x00a1_0663,
    0x0000_0513,
    0x0000_8067,
    0x0010_0513,
    0x0000_8067,
    0,
    0,
    0,
];

/// `bne a0, sp, 1f; li a0, 0; ret; 1: li a0, 1; ret`.
const NE_NUMBER: [u32; 8] = [
    0x0025_1663,
    0x0000_0513,
    0x0000_8067,
    0x0010_0513,
    0x0000_8067,
    0,
    0,
    0,
];

/// `sltu a0, sp, a0; ret`.
const BELOW_NUMBER: [u32; 8] = [0x00a1_3533, 0x0000_8067, 0, 0, 0, 0, 0, 0];

/// `sltu a0, a0, sp; ret`.
const ABOVE_NUMBER: [u32; 8] = [0x0025_3533, 0x0000_8067, 0, 0, 0, 0, 0, 0];

/// `slt a0, sp, a0; ret`.
const SIGNED_BELOW_NUMBER: [u32; 8] = [0x00a1_2533, 0x0000_8067, 0, 0, 0, 0, 0, 0];

/// `slt a0, a0, sp; ret`.
const SIGNED_ABOVE_NUMBER: [u32; 8] = [0x0025_2533, 0x0000_8067, 0, 0, 0, 0, 0, 0];

/// `sltiu a0, sp, 1; ret`.
const BELOW_CONSTANT: [u32; 8] = [0x0011_3513, 0x0000_8067, 0, 0, 0, 0, 0, 0];

/// `sub t0, sp, a0; sltu a0, t0, zero; ret`.
const DISTANT_BELOW_ZERO: [u32; 8] = [0x40a1_02b3, 0x0002_b533, 0x0000_8067, 0, 0, 0, 0, 0];

/// `add t0, sp, a0; sltu a0, zero, t0; ret`.
const DISTANT_ABOVE_ZERO: [u32; 8] = [0x00a1_02b3, 0x0050_3533, 0x0000_8067, 0, 0, 0, 0, 0];

/// Two addresses: those in bounds compare by their offsets, or as different ones where they are of two parts.
const ADDRESSES: [Case; 26] = [
    (EQ, 16_384, SymEnd::Clear(End::Returned(0))),
    (NE, 16_384, SymEnd::Clear(End::Returned(1))),
    (LT, 16_384, SymEnd::Clear(End::Returned(1))),
    (GE, 16_384, SymEnd::Clear(End::Returned(0))),
    (LTU, 16_384, SymEnd::Clear(End::Returned(1))),
    (GEU, 16_384, SymEnd::Clear(End::Returned(0))),
    (EQ, 0, SymEnd::Clear(End::Returned(1))),
    (NE, 0, SymEnd::Clear(End::Returned(0))),
    (LT, 0, SymEnd::Clear(End::Returned(0))),
    (GE, 0, SymEnd::Clear(End::Returned(1))),
    (LTU, 0, SymEnd::Clear(End::Returned(0))),
    (GEU, 0, SymEnd::Clear(End::Returned(1))),
    (EQ, 16_385, SymEnd::Unclear { reason: 2, step: 1 }),
    (LTU, 16_385, SymEnd::Unclear { reason: 2, step: 1 }),
    (EQ_ABOVE, 0, SymEnd::Clear(End::Returned(1))),
    (EQ_ABOVE, 1, SymEnd::Unclear { reason: 2, step: 1 }),
    (LTU_ABOVE, 0, SymEnd::Clear(End::Returned(0))),
    (LTU_ABOVE, 1, SymEnd::Unclear { reason: 2, step: 1 }),
    (EQ_ACROSS, 0, SymEnd::Clear(End::Returned(0))),
    (NE_ACROSS, 0, SymEnd::Clear(End::Returned(1))),
    (LT_ACROSS, 0, SymEnd::Unclear { reason: 2, step: 1 }),
    (GE_ACROSS, 0, SymEnd::Unclear { reason: 2, step: 1 }),
    (LTU_ACROSS, 0, SymEnd::Unclear { reason: 2, step: 1 }),
    (GEU_ACROSS, 0, SymEnd::Unclear { reason: 2, step: 1 }),
    (NE_ACROSS_BEHIND, 0, SymEnd::Clear(End::Returned(1))),
    (NE_ACROSS_BEHIND, 1, SymEnd::Unclear { reason: 2, step: 2 }),
];

#[test]
fn comparisons_of_addresses_are_told(rt: HostRuntime) -> Result<(), Fail> {
    for (words, a0, end) in ADDRESSES {
        assert_eq!(rt; told(rt.alloc(), &words, a0)?, end, "{words:?} {a0}");
    }
    Ok(())
}

/// An address in bounds and a number: those outside all places compare.
const NUMBERS: [Case; 35] = [
    (EQ_NUMBER, 0x7_ffff, SymEnd::Clear(End::Returned(0))),
    (EQ_NUMBER, 0x8_0000, SymEnd::Unclear { reason: 2, step: 0 }),
    (
        EQ_NUMBER,
        0x3_ffff_ffff,
        SymEnd::Unclear { reason: 2, step: 0 },
    ),
    (EQ_NUMBER, 0x4_0000_0000, SymEnd::Clear(End::Returned(0))),
    (NE_NUMBER, 0x7_ffff, SymEnd::Clear(End::Returned(1))),
    (NE_NUMBER, 0x8_0000, SymEnd::Unclear { reason: 2, step: 0 }),
    (
        NE_NUMBER,
        0x3_ffff_ffff,
        SymEnd::Unclear { reason: 2, step: 0 },
    ),
    (NE_NUMBER, 0x4_0000_0000, SymEnd::Clear(End::Returned(1))),
    (BELOW_NUMBER, 0x7_ffff, SymEnd::Clear(End::Returned(0))),
    (
        BELOW_NUMBER,
        0x8_0000,
        SymEnd::Unclear { reason: 2, step: 0 },
    ),
    (
        BELOW_NUMBER,
        0x3_ffff_ffff,
        SymEnd::Unclear { reason: 2, step: 0 },
    ),
    (BELOW_NUMBER, 0x4_0000_0000, SymEnd::Clear(End::Returned(1))),
    (ABOVE_NUMBER, 0x7_ffff, SymEnd::Clear(End::Returned(1))),
    (
        ABOVE_NUMBER,
        0x8_0000,
        SymEnd::Unclear { reason: 2, step: 0 },
    ),
    (
        ABOVE_NUMBER,
        0x3_ffff_ffff,
        SymEnd::Unclear { reason: 2, step: 0 },
    ),
    (ABOVE_NUMBER, 0x4_0000_0000, SymEnd::Clear(End::Returned(0))),
    (
        SIGNED_BELOW_NUMBER,
        0x7_ffff,
        SymEnd::Clear(End::Returned(0)),
    ),
    (
        SIGNED_BELOW_NUMBER,
        0x8_0000,
        SymEnd::Unclear { reason: 2, step: 0 },
    ),
    (
        SIGNED_BELOW_NUMBER,
        0x3_ffff_ffff,
        SymEnd::Unclear { reason: 2, step: 0 },
    ),
    (
        SIGNED_BELOW_NUMBER,
        0x4_0000_0000,
        SymEnd::Clear(End::Returned(1)),
    ),
    (
        SIGNED_ABOVE_NUMBER,
        0x7_ffff,
        SymEnd::Clear(End::Returned(1)),
    ),
    (
        SIGNED_ABOVE_NUMBER,
        0x8_0000,
        SymEnd::Unclear { reason: 2, step: 0 },
    ),
    (
        SIGNED_ABOVE_NUMBER,
        0x3_ffff_ffff,
        SymEnd::Unclear { reason: 2, step: 0 },
    ),
    (
        SIGNED_ABOVE_NUMBER,
        0x4_0000_0000,
        SymEnd::Clear(End::Returned(0)),
    ),
    (EQ_NUMBER, 0, SymEnd::Clear(End::Returned(0))),
    (NE_NUMBER, u64::MAX, SymEnd::Clear(End::Returned(1))),
    (BELOW_NUMBER, u64::MAX, SymEnd::Clear(End::Returned(1))),
    (
        SIGNED_BELOW_NUMBER,
        u64::MAX,
        SymEnd::Clear(End::Returned(0)),
    ),
    (
        SIGNED_BELOW_NUMBER,
        0x7fff_ffff_ffff_ffff,
        SymEnd::Clear(End::Returned(1)),
    ),
    (
        SIGNED_ABOVE_NUMBER,
        0x8000_0000_0000_0000,
        SymEnd::Clear(End::Returned(1)),
    ),
    (BELOW_CONSTANT, 0, SymEnd::Clear(End::Returned(0))),
    (DISTANT_BELOW_ZERO, 16_384, SymEnd::Clear(End::Returned(0))),
    (
        DISTANT_BELOW_ZERO,
        16_385,
        SymEnd::Unclear { reason: 2, step: 1 },
    ),
    (DISTANT_ABOVE_ZERO, 0, SymEnd::Clear(End::Returned(1))),
    (
        DISTANT_ABOVE_ZERO,
        1,
        SymEnd::Unclear { reason: 2, step: 1 },
    ),
];

#[test]
fn comparisons_with_numbers_are_told(rt: HostRuntime) -> Result<(), Fail> {
    for (words, a0, end) in NUMBERS {
        assert_eq!(rt; told(rt.alloc(), &words, a0)?, end, "{words:?} {a0}");
    }
    Ok(())
}
