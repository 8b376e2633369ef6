//! Loads, stores and fetches of each piece.

use crate::Call;
use crate::tests::module::{
    CELLS, CODE, CONSTANT, CONSTANTS, DATA, DATA_END, DATUM, FIXED, FIXED_CODE, FIXED_CONSTANT,
    FIXED_CONSTANTS, FIXED_DATA, FIXED_DATA_END, FIXED_DATUM, FIXED_STUB, FIXED_TABLE, NUMBER,
    RETURN, STACK_BASE, STACK_END, STUB, TABLE, TABLE_WORD, UNDER, USUAL, asked, called,
    called_twice, end_of, word_at,
};
use crate::tests::noted::Question::{Cell, Page};
use ad_base::{End, GATE, Place};
use std::test::Fail;

/// Loads of a0 from 0(a0).
const LB: u32 = 0x0005_0503;

const LBU: u32 = 0x0005_4503;

const LH: u32 = 0x0005_1503;

const LHU: u32 = 0x0005_5503;

const LW: u32 = 0x0005_2503;

const LWU: u32 = 0x0005_6503;

const LD: u32 = 0x0005_3503;

/// Stores of a1 to 0(a0).
const SB: u32 = 0x00b5_0023;

const SH: u32 = 0x00b5_1023;

const SW: u32 = 0x00b5_2023;

const SD: u32 = 0x00b5_3023;

/// `jr a0`.
const JUMP: u32 = 0x0005_0067;

/// `ecall`.
const ECALL: u32 = 0x0000_0073;

/// What is stored.
const VALUE: u64 = 0x0102_0304_0506_0708;

#[test]
fn loads_find_what_the_pieces_hold(rt: HostRuntime) -> Result<(), Fail> {
    for (word, at, want) in [
        (LB, DATA, 0xffff_ffff_ffff_ff88),
        (LBU, DATA, 0x88),
        (LH, DATA, 0xffff_ffff_ffff_9788),
        (LHU, DATA, 0x9788),
        (LW, DATA, 0xffff_ffff_b5a6_9788),
        (LWU, DATA, 0xb5a6_9788),
        (LD, DATA, DATUM),
        (LB, DATA + 7, 0xffff_ffff_ffff_fff1),
        (LBU, DATA + 7, 0xf1),
        (LH, DATA + 6, 0xffff_ffff_ffff_f1e2),
        (LHU, DATA + 2, 0xb5a6),
        (LW, DATA + 4, 0xffff_ffff_f1e2_d3c4),
        (LWU, DATA + 4, 0xf1e2_d3c4),
        (LB, FIXED_DATA, 1),
        (LH, FIXED_DATA + 2, 0x0403),
        (LW, FIXED_DATA + 4, 0x0807_0605),
        (LD, CODE, 0x0000_8067_0005_3503),
        (LD, STUB, 0),
        (LD, CONSTANTS, CONSTANT),
        (LH, CONSTANTS + 2, 0xffff_ffff_ffff_89ab),
        (LD, TABLE, TABLE_WORD),
        (LBU, TABLE + 7, 0xfe),
        (LD, TABLE + 8, 0),
        (LD, CELLS, 806_928),
        (LD, CELLS + 8, NUMBER),
        (LW, CELLS + 12, 0x1122_3344),
        (LD, CELLS + 16, 806_911),
        (LD, CELLS + 24, 0),
        (LD, DATA_END - 8, 0),
        (LD, FIXED_CODE, 0x0000_8067_0090_0513),
        (LD, FIXED_STUB, 0),
        (LD, FIXED_CONSTANTS, FIXED_CONSTANT),
        (LD, FIXED_TABLE, TABLE_WORD),
        (LD, FIXED_DATA, FIXED_DATUM),
        (LD, FIXED_DATA_END - 8, 0),
        (LD, STACK_BASE, 0),
        (LB, STACK_END - 1, 0),
    ] {
        let book = called(rt.alloc(), &[word, RETURN], USUAL, [at, 0, 0])?;
        let want = Some(End::Returned(want));
        assert_eq!(rt; end_of(&book), want, "{word} at {at}");
    }
    Ok(())
}

#[test]
fn stores_leave_the_bytes_beside(rt: HostRuntime) -> Result<(), Fail> {
    const NEXT: u64 = DATA + 8;
    for (word, at, first, second, fixed) in [
        (SB, DATA, 0xf1e2_d3c4_b5a6_9708, 0, FIXED_DATUM),
        (SB, DATA + 7, 0x08e2_d3c4_b5a6_9788, 0, FIXED_DATUM),
        (SH, DATA, 0xf1e2_d3c4_b5a6_0708, 0, FIXED_DATUM),
        (SH, DATA + 2, 0xf1e2_d3c4_0708_9788, 0, FIXED_DATUM),
        (SH, DATA + 6, 0x0708_d3c4_b5a6_9788, 0, FIXED_DATUM),
        (SW, DATA, 0xf1e2_d3c4_0506_0708, 0, FIXED_DATUM),
        (SW, DATA + 4, 0x0506_0708_b5a6_9788, 0, FIXED_DATUM),
        (SD, DATA, VALUE, 0, FIXED_DATUM),
        (SB, NEXT, DATUM, 0x08, FIXED_DATUM),
        (SW, NEXT + 4, DATUM, 0x0506_0708_0000_0000, FIXED_DATUM),
        (SD, NEXT, DATUM, VALUE, FIXED_DATUM),
        (SB, FIXED_DATA, DATUM, 0, 0x0807_0605_0403_0208),
        (SH, FIXED_DATA + 4, DATUM, 0, 0x0807_0708_0403_0201),
        (SD, FIXED_DATA, DATUM, 0, VALUE),
        (SD, STACK_BASE, DATUM, 0, FIXED_DATUM),
        (SD, DATA_END - 8, DATUM, 0, FIXED_DATUM),
    ] {
        // A trap behind a store leaves what was stored.
        for (next, want) in [(RETURN, End::Returned(at)), (ECALL, End::Ecall)] {
            let book = called(rt.alloc(), &[word, next], USUAL, [at, VALUE, 0])?;
            assert_eq!(rt; end_of(&book), Some(want), "{word} at {at}");
            let left = book.writable.as_slice();
            assert_eq!(rt; word_at(left, 0), first, "{word} at {at}");
            assert_eq!(rt; word_at(left, 8), second, "{word} at {at}");
            let fixed_left = word_at(book.fixed.as_slice(), 0);
            assert_eq!(rt; fixed_left, fixed, "{word} at {at}");
        }
    }
    Ok(())
}

#[test]
fn the_stack_holds_what_is_stored(rt: HostRuntime) -> Result<(), Fail> {
    // sb zero, 0(a0); sh zero, 0(a0); sw zero, 0(a0); sd a1, -8(sp)
    const ZERO_BYTE: u32 = 0x0005_0023;
    const ZERO_HALF: u32 = 0x0005_1023;
    const ZERO_WORD: u32 = 0x0005_2023;
    const PUSHED: u32 = 0xfeb1_3c23;
    for (words, at, want) in [
        ([SB, LD], STACK_BASE, 0x08),
        ([SH, LD], STACK_BASE, 0x0708),
        ([SW, LD], STACK_END - 8, 0x0506_0708),
        ([SD, LD], STACK_END - 8, VALUE),
        ([SD, LBU], STACK_BASE + 8, 0x08),
        ([SD, LH], STACK_BASE + 8, 0x0708),
        ([SD, LW], STACK_BASE + 8, 0x0506_0708),
        ([PUSHED, LD], STACK_END - 8, VALUE),
        ([PUSHED, LD], STACK_END - 16, 0),
        ([ZERO_BYTE, LD], DATA, 0xf1e2_d3c4_b5a6_9700),
        ([ZERO_HALF, LD], DATA, 0xf1e2_d3c4_b5a6_0000),
        ([ZERO_WORD, LD], DATA, 0xf1e2_d3c4_0000_0000),
    ] {
        let [first, second] = words;
        let words = [first, second, RETURN];
        let book = called(rt.alloc(), &words, USUAL, [at, VALUE, 0])?;
        let want = Some(End::Returned(want));
        assert_eq!(rt; end_of(&book), want, "{words:?} at {at}");
    }
    Ok(())
}

#[test]
fn data_stay_from_call_to_call(rt: HostRuntime) -> Result<(), Fail> {
    // ld a0, 0(a2); sd a1, 0(a2)
    let words = [0x0006_3503, 0x00b6_3023, RETURN];
    for (at, want) in [(DATA, 5), (FIXED_DATA + 16, 5), (STACK_END - 8, 0)] {
        let book = called_twice(rt.alloc(), &words, [0, 5, at], [0, 6, at])?;
        assert_eq!(rt; end_of(&book), Some(End::Returned(want)), "at {at}");
        assert_eq!(rt; book.history.len(), 2);
    }
    Ok(())
}

#[test]
fn accesses_that_may_not_be(rt: HostRuntime) -> Result<(), Fail> {
    for (word, at, want) in [
        // A misaligned access is refused before one of no piece, and that before one without the right.
        (LH, DATA + 1, End::Misaligned),
        (LW, DATA + 2, End::Misaligned),
        (LD, DATA + 4, End::Misaligned),
        (SH, DATA + 1, End::Misaligned),
        (SW, DATA + 2, End::Misaligned),
        (SD, DATA + 4, End::Misaligned),
        (LHU, 1, End::Misaligned),
        (LWU, GATE + 2, End::Misaligned),
        (SD, GATE + 4, End::Misaligned),
        (SH, CODE + 1, End::Misaligned),
        (SD, CONSTANTS + 4, End::Misaligned),
        (JUMP, DATA + 2, End::Misaligned),
        (JUMP, GATE + 2, End::Misaligned),
        // Nothing lies here.
        (LB, 0, End::Fault),
        (LD, CODE - 8, End::Fault),
        (LB, DATA_END, End::Fault),
        (SB, DATA_END, End::Fault),
        (LD, FIXED_CODE - 8, End::Fault),
        (SD, FIXED_DATA_END, End::Fault),
        (LD, STACK_BASE - 8, End::Fault),
        (SD, STACK_BASE - 8, End::Fault),
        (LD, STACK_END, End::Fault),
        (SD, STACK_END, End::Fault),
        (LD, 0xffff_ffff_ffff_fff8, End::Fault),
        (SB, 0xffff_ffff_ffff_ffff, End::Fault),
        (JUMP, 0, End::Fault),
        (JUMP, DATA_END, End::Fault),
        // Region 1 is neither loaded nor stored to, and fetched at the gate and the services alone.
        (LD, GATE, End::Fault),
        (SD, GATE, End::Fault),
        (LB, GATE + 16, End::Fault),
        (SB, GATE + 16, End::Fault),
        (JUMP, GATE, End::Returned(GATE)),
        (JUMP, GATE + 4, End::Fault),
        (JUMP, GATE + 20, End::Fault),
        (JUMP, GATE + 80, End::Fault),
        // Only data and the stack are stored to.
        (SB, CODE, End::Denied),
        (SD, STUB, End::Denied),
        (SD, CONSTANTS, End::Denied),
        (SW, TABLE, End::Denied),
        (SD, CELLS, End::Denied),
        (SH, FIXED_CODE, End::Denied),
        (SD, FIXED_STUB, End::Denied),
        (SD, FIXED_CONSTANTS, End::Denied),
        (SD, FIXED_TABLE, End::Denied),
        // Only code is fetched.
        (JUMP, CONSTANTS, End::Denied),
        (JUMP, TABLE, End::Denied),
        (JUMP, CELLS, End::Denied),
        (JUMP, DATA, End::Denied),
        (JUMP, FIXED_CONSTANTS, End::Denied),
        (JUMP, FIXED_TABLE, End::Denied),
        (JUMP, FIXED_DATA, End::Denied),
        (JUMP, STACK_BASE, End::Denied),
        (JUMP, FIXED_CODE, End::Returned(9)),
        (JUMP, STUB, End::Illegal),
        // j 2
        (0x0020_006f, 0, End::Misaligned),
        // beq zero, zero, 2
        (0x0000_0163, 0, End::Misaligned),
        // bne zero, zero, 2
        (0x0000_1163, 0, End::Returned(0)),
    ] {
        let book = called(rt.alloc(), &[word, RETURN], USUAL, [at, 0, 0])?;
        assert_eq!(rt; end_of(&book), Some(want), "{word} at {at}");
        assert_eq!(rt; word_at(book.writable.as_slice(), 0), DATUM);
        assert_eq!(rt; word_at(book.fixed.as_slice(), 0), FIXED_DATUM);
    }
    Ok(())
}

#[test]
fn stores_below_the_stack_are_faults(rt: HostRuntime) -> Result<(), Fail> {
    // lui t0, 0xffffc; addi t0, t0, -8; add t0, t0, sp; sd zero, 0(t0)
    let just_below = [0xffff_c2b7, 0xff82_8293, 0x0022_82b3, 0x0002_b023, RETURN];
    // lui t0, 0xffffb; addi t0, t0, -904; add t0, t0, sp; sd zero, 0(t0)
    let far_below = [0xffff_b2b7, 0xc782_8293, 0x0022_82b3, 0x0002_b023, RETURN];
    for words in [just_below, far_below] {
        let book = called(rt.alloc(), &words, USUAL, [0, 0, 0])?;
        assert_eq!(rt; end_of(&book), Some(End::Fault));
    }
    Ok(())
}

#[test]
fn the_stack_counts_before_the_immovable_part(rt: HostRuntime) -> Result<(), Fail> {
    // A stack at the immovable part and at the movable one, and a movable part at the immovable one.
    const ON_FIXED: Place = Place { pages: 4, ..FIXED };
    const ON_UNDER: Place = Place { pages: 4, ..UNDER };
    const UNDER_FIXED: Place = Place { pages: 6, ..FIXED };
    for (words, at, under, stack, want) in [
        ([LD, RETURN], FIXED_CODE, UNDER, ON_FIXED, End::Returned(0)),
        ([LD, RETURN], FIXED_TABLE, UNDER, ON_FIXED, End::Returned(0)),
        (
            [LD, RETURN],
            FIXED_DATA,
            UNDER,
            ON_FIXED,
            End::Returned(FIXED_DATUM),
        ),
        (
            [SD, RETURN],
            FIXED_CODE,
            UNDER,
            ON_FIXED,
            End::Returned(FIXED_CODE),
        ),
        ([JUMP, RETURN], FIXED_CODE, UNDER, ON_FIXED, End::Denied),
        ([LD, RETURN], CODE, UNDER, ON_UNDER, End::Denied),
        // The immovable part counts before the movable one, whose code isn't reached.
        ([LD, RETURN], 0, UNDER_FIXED, USUAL.stack, End::Returned(9)),
    ] {
        let call = Call {
            under,
            stack,
            ..USUAL
        };
        let book = called(rt.alloc(), &words, call, [at, VALUE, 0])?;
        assert_eq!(rt; end_of(&book), Some(want), "{words:?} at {at}");
        assert_eq!(rt; word_at(book.fixed.as_slice(), 0), FIXED_DATUM);
    }
    Ok(())
}

#[test]
fn the_pages_are_asked_at_each_access_of_the_movable_part(rt: HostRuntime) -> Result<(), Fail> {
    const FIRST: u64 = CODE;
    const SECOND: u64 = CODE + 4;
    let local_word = [Page(FIRST), Page(CELLS + 8), Cell(1), Page(SECOND)];
    let behind_the_words = [Page(FIRST), Page(CELLS + 4_088), Cell(511), Page(SECOND)];
    let datum = [Page(FIRST), Page(DATA), Page(SECOND)];
    let elsewhere = [Page(FIRST), Page(SECOND)];
    let missing = [Page(FIRST), Page(DATA_END)];
    let region_1 = [Page(FIRST)];
    for (word, at, want) in [
        (LD, CELLS + 8, local_word.as_slice()),
        (
            LW,
            CELLS + 12,
            [Page(FIRST), Page(CELLS + 12), Cell(1), Page(SECOND)].as_slice(),
        ),
        (LD, CELLS + 4_088, behind_the_words.as_slice()),
        (LD, DATA, datum.as_slice()),
        (SD, DATA, datum.as_slice()),
        (LD, STACK_BASE, elsewhere.as_slice()),
        (SD, STACK_BASE, elsewhere.as_slice()),
        (LD, FIXED_DATA, elsewhere.as_slice()),
        (SD, DATA_END, missing.as_slice()),
        (LD, GATE, region_1.as_slice()),
    ] {
        let questions = asked(rt.alloc(), &[word, RETURN], [at, VALUE, 0])?;
        assert_eq!(rt; questions.as_slice(), want, "{word} at {at}");
    }
    Ok(())
}
