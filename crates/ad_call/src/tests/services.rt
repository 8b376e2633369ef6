//! Services at their limits.

use crate::tests::module::{STACK_END, USUAL, called, called_twice, end_of};
use ad_base::End;
use std::test::Fail;

const K_NOTE: u64 = 0x4_0010;

const K_ABORT: u64 = 0x4_0020;

const K_OUT: u64 = 0x4_0030;

const K_IN: u64 = 0x4_0040;

/// `mv t2, ra`.
const SAVE: u32 = 0x0000_8393;

/// `jalr a1`.
const SERVE: u32 = 0x0005_80e7;

/// `addi a2, a2, -1`.
const COUNT: u32 = 0xfff6_0613;

/// `bnez a2, -12`.
const REPEAT: u32 = 0xfe06_1ae3;

/// `jr t2`.
const LEAVE: u32 = 0x0003_8067;

/// `jr a1`.
const JUMP: u32 = 0x0005_8067;

/// `mv a0, a2`.
const WITH_COUNT: u32 = 0x0006_0513;

/// Calls the service at a1 a2 times, with what is left of a2 in a0.
const REPEATED: [u32; 6] = [SAVE, WITH_COUNT, SERVE, COUNT, REPEAT, LEAVE];

#[test]
fn sixteen_notes_are_made(rt: HostRuntime) -> Result<(), Fail> {
    // bnez a2, -8
    let same = [SAVE, SERVE, COUNT, 0xfe06_1ce3, LEAVE, 0];
    // addi a0, a0, 1
    let rising = [SAVE, 0x0015_0513, SERVE, COUNT, REPEAT, LEAVE];
    for (words, count, notes, last, want) in [
        (same, 1, 1, 9, End::Returned(9)),
        (same, 16, 16, 9, End::Returned(9)),
        (same, 17, 16, 9, End::NotesFull),
        (rising, 3, 3, 12, End::Returned(12)),
        (rising, 16, 16, 25, End::Returned(25)),
        (rising, 17, 16, 25, End::NotesFull),
    ] {
        let book = called(rt.alloc(), &words, USUAL, [9, K_NOTE, count])?;
        let entry = book.history.as_slice().first().ok_or("one entry")?;
        assert_eq!(rt; entry.end, want, "{count} notes");
        assert_eq!(rt; entry.notes.len(), notes, "{count} notes");
        assert_eq!(rt; entry.notes.as_slice().last(), Some(&last));
        assert_eq!(rt; book.device.len(), 0);
    }
    Ok(())
}

#[test]
fn a_queue_holds_256_words(rt: HostRuntime) -> Result<(), Fail> {
    for (count, len, oldest, newest, want) in [
        (1, 1, 1, 1, End::Returned(1)),
        (256, 256, 256, 1, End::Returned(1)),
        (257, 256, 257, 2, End::Returned(0)),
        (300, 256, 300, 45, End::Returned(0)),
    ] {
        let book = called(rt.alloc(), &REPEATED, USUAL, [0, K_OUT, count])?;
        assert_eq!(rt; end_of(&book), Some(want), "{count} words");
        assert_eq!(rt; book.device.len(), len, "{count} words");
        if book.device.len() > 0 {
            assert_eq!(rt; book.device.get(0), oldest, "{count} words");
            let back = book.device.len() - 1;
            assert_eq!(rt; book.device.get(back), newest, "{count} words");
        }
    }
    Ok(())
}

#[test]
fn a_queue_gives_the_oldest_word(rt: HostRuntime) -> Result<(), Fail> {
    for (sent, taken, left, want) in [
        (3, 1, 2, 3),
        (3, 2, 1, 2),
        (3, 3, 0, 1),
        (3, 4, 0, 0),
        (257, 256, 0, 2),
        (257, 257, 0, 0),
    ] {
        let (before, args) = ([0, K_OUT, sent], [0, K_IN, taken]);
        let book = called_twice(rt.alloc(), &REPEATED, before, args)?;
        assert_eq!(rt;
            end_of(&book),
            Some(End::Returned(want)),
            "{taken} of {sent}"
        );
        assert_eq!(rt; book.device.len(), left, "{taken} of {sent}");
    }
    Ok(())
}

#[test]
fn services_return_to_ra(rt: HostRuntime) -> Result<(), Fail> {
    // addi ra, ra, 1
    let odd = [0x0010_8093, JUMP, 0];
    // li ra, 6
    let elsewhere = [0x0060_0093, JUMP, 0];
    // lui t0, 0x40; jr 64(t0)
    let take = [0x0004_02b7, 0x0402_8067, 0];
    // jr a2
    let abort = [SAVE, SERVE, 0x0006_0067];
    for (words, service, notes, queue, want) in [
        (odd, K_NOTE, 1, 0, End::Returned(7)),
        (odd, K_OUT, 0, 1, End::Returned(1)),
        (odd, K_IN, 0, 0, End::Returned(0)),
        (odd, K_ABORT, 0, 0, End::Abort(7)),
        (elsewhere, K_NOTE, 1, 0, End::Misaligned),
        (elsewhere, K_OUT, 0, 1, End::Misaligned),
        (elsewhere, K_IN, 0, 0, End::Misaligned),
        (elsewhere, K_ABORT, 0, 0, End::Abort(7)),
        (take, K_NOTE, 0, 0, End::Returned(0)),
        // What was noted and sent before an abort stays.
        (abort, K_NOTE, 1, 0, End::Abort(7)),
        (abort, K_OUT, 0, 1, End::Abort(1)),
        (abort, K_IN, 0, 0, End::Abort(0)),
    ] {
        let book = called(rt.alloc(), &words, USUAL, [7, service, K_ABORT])?;
        let entry = book.history.as_slice().first().ok_or("one entry")?;
        assert_eq!(rt; entry.end, want, "{words:?} with service at {service}");
        assert_eq!(rt; entry.notes.len(), notes, "service at {service}");
        assert_eq!(rt; book.device.len(), queue, "service at {service}");
    }
    Ok(())
}

/// Gives each register but ra, sp, a0, a1 and t2, which keeps ra, its own number, calls the service at a1, and returns
/// the sum of all of them but a0 and t2: `mv t2, ra`, `li gp, 3` and so on to `li t6, 31`, `jalr a1`, `mv a0, ra`,
/// `add a0, a0, sp`, `add a0, a0, a1`, `add a0, a0, gp` and so on to `add a0, a0, t6`, `jr t2`.
const SUM_OF_REGISTERS: [u32; 58] = [
    0x00008393, 0x00300193, 0x00400213, 0x00500293, 0x00600313, 0x00800413, 0x00900493, 0x00c00613,
    0x00d00693, 0x00e00713, 0x00f00793, 0x01000813, 0x01100893, 0x01200913, 0x01300993, 0x01400a13,
    0x01500a93, 0x01600b13, 0x01700b93, 0x01800c13, 0x01900c93, 0x01a00d13, 0x01b00d93, 0x01c00e13,
    0x01d00e93, 0x01e00f13, 0x01f00f93, 0x000580e7, 0x00008513, 0x00250533, 0x00b50533, 0x00350533,
    0x00450533, 0x00550533, 0x00650533, 0x00850533, 0x00950533, 0x00c50533, 0x00d50533, 0x00e50533,
    0x00f50533, 0x01050533, 0x01150533, 0x01250533, 0x01350533, 0x01450533, 0x01550533, 0x01650533,
    0x01750533, 0x01850533, 0x01950533, 0x01a50533, 0x01b50533, 0x01c50533, 0x01d50533, 0x01e50533,
    0x01f50533, 0x00038067,
];

#[test]
fn services_change_no_register_but_a0(rt: HostRuntime) -> Result<(), Fail> {
    for service in [K_NOTE, K_OUT, K_IN] {
        let book = called(rt.alloc(), &SUM_OF_REGISTERS, USUAL, [7, service, 0])?;
        // ra is the address of the word behind the 28th; the numbers from 3 to 31, but 7, 10 and 11, sum up to 465.
        let want = Some(End::Returned(807_024 + STACK_END + service + 465));
        assert_eq!(rt; end_of(&book), want, "service at {service}");
    }
    Ok(())
}
