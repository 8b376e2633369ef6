//! Calls over a few words of code.

mod code_bus;
mod emulated;

use crate::call;
use ad_base::{Args, End, FIRST_SERVICE, GATE, SERVICE_BYTES};
use code_bus::{BASE, CodeBus, FETCH, LOAD, STORE, with_access};

#[test]
fn calls_end_as_the_standard_has_it(rt: HostRuntime) {
    const ADD: u32 = 0x00b50533;
    const INCREMENT: u32 = 0x00150513;
    const OWN_ADDRESS: u32 = 0x00000517;
    const JUMP_TO_A0: u32 = 0x00050067;
    const RETURN: u32 = 0x00008067;
    const MULH: u32 = 0x02b5_1533;
    const MULHSU: u32 = 0x02b5_2533;
    const MULHU: u32 = 0x02b5_3533;
    const LOAD: u32 = 0x0005_3503;
    const STORE: u32 = 0x00b5_3023;
    const JUMP_TO_A1: u32 = 0x0005_8067;
    const K_IN_PAGE: u32 = 0x0004_02b7;
    const JUMP_TO_K_IN: u32 = 0x0402_8067;
    const SERVICE: u64 = FIRST_SERVICE;
    const MAX: u64 = u64::MAX;
    for (words, a0, a1, entry, fuel, want) in [
        ([ADD, RETURN, 0, 0], 2, 3, BASE, 100, End::Returned(5)),
        (
            [INCREMENT, INCREMENT, INCREMENT, RETURN],
            4,
            0,
            BASE,
            3,
            End::Fuel,
        ),
        (
            [INCREMENT, INCREMENT, INCREMENT, RETURN],
            4,
            0,
            BASE,
            4,
            End::Returned(7),
        ),
        (
            [OWN_ADDRESS, RETURN, 0, 0],
            6,
            0,
            BASE,
            100,
            End::Returned(BASE),
        ),
        ([MULH, RETURN, 0, 0], MAX, MAX, BASE, 100, End::Returned(0)),
        (
            [MULHSU, RETURN, 0, 0],
            MAX,
            2,
            BASE,
            100,
            End::Returned(MAX),
        ),
        (
            [MULHU, RETURN, 0, 0],
            MAX,
            MAX,
            BASE,
            100,
            End::Returned(MAX - 1),
        ),
        ([0; 4], 0, 0, BASE, 100, End::Illegal),
        ([JUMP_TO_A0, 0, 0, 0], 6, 0, BASE, 100, End::Misaligned),
        ([RETURN; 4], 6, 0, BASE + 2, 100, End::Misaligned),
        ([INCREMENT; 4], 6, 0, BASE, 100, End::Fault),
        ([RETURN; 4], 6, 0, GATE, 0, End::Returned(6)),
        (
            [LOAD, RETURN, 0, 0],
            BASE,
            0,
            BASE,
            100,
            End::Returned(0x0000_8067_0005_3503),
        ),
        ([LOAD, RETURN, 0, 0], 0, 0, BASE, 100, End::Fault),
        ([LOAD, RETURN, 0, 0], 4, 0, BASE, 100, End::Misaligned),
        ([STORE, RETURN, 0, 0], BASE, 0, BASE, 100, End::Denied),
        ([STORE, RETURN, 0, 0], 0, 0, BASE, 100, End::Fault),
        (
            [K_IN_PAGE, JUMP_TO_K_IN, 0, 0],
            9,
            0,
            BASE,
            100,
            End::Returned(0),
        ),
        // A service is a step of its own.
        ([JUMP_TO_A1; 4], 9, SERVICE, BASE, 1, End::Fuel),
        ([JUMP_TO_A1; 4], 9, SERVICE, BASE, 2, End::Returned(9)),
        (
            [JUMP_TO_A1; 4],
            9,
            SERVICE + SERVICE_BYTES,
            BASE,
            100,
            End::Abort(9),
        ),
        (
            [JUMP_TO_A1; 4],
            9,
            SERVICE + 2 * SERVICE_BYTES,
            BASE,
            100,
            End::Returned(1),
        ),
        (
            [JUMP_TO_A1; 4],
            9,
            SERVICE + 4 * SERVICE_BYTES,
            BASE,
            100,
            End::Fault,
        ),
    ] {
        let mut bus = CodeBus::of(words);
        let mut args = Args::new();
        args.push(a0);
        args.push(a1);
        let end = call(&mut bus, entry, &args, 0, fuel);
        assert_eq!(rt; end, want, "from {entry}, with fuel {fuel}");
    }
}

#[test]
fn a_bus_is_told_its_accesses_in_order(rt: HostRuntime) {
    // ld a0, 0(a0); sd a1, 0(a0)
    let mut bus = CodeBus::of([0x0005_3503, 0x00b5_3023, 0, 0]);
    let mut args = Args::new();
    args.push(BASE + 8);
    // Then a0 is 0, where nothing lies.
    let end = call(&mut bus, BASE, &args, 0, 100);
    assert_eq!(rt; end, End::Fault);
    let mut tally = with_access(0, BASE, 4, FETCH);
    tally = with_access(tally, BASE + 8, 8, LOAD);
    tally = with_access(tally, BASE + 4, 4, FETCH);
    tally = with_access(tally, 0, 8, STORE);
    assert_eq!(rt; bus.tally(), tally);
}
