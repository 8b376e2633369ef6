//! How calls end that make no access but the fetches.

use crate::Call;
use crate::tests::module::{NINE, RETURN, STACK, STACK_END, UNDER, USUAL, called, end_of};
use ad_base::End;
use std::test::Fail;

#[test]
fn calls_end_and_are_recorded(rt: HostRuntime) -> Result<(), Fail> {
    const MAX: u64 = u64::MAX;
    for (word, export, a0, a1, want) in [
        // add a0, a0, a1
        (0x00b5_0533, 1, 2, 3, End::Returned(5)),
        // add a0, a0, a1, which the second export leaves out
        (0x00b5_0533, 0, 2, 3, End::Returned(2)),
        // mv a0, sp
        (0x0001_0513, 1, 2, 3, End::Returned(STACK_END)),
        // auipc a0, 0
        (0x0000_0517, 1, 2, 3, End::Returned(806_912)),
        // mulh a0, a0, a1
        (0x02b5_1533, 1, MAX, MAX, End::Returned(0)),
        // mulhsu a0, a0, a1
        (0x02b5_2533, 1, MAX, 2, End::Returned(MAX)),
        // mulhu a0, a0, a1
        (0x02b5_3533, 1, MAX, MAX, End::Returned(MAX - 1)),
        // div a0, a0, a1
        (0x02b5_4533, 1, 1 << 63, MAX, End::Returned(1 << 63)),
        (0x02b5_4533, 1, 7, 0, End::Returned(MAX)),
        // rem a0, a0, a1
        (0x02b5_6533, 1, 1 << 63, MAX, End::Returned(0)),
        (0x02b5_6533, 1, 7, 0, End::Returned(7)),
        // divw a0, a0, a1
        (
            0x02b5_453b,
            1,
            2_147_483_648,
            MAX,
            End::Returned(18_446_744_071_562_067_968),
        ),
        // remuw a0, a0, a1
        (
            0x02b5_753b,
            1,
            2_147_483_648,
            0,
            End::Returned(18_446_744_071_562_067_968),
        ),
        // jal zero, 0
        (0x0000_006f, 1, 2, 3, End::Fuel),
        // ecall
        (0x0000_0073, 1, 2, 3, End::Ecall),
        // ebreak
        (0x0010_0073, 1, 2, 3, End::Ebreak),
        // fence
        (0x0ff0_000f, 1, 2, 3, End::Returned(2)),
        // No instruction.
        (0, 1, 2, 3, End::Illegal),
        (0xffff_ffff, 1, 2, 3, End::Illegal),
    ] {
        let call = Call { export, ..USUAL };
        let book = called(rt.alloc(), &[word, RETURN], call, [a0, a1, 4])?;
        let entry = book.history.as_slice().first().ok_or("one entry")?;
        assert_eq!(rt; entry.end, want, "{word} of {a0} and {a1}");
        assert_eq!(rt; (entry.line, entry.worker, entry.export), (7, 1, export));
        assert_eq!(rt; (entry.under, entry.stack), (UNDER, STACK));
        assert_eq!(rt; entry.args.as_slice(), [a0, a1, 4].as_slice());
        assert_eq!(rt; book.history.len(), 1);
    }
    Ok(())
}
