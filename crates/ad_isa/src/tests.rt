//! Words and their instructions, from the standard.

use crate::{Alu, Instr, decode};

#[test]
fn decodes_words(rt: HostRuntime) {
    let add = Instr::Op {
        op: Alu::Add,
        rd: 10,
        rs1: 10,
        rs2: 11,
    };
    let increment = Instr::OpImm {
        op: Alu::Add,
        rd: 10,
        rs1: 10,
        imm: 1,
    };
    let take_eight = Instr::OpImm {
        op: Alu::Add,
        rd: 5,
        rs1: 5,
        imm: -8,
    };
    let return_jump = Instr::Jalr {
        rd: 0,
        rs1: 1,
        imm: 0,
    };
    let own_address = Instr::Auipc { rd: 10, imm: 0 };
    let far_address = Instr::Auipc { rd: 5, imm: 0x4000 };
    let address_before = Instr::Auipc { rd: 10, imm: -4096 };
    // The last three are `csrrw zero, 0, zero`, `slli a0, a0, 64` and no instruction.
    for (word, want) in [
        (0x00b50533, Some(add)),
        (0x00008067, Some(return_jump)),
        (0x00150513, Some(increment)),
        (0xff828293, Some(take_eight)),
        (0x00000517, Some(own_address)),
        (0x00004297, Some(far_address)),
        (0xfffff517, Some(address_before)),
        (0x0000_1073, None),
        (0x0405_1513, None),
        (0, None),
    ] {
        assert_eq!(rt; decode(word), want, "at {word}");
    }
}
