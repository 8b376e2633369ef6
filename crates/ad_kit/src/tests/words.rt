//! Words and their instructions. The words are those that an assembler of the LLVM project, `llvm-mc`, gives.

use crate::encode;
use ad_isa::{Alu, Instr, Test, decode};

/// What the word of an instruction that was decoded is.
fn encoded_again(word: u32) -> Option<u32> {
    match decode(word) {
        Some(instr) => Some(encode(&instr)),
        None => None,
    }
}

#[test]
fn jumps(rt: HostRuntime) {
    for (word, instr) in [
        // jalr zero, 0(ra)
        (
            0x0000_8067,
            Instr::Jalr {
                rd: 0,
                rs1: 1,
                imm: 0,
            },
        ),
        // jalr a0, -4(t1)
        (
            0xffc3_0567,
            Instr::Jalr {
                rd: 10,
                rs1: 6,
                imm: -4,
            },
        ),
        // jal ra, -8
        (0xff9f_f0ef, Instr::Jal { rd: 1, imm: -8 }),
        // jal zero, 1048574
        (
            0x7fff_f06f,
            Instr::Jal {
                rd: 0,
                imm: 1048574,
            },
        ),
        // beq a0, a1, -4096
        (
            0x80b5_0063,
            Instr::Branch {
                test: Test::Eq,
                rs1: 10,
                rs2: 11,
                imm: -4096,
            },
        ),
        // bne t0, t1, 2048
        (
            0x0062_90e3,
            Instr::Branch {
                test: Test::Ne,
                rs1: 5,
                rs2: 6,
                imm: 2048,
            },
        ),
        // blt s0, s1, 16
        (
            0x0094_4863,
            Instr::Branch {
                test: Test::Lt,
                rs1: 8,
                rs2: 9,
                imm: 16,
            },
        ),
        // bge a2, a3, -2
        (
            0xfed6_5fe3,
            Instr::Branch {
                test: Test::Ge,
                rs1: 12,
                rs2: 13,
                imm: -2,
            },
        ),
        // bltu a4, a5, 4094
        (
            0x7ef7_6fe3,
            Instr::Branch {
                test: Test::Ltu,
                rs1: 14,
                rs2: 15,
                imm: 4094,
            },
        ),
        // bgeu t6, t5, 30
        (
            0x01ef_ff63,
            Instr::Branch {
                test: Test::Geu,
                rs1: 31,
                rs2: 30,
                imm: 30,
            },
        ),
    ] {
        assert_eq!(rt; decode(word), Some(instr), "at {word}");
        assert_eq!(rt; encoded_again(word), Some(word), "at {word}");
    }
}

#[test]
fn memory(rt: HostRuntime) {
    for (word, instr) in [
        // lb a0, -1(sp)
        (
            0xfff1_0503,
            Instr::Load {
                size: 1,
                signed: true,
                rd: 10,
                rs1: 2,
                imm: -1,
            },
        ),
        // lh a1, 2(sp)
        (
            0x0021_1583,
            Instr::Load {
                size: 2,
                signed: true,
                rd: 11,
                rs1: 2,
                imm: 2,
            },
        ),
        // lw a2, 4(sp)
        (
            0x0041_2603,
            Instr::Load {
                size: 4,
                signed: true,
                rd: 12,
                rs1: 2,
                imm: 4,
            },
        ),
        // ld a3, 2047(gp)
        (
            0x7ff1_b683,
            Instr::Load {
                size: 8,
                signed: true,
                rd: 13,
                rs1: 3,
                imm: 2047,
            },
        ),
        // lbu a4, -2048(sp)
        (
            0x8001_4703,
            Instr::Load {
                size: 1,
                signed: false,
                rd: 14,
                rs1: 2,
                imm: -2048,
            },
        ),
        // lhu a5, 6(sp)
        (
            0x0061_5783,
            Instr::Load {
                size: 2,
                signed: false,
                rd: 15,
                rs1: 2,
                imm: 6,
            },
        ),
        // lwu a6, 8(sp)
        (
            0x0081_6803,
            Instr::Load {
                size: 4,
                signed: false,
                rd: 16,
                rs1: 2,
                imm: 8,
            },
        ),
        // sb a0, -1(sp)
        (
            0xfea1_0fa3,
            Instr::Store {
                size: 1,
                rs1: 2,
                rs2: 10,
                imm: -1,
            },
        ),
        // sh a1, 34(sp)
        (
            0x02b1_1123,
            Instr::Store {
                size: 2,
                rs1: 2,
                rs2: 11,
                imm: 34,
            },
        ),
        // sw a2, 2047(sp)
        (
            0x7ec1_2fa3,
            Instr::Store {
                size: 4,
                rs1: 2,
                rs2: 12,
                imm: 2047,
            },
        ),
        // sd a3, -2048(sp)
        (
            0x80d1_3023,
            Instr::Store {
                size: 8,
                rs1: 2,
                rs2: 13,
                imm: -2048,
            },
        ),
    ] {
        assert_eq!(rt; decode(word), Some(instr), "at {word}");
        assert_eq!(rt; encoded_again(word), Some(word), "at {word}");
    }
}

#[test]
fn immediates(rt: HostRuntime) {
    for (word, instr) in [
        // addi a0, a0, 1
        (
            0x0015_0513,
            Instr::OpImm {
                op: Alu::Add,
                rd: 10,
                rs1: 10,
                imm: 1,
            },
        ),
        // addi t0, t0, -8
        (
            0xff82_8293,
            Instr::OpImm {
                op: Alu::Add,
                rd: 5,
                rs1: 5,
                imm: -8,
            },
        ),
        // slti a0, a1, -1
        (
            0xfff5_a513,
            Instr::OpImm {
                op: Alu::Slt,
                rd: 10,
                rs1: 11,
                imm: -1,
            },
        ),
        // sltiu a0, a1, -1
        (
            0xfff5_b513,
            Instr::OpImm {
                op: Alu::Sltu,
                rd: 10,
                rs1: 11,
                imm: -1,
            },
        ),
        // xori a0, a1, 255
        (
            0x0ff5_c513,
            Instr::OpImm {
                op: Alu::Xor,
                rd: 10,
                rs1: 11,
                imm: 255,
            },
        ),
        // ori a0, a1, 1
        (
            0x0015_e513,
            Instr::OpImm {
                op: Alu::Or,
                rd: 10,
                rs1: 11,
                imm: 1,
            },
        ),
        // andi a0, a1, -16
        (
            0xff05_f513,
            Instr::OpImm {
                op: Alu::And,
                rd: 10,
                rs1: 11,
                imm: -16,
            },
        ),
        // slli a0, a1, 63
        (
            0x03f5_9513,
            Instr::OpImm {
                op: Alu::Sll,
                rd: 10,
                rs1: 11,
                imm: 63,
            },
        ),
        // srli a0, a1, 32
        (
            0x0205_d513,
            Instr::OpImm {
                op: Alu::Srl,
                rd: 10,
                rs1: 11,
                imm: 32,
            },
        ),
        // srai a0, a1, 33
        (
            0x4215_d513,
            Instr::OpImm {
                op: Alu::Sra,
                rd: 10,
                rs1: 11,
                imm: 33,
            },
        ),
    ] {
        assert_eq!(rt; decode(word), Some(instr), "at {word}");
        assert_eq!(rt; encoded_again(word), Some(word), "at {word}");
    }
}

#[test]
fn registers(rt: HostRuntime) {
    for (word, instr) in [
        // add a0, a0, a1
        (
            0x00b5_0533,
            Instr::Op {
                op: Alu::Add,
                rd: 10,
                rs1: 10,
                rs2: 11,
            },
        ),
        // sub s2, s3, s4
        (
            0x4149_8933,
            Instr::Op {
                op: Alu::Sub,
                rd: 18,
                rs1: 19,
                rs2: 20,
            },
        ),
        // sll s5, s6, s7
        (
            0x017b_1ab3,
            Instr::Op {
                op: Alu::Sll,
                rd: 21,
                rs1: 22,
                rs2: 23,
            },
        ),
        // slt a0, a1, a2
        (
            0x00c5_a533,
            Instr::Op {
                op: Alu::Slt,
                rd: 10,
                rs1: 11,
                rs2: 12,
            },
        ),
        // sltu a0, a1, a2
        (
            0x00c5_b533,
            Instr::Op {
                op: Alu::Sltu,
                rd: 10,
                rs1: 11,
                rs2: 12,
            },
        ),
        // xor a0, a1, a2
        (
            0x00c5_c533,
            Instr::Op {
                op: Alu::Xor,
                rd: 10,
                rs1: 11,
                rs2: 12,
            },
        ),
        // srl a0, a1, a2
        (
            0x00c5_d533,
            Instr::Op {
                op: Alu::Srl,
                rd: 10,
                rs1: 11,
                rs2: 12,
            },
        ),
        // sra a0, a1, a2
        (
            0x40c5_d533,
            Instr::Op {
                op: Alu::Sra,
                rd: 10,
                rs1: 11,
                rs2: 12,
            },
        ),
        // or a0, a1, a2
        (
            0x00c5_e533,
            Instr::Op {
                op: Alu::Or,
                rd: 10,
                rs1: 11,
                rs2: 12,
            },
        ),
        // and a0, a1, a2
        (
            0x00c5_f533,
            Instr::Op {
                op: Alu::And,
                rd: 10,
                rs1: 11,
                rs2: 12,
            },
        ),
        // mul a0, a1, a2
        (
            0x02c5_8533,
            Instr::Op {
                op: Alu::Mul,
                rd: 10,
                rs1: 11,
                rs2: 12,
            },
        ),
        // mulh a0, a1, a2
        (
            0x02c5_9533,
            Instr::Op {
                op: Alu::Mulh,
                rd: 10,
                rs1: 11,
                rs2: 12,
            },
        ),
        // mulhsu a0, a1, a2
        (
            0x02c5_a533,
            Instr::Op {
                op: Alu::Mulhsu,
                rd: 10,
                rs1: 11,
                rs2: 12,
            },
        ),
        // mulhu a0, a1, a2
        (
            0x02c5_b533,
            Instr::Op {
                op: Alu::Mulhu,
                rd: 10,
                rs1: 11,
                rs2: 12,
            },
        ),
        // div a0, a1, a2
        (
            0x02c5_c533,
            Instr::Op {
                op: Alu::Div,
                rd: 10,
                rs1: 11,
                rs2: 12,
            },
        ),
        // divu a0, a1, a2
        (
            0x02c5_d533,
            Instr::Op {
                op: Alu::Divu,
                rd: 10,
                rs1: 11,
                rs2: 12,
            },
        ),
        // rem a0, a1, a2
        (
            0x02c5_e533,
            Instr::Op {
                op: Alu::Rem,
                rd: 10,
                rs1: 11,
                rs2: 12,
            },
        ),
        // remu a0, a1, a2
        (
            0x02c5_f533,
            Instr::Op {
                op: Alu::Remu,
                rd: 10,
                rs1: 11,
                rs2: 12,
            },
        ),
    ] {
        assert_eq!(rt; decode(word), Some(instr), "at {word}");
        assert_eq!(rt; encoded_again(word), Some(word), "at {word}");
    }
}

#[test]
fn words_of_32_bits(rt: HostRuntime) {
    for (word, instr) in [
        // addiw a0, a1, -5
        (
            0xffb5_851b,
            Instr::OpImm32 {
                op: Alu::Add,
                rd: 10,
                rs1: 11,
                imm: -5,
            },
        ),
        // slliw a0, a1, 31
        (
            0x01f5_951b,
            Instr::OpImm32 {
                op: Alu::Sll,
                rd: 10,
                rs1: 11,
                imm: 31,
            },
        ),
        // srliw a0, a1, 1
        (
            0x0015_d51b,
            Instr::OpImm32 {
                op: Alu::Srl,
                rd: 10,
                rs1: 11,
                imm: 1,
            },
        ),
        // sraiw a0, a1, 7
        (
            0x4075_d51b,
            Instr::OpImm32 {
                op: Alu::Sra,
                rd: 10,
                rs1: 11,
                imm: 7,
            },
        ),
        // addw a0, a1, a2
        (
            0x00c5_853b,
            Instr::Op32 {
                op: Alu::Add,
                rd: 10,
                rs1: 11,
                rs2: 12,
            },
        ),
        // subw a0, a1, a2
        (
            0x40c5_853b,
            Instr::Op32 {
                op: Alu::Sub,
                rd: 10,
                rs1: 11,
                rs2: 12,
            },
        ),
        // sllw a0, a1, a2
        (
            0x00c5_953b,
            Instr::Op32 {
                op: Alu::Sll,
                rd: 10,
                rs1: 11,
                rs2: 12,
            },
        ),
        // srlw a0, a1, a2
        (
            0x00c5_d53b,
            Instr::Op32 {
                op: Alu::Srl,
                rd: 10,
                rs1: 11,
                rs2: 12,
            },
        ),
        // sraw a0, a1, a2
        (
            0x40c5_d53b,
            Instr::Op32 {
                op: Alu::Sra,
                rd: 10,
                rs1: 11,
                rs2: 12,
            },
        ),
        // mulw a0, a1, a2
        (
            0x02c5_853b,
            Instr::Op32 {
                op: Alu::Mul,
                rd: 10,
                rs1: 11,
                rs2: 12,
            },
        ),
        // divw a0, a1, a2
        (
            0x02c5_c53b,
            Instr::Op32 {
                op: Alu::Div,
                rd: 10,
                rs1: 11,
                rs2: 12,
            },
        ),
        // divuw a0, a1, a2
        (
            0x02c5_d53b,
            Instr::Op32 {
                op: Alu::Divu,
                rd: 10,
                rs1: 11,
                rs2: 12,
            },
        ),
        // remw a0, a1, a2
        (
            0x02c5_e53b,
            Instr::Op32 {
                op: Alu::Rem,
                rd: 10,
                rs1: 11,
                rs2: 12,
            },
        ),
        // remuw a0, a1, a2
        (
            0x02c5_f53b,
            Instr::Op32 {
                op: Alu::Remu,
                rd: 10,
                rs1: 11,
                rs2: 12,
            },
        ),
    ] {
        assert_eq!(rt; decode(word), Some(instr), "at {word}");
        assert_eq!(rt; encoded_again(word), Some(word), "at {word}");
    }
}

#[test]
fn others(rt: HostRuntime) {
    for (word, instr) in [
        // lui a0, 1
        (0x0000_1537, Instr::Lui { rd: 10, imm: 4096 }),
        // lui t0, 0xffffc
        (0xffff_c2b7, Instr::Lui { rd: 5, imm: -16384 }),
        // auipc a0, 0
        (0x0000_0517, Instr::Auipc { rd: 10, imm: 0 }),
        // auipc s0, 0x80000
        (
            0x8000_0417,
            Instr::Auipc {
                rd: 8,
                imm: -2147483648,
            },
        ),
        // ecall
        (0x0000_0073, Instr::Ecall),
        // ebreak
        (0x0010_0073, Instr::Ebreak),
    ] {
        assert_eq!(rt; decode(word), Some(instr), "at {word}");
        assert_eq!(rt; encoded_again(word), Some(word), "at {word}");
    }
}

#[test]
fn other_words_of_a_fence(rt: HostRuntime) {
    // fence, fence.tso
    assert_eq!(rt; decode(0x0ff0_000f), Some(Instr::Fence));
    assert_eq!(rt; decode(0x8330_000f), Some(Instr::Fence));
}
