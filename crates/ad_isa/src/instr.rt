//! Instructions, as their fields (unprivileged ISA, "RV64I", "M").

/// An operation on two values. On 64 bits it is that of the instruction of its name; an instruction with an
/// immediate, or on 32 bits, has the operation of its name without the letters I and W.
#[derive(Clone, Copy, Debug, PartialEq, Eq)]
pub enum Alu {
    Add,
    Sub,
    /// A shift to the left.
    Sll,
    /// 1 where the first is below the second, both signed, else 0.
    Slt,
    /// 1 where the first is below the second, both unsigned, else 0.
    Sltu,
    Xor,
    /// A shift to the right that brings in zeros.
    Srl,
    /// A shift to the right that brings in the sign.
    Sra,
    Or,
    And,
    Mul,
    /// The high half of the product of two signed numbers.
    Mulh,
    /// The high half of the product of a signed number and an unsigned one.
    Mulhsu,
    /// The high half of the product of two unsigned numbers.
    Mulhu,
    Div,
    Divu,
    Rem,
    Remu,
}

/// A comparison of two values.
#[derive(Clone, Copy, Debug, PartialEq, Eq)]
pub enum Test {
    Eq,
    Ne,
    /// Below, both signed.
    Lt,
    /// Not below, both signed.
    Ge,
    /// Below, both unsigned.
    Ltu,
    /// Not below, both unsigned.
    Geu,
}

/// An instruction. Registers are numbered from 0 to 31, sizes count bytes, and an immediate has its sign.
#[derive(Clone, Copy, Debug, PartialEq, Eq)]
pub enum Instr {
    /// An upper immediate, whose twelve low bits are zeros: LUI.
    Lui {
        rd: u8,
        imm: i64,
    },
    /// The sum of the instruction's own address and an upper immediate: AUIPC.
    Auipc {
        rd: u8,
        imm: i64,
    },
    /// A jump by an immediate from the instruction's own address: JAL.
    Jal {
        rd: u8,
        imm: i64,
    },
    /// A jump to the sum of a register and an immediate, with bit 0 cleared: JALR.
    Jalr {
        rd: u8,
        rs1: u8,
        imm: i64,
    },
    /// A jump by an immediate from the instruction's own address where a comparison holds: BEQ, BNE, BLT, BGE,
    /// BLTU, BGEU.
    Branch {
        test: Test,
        rs1: u8,
        rs2: u8,
        imm: i64,
    },
    /// A load of so many bytes, with their sign or without: LB, LH, LW, LD, LBU, LHU, LWU.
    Load {
        size: u8,
        signed: bool,
        rd: u8,
        rs1: u8,
        imm: i64,
    },
    /// A store of so many low bytes of `rs2`: SB, SH, SW, SD.
    Store {
        size: u8,
        rs1: u8,
        rs2: u8,
        imm: i64,
    },
    /// An operation on a register and an immediate. Of a shift the immediate is by how many bits it shifts.
    OpImm {
        op: Alu,
        rd: u8,
        rs1: u8,
        imm: i64,
    },
    /// The same on the low 32 bits.
    OpImm32 {
        op: Alu,
        rd: u8,
        rs1: u8,
        imm: i64,
    },
    /// An operation on two registers.
    Op {
        op: Alu,
        rd: u8,
        rs1: u8,
        rs2: u8,
    },
    /// The same on the low 32 bits.
    Op32 {
        op: Alu,
        rd: u8,
        rs1: u8,
        rs2: u8,
    },
    /// Nothing: FENCE.
    Fence,
    /// The end of the call: ECALL.
    Ecall,
    /// The end of the call: EBREAK.
    Ebreak,
}
