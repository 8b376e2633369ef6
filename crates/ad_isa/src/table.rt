//! Which instruction a word is: one function for each opcode that has several rows.

ghost use Rattle.std.specs.Prelude.{◌≡◌, IfSome};
ghost use Rattle.ad_isa.specs.Fields.{opcode};
ghost use Rattle.ad_isa.specs.Table.{decoded};
ghost use Rattle.ad_isa.specs.Words.{HasWord};

use crate::fields::{
    amount, amount32, b_immediate, funct3, funct6, funct7, i_immediate, j_immediate, opcode, rd,
    rs1, rs2, s_immediate, u_immediate,
};
use crate::instr::{Alu, Instr, Test};

/// The opcodes.
const LOAD: u32 = 0x03;

const FENCE: u32 = 0x0f;

const OP_IMM: u32 = 0x13;

const AUIPC: u32 = 0x17;

const OP_IMM_32: u32 = 0x1b;

const STORE: u32 = 0x23;

const OP: u32 = 0x33;

const LUI: u32 = 0x37;

const OP_32: u32 = 0x3b;

const BRANCH: u32 = 0x63;

const JALR: u32 = 0x67;

const JAL: u32 = 0x6f;

const SYSTEM: u32 = 0x73;

/// The instruction of a word, or `None` where the table has none.
#[tactic(auto, unfolding(crate::specs::Table::decoded, crate::specs::Table::rows))]
#[inline(always)]
pub fn decode(word: u32) -> Option<Instr>
    ensures value { result ≡ decoded word }
    ensures has_word { IfSome result HasWord }
{
    match opcode(word) {
        LUI => Some(Instr::Lui {
            rd: rd(word),
            imm: u_immediate(word),
        }),
        AUIPC => Some(Instr::Auipc {
            rd: rd(word),
            imm: u_immediate(word),
        }),
        JAL => Some(Instr::Jal {
            rd: rd(word),
            imm: j_immediate(word),
        }),
        JALR => jump(word),
        BRANCH => branch(word),
        LOAD => load(word),
        STORE => store(word),
        OP_IMM => immediate(word),
        OP_IMM_32 => immediate_32(word),
        OP => registers(word),
        OP_32 => registers_32(word),
        FENCE => fence(word),
        SYSTEM => system(word),
        _ => None,
    }
}

#[tactic(auto, unfolding(crate::specs::Table::decoded, crate::specs::Table::rows))]
#[inline(always)]
fn jump(word: u32) -> Option<Instr>
    requires { opcode word ≡ 0x67 }
    ensures value { result ≡ decoded word }
    ensures has_word { IfSome result HasWord }
{
    match funct3(word) {
        0 => Some(Instr::Jalr {
            rd: rd(word),
            rs1: rs1(word),
            imm: i_immediate(word),
        }),
        _ => None,
    }
}

#[tactic(auto, unfolding(crate::specs::Table::decoded, crate::specs::Table::rows))]
#[inline(always)]
fn branch(word: u32) -> Option<Instr>
    requires { opcode word ≡ 0x63 }
    ensures value { result ≡ decoded word }
    ensures has_word { IfSome result HasWord }
{
    let test = match funct3(word) {
        0 => Test::Eq,
        1 => Test::Ne,
        4 => Test::Lt,
        5 => Test::Ge,
        6 => Test::Ltu,
        7 => Test::Geu,
        _ => return None,
    };
    Some(Instr::Branch {
        test,
        rs1: rs1(word),
        rs2: rs2(word),
        imm: b_immediate(word),
    })
}

#[tactic(auto, unfolding(crate::specs::Table::decoded, crate::specs::Table::rows))]
#[inline(always)]
fn load(word: u32) -> Option<Instr>
    requires { opcode word ≡ 0x03 }
    ensures value { result ≡ decoded word }
    ensures has_word { IfSome result HasWord }
{
    let (size, signed) = match funct3(word) {
        0 => (1, true),
        1 => (2, true),
        2 => (4, true),
        3 => (8, true),
        4 => (1, false),
        5 => (2, false),
        6 => (4, false),
        _ => return None,
    };
    Some(Instr::Load {
        size,
        signed,
        rd: rd(word),
        rs1: rs1(word),
        imm: i_immediate(word),
    })
}

#[tactic(auto, unfolding(crate::specs::Table::decoded, crate::specs::Table::rows))]
#[inline(always)]
fn store(word: u32) -> Option<Instr>
    requires { opcode word ≡ 0x23 }
    ensures value { result ≡ decoded word }
    ensures has_word { IfSome result HasWord }
{
    let size = match funct3(word) {
        0 => 1,
        1 => 2,
        2 => 4,
        3 => 8,
        _ => return None,
    };
    Some(Instr::Store {
        size,
        rs1: rs1(word),
        rs2: rs2(word),
        imm: s_immediate(word),
    })
}

#[tactic(auto, unfolding(crate::specs::Table::decoded, crate::specs::Table::rows))]
#[inline(always)]
fn immediate(word: u32) -> Option<Instr>
    requires { opcode word ≡ 0x13 }
    ensures value { result ≡ decoded word }
    ensures has_word { IfSome result HasWord }
{
    let (op, imm) = match (funct3(word), funct6(word)) {
        (0, _) => (Alu::Add, i_immediate(word)),
        (2, _) => (Alu::Slt, i_immediate(word)),
        (3, _) => (Alu::Sltu, i_immediate(word)),
        (4, _) => (Alu::Xor, i_immediate(word)),
        (6, _) => (Alu::Or, i_immediate(word)),
        (7, _) => (Alu::And, i_immediate(word)),
        (1, 0x00) => (Alu::Sll, amount(word)),
        (5, 0x00) => (Alu::Srl, amount(word)),
        (5, 0x10) => (Alu::Sra, amount(word)),
        _ => return None,
    };
    Some(Instr::OpImm {
        op,
        rd: rd(word),
        rs1: rs1(word),
        imm,
    })
}

#[tactic(auto, unfolding(crate::specs::Table::decoded, crate::specs::Table::rows))]
#[inline(always)]
fn immediate_32(word: u32) -> Option<Instr>
    requires { opcode word ≡ 0x1b }
    ensures value { result ≡ decoded word }
    ensures has_word { IfSome result HasWord }
{
    let (op, imm) = match (funct3(word), funct7(word)) {
        (0, _) => (Alu::Add, i_immediate(word)),
        (1, 0x00) => (Alu::Sll, amount32(word)),
        (5, 0x00) => (Alu::Srl, amount32(word)),
        (5, 0x20) => (Alu::Sra, amount32(word)),
        _ => return None,
    };
    Some(Instr::OpImm32 {
        op,
        rd: rd(word),
        rs1: rs1(word),
        imm,
    })
}

#[tactic(auto, unfolding(crate::specs::Table::decoded, crate::specs::Table::rows))]
#[inline(always)]
fn registers(word: u32) -> Option<Instr>
    requires { opcode word ≡ 0x33 }
    ensures value { result ≡ decoded word }
    ensures has_word { IfSome result HasWord }
{
    let op = match (funct3(word), funct7(word)) {
        (0, 0x00) => Alu::Add,
        (1, 0x00) => Alu::Sll,
        (2, 0x00) => Alu::Slt,
        (3, 0x00) => Alu::Sltu,
        (4, 0x00) => Alu::Xor,
        (5, 0x00) => Alu::Srl,
        (6, 0x00) => Alu::Or,
        (7, 0x00) => Alu::And,
        (0, 0x20) => Alu::Sub,
        (5, 0x20) => Alu::Sra,
        (0, 0x01) => Alu::Mul,
        (1, 0x01) => Alu::Mulh,
        (2, 0x01) => Alu::Mulhsu,
        (3, 0x01) => Alu::Mulhu,
        (4, 0x01) => Alu::Div,
        (5, 0x01) => Alu::Divu,
        (6, 0x01) => Alu::Rem,
        (7, 0x01) => Alu::Remu,
        _ => return None,
    };
    Some(Instr::Op {
        op,
        rd: rd(word),
        rs1: rs1(word),
        rs2: rs2(word),
    })
}

#[tactic(auto, unfolding(crate::specs::Table::decoded, crate::specs::Table::rows))]
#[inline(always)]
fn registers_32(word: u32) -> Option<Instr>
    requires { opcode word ≡ 0x3b }
    ensures value { result ≡ decoded word }
    ensures has_word { IfSome result HasWord }
{
    let op = match (funct3(word), funct7(word)) {
        (0, 0x00) => Alu::Add,
        (1, 0x00) => Alu::Sll,
        (5, 0x00) => Alu::Srl,
        (0, 0x20) => Alu::Sub,
        (5, 0x20) => Alu::Sra,
        (0, 0x01) => Alu::Mul,
        (4, 0x01) => Alu::Div,
        (5, 0x01) => Alu::Divu,
        (6, 0x01) => Alu::Rem,
        (7, 0x01) => Alu::Remu,
        _ => return None,
    };
    Some(Instr::Op32 {
        op,
        rd: rd(word),
        rs1: rs1(word),
        rs2: rs2(word),
    })
}

#[tactic(auto, unfolding(crate::specs::Table::decoded, crate::specs::Table::rows))]
#[inline(always)]
fn fence(word: u32) -> Option<Instr>
    requires { opcode word ≡ 0x0f }
    ensures value { result ≡ decoded word }
    ensures has_word { IfSome result HasWord }
{
    if funct3(word) == 0 {
        Some(Instr::Fence)
    } else {
        None
    }
}

#[tactic(auto, unfolding(crate::specs::Table::decoded, crate::specs::Table::rows))]
#[inline(always)]
fn system(word: u32) -> Option<Instr>
    requires { opcode word ≡ 0x73 }
    ensures value { result ≡ decoded word }
    ensures has_word { IfSome result HasWord }
{
    match word {
        0x0000_0073 => Some(Instr::Ecall),
        0x0010_0073 => Some(Instr::Ebreak),
        _ => None,
    }
}
