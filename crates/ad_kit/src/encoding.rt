//! The word of an instruction (unprivileged ISA, "Base Instruction Formats", "RV64I", "M").

ghost use Rattle.std.specs.Prelude.{◌≡◌, ◌<◌, Some, true, false};
ghost use Rattle.ad_isa.specs.Table.{decoded, IsWordOf};
ghost use Rattle.ad_isa.specs.Words.{HasWord, In12, IsImmediateOf, IsImmediateOf32, IsMultiple, IsSize, has_word_form};
ghost use Rattle.ad_isa.specs.declared.instr.Instr.{Instr};

use crate::formats::{
    branch_word, immediate_word, jump_word, registers_word, shift_32_word, shift_word, store_word,
    upper_word,
};
use ad_isa::{Alu, Instr, Test};

/// A word of an instruction, where a word can say it. `decode` gives the instruction back.
#[tactic(auto, using(ad_isa::proofs::OneRow::word_of_decoded))]
pub fn encode(instr: &Instr) -> u32
    requires { HasWord instr.now }
    ensures is_word { IsWordOf instr.now result }
    ensures decoded { decoded result ≡ Some instr.now }
{
    match *instr {
        Instr::Lui { rd, imm } => lui(rd, imm),
        Instr::Auipc { rd, imm } => auipc(rd, imm),
        Instr::Jal { rd, imm } => jump(rd, imm),
        Instr::Jalr { rd, rs1, imm } => jump_to_register(rd, rs1, imm),
        Instr::Branch {
            test,
            rs1,
            rs2,
            imm,
        } => branch(test, rs1, rs2, imm),
        Instr::Load {
            size,
            signed,
            rd,
            rs1,
            imm,
        } => load(size, signed, rd, rs1, imm),
        Instr::Store {
            size,
            rs1,
            rs2,
            imm,
        } => store(size, rs1, rs2, imm),
        Instr::OpImm { op, rd, rs1, imm } => immediate(op, rd, rs1, imm),
        Instr::OpImm32 { op, rd, rs1, imm } => immediate_32(op, rd, rs1, imm),
        Instr::Op { op, rd, rs1, rs2 } => registers(op, rd, rs1, rs2),
        Instr::Op32 { op, rd, rs1, rs2 } => registers_32(op, rd, rs1, rs2),
        Instr::Fence => fence(),
        Instr::Ecall => ecall(),
        Instr::Ebreak => ebreak(),
    }
}

#[tactic(auto, unfolding(ad_isa::specs::Table::decoded, ad_isa::specs::Table::rows))]
fn lui(rd: u8, imm: i64) -> u32
    requires rd { rd < 32 }
    requires imm { IsMultiple 0x1000 0x80000000 imm }
    ensures { decoded result ≡ Some (Instr.Lui rd imm) }
{
    upper_word(0x37, rd, imm)
}

#[tactic(auto, unfolding(ad_isa::specs::Table::decoded, ad_isa::specs::Table::rows))]
fn auipc(rd: u8, imm: i64) -> u32
    requires rd { rd < 32 }
    requires imm { IsMultiple 0x1000 0x80000000 imm }
    ensures { decoded result ≡ Some (Instr.Auipc rd imm) }
{
    upper_word(0x17, rd, imm)
}

#[tactic(auto, unfolding(ad_isa::specs::Table::decoded, ad_isa::specs::Table::rows))]
fn jump(rd: u8, imm: i64) -> u32
    requires rd { rd < 32 }
    requires imm { IsMultiple 2 0x100000 imm }
    ensures { decoded result ≡ Some (Instr.Jal rd imm) }
{
    jump_word(0x6f, rd, imm)
}

#[tactic(auto, unfolding(ad_isa::specs::Table::decoded, ad_isa::specs::Table::rows))]
fn jump_to_register(rd: u8, rs1: u8, imm: i64) -> u32
    requires rd { rd < 32 }
    requires rs1 { rs1 < 32 }
    requires imm { In12 imm }
    ensures { decoded result ≡ Some (Instr.Jalr rd rs1 imm) }
{
    immediate_word(0x67, 0, rd, rs1, imm)
}

#[tactic(auto, unfolding(ad_isa::specs::Table::decoded, ad_isa::specs::Table::rows))]
fn branch(test: Test, rs1: u8, rs2: u8, imm: i64) -> u32
    requires rs1 { rs1 < 32 }
    requires rs2 { rs2 < 32 }
    requires imm { IsMultiple 2 0x1000 imm }
    ensures { decoded result ≡ Some (Instr.Branch test rs1 rs2 imm) }
{
    let function = match test {
        Test::Eq => 0,
        Test::Ne => 1,
        Test::Lt => 4,
        Test::Ge => 5,
        Test::Ltu => 6,
        Test::Geu => 7,
    };
    branch_word(0x63, function, rs1, rs2, imm)
}

#[tactic(auto, unfolding(ad_isa::specs::Table::decoded, ad_isa::specs::Table::rows))]
fn load(size: u8, signed: bool, rd: u8, rs1: u8, imm: i64) -> u32
    requires size { IsSize size }
    requires signed { signed ≡ false → size < 8 }
    requires rd { rd < 32 }
    requires rs1 { rs1 < 32 }
    requires imm { In12 imm }
    ensures { decoded result ≡ Some (Instr.Load size signed rd rs1 imm) }
{
    let function = match (size, signed) {
        (1, true) => 0,
        (2, true) => 1,
        (4, true) => 2,
        (8, true) => 3,
        (1, false) => 4,
        (2, false) => 5,
        (4, false) => 6,
        _ => unreachable!(),
    };
    immediate_word(0x03, function, rd, rs1, imm)
}

#[tactic(auto, unfolding(ad_isa::specs::Table::decoded, ad_isa::specs::Table::rows))]
fn store(size: u8, rs1: u8, rs2: u8, imm: i64) -> u32
    requires size { IsSize size }
    requires rs1 { rs1 < 32 }
    requires rs2 { rs2 < 32 }
    requires imm { In12 imm }
    ensures { decoded result ≡ Some (Instr.Store size rs1 rs2 imm) }
{
    let function = match size {
        1 => 0,
        2 => 1,
        4 => 2,
        8 => 3,
        _ => unreachable!(),
    };
    store_word(0x23, function, rs1, rs2, imm)
}

#[tactic(auto, unfolding(ad_isa::specs::Table::decoded, ad_isa::specs::Table::rows))]
fn immediate(op: Alu, rd: u8, rs1: u8, imm: i64) -> u32
    requires rd { rd < 32 }
    requires rs1 { rs1 < 32 }
    requires imm { IsImmediateOf op imm }
    ensures { decoded result ≡ Some (Instr.OpImm op rd rs1 imm) }
{
    match op {
        Alu::Add => immediate_word(0x13, 0, rd, rs1, imm),
        Alu::Slt => immediate_word(0x13, 2, rd, rs1, imm),
        Alu::Sltu => immediate_word(0x13, 3, rd, rs1, imm),
        Alu::Xor => immediate_word(0x13, 4, rd, rs1, imm),
        Alu::Or => immediate_word(0x13, 6, rd, rs1, imm),
        Alu::And => immediate_word(0x13, 7, rd, rs1, imm),
        Alu::Sll => shift_word(1, 0x00, rd, rs1, imm),
        Alu::Srl => shift_word(5, 0x00, rd, rs1, imm),
        Alu::Sra => shift_word(5, 0x10, rd, rs1, imm),
        _ => unreachable!(),
    }
}

#[tactic(auto, unfolding(ad_isa::specs::Table::decoded, ad_isa::specs::Table::rows))]
fn immediate_32(op: Alu, rd: u8, rs1: u8, imm: i64) -> u32
    requires rd { rd < 32 }
    requires rs1 { rs1 < 32 }
    requires imm { IsImmediateOf32 op imm }
    ensures { decoded result ≡ Some (Instr.OpImm32 op rd rs1 imm) }
{
    match op {
        Alu::Add => immediate_word(0x1b, 0, rd, rs1, imm),
        Alu::Sll => shift_32_word(1, 0x00, rd, rs1, imm),
        Alu::Srl => shift_32_word(5, 0x00, rd, rs1, imm),
        Alu::Sra => shift_32_word(5, 0x20, rd, rs1, imm),
        _ => unreachable!(),
    }
}

#[tactic(auto, unfolding(ad_isa::specs::Table::decoded, ad_isa::specs::Table::rows))]
fn registers(op: Alu, rd: u8, rs1: u8, rs2: u8) -> u32
    requires rd { rd < 32 }
    requires rs1 { rs1 < 32 }
    requires rs2 { rs2 < 32 }
    ensures { decoded result ≡ Some (Instr.Op op rd rs1 rs2) }
{
    let (function, more) = match op {
        Alu::Add => (0, 0x00),
        Alu::Sll => (1, 0x00),
        Alu::Slt => (2, 0x00),
        Alu::Sltu => (3, 0x00),
        Alu::Xor => (4, 0x00),
        Alu::Srl => (5, 0x00),
        Alu::Or => (6, 0x00),
        Alu::And => (7, 0x00),
        Alu::Sub => (0, 0x20),
        Alu::Sra => (5, 0x20),
        Alu::Mul => (0, 0x01),
        Alu::Mulh => (1, 0x01),
        Alu::Mulhsu => (2, 0x01),
        Alu::Mulhu => (3, 0x01),
        Alu::Div => (4, 0x01),
        Alu::Divu => (5, 0x01),
        Alu::Rem => (6, 0x01),
        Alu::Remu => (7, 0x01),
    };
    registers_word(0x33, function, more, rd, rs1, rs2)
}

#[tactic(auto, unfolding(ad_isa::specs::Table::decoded, ad_isa::specs::Table::rows))]
fn registers_32(op: Alu, rd: u8, rs1: u8, rs2: u8) -> u32
    requires op { has_word_form op ≡ true }
    requires rd { rd < 32 }
    requires rs1 { rs1 < 32 }
    requires rs2 { rs2 < 32 }
    ensures { decoded result ≡ Some (Instr.Op32 op rd rs1 rs2) }
{
    let (function, more) = match op {
        Alu::Add => (0, 0x00),
        Alu::Sll => (1, 0x00),
        Alu::Srl => (5, 0x00),
        Alu::Sub => (0, 0x20),
        Alu::Sra => (5, 0x20),
        Alu::Mul => (0, 0x01),
        Alu::Div => (4, 0x01),
        Alu::Divu => (5, 0x01),
        Alu::Rem => (6, 0x01),
        Alu::Remu => (7, 0x01),
        _ => unreachable!(),
    };
    registers_word(0x3b, function, more, rd, rs1, rs2)
}

#[tactic(auto, unfolding(ad_isa::specs::Table::decoded, ad_isa::specs::Table::rows, ad_isa::specs::Fields::opcode, ad_isa::specs::Fields::funct3))]
fn fence() -> u32
    ensures { decoded result ≡ Some Instr.Fence }
{
    0x0000_000f
}

#[tactic(auto, unfolding(ad_isa::specs::Table::decoded, ad_isa::specs::Table::rows, ad_isa::specs::Fields::opcode))]
fn ecall() -> u32
    ensures { decoded result ≡ Some Instr.Ecall }
{
    0x0000_0073
}

#[tactic(auto, unfolding(ad_isa::specs::Table::decoded, ad_isa::specs::Table::rows, ad_isa::specs::Fields::opcode))]
fn ebreak() -> u32
    ensures { decoded result ≡ Some Instr.Ebreak }
{
    0x0010_0073
}
