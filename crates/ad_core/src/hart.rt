//! The registers of the machine, and what an instruction does to them.

ghost use Rattle.std.specs.Int.{cast_unsigned, w64};
ghost use Rattle.std.specs.Prelude.{if◌then◌else◌, ◌+◌, ◌^◌, ◌≡◌, ◌<◌, ◌%◌, slice_index, Ok, IfNone};
ghost use Rattle.ad_isa.specs.Words.{HasWord};
ghost use Rattle.ad_isa.specs.Numbers.{numbers};
ghost use Rattle.ad_isa.specs.Rows.{effect, register, with_register};
ghost use Rattle.ad_isa.specs.Rows as rows;
ghost use Rattle.ad_isa.specs.Step.{to_target};
ghost use Rattle.ad_core.specs.Plain.{first_registers, plain_storage, Tracked};
ghost use Rattle.ad_core.specs.Private.Code.{answered, came_to, effect_of, IsInRange};

use crate::effect::Effect;
use ad_base::{Args, End, FETCH_BYTES, GATE};
use ad_isa::{Instr, holds, operation, word_operation};

/// Where a0, the first of the registers for arguments, stands.
const FIRST_ARGUMENT: usize = 10;

/// The registers, and the address of the next instruction.
#[derive(Clone, Copy, Debug)]
pub struct Hart {
    pub registers: [u64; 32],
    pub pc: u64,
}

impl Hart {
    /// The state in which a call begins.
    pub fn start(entry: u64, args: &Args, sp: u64) -> Hart
        ensures registers { result.registers ≡ first_registers args.now sp }
        ensures pc { result.pc ≡ entry }
    {
        let mut registers = [0; 32];
        registers[1] = GATE;
        registers[2] = sp;
        for i in 0..args.len() {
            registers[FIRST_ARGUMENT + i as usize] = args.get(i);
        }
        Hart {
            registers,
            pc: entry,
        }
    }

    /// What a0 holds.
    pub fn first_argument(&self) -> u64
        ensures { result ≡ slice_index self.now.registers 10 }
    {
        self.registers[FIRST_ARGUMENT]
    }

    /// What a register holds.
    pub fn get(&self, number: u8) -> u64
        requires { number < 32 }
        ensures { result ≡ register numbers self.now.registers number }
    {
        if number == 0 {
            0
        } else {
            self.registers[number as usize]
        }
    }

    /// Gives a register a value.
    pub fn set(&mut self, number: u8, value: u64)
        requires { number < 32 }
        ensures { self.new
            ≡ record self.old {
              registers = with_register numbers self.old.registers number value;
            } }
    {
        if number != 0 {
            self.registers[number as usize] = value;
        }
    }

    /// What an instruction comes to, which the instruction at `next` follows.
    #[tactic(auto, unfolding(ad_isa::specs::Rows::effect))]
    pub fn effect(&self, instr: Instr, next: u64) -> Effect
        requires { HasWord instr }
        ensures is { effect numbers self.now.registers self.now.pc next instr
            ≡ Ok (effect_of result) }
        ensures range { IsInRange result }
    {
        match instr {
            Instr::Lui { rd, imm } => Effect::Writes {
                rd,
                value: imm.cast_unsigned(),
            },
            Instr::Auipc { rd, imm } => Effect::Writes {
                rd,
                value: self.pc.wrapping_add(imm.cast_unsigned()),
            },
            Instr::Jal { rd, imm } => Effect::Jumps {
                rd,
                link: next,
                target: self.pc.wrapping_add(imm.cast_unsigned()),
            },
            Instr::Jalr { rd, rs1, imm } => Effect::Jumps {
                rd,
                link: next,
                target: self.get(rs1).wrapping_add(imm.cast_unsigned()) & !1,
            },
            Instr::Branch {
                test,
                rs1,
                rs2,
                imm,
            } => self.branch(holds(test, self.get(rs1), self.get(rs2)), imm),
            Instr::Load {
                size,
                signed,
                rd,
                rs1,
                imm,
            } => Effect::Loads {
                size,
                signed,
                rd,
                address: self.get(rs1).wrapping_add(imm.cast_unsigned()),
            },
            Instr::Store {
                size,
                rs1,
                rs2,
                imm,
            } => Effect::Stores {
                size,
                value: self.get(rs2),
                address: self.get(rs1).wrapping_add(imm.cast_unsigned()),
            },
            Instr::OpImm { op, rd, rs1, imm } => Effect::Writes {
                rd,
                value: operation(op, self.get(rs1), imm.cast_unsigned()),
            },
            Instr::OpImm32 { op, rd, rs1, imm } => Effect::Writes {
                rd,
                value: word_operation(op, self.get(rs1), imm.cast_unsigned()),
            },
            Instr::Op { op, rd, rs1, rs2 } => Effect::Writes {
                rd,
                value: operation(op, self.get(rs1), self.get(rs2)),
            },
            Instr::Op32 { op, rd, rs1, rs2 } => Effect::Writes {
                rd,
                value: word_operation(op, self.get(rs1), self.get(rs2)),
            },
            Instr::Fence => Effect::Passes,
            Instr::Ecall => Effect::Stops(End::Ecall),
            Instr::Ebreak => Effect::Stops(End::Ebreak),
        }
    }

    /// A jump by an immediate where a comparison holds.
    fn branch(&self, taken: bool, imm: i64) -> Effect
        ensures is { effect_of result
            ≡ (if taken then rows.Branches ((self.now.pc + cast_unsigned w64 imm) % 2 ^ 64)
            else rows.Passes) }
        ensures range { IsInRange result }
    {
        if taken {
            Effect::Branches {
                target: self.pc.wrapping_add(imm.cast_unsigned()),
            }
        } else {
            Effect::Passes
        }
    }

    /// Goes on to a target, which must be a multiple of the bytes of a fetch.
    pub fn go(&mut self, target: u64) -> Option<End>
        ensures aligned { IfNone result (self.new.pc % FETCH_BYTES ≡ 0) }
        ensures next { (m : Tracked)
            → came_to (to_target numbers plain_storage self.old.registers m target)
            ≡ (answered result self.new, m) }
    {
        if target % FETCH_BYTES != 0 {
            return Some(End::Misaligned);
        }
        self.pc = target;
        None
    }
}
