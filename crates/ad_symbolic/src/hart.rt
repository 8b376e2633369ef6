//! The registers of the symbolic machine, and what an instruction does to them.

ghost use Rattle.std.specs.Int.{cast_unsigned, w64};
ghost use Rattle.std.specs.Prelude.{◌≡◌, ◌==◌, ◌<◌, ◌*◌, ◌-◌, ◌^◌, if◌then◌else◌, slice_index_or, slice_set, IfOk, Ok};
ghost use Rattle.ad_isa.specs.Rows.{effect};
ghost use Rattle.ad_isa.specs.Words.{HasWord};
ghost use Rattle.ad_symbolic.specs.Machine.{first_values};
ghost use Rattle.ad_symbolic.specs.Private.Code.{branched, made_of, sizes, IsInRange};
ghost use Rattle.ad_symbolic.specs.Value.{conjunction_of, values};
ghost use Rattle.ad_symbolic.specs.declared.value.Value.TheVariants.{Num};

use crate::arithmetic::{STACK_BYTES, holds, operation, word_operation};
use crate::effect::Effect;
use crate::value::{Part, Reason, Value};
use ad_base::{Args, End, GATE};
use ad_isa::Instr;

/// Where a0, the first of the registers for arguments, stands.
const FIRST_ARGUMENT: usize = 10;

/// The registers, and the address of the next instruction.
#[derive(Clone, Copy, Debug)]
pub struct Hart {
    pub registers: [Value; 32],
    pub pc: Value,
}

impl Hart {
    /// The state in which a call begins at an offset of the movable part.
    pub fn start(offset: u64, args: &Args) -> Hart
        ensures registers { result.registers ≡ first_values args.now }
        ensures pc { result.pc ≡ Value.At Part.Movable offset }
    {
        let mut registers = [Value::Num(0); 32];
        registers[1] = Value::Num(GATE);
        registers[2] = Value::At(Part::Stack, STACK_BYTES);
        for i in 0..args.len() {
            registers[FIRST_ARGUMENT + i as usize] = Value::Num(args.get(i));
        }
        Hart {
            registers,
            pc: Value::At(Part::Movable, offset),
        }
    }

    /// What a0 holds.
    pub fn first_argument(&self) -> Value
        ensures { result ≡ slice_index_or self.now.registers 10 (Num 0) }
    {
        self.registers[FIRST_ARGUMENT]
    }

    /// What a register holds, where the movable part has so many bytes.
    pub fn get(&self, number: u8) -> Value
        requires { number < 32 }
        ensures { result ≡ (if number == 0 then Num 0 else slice_index_or self.now.registers number (Num 0)) }
    {
        if number == 0 {
            Value::Num(0)
        } else {
            self.registers[number as usize]
        }
    }

    /// Gives a register a value.
    pub fn set(&mut self, number: u8, value: Value)
        requires { number < 32 }
        ensures { self.new
            ≡ record self.old {
              registers = if number == 0 then self.old.registers else slice_set self.old.registers number value;
            } }
    {
        if number != 0 {
            self.registers[number as usize] = value;
        }
    }

    /// What an instruction comes to, which the instruction at `next` follows, where the movable part has so many bytes; or
    /// why this isn't clear.
    #[tactic(auto, unfolding(ad_isa::specs::Rows::effect))]
    pub fn effect(&self, instr: Instr, next: Value, movable: u64) -> Result<Effect, Reason>
        requires { HasWord instr }
        ensures is { effect (values (sizes movable)) self.now.registers self.now.pc next instr ≡ made_of result }
        ensures range { IfOk result IsInRange }
    {
        match instr {
            Instr::Lui { rd, imm } => Ok(Effect::Writes {
                rd,
                value: number(imm),
            }),
            Instr::Auipc { rd, imm } => Ok(Effect::Writes {
                rd,
                value: self.pc.sum(number(imm))?,
            }),
            Instr::Jal { rd, imm } => Ok(Effect::Jumps {
                rd,
                link: next,
                target: self.pc.sum(number(imm))?,
            }),
            Instr::Jalr { rd, rs1, imm } => Ok(Effect::Jumps {
                rd,
                link: next,
                target: even(self.get(rs1).sum(number(imm))?)?,
            }),
            Instr::Branch {
                test,
                rs1,
                rs2,
                imm,
            } => self.branch(holds(test, self.get(rs1), self.get(rs2), movable)?, imm),
            Instr::Load {
                size,
                signed,
                rd,
                rs1,
                imm,
            } => Ok(Effect::Loads {
                size,
                signed,
                rd,
                address: self.get(rs1).sum(number(imm))?,
            }),
            Instr::Store {
                size,
                rs1,
                rs2,
                imm,
            } => Ok(Effect::Stores {
                size,
                value: self.get(rs2),
                address: self.get(rs1).sum(number(imm))?,
            }),
            Instr::OpImm { op, rd, rs1, imm } => Ok(Effect::Writes {
                rd,
                value: operation(op, self.get(rs1), number(imm), movable)?,
            }),
            Instr::OpImm32 { op, rd, rs1, imm } => Ok(Effect::Writes {
                rd,
                value: word_operation(op, self.get(rs1), number(imm))?,
            }),
            Instr::Op { op, rd, rs1, rs2 } => Ok(Effect::Writes {
                rd,
                value: operation(op, self.get(rs1), self.get(rs2), movable)?,
            }),
            Instr::Op32 { op, rd, rs1, rs2 } => Ok(Effect::Writes {
                rd,
                value: word_operation(op, self.get(rs1), self.get(rs2))?,
            }),
            Instr::Fence => Ok(Effect::Passes),
            Instr::Ecall => Ok(Effect::Stops(End::Ecall)),
            Instr::Ebreak => Ok(Effect::Stops(End::Ebreak)),
        }
    }

    /// A jump by an immediate where a comparison holds.
    fn branch(&self, taken: bool, imm: i64) -> Result<Effect, Reason>
        ensures is { branched taken self.now.pc (cast_unsigned w64 imm) ≡ made_of result }
        ensures range { IfOk result IsInRange }
    {
        let target = self.pc.sum(number(imm))?;
        if taken {
            Ok(Effect::Branches { target })
        } else {
            Ok(Effect::Passes)
        }
    }
}

/// An immediate as a value.
fn number(imm: i64) -> Value
    ensures { result ≡ Num (cast_unsigned w64 imm) }
{
    Value::Num(imm.cast_unsigned())
}

/// The value with bit 0 cleared.
pub fn even(value: Value) -> Result<Value, Reason>
    ensures { result ≡ conjunction_of value (Num (2 ^ 64 - 2)) }
{
    value.conjunction(Value::Num(!1))
}
