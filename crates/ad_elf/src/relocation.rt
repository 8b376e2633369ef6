//! The types of relocations.

ghost use Rattle.std.specs.Prelude.{◌≡◌, ◌≤◌};
ghost use Rattle.ad_elf.specs.Relocation.{width};

use crate::elf::{
    R_RISCV_32, R_RISCV_32_PCREL, R_RISCV_64, R_RISCV_ADD32, R_RISCV_ADD64, R_RISCV_BRANCH,
    R_RISCV_CALL, R_RISCV_CALL_PLT, R_RISCV_GOT_HI20, R_RISCV_JAL, R_RISCV_PCREL_HI20,
    R_RISCV_PCREL_LO12_I, R_RISCV_PCREL_LO12_S, R_RISCV_SUB32, R_RISCV_SUB64,
};

/// How many bytes the field of a relocation of this type has (RISC-V ELF psABI, "Relocations"): none
/// for a type that isn't taken.
#[tactic(auto, unfolding(crate::specs::Relocation::width))]
pub fn width(typ: u32) -> u64
    ensures value { result ≡ width typ }
    ensures small { result ≤ 8 }
{
    match typ {
        R_RISCV_32
        | R_RISCV_BRANCH
        | R_RISCV_JAL
        | R_RISCV_GOT_HI20
        | R_RISCV_PCREL_HI20
        | R_RISCV_PCREL_LO12_I
        | R_RISCV_PCREL_LO12_S
        | R_RISCV_ADD32
        | R_RISCV_SUB32
        | R_RISCV_32_PCREL => 4,
        R_RISCV_64 | R_RISCV_CALL | R_RISCV_CALL_PLT | R_RISCV_ADD64 | R_RISCV_SUB64 => 8,
        _ => 0,
    }
}
