//! Laws of the table of instructions. Each function makes no call: its contract is the law.

ghost use Rattle.std.specs.Prelude.{◌≡◌, ◌↔◌, ℕ, Some, None, pos, negsuc};
ghost use Rattle.ad_isa.specs.declared.instr.Instr.{Instr};
ghost use Rattle.ad_isa.specs.Table.{decoded, IsWordOf};

use crate::instr::{Alu, Instr};

/// A word is decoded to an instruction exactly where the table gives the word to it. So no two
/// instructions have one word.
pub fn law_table()
    ensures { (word : ℕ) (i : Instr) → (decoded word ≡ Some i) ↔ IsWordOf i word }
{}

/// Words of worked examples.
pub fn law_worked_words()
    ensures add { decoded 0x00b50533 ≡ Some (Instr.Op Alu.Add 10 10 11) }
    ensures return_jump { decoded 0x00008067 ≡ Some (Instr.Jalr 0 1 (pos 0)) }
    ensures add_immediate { decoded 0x00150513 ≡ Some (Instr.OpImm Alu.Add 10 10 (pos 1)) }
    ensures negative { decoded 0xff828293 ≡ Some (Instr.OpImm Alu.Add 5 5 (negsuc 7)) }
    ensures own_address { decoded 0x00000517 ≡ Some (Instr.Auipc 10 (pos 0)) }
    ensures far_address { decoded 0x00004297 ≡ Some (Instr.Auipc 5 (pos 0x4000)) }
    ensures address_before { decoded 0xfffff517 ≡ Some (Instr.Auipc 10 (negsuc 4095)) }
    ensures load_upper_immediate { decoded 0xffffc2b7 ≡ Some (Instr.Lui 5 (negsuc 0x3fff)) }
    ensures subtract { decoded 0x40b50533 ≡ Some (Instr.Op Alu.Sub 10 10 11) }
    ensures zero { decoded 0 ≡ None }
{}
