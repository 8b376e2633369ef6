//! The types of relocations that are taken.

ghost use Rattle.std.specs.Prelude.{◌≡◌};
ghost use Rattle.ad_reloc.specs.Table.{row};

use ad_elf::{
    R_RISCV_32, R_RISCV_32_PCREL, R_RISCV_64, R_RISCV_ADD32, R_RISCV_ADD64, R_RISCV_BRANCH,
    R_RISCV_CALL, R_RISCV_CALL_PLT, R_RISCV_GOT_HI20, R_RISCV_JAL, R_RISCV_PCREL_HI20,
    R_RISCV_PCREL_LO12_I, R_RISCV_PCREL_LO12_S, R_RISCV_RELAX, R_RISCV_SUB32, R_RISCV_SUB64,
};

/// What value a relocation computes: of the address of its symbol with its addend, the address of its field, and the
/// number that the field has.
#[derive(Clone, Copy, Debug, PartialEq, Eq)]
pub enum Formula {
    /// The address.
    Address,
    /// The address, from the field on.
    Distance,
    /// That of the word which has the address of the symbol, from the field on.
    EntryDistance,
    /// That of the relocation which its symbol names.
    OfHigh,
    /// The number and the address.
    Sum,
    /// The number without the address.
    Difference,
}

/// How a field spells a number.
#[derive(Clone, Copy, Debug, PartialEq, Eq)]
pub enum Form {
    /// The field has no bytes.
    Empty,
    /// Four bytes, the lowest first.
    Number32,
    /// Eight bytes, the lowest first.
    Number64,
    /// The immediate of an instruction of the U format is the high half.
    Upper,
    /// The immediate of an instruction of the I format is the low half.
    Immediate,
    /// The immediate of an instruction of the S format is the low half.
    Store,
    /// The immediate of an instruction of the B format.
    Branch,
    /// The immediate of an instruction of the J format.
    Jump,
    /// An instruction of the U format and one of the I format have the halves.
    Pair,
}

/// What is said of a type.
#[derive(Clone, Copy, Debug, PartialEq, Eq)]
pub struct Row {
    pub formula: Formula,
    pub form: Form,
    /// The numbers from which on and below which its value is, if it has a range.
    pub range: Option<(i128, i128)>,
}

impl Row {
    const fn new(formula: Formula, form: Form, range: Option<(i128, i128)>) -> Row
        ensures { result ≡ (record { formula = formula; form = form; range = range }) }
    {
        Row {
            formula,
            form,
            range,
        }
    }
}

/// The numbers whose high half is one of 20 bits.
const HALVES: Option<(i128, i128)> = Some((-0x8000_0800, 0x7fff_f800));

/// What is said of this type, if it is taken (RISC-V ELF psABI, "Relocations").
#[tactic(auto, unfolding(crate::specs::Table::rows, crate::specs::Table::row))]
pub(crate) fn row_of(typ: u32) -> Option<Row>
    ensures { result ≡ row typ }
{
    let row = match typ {
        R_RISCV_32 => Row::new(
            Formula::Address,
            Form::Number32,
            Some((-0x8000_0000, 0x1_0000_0000)),
        ),
        R_RISCV_64 => Row::new(Formula::Address, Form::Number64, None),
        R_RISCV_BRANCH => Row::new(Formula::Distance, Form::Branch, Some((-0x1000, 0xfff))),
        R_RISCV_JAL => Row::new(Formula::Distance, Form::Jump, Some((-0x10_0000, 0xf_ffff))),
        R_RISCV_CALL | R_RISCV_CALL_PLT => Row::new(Formula::Distance, Form::Pair, HALVES),
        R_RISCV_GOT_HI20 => Row::new(Formula::EntryDistance, Form::Upper, HALVES),
        R_RISCV_PCREL_HI20 => Row::new(Formula::Distance, Form::Upper, HALVES),
        R_RISCV_PCREL_LO12_I => Row::new(Formula::OfHigh, Form::Immediate, None),
        R_RISCV_PCREL_LO12_S => Row::new(Formula::OfHigh, Form::Store, None),
        R_RISCV_ADD32 => Row::new(Formula::Sum, Form::Number32, None),
        R_RISCV_ADD64 => Row::new(Formula::Sum, Form::Number64, None),
        R_RISCV_SUB32 => Row::new(Formula::Difference, Form::Number32, None),
        R_RISCV_SUB64 => Row::new(Formula::Difference, Form::Number64, None),
        R_RISCV_RELAX => Row::new(Formula::Address, Form::Empty, None),
        R_RISCV_32_PCREL => Row::new(
            Formula::Distance,
            Form::Number32,
            Some((-0x8000_0000, 0x8000_0000)),
        ),
        _ => return None,
    };
    Some(row)
}
