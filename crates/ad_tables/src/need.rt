//! Which words the entries of relocations need.

ghost use Rattle.std.specs.Prelude.{◌≡◌};
ghost use Rattle.ad_tables.specs.Tables.{is_call, is_low, need, uses_symbol};

use crate::resolved::Resolved;
use ad_elf::{
    R_RISCV_CALL, R_RISCV_CALL_PLT, R_RISCV_GOT_HI20, R_RISCV_PCREL_LO12_I, R_RISCV_PCREL_LO12_S,
    width,
};

/// Whose word an entry needs.
#[derive(Clone, Copy, Debug, PartialEq, Eq)]
pub enum Need {
    /// None.
    Nothing,
    /// One of the local area.
    Local,
    /// One of the fixed table.
    Fixed,
}

/// Whose word an entry of this type needs that applies to one of the parts, for what its symbol stands for.
#[tactic(auto, unfolding(crate::specs::Tables::need))]
pub fn needed(in_movable: bool, typ: u32, symbol: Resolved) -> Need
    ensures { result ≡ need in_movable typ symbol }
{
    let loads = typ == R_RISCV_GOT_HI20;
    let calls = is_call(typ);
    match symbol {
        Resolved::Movable(_) if in_movable && loads => Need::Local,
        Resolved::Movable(_) => Need::Nothing,
        Resolved::Immovable(_) if loads || in_movable && calls => Need::Fixed,
        Resolved::Import(_) | Resolved::Number(_) if loads || calls => Need::Fixed,
        Resolved::Immovable(_) | Resolved::Import(_) | Resolved::Number(_) => Need::Nothing,
    }
}

/// Tests for the types of calls.
pub fn is_call(typ: u32) -> bool
    ensures { result ≡ is_call typ }
{
    typ == R_RISCV_CALL || typ == R_RISCV_CALL_PLT
}

/// Tests for the types whose value is that of another entry, which their symbol names.
pub fn is_low(typ: u32) -> bool
    ensures { result ≡ is_low typ }
{
    typ == R_RISCV_PCREL_LO12_I || typ == R_RISCV_PCREL_LO12_S
}

/// Tests for the types that have a field, which gets a value of the entry's own symbol.
#[tactic(auto, unfolding(crate::specs::Tables::uses_symbol))]
pub(crate) fn uses_symbol(typ: u32) -> bool
    ensures { result ≡ uses_symbol typ }
{
    width(typ) != 0 && !is_low(typ)
}
