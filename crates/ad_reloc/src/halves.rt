//! The two halves of a number that two instructions add.

ghost use Rattle.std.specs.Prelude.{◌≡◌, ◌*ℤ◌, pos};
ghost use Rattle.ad_isa.specs.Words.{IsMultiple};
ghost use Rattle.ad_reloc.specs.Halves.{AreHalves, HasHalves};

/// The halves of a number (RISC-V ELF psABI, "PC-Relative Symbol Addresses").
#[derive(Clone, Copy, Debug, PartialEq, Eq)]
pub struct Halves {
    /// The number is 4,096 times the high half and the low half.
    pub high: i64,
    /// From -2,048 to 2,047.
    pub low: i64,
}

/// The halves of a number.
pub(crate) fn halves_of(value: i64) -> Halves
    requires { HasHalves value }
    ensures halves { AreHalves value result.high result.low }
    ensures small { IsMultiple 0x1000 0x80000000 (pos 4096 *ℤ result.high) }
{
    // Counted from the least number that has halves, both are found without signs.
    let above_least = (value + 0x8000_0800) as u64;
    Halves {
        high: (above_least / 0x1000) as i64 - 0x8_0000,
        low: (above_least % 0x1000) as i64 - 0x800,
    }
}
