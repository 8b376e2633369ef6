//! Values of the symbolic machine.

/// The parts whose place a value may depend on.
#[derive(Clone, Copy, Debug, PartialEq, Eq)]
pub enum Part {
    Movable,
    Stack,
}

/// A number, or the address at an offset, modulo 2^64, from the base of a part. Addresses in the immovable
/// part, of the gate and of the services are numbers.
#[derive(Clone, Copy, Debug, PartialEq, Eq)]
pub enum Value {
    Num(u64),
    At(Part, u64),
}

/// Why a step has no clear result.
#[derive(Clone, Copy, Debug, PartialEq, Eq)]
pub enum Reason {
    /// A result of arithmetic that depends on a place.
    Arithmetic,
    /// A comparison that depends on a place.
    Comparison,
    /// An address at which the place decides what lies there.
    Address,
    /// Bytes of an address among others.
    MixedBytes,
}

impl Default for Value {
    ghost use Rattle.std.specs.Prelude.{◌≡◌};
    ghost use Rattle.ad_symbolic.specs.declared.value.Value.TheVariants.{Num};

    ghost is_default = { λ v. v ≡ Num 0 };

    fn default() -> Value {
        Value::Num(0)
    }
}
