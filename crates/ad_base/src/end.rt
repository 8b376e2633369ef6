//! How a call ends.

use std::fmt;

/// The end of a call.
#[derive(Clone, Copy, Debug, PartialEq, Eq)]
pub enum End {
    /// The call reached the gate, with this number in a0.
    Returned(u64),
    /// No instruction has the word.
    Illegal,
    /// An address or a target isn't a multiple of what it must be.
    Misaligned,
    /// The address isn't of the call's mapping, its stack or its module's immovable part.
    Fault,
    /// The page of the address lacks the right.
    Denied,
    /// The instruction ECALL.
    Ecall,
    /// The instruction EBREAK.
    Ebreak,
    /// All steps that the call may make were made.
    Fuel,
    /// The call gave up, with this number.
    Abort(u64),
    /// The call made one note more than it may.
    NotesFull,
}

impl fmt::Display for End {
    ghost use Rattle.std.specs.Prelude.{Some};
    ghost use Rattle.ad_base.specs.End.{end_text};

    ghost output = { λ e. Some (end_text e) };

    fn fmt<W: fmt::Write>(&self, f: &mut fmt::Formatter<W>) -> fmt::Result {
        match self {
            End::Returned(number) => write!(f, "returned {number}"),
            End::Illegal => write!(f, "trap illegal"),
            End::Misaligned => write!(f, "trap misaligned"),
            End::Fault => write!(f, "trap fault"),
            End::Denied => write!(f, "trap denied"),
            End::Ecall => write!(f, "trap ecall"),
            End::Ebreak => write!(f, "trap ebreak"),
            End::Fuel => write!(f, "trap fuel"),
            End::Abort(number) => write!(f, "abort {number}"),
            End::NotesFull => write!(f, "trap notes"),
        }
    }
}
