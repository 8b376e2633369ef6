//! Where the program writes to.

ghost use Rattle.std.specs.Prelude.{◌≡◌, ◌≤◌, ◌<◌, length, take, ℕ, OnOk, OnErr, IfOk};
ghost use Rattle.std.specs.Io.KnownBytes.{Appends, WriteAppends};
ghost use Rattle.ad_base.specs.Count.{Rose};
ghost use Rattle.ad_base.specs.Outside.{Output};

/// The outside failed to take bytes.
#[derive(Clone, Copy, Debug, PartialEq, Eq)]
pub struct Failed;

/// What bytes are written to.
pub trait Sink {
    /// What is told of the sink: the bytes taken so far, and how many faults there were.
    ghost output: { Self → Output };

    /// Takes the first bytes of the piece, at least one of them. At an error it takes none.
    fn write(&mut self, piece: &[u8]) -> Result<usize, Failed>
        requires { 0 < length piece.now }
        ensures some { IfOk result (λ n. 0 < n) }
        ensures at_most { IfOk result (λ n. n ≤ length piece.now) }
        ensures bytes { WriteAppends (output self.old).taken (output self.new).taken result piece.now }
        ensures failed { OnErr result (Rose (output self.old).faults (output self.new).faults) }
        ensures no_fault { OnOk result ((output self.new).faults ≡ (output self.old).faults) };
}

/// Writes all the bytes, and hands each write those that aren't taken yet. At an error the bytes
/// before some place in them are taken.
pub fn write_all<K: Sink>(out: &mut K, bytes: &[u8]) -> Result<(), Failed>
    ensures all { OnOk result (Appends (K.output out.old).taken (K.output out.new).taken bytes.now) }
    ensures some { OnErr result ((n : ℕ) × (n < length bytes.now)
        × Appends (K.output out.old).taken (K.output out.new).taken (take n bytes.now)) }
    ensures failed { OnErr result (Rose (K.output out.old).faults (K.output out.new).faults) }
    ensures no_fault { OnOk result ((K.output out.new).faults ≡ (K.output out.old).faults) }
{
    let mut rest = bytes;
    while !rest.is_empty() {
        let taken = out.write(rest)?;
        rest = &rest[taken..];
    }
    Ok(())
}
