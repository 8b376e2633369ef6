//! A writer of the system as a sink.

ghost use Rattle.std.specs.Prelude.{◌≡◌};

use crate::sink::{Failed, Sink};
use std::io;

/// A writer, such as standard output. It tells as taken what its writer tells as its contents; of
/// standard output nothing is told.
#[derive(Debug, Drop)]
pub struct OutSink<W> {
    writer: W,
    faults: u64,
}

impl<W: io::Write> OutSink<W> {
    /// A sink that writes here, with no fault so far.
    pub fn new(writer: W) -> OutSink<W>
        ensures taken { (⟦<OutSink<W> as Sink>⟧.output result).taken ≡ W.contents writer }
        ensures faults { (⟦<OutSink<W> as Sink>⟧.output result).faults ≡ 0 }
    {
        OutSink { writer, faults: 0 }
    }
}

impl<W: io::Write> Sink for OutSink<W> {
    ghost output = { λ s. record { taken = W.contents s.writer; faults = s.faults } };

    fn write(&mut self, piece: &[u8]) -> Result<usize, Failed> {
        match self.writer.write(piece) {
            Ok(count) if count > 0 => Ok(count),
            _ => {
                self.faults = self.faults.saturating_add(1);
                Err(Failed)
            }
        }
    }
}
