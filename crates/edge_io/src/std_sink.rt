//! A sink over a writer of the standard library. What the writer does is trusted.
ghost use Rattle.std.specs.Prelude.{◌≡◌};
ghost use Rattle.std.specs.Io.KnownBytes.{WriteAppends};
ghost use Rattle.edge_io.specs.Sink.{Takes, taking_over};

use crate::failed::Failed;
use crate::sink::Sink;
use std::io::Write;

/// A sink over a writer, which tells no bytes.
#[derive(Drop)]
pub struct StdSink<W> {
    writer: W,
    faults: u64,
    stalls: u64,
}

impl<W: Write> StdSink<W> {
    /// A sink over this writer.
    pub fn new(writer: W) -> StdSink<W>
        ensures writer { result.writer ≡ writer }
        ensures faults { result.faults ≡ 0 }
        ensures stalls { result.stalls ≡ 0 }
    {
        StdSink {
            writer,
            faults: 0,
            stalls: 0,
        }
    }

    /// How often it has failed.
    pub fn faults(&self) -> u64
        ensures { result ≡ self.now.faults }
    {
        self.faults
    }

    /// How often it took nothing of a piece that isn't empty.
    pub fn stalls(&self) -> u64
        ensures { result ≡ self.now.stalls }
    {
        self.stalls
    }
}

impl<W: Write> Sink for StdSink<W> {
    ghost taking = { λ sink. taking_over sink.faults sink.stalls };

    fn write(&mut self, piece: &[u8]) -> Result<usize, Failed>
        ensures sink { Takes piece.now (taking_over self.old.faults self.old.stalls) (taking_over self.new.faults self.new.stalls) result }
        ensures writer { WriteAppends (W.contents self.old.writer) (W.contents self.new.writer) result piece.now }
    {
        let Ok(count) = self.writer.write(piece) else {
            self.faults = self.faults.saturating_add(1);
            return Err(Failed);
        };
        if count == 0 && !piece.is_empty() {
            self.stalls = self.stalls.saturating_add(1);
        }
        Ok(count)
    }
}
