//! A source over a reader of the standard library. What the reader does is trusted.
ghost use Rattle.std.specs.Prelude.{◌≡◌, None};
ghost use Rattle.std.specs.Io.KnownBytes.{ReadConsumes};
ghost use Rattle.edge_io.specs.Source.{Reads};

use crate::failed::Failed;
use crate::source::Source;
use std::io::Read;

/// A source over a reader, which tells no bytes.
#[derive(Drop)]
pub struct StdSource<R> {
    reader: R,
    faults: u64,
}

impl<R: Read> StdSource<R> {
    /// A source over this reader.
    pub fn new(reader: R) -> StdSource<R>
        ensures reader { result.reader ≡ reader }
        ensures faults { result.faults ≡ 0 }
    {
        StdSource { reader, faults: 0 }
    }

    /// How often it has failed.
    pub fn faults(&self) -> u64
        ensures { result ≡ self.now.faults }
    {
        self.faults
    }
}

impl<R: Read> Source for StdSource<R> {
    ghost given = { λ source. record { left = None; faults = source.faults } };

    fn read(&mut self, into: &mut [u8]) -> Result<usize, Failed>
        ensures source { Reads into.new (record { left = None; faults = self.old.faults }) (record { left = None; faults = self.new.faults }) result }
        ensures reader { ReadConsumes (R.remaining self.old.reader) (R.remaining self.new.reader) result into.new }
    {
        let Ok(count) = self.reader.read(into) else {
            self.faults = self.faults.saturating_add(1);
            return Err(Failed);
        };
        Ok(count)
    }
}
