//! The contract of a source of bytes.
ghost use Rattle.edge_io.specs.Source.{Given, Reads};

use crate::failed::Failed;

/// A source of bytes, which hands them over in order and counts its faults.
pub trait Source {
    /// The bytes it has left, where it tells them, and its count of faults, which never falls.
    ghost given: { Self → Given };

    /// Hands over a front of the bytes left, in the first bytes of `into`, and answers how many.
    ///
    /// Where `into` isn't empty, 0 means the end. `Failed` comes only where the count of faults rose, and the
    /// bytes left are then as they were.
    fn read(&mut self, into: &mut [u8]) -> Result<usize, Failed>
        ensures { Reads into.new (given self.old) (given self.new) result };
}
