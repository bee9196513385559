//! The contract of a sink of bytes.
ghost use Rattle.edge_io.specs.Sink.{Taking, Takes};

use crate::failed::Failed;

/// A sink of bytes, which takes them in order and counts its faults.
pub trait Sink {
    /// The bytes it has taken, where it tells them; its count of faults; and how often it took nothing of a piece
    /// that isn't empty. Neither count falls.
    ghost taking: { Self → Taking };

    /// Takes a front of the piece, and answers how many bytes.
    ///
    /// `Failed` comes only where the count of faults rose, and the bytes taken are then as they were.
    fn write(&mut self, piece: &[u8]) -> Result<usize, Failed>
        ensures { Takes piece.now (taking self.old) (taking self.new) result };
}
