//! The parts of a read.

use plfs_types::Sequence;

/// A part of what is read.
#[derive(Clone, Copy, PartialEq, Eq)]
pub enum Part {
    /// So many zeros, where no write shows.
    Hole {
        /// Their number.
        len: u64,
    },
    /// Bytes of a writer's log.
    From {
        /// The writer.
        writer: u64,
        /// Where the bytes begin in the writer's log.
        physical: u64,
        /// Their number.
        len: u64,
    },
}

/// A list of parts, in the order of the file.
pub type PartList = Sequence<Part>;
