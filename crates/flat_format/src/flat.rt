//! What a flattened index has, and how long its parts are.
ghost use Rattle.std.specs.Prelude.{◌≡◌};
ghost use Rattle.flat_format.specs.declared.flat.FlatTrouble.TheVariants as troubles;

use plain_file::Pieces;
use plfs_types::{CoverList, NoMemory};
use std::alloc::{AllocError, AllocFailed};
use std::error::Error;
use std::fmt;

/// The eight ASCII letters that a flattened index begins with.
pub(crate) const LETTERS: [u8; 8] = *b"PLFSFLT1";

/// The bytes in front of the covers: the letters and two counts.
pub const HEAD_SIZE: usize = 24;

/// The bytes of a cover.
pub const COVER_SIZE: usize = 32;

/// A flattened index.
#[derive(Drop)]
pub struct Flat {
    /// Which entries of each writer it covers, by ascending writer.
    pub covers: CoverList,
    /// The merged pieces of these entries, not clipped by any truncate.
    pub pieces: Pieces,
}

/// Why bytes give no flattened index.
#[derive(Clone, Copy, Debug, PartialEq, Eq)]
pub enum FlatTrouble {
    /// Memory was refused.
    NoMemory,
    /// They are no valid one. The place is that of the first fault, in bytes from the front.
    Bad { place: u64 },
}

impl fmt::Display for FlatTrouble {
    ghost use Rattle.std.specs.Prelude.{Some};
    ghost use Rattle.flat_format.specs.Messages.{trouble_text};

    ghost output = { λ trouble. Some (trouble_text trouble) };

    fn fmt<W: fmt::Write>(&self, f: &mut fmt::Formatter<W>) -> fmt::Result {
        match self {
            FlatTrouble::NoMemory => f.write_str("memory was refused"),
            FlatTrouble::Bad { place } => write!(f, "the flattened index is bad at byte {place}"),
        }
    }
}

impl Error for FlatTrouble {}

impl From<NoMemory> for FlatTrouble {
    ghost from_gives = { λ _ trouble. trouble ≡ troubles.NoMemory };

    fn from(_: NoMemory) -> Self {
        FlatTrouble::NoMemory
    }
}

impl From<AllocError> for FlatTrouble {
    ghost from_gives = { λ _ trouble. trouble ≡ troubles.NoMemory };

    fn from(_: AllocError) -> Self {
        FlatTrouble::NoMemory
    }
}

impl<T: Drop> From<AllocFailed<T>> for FlatTrouble {
    ghost from_gives = { λ _ trouble. trouble ≡ troubles.NoMemory };

    fn from(_: AllocFailed<T>) -> Self {
        FlatTrouble::NoMemory
    }
}
