//! How long the parts of a packed index are, and why bytes are none.
ghost use Rattle.std.specs.Prelude.{◌≡◌};
ghost use Rattle.index_pack.specs.declared.trouble.PackTrouble.TheVariants as troubles;

use plfs_types::NoMemory;
use std::alloc::{AllocError, AllocFailed};
use std::error::Error;
use std::fmt;

/// The eight ASCII letters that a packed index begins with.
pub(crate) const LETTERS: [u8; 8] = *b"PLFSIDX2";

/// The bytes in front of the runs: the letters and two counts.
pub const HEAD_SIZE: usize = 24;

/// The bytes of a run.
pub const RUN_SIZE: usize = 64;

/// Why bytes give no entries.
#[derive(Clone, Copy, Debug, PartialEq, Eq)]
pub enum PackTrouble {
    /// Memory was refused.
    NoMemory,
    /// They are no packed index. The place is that of the first fault, in bytes from the front.
    Bad { place: u64 },
}

impl fmt::Display for PackTrouble {
    ghost use Rattle.std.specs.Prelude.{Some};
    ghost use Rattle.index_pack.specs.Messages.{trouble_text};

    ghost output = { λ trouble. Some (trouble_text trouble) };

    fn fmt<W: fmt::Write>(&self, f: &mut fmt::Formatter<W>) -> fmt::Result {
        match self {
            PackTrouble::NoMemory => f.write_str("memory was refused"),
            PackTrouble::Bad { place } => write!(f, "the packed index is bad at byte {place}"),
        }
    }
}

impl Error for PackTrouble {}

impl From<NoMemory> for PackTrouble {
    ghost from_gives = { λ _ trouble. trouble ≡ troubles.NoMemory };

    fn from(_: NoMemory) -> Self {
        PackTrouble::NoMemory
    }
}

impl From<AllocError> for PackTrouble {
    ghost from_gives = { λ _ trouble. trouble ≡ troubles.NoMemory };

    fn from(_: AllocError) -> Self {
        PackTrouble::NoMemory
    }
}

impl<T: Drop> From<AllocFailed<T>> for PackTrouble {
    ghost from_gives = { λ _ trouble. trouble ≡ troubles.NoMemory };

    fn from(_: AllocFailed<T>) -> Self {
        PackTrouble::NoMemory
    }
}
