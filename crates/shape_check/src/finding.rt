//! What a check finds.
ghost use Rattle.std.specs.Prelude.{◌≡◌, Err};
ghost use Rattle.shape_check.specs.declared.finding.Finding.TheVariants.{Broken};
ghost use Rattle.shape_check.specs.Rightness.{finding_of};

use plfs_types::{Name, NoMemory, Path};
use std::alloc::AllocError;
use store_api::Trouble;

/// One thing that isn't as in a sound tree: of this room, and mostly of a file there.
#[derive(Clone, Copy, PartialEq, Eq)]
pub enum Complaint {
    /// No room may have the name.
    RoomName { room: Name },
    /// The room lacks the folder.
    NoFolder { room: Name, folder: Name },
    /// The container lacks its file `access`.
    NoAccess { room: Name },
    /// No room of its kind has such a folder.
    ForeignFolder { room: Name, folder: Name },
    /// No container has such a file.
    Foreign { room: Name, path: Path },
    /// The file in the room of marks is no empty mark.
    NoMark { path: Path },
    /// The file has bytes, and may have none.
    Filled { room: Name, path: Path },
    /// No mount with a mark has drawn the id.
    Unmarked { room: Name, path: Path },
    /// The writer's items are of several hosts.
    TwoHosts { room: Name, writer: u64 },
    /// The entry at this byte of the index dropping may not follow those before it.
    Entry { room: Name, path: Path, place: u64 },
    /// The entries of the index dropping have more bytes than a log.
    LongLog { room: Name, path: Path },
    /// Entries of the writer have landed, and it has neither an `openhosts` entry nor a metadata dropping.
    Unaccounted { room: Name, path: Path },
    /// The metadata dropping tells something else than the entries that have landed.
    Untrue { room: Name, path: Path },
    /// The writer has a metadata dropping, and this index dropping is not just its landed entries.
    Unsettled { room: Name, path: Path },
    /// The truncate of this stamp is between two of the dropping's landed entries, or has the stamp of one.
    Between { room: Name, path: Path, stamp: u64 },
    /// Two truncates have the stamp.
    TwoTruncates { room: Name, stamp: u64 },
    /// The flattened index, or the packed one, is not right for the container.
    WrongIndex { room: Name, path: Path },
}

/// Why a check didn't find that the tree is sound.
#[derive(Clone, Copy, PartialEq, Eq)]
pub enum Finding {
    /// It isn't: this is one reason.
    Broken { complaint: Complaint },
    /// The store failed.
    Fault,
    /// Memory was refused.
    NoMemory,
    /// The store answered as none does that tells its tree.
    Untold,
}

impl From<NoMemory> for Finding {
    ghost use Rattle.std.specs.Prelude.{◌≡◌};
    ghost use Rattle.shape_check.specs.declared.finding.Finding.TheVariants as findings;

    ghost from_gives = { λ _ finding. finding ≡ findings.NoMemory };

    fn from(_: NoMemory) -> Self {
        Finding::NoMemory
    }
}

impl From<AllocError> for Finding {
    ghost use Rattle.std.specs.Prelude.{◌≡◌};
    ghost use Rattle.shape_check.specs.declared.finding.Finding.TheVariants as findings;

    ghost from_gives = { λ _ finding. finding ≡ findings.NoMemory };

    fn from(_: AllocError) -> Self {
        Finding::NoMemory
    }
}

/// Why a look at the store gave no answer.
pub(crate) fn of_trouble(trouble: Trouble) -> Finding
    ensures { result ≡ finding_of trouble }
{
    match trouble {
        Trouble::Fault => Finding::Fault,
        Trouble::NoMemory => Finding::NoMemory,
    }
}

/// That the tree isn't sound, for this reason.
pub(crate) fn broken(complaint: Complaint) -> Result<(), Finding>
    ensures { result ≡ Err (Broken complaint) }
{
    Err(Finding::Broken { complaint })
}
