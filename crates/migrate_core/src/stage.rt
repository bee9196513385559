//! How far a migration has come.
ghost use Rattle.std.specs.Prelude.{◌+◌, ◌<◌, ◌^◌, length};

use crate::migrated::{Migrated, Tally};
use crate::shown::Shown;
use crate::steps::Step;
use index_reader::OpenRead;
use mount_model::{Metadata, MetadataList, Stuck};
use plfs_types::{LogicalName, Queue};

#[derive(Drop)]
pub(crate) enum Stage {
    Finding(LogicalName),
    Top(u64),
    /// The metadata are listed, and then the folders of droppings.
    Metadata {
        room: u64,
        scan: Shown,
    },
    Scanning {
        room: u64,
        scan: OpenRead,
        metas: MetadataList,
    },
    Underway(Underway),
    Ended(Result<Migrated, Stuck>),
}

/// A writer is packed, and others after it.
#[derive(Drop)]
pub(crate) struct Underway {
    pub(crate) room: u64,
    pub(crate) rest: Queue<Metadata>,
    pub(crate) tally: Tally,
    pub(crate) meta: Metadata,
    pub(crate) step: Step,
    ghost few: { tally.sofar.writers + tally.sofar.left + length rest + 1 < 2 ^ 64 },
}
