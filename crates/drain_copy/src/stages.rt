//! How far a drain is.
use crate::outcome::{DrainStuck, Drained};
use crate::plan::{Job, Owner};
use crate::work::{EntriesPart, LogPart, Work};
use drain_read::{ContainerRead, Held, HeldRead};
use mount_model::Call;
use plfs_types::{LogicalName, Queue, Trunc};
use store_api::OwnedStep;

/// What is synced at the source before it is copied, and then the job.
#[derive(Drop)]
pub(crate) struct Syncing {
    pub(crate) owner: Owner,
    pub(crate) rest: Queue<Owner>,
    pub(crate) job: Job,
    pub(crate) mounts: Queue<u64>,
}

/// What a call of the source is made for, whose reply is to come.
#[derive(Drop)]
pub(crate) enum SourceStage {
    Finding {
        name: LogicalName,
        held: Held,
    },
    Gathering {
        name: LogicalName,
        held: Held,
        read: ContainerRead,
    },
    SyncingLog(Syncing),
    SyncingIndex(Syncing),
    ReadingLog(LogPart),
}

/// What a single step makes or keeps of a writer.
#[derive(Clone, Copy)]
pub(crate) enum Making {
    Entry,
    Hostdir,
    Index,
    Log,
    LogKept,
    IndexKept,
}

/// What a step at the target is made for, whose answer is to come.
#[derive(Drop)]
pub(crate) enum TargetStage {
    Finding {
        name: LogicalName,
    },
    Holding {
        name: LogicalName,
        read: HeldRead,
    },
    MarksRoom {
        job: Job,
        mounts: Queue<u64>,
    },
    Mark {
        job: Job,
        marks: u64,
        mount: u64,
        rest: Queue<u64>,
    },
    Container {
        job: Job,
    },
    Making {
        making: Making,
        work: Work,
    },
    WritingLog(LogPart),
    WritingEntries(EntriesPart),
    Trunc {
        to: u64,
        trunc: Trunc,
        rest: Queue<Trunc>,
        drained: Drained,
    },
}

/// The next question, or the end.
#[derive(Drop)]
pub(crate) enum Turn {
    Calls(Call, SourceStage),
    Acts(OwnedStep, TargetStage),
    Over(Result<Drained, DrainStuck>),
}
