//! A sync.
ghost use Rattle.std.specs.Prelude.{◌≡◌, ◌<◌};
ghost use Rattle.mount_model.specs.Standing.{ready, next_of, rest_of, replied};
ghost use Rattle.writer_flow.specs.Syncing.{sync_program, flushes_and_syncs};
ghost use Rattle.writer_flow.specs.SyncingStages.{syncing, syncs_left, sync_stage, stage_left, sync_standing, sync_left};

use crate::handle::{WriterHandle, WriterOut, failed};
use mount_model::{Call, Flow, Reply};
use plfs_types::NoMemory;

/// Syncs a writer's log and then its index dropping, to which the pending entries go in between.
#[derive(Drop)]
pub struct SyncFlow {
    stage: Stage,
}

#[derive(Clone, Copy)]
pub(crate) enum Stage {
    Underway(Syncing),
    Ended(WriterOut),
}

/// How far a sync has come, of this writer.
#[derive(Clone, Copy)]
pub(crate) enum Syncing {
    Log(WriterHandle),
    Pending(WriterHandle),
    Index(WriterHandle),
}

impl Syncing {
    /// The call that is to be made.
    pub(crate) fn call(&self) -> Call
        ensures { Some result ≡ next_of (ready (syncing self.now)) }
    {
        match *self {
            Syncing::Log(handle) => Call::SyncLog {
                writer: handle.writer,
            },
            Syncing::Pending(handle) => Call::Flush {
                writer: handle.writer,
            },
            Syncing::Index(handle) => Call::SyncIndex {
                writer: handle.writer,
            },
        }
    }

    /// The stage after the reply to that call.
    pub(crate) fn after(self, reply: Reply) -> Stage
        ensures goes_on { sync_stage result ≡ replied (rest_of (ready (syncing self))) reply }
        ensures fewer { stage_left result < syncs_left self }
    {
        match self {
            Syncing::Log(handle) => match reply {
                Reply::Done => Stage::Underway(after_log(handle)),
                _ => Stage::Ended(failed(handle, reply)),
            },
            Syncing::Pending(handle) => match reply {
                Reply::Flushed { .. } => Stage::Underway(Syncing::Index(handle.flushed())),
                _ => Stage::Ended(failed(handle, reply)),
            },
            Syncing::Index(handle) => match reply {
                Reply::Synced { landed } => Stage::Ended(WriterOut {
                    handle: Some(handle.synced(landed)),
                    result: Ok(landed),
                }),
                _ => Stage::Ended(failed(handle, reply)),
            },
        }
    }
}

fn after_log(handle: WriterHandle) -> Syncing
    ensures goes_on { syncing result ≡ flushes_and_syncs handle }
    ensures fewer { syncs_left result < 3 }
{
    if handle.pending == 0 {
        Syncing::Index(handle)
    } else {
        Syncing::Pending(handle)
    }
}

impl SyncFlow {
    /// Syncs this writer.
    pub fn new(handle: WriterHandle) -> Self
        ensures { sync_standing result ≡ ready (sync_program handle) }
    {
        SyncFlow {
            stage: Stage::Underway(Syncing::Log(handle)),
        }
    }
}

impl Flow for SyncFlow {
    type Out = WriterOut;

    ghost standing = { sync_standing };

    ghost left = { sync_left };

    ghost frugal = { Unit {0} };

    fn next(&mut self) -> Result<Option<Call>, NoMemory> {
        Ok(match self.stage {
            Stage::Underway(sync) => Some(sync.call()),
            Stage::Ended(_) => None,
        })
    }

    fn take(&mut self, reply: Reply) -> Result<(), NoMemory> {
        if let Reply::NoMemory = reply {
            return Err(NoMemory);
        }
        if let Stage::Underway(sync) = self.stage {
            self.stage = sync.after(reply);
        }
        Ok(())
    }

    fn out(self) -> WriterOut {
        match self.stage {
            Stage::Ended(out) => out,
            Stage::Underway(_) => unreachable!(),
        }
    }
}
