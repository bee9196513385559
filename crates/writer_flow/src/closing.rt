//! A close.
ghost use Rattle.std.specs.Prelude.{◌≡◌, ◌+◌, ◌<◌, ◌≤◌};
ghost use Rattle.mount_model.specs.Program.{followed_by, done};
ghost use Rattle.mount_model.specs.Standing.{ready, next_of, rest_of, replied, Awaits};
ghost use Rattle.writer_flow.specs.Closing.{close_program, after_sync, if_put, if_left};
ghost use Rattle.writer_flow.specs.SyncingStages.{sync_stage, stage_left};
ghost use Rattle.writer_flow.specs.ClosingStages.{close_stage, closes_left, close_standing, close_left};

use crate::handle::{WriterHandle, WriterOut, failed};
use crate::syncing::{Stage, Syncing};
use mount_model::{Call, Flow, Reply, Stuck};
use plfs_types::NoMemory;

/// Closes a writer: syncs it, makes its metadata dropping, and leaves. Where the metadata dropping was asked for
/// before, it begins with that again.
#[derive(Drop)]
pub struct CloseFlow {
    stage: Closing,
}

/// How far a close has come.
#[derive(Clone, Copy)]
enum Closing {
    First(Syncing),
    Putting(WriterHandle),
    Leaving(WriterHandle),
    Ended(WriterOut),
}

impl Closing {
    /// The stage after the reply to this one's call.
    fn after(self, reply: Reply) -> Closing
        requires { Awaits (rest_of (ready (close_stage self))) }
        ensures goes_on { close_stage result ≡ replied (rest_of (ready (close_stage self))) reply }
        ensures fewer { closes_left result < closes_left self }
    {
        match self {
            Closing::First(sync) => after_sync(sync.after(reply)),
            Closing::Putting(handle) => after_put(handle.closing(), reply),
            Closing::Leaving(handle) => Closing::Ended(left(handle, reply)),
            Closing::Ended(out) => Closing::Ended(out),
        }
    }
}

// Only where the sync told how much has landed, the metadata dropping is asked for.
fn after_sync(sync: Stage) -> Closing
    ensures goes_on { close_stage result ≡ followed_by (sync_stage sync) after_sync }
    ensures fewer { closes_left result ≤ stage_left sync + 2 }
{
    match sync {
        Stage::Underway(sync) => Closing::First(sync),
        Stage::Ended(out) => after_end(out),
    }
}

fn after_end(out: WriterOut) -> Closing
    ensures goes_on { close_stage result ≡ after_sync out }
    ensures fewer { closes_left result ≤ 2 }
{
    match out.result {
        Ok(_) => match out.handle {
            Some(handle) => Closing::Putting(handle),
            None => Closing::Ended(out),
        },
        Err(_) => Closing::Ended(out),
    }
}

fn after_put(handle: WriterHandle, reply: Reply) -> Closing
    ensures goes_on { close_stage result ≡ if_put handle reply }
    ensures fewer { closes_left result < 2 }
{
    match reply {
        Reply::Done => Closing::Leaving(handle),
        _ => Closing::Ended(failed(handle, reply)),
    }
}

// What the reply to its leaving makes of the writer.
fn left(handle: WriterHandle, reply: Reply) -> WriterOut
    ensures { done result ≡ if_left handle reply }
{
    match reply {
        Reply::Done => WriterOut {
            handle: None,
            result: Ok(handle.landed),
        },
        Reply::Fault => WriterOut {
            handle: None,
            result: Err(Stuck::Fault),
        },
        _ => failed(handle, reply),
    }
}

impl CloseFlow {
    /// Closes this writer.
    pub fn new(handle: WriterHandle) -> Self
        ensures { close_standing result ≡ ready (close_program handle) }
    {
        let stage = if handle.closing {
            Closing::Putting(handle)
        } else {
            Closing::First(Syncing::Log(handle))
        };
        CloseFlow { stage }
    }
}

impl Flow for CloseFlow {
    type Out = WriterOut;

    ghost standing = { close_standing };

    ghost left = { close_left };

    ghost frugal = { Unit {0} };

    fn next(&mut self) -> Result<Option<Call>, NoMemory> {
        Ok(match self.stage {
            Closing::First(sync) => Some(sync.call()),
            Closing::Putting(handle) => Some(Call::PutMeta {
                writer: handle.writer,
            }),
            Closing::Leaving(handle) => Some(Call::Exit {
                writer: handle.writer,
            }),
            Closing::Ended(_) => None,
        })
    }

    fn take(&mut self, reply: Reply) -> Result<(), NoMemory> {
        if let Reply::NoMemory = reply {
            return Err(NoMemory);
        }
        self.stage = self.stage.after(reply);
        Ok(())
    }

    fn out(self) -> WriterOut {
        match self.stage {
            Closing::Ended(out) => out,
            _ => unreachable!(),
        }
    }
}
