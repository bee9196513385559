//! One write.
ghost use Rattle.std.specs.Prelude.{◌≡◌, ◌<◌, ◌^◌};
ghost use Rattle.writer_flow.specs.Growing.{pending_then};

use crate::handle::{WriterHandle, WriterOut, failed};
use mount_model::{Call, Flow, Reply, Stuck};
use plfs_types::{Block, NoMemory};
use std::mem;

/// Writes one block, after a flush where the buffer is full.
#[derive(Drop)]
pub struct WriteFlow {
    at: u64,
    stage: Stage,
    ghost room: { pending_then stage < 2 ^ 32 },
}

#[derive(Drop)]
enum Stage {
    Flushing { handle: WriterHandle, block: Block },
    Ready { handle: WriterHandle, block: Block },
    /// The block was handed over.
    Sent { handle: WriterHandle },
    Ended(WriterOut),
}

impl WriteFlow {
    ghost use Rattle.mount_model.specs.Standing.{ready, rest_of, over, IsOver};
    ghost use Rattle.writer_flow.specs.Writing.{write_program};
    ghost use Rattle.writer_flow.specs.WritingStages.{write_standing};

    /// Writes the block as the bytes from the logical place `at` on.
    pub fn new(handle: WriterHandle, at: u64, block: Block) -> Self
        ensures { write_standing result ≡ ready (write_program handle at block) }
    {
        let stage = if handle.pending >= u64::from(handle.cap) {
            Stage::Flushing { handle, block }
        } else {
            Stage::Ready { handle, block }
        };
        WriteFlow { at, stage }
    }

    /// What `out` gives, of a machine that stays where it is.
    pub fn ended(&self) -> WriterOut
        requires { IsOver (rest_of (write_standing self.now)) }
        ensures { rest_of (write_standing self.now) ≡ over result }
    {
        match &self.stage {
            Stage::Ended(out) => *out,
            _ => unreachable!(),
        }
    }
}

impl Stage {
    ghost use Rattle.std.specs.Prelude.{◌+◌};
    ghost use Rattle.mount_model.specs.Standing.{ready, rest_of, replied, Awaits};
    ghost use Rattle.writer_flow.specs.Handle.{flushed_of};
    ghost use Rattle.writer_flow.specs.Writing.{writes, if_flushed, if_wrote};
    ghost use Rattle.writer_flow.specs.WritingStages.{writing, calls_left, HasBlock};

    /// The stage after the reply to this one's call.
    fn after(self, at: u64, reply: Reply) -> Stage
        requires room { pending_then self < 2 ^ 32 }
        requires awaits { Awaits (rest_of (writing at self)) }
        ensures goes_on { writing at result ≡ ready (replied (rest_of (writing at self)) reply) }
        ensures fewer { calls_left result < calls_left self }
        ensures room { pending_then result < 2 ^ 32 }
    {
        match self {
            Stage::Flushing { handle, block } => Stage::after_flush(handle, at, block, reply),
            Stage::Ready { handle, .. } => Stage::after_write(handle, at, reply),
            Stage::Sent { handle } => Stage::after_write(handle, at, reply),
            Stage::Ended(out) => Stage::Ended(out),
        }
    }

    /// What stands in a machine's place while its stage is taken apart.
    fn nothing() -> Stage
        ensures { pending_then result ≡ 0 }
    {
        Stage::Ended(WriterOut {
            handle: None,
            result: Err(Stuck::Fault),
        })
    }

    /// The block, which is handed over.
    fn handed_over(&mut self, handle: WriterHandle) -> Block
        requires { HasBlock handle self.old }
        ensures block { self.old ≡ Stage.Ready handle result }
        ensures sent { self.new ≡ Stage.Sent handle }
    {
        match mem::replace(self, Stage::Sent { handle }) {
            Stage::Ready { block, .. } => block,
            _ => unreachable!(),
        }
    }

    fn after_flush(handle: WriterHandle, at: u64, block: Block, reply: Reply) -> Stage
        ensures goes_on { writing at result ≡ ready (if_flushed handle (writes (flushed_of handle) at block) reply) }
        ensures fewer { calls_left result < 2 }
        ensures room { pending_then result ≡ 0 }
    {
        match reply {
            Reply::Flushed { .. } => Stage::Ready {
                handle: handle.flushed(),
                block,
            },
            _ => Stage::Ended(failed(handle, reply)),
        }
    }

    fn after_write(handle: WriterHandle, at: u64, reply: Reply) -> Stage
        requires { handle.pending < 2 ^ 32 }
        ensures goes_on { writing at result ≡ ready (if_wrote handle reply) }
        ensures fewer { calls_left result ≡ 0 }
        ensures room { pending_then result ≡ 0 }
    {
        Stage::Ended(match reply {
            Reply::Wrote { stamp } => WriterOut {
                handle: Some(handle.one_more()),
                result: Ok(stamp),
            },
            _ => failed(handle, reply),
        })
    }
}

impl Flow for WriteFlow {
    ghost use Rattle.writer_flow.specs.WritingStages.{write_standing, write_left};

    type Out = WriterOut;

    ghost standing = { write_standing };

    ghost left = { write_left };

    ghost frugal = { Unit {0} };

    fn next(&mut self) -> Result<Option<Call>, NoMemory> {
        match &self.stage {
            Stage::Flushing { handle, .. } => Ok(Some(Call::Flush {
                writer: handle.writer,
            })),
            Stage::Ready { handle, .. } => {
                let handle = *handle;
                let block = self.stage.handed_over(handle);
                Ok(Some(Call::Write {
                    writer: handle.writer,
                    at: self.at,
                    block,
                }))
            }
            Stage::Sent { .. } | Stage::Ended(_) => Ok(None),
        }
    }

    fn take(&mut self, reply: Reply) -> Result<(), NoMemory> {
        if let Reply::NoMemory = reply {
            return Err(NoMemory);
        }
        let stage = mem::replace(&mut self.stage, Stage::nothing());
        self.stage = stage.after(self.at, reply);
        Ok(())
    }

    fn out(self) -> WriterOut {
        match self.stage {
            Stage::Ended(out) => out,
            _ => unreachable!(),
        }
    }
}
