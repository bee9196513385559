//! Opening a writer.
ghost use Rattle.std.specs.Prelude.{◌≡◌, ◌≤◌};

use crate::handle::{WriterHandle, trouble};
use mount_model::{Call, Flow, Reply, Stuck};
use plfs_types::{LogicalName, NoMemory};

/// Opens a writer: makes the container where it isn't there, enters, and makes what the writer needs.
///
/// After a trouble that follows its entering, it leaves again, and the first trouble is what it ends with.
#[derive(Drop)]
pub struct OpenWrite {
    cap: u32,
    stage: Stage,
    ghost some: { 1 ≤ cap },
    ghost few: { cap ≤ 4096 },
}

#[derive(Clone, Copy)]
enum Stage {
    Making { name: LogicalName, host: u32 },
    Entering { room: u64, host: u32 },
    Flooring { writer: u64 },
    Housing { writer: u64 },
    Indexing { writer: u64 },
    Logging { writer: u64 },
    Leaving { writer: u64, why: Stuck },
    Opened(Result<WriterHandle, Stuck>),
}

impl OpenWrite {
    ghost use Rattle.mount_model.specs.Standing.{ready};
    ghost use Rattle.writer_flow.specs.Opening.{open_program};
    ghost use Rattle.writer_flow.specs.OpeningStages.{open_standing};

    /// Opens a writer of this host in the container of this name, with a buffer of `cap` entries, 1 to 4096.
    pub fn new(name: LogicalName, host: u32, cap: u32) -> Self
        requires some { 1 ≤ cap }
        requires few { cap ≤ 4096 }
        ensures { open_standing result ≡ ready (open_program name host cap) }
    {
        OpenWrite {
            cap,
            stage: Stage::Making { name, host },
        }
    }
}

impl Stage {
    ghost use Rattle.std.specs.Prelude.{◌<◌};
    ghost use Rattle.mount_model.specs.Standing.{ready, next_of, rest_of, replied, Awaits};
    ghost use Rattle.writer_flow.specs.Ending.{trouble as trouble_of};
    ghost use Rattle.writer_flow.specs.OpeningStages.{opening, calls_left};
    ghost use Rattle.writer_flow.specs.declared.opening.Stage.TheVariants.{Leaving};

    /// The call that is to be made, where there is one.
    fn call(self, cap: u32) -> Option<Call>
        ensures { result ≡ next_of (ready (opening cap self)) }
    {
        match self {
            Stage::Making { name, .. } => Some(Call::MakeContainer { name }),
            Stage::Entering { room, host } => Some(Call::Enter { room, host, cap }),
            Stage::Flooring { writer } => Some(Call::Floor { writer }),
            Stage::Housing { writer } => Some(Call::MakeHostdir { writer }),
            Stage::Indexing { writer } => Some(Call::MakeIndex { writer }),
            Stage::Logging { writer } => Some(Call::MakeLog { writer }),
            Stage::Leaving { writer, .. } => Some(Call::Exit { writer }),
            Stage::Opened(_) => None,
        }
    }

    /// The stage after the reply to that call.
    fn after(self, cap: u32, reply: Reply) -> Stage
        requires { Awaits (rest_of (ready (opening cap self))) }
        ensures goes_on { opening cap result ≡ replied (rest_of (ready (opening cap self))) reply }
        ensures fewer { calls_left result < calls_left self }
    {
        match self {
            Stage::Making { host, .. } => match reply {
                Reply::Room { room } => Stage::Entering { room, host },
                _ => Stage::Opened(Err(trouble(reply))),
            },
            Stage::Entering { .. } => match reply {
                Reply::Entered { writer } => Stage::Flooring { writer },
                _ => Stage::Opened(Err(trouble(reply))),
            },
            Stage::Flooring { writer } => match reply {
                Reply::Floored { .. } => Stage::Housing { writer },
                _ => Stage::leaving(writer, reply),
            },
            Stage::Housing { writer } => match reply {
                Reply::Done => Stage::Indexing { writer },
                _ => Stage::leaving(writer, reply),
            },
            Stage::Indexing { writer } => match reply {
                Reply::Done => Stage::Logging { writer },
                _ => Stage::leaving(writer, reply),
            },
            Stage::Logging { writer } => match reply {
                Reply::Done => Stage::Opened(Ok(WriterHandle::opened(writer, cap))),
                _ => Stage::leaving(writer, reply),
            },
            Stage::Leaving { why, .. } => Stage::Opened(Err(why)),
            Stage::Opened(result) => Stage::Opened(result),
        }
    }

    /// It is to leave, since the reply is a trouble.
    fn leaving(writer: u64, reply: Reply) -> Stage
        ensures { result ≡ Leaving writer (trouble_of reply) }
    {
        Stage::Leaving {
            writer,
            why: trouble(reply),
        }
    }
}

impl Flow for OpenWrite {
    ghost use Rattle.writer_flow.specs.OpeningStages.{open_standing, open_left};

    type Out = Result<WriterHandle, Stuck>;

    ghost standing = { open_standing };

    ghost left = { open_left };

    ghost frugal = { Unit {0} };

    fn next(&mut self) -> Result<Option<Call>, NoMemory> {
        Ok(self.stage.call(self.cap))
    }

    fn take(&mut self, reply: Reply) -> Result<(), NoMemory> {
        if let Reply::NoMemory = reply {
            return Err(NoMemory);
        }
        self.stage = self.stage.after(self.cap, reply);
        Ok(())
    }

    fn out(self) -> Result<WriterHandle, Stuck> {
        match self.stage {
            Stage::Opened(result) => result,
            _ => unreachable!(),
        }
    }
}
