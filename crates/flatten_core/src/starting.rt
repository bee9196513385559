//! The beginning of a flattening.
ghost use Rattle.std.specs.Prelude.{◌≡◌, ◌<◌, IfSome};
ghost use Rattle.mount_model.specs.Step.{OwedBy};
ghost use Rattle.mount_model.specs.Standing.{ready, next_of, rest_of, replied, Awaits};
ghost use Rattle.flatten_core.specs.Starting.{begun as begun_of, start_program};
ghost use Rattle.flatten_core.specs.StartStages.{starting, starts_left, start_standing, start_left};

use mount_model::{Call, Flow, Reply, Stuck, failure, room_in};
use plfs_types::{LogicalName, NoMemory};

/// A flattening that was begun.
#[derive(Clone, Copy, PartialEq, Eq)]
pub struct Started {
    /// The container's room.
    pub room: u64,
    /// The flattening's id.
    pub flat: u64,
}

/// Begins to flatten a file: finds its container, and makes a temporary file for the flattened index.
///
/// It ends with the first trouble.
#[derive(Drop)]
pub struct StartFlow {
    stage: Stage,
}

#[derive(Clone, Copy)]
pub(crate) enum Stage {
    Finding(LogicalName),
    Starting(u64),
    Ended(Result<Started, Stuck>),
}

/// What was begun in this room.
fn begun(room: u64, reply: &Reply) -> Result<Started, Stuck>
    ensures { result ≡ begun_of room reply.now }
{
    match reply {
        Reply::Started { flat } => Ok(Started { room, flat: *flat }),
        _ => Err(failure(reply)),
    }
}

impl StartFlow {
    /// Begins to flatten the file of this name.
    pub fn new(name: LogicalName) -> Self
        ensures { start_standing result ≡ ready (start_program name) }
    {
        StartFlow {
            stage: Stage::Finding(name),
        }
    }
}

impl Stage {
    /// The call that is to be made, where there is one.
    pub(crate) fn call(self) -> Option<Call>
        ensures is { result ≡ next_of (ready (starting self)) }
        ensures owed { IfSome result OwedBy }
    {
        match self {
            Stage::Finding(name) => Some(Call::Find { name }),
            Stage::Starting(room) => Some(Call::StartFlat { room }),
            Stage::Ended(_) => None,
        }
    }

    /// The stage after the reply to that call.
    pub(crate) fn after(self, reply: &Reply) -> Stage
        requires { Awaits (rest_of (ready (starting self))) }
        ensures goes_on { starting result ≡ replied (rest_of (ready (starting self))) reply.now }
        ensures fewer { starts_left result < starts_left self }
    {
        match self {
            Stage::Finding(_) => match room_in(reply) {
                Some(room) => Stage::Starting(room),
                None => Stage::Ended(Err(failure(reply))),
            },
            Stage::Starting(room) => Stage::Ended(begun(room, reply)),
            Stage::Ended(outcome) => Stage::Ended(outcome),
        }
    }
}

impl Flow for StartFlow {
    type Out = Result<Started, Stuck>;

    ghost standing = { start_standing };

    ghost left = { start_left };

    ghost frugal = { Unit {0} };

    fn next(&mut self) -> Result<Option<Call>, NoMemory> {
        Ok(self.stage.call())
    }

    fn take(&mut self, reply: Reply) -> Result<(), NoMemory> {
        if let Reply::NoMemory = reply {
            return Err(NoMemory);
        }
        self.stage = self.stage.after(&reply);
        Ok(())
    }

    fn out(self) -> Result<Started, Stuck> {
        match self.stage {
            Stage::Ended(outcome) => outcome,
            _ => unreachable!(),
        }
    }
}
