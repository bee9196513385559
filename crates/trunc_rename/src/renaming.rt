//! A rename.
ghost use Rattle.std.specs.Prelude.{◌≡◌, ◌<◌};
ghost use Rattle.mount_model.specs.Standing.{ready, next_of, rest_of, replied, Awaits};
ghost use Rattle.trunc_rename.specs.Renaming.{rename_program, moved as moved_of};
ghost use Rattle.trunc_rename.specs.RenameStages.{renaming, renames_left, rename_standing, rename_left};

use crate::holding::{holder_in, released};
use mount_model::{Call, Flow, Reply, Stuck, failure, room_in};
use plfs_types::{LogicalName, NoMemory};

/// Gives a file another name: holds its container, moves it, and lets it go.
///
/// It ends with the first trouble; after one that comes while it holds the container it lets that go.
#[derive(Drop)]
pub struct RenameFlow {
    to: LogicalName,
    stage: Stage,
}

#[derive(Clone, Copy)]
enum Stage {
    Finding(LogicalName),
    Holding(u64),
    Moving(u64),
    Releasing {
        holder: u64,
        outcome: Result<(), Stuck>,
    },
    Ended(Result<(), Stuck>),
}

/// Whether the container has its new name.
fn moved(reply: &Reply) -> Result<(), Stuck>
    ensures { result ≡ moved_of reply.now }
{
    match reply {
        Reply::Done => Ok(()),
        _ => Err(failure(reply)),
    }
}

impl RenameFlow {
    /// Gives the file of this name the name `to`.
    pub fn new(name: LogicalName, to: LogicalName) -> Self
        ensures { rename_standing result ≡ ready (rename_program name to) }
    {
        RenameFlow {
            to,
            stage: Stage::Finding(name),
        }
    }
}

impl Stage {
    /// The call that is to be made, where there is one.
    fn call(self, to: LogicalName) -> Option<Call>
        ensures { result ≡ next_of (ready (renaming to self)) }
    {
        match self {
            Stage::Finding(name) => Some(Call::Find { name }),
            Stage::Holding(room) => Some(Call::Hold { room }),
            Stage::Moving(holder) => Some(Call::Move { holder, to }),
            Stage::Releasing { holder, .. } => Some(Call::Release { holder }),
            Stage::Ended(_) => None,
        }
    }

    /// The stage after the reply to that call.
    fn after(self, to: LogicalName, reply: &Reply) -> Stage
        requires { Awaits (rest_of (ready (renaming to self))) }
        ensures goes_on { renaming to result ≡ replied (rest_of (ready (renaming to self))) reply.now }
        ensures fewer { renames_left result < renames_left self }
    {
        match self {
            Stage::Finding(_) => match room_in(reply) {
                Some(room) => Stage::Holding(room),
                None => Stage::Ended(Err(failure(reply))),
            },
            Stage::Holding(_) => match holder_in(reply) {
                Some(holder) => Stage::Moving(holder),
                None => Stage::Ended(Err(failure(reply))),
            },
            Stage::Moving(holder) => Stage::Releasing {
                holder,
                outcome: moved(reply),
            },
            Stage::Releasing { outcome, .. } => Stage::Ended(released(outcome, reply)),
            Stage::Ended(outcome) => Stage::Ended(outcome),
        }
    }
}

impl Flow for RenameFlow {
    type Out = Result<(), Stuck>;

    ghost standing = { rename_standing };

    ghost left = { rename_left };

    ghost frugal = { Unit {0} };

    fn next(&mut self) -> Result<Option<Call>, NoMemory> {
        Ok(self.stage.call(self.to))
    }

    fn take(&mut self, reply: Reply) -> Result<(), NoMemory> {
        if let Reply::NoMemory = reply {
            return Err(NoMemory);
        }
        self.stage = self.stage.after(self.to, &reply);
        Ok(())
    }

    fn out(self) -> Result<(), Stuck> {
        match self.stage {
            Stage::Ended(outcome) => outcome,
            _ => unreachable!(),
        }
    }
}
