//! A truncate.
ghost use Rattle.std.specs.Prelude.{◌≡◌, ◌<◌};
ghost use Rattle.mount_model.specs.Standing.{ready, next_of, rest_of, replied, Awaits};
ghost use Rattle.trunc_rename.specs.Truncating.{truncate_program, marked as marked_of};
ghost use Rattle.trunc_rename.specs.TruncateStages.{truncating, calls_left, truncate_standing, truncate_left};

use crate::holding::{holder_in, released};
use crate::tops::{top_of_metadata, top_of_truncs};
use container_layout::{metadata, truncs};
use mount_model::{Call, Flow, Look, Reply, Stuck, failure, room_in};
use plfs_types::{LogicalName, NoMemory};

/// Truncates a file: holds its container, lists the metadata and then the truncates, puts a truncate whose stamp is above
/// all that they tell, and lets the container go.
///
/// It ends with the truncate's stamp, or with the first trouble; after one that comes while it holds the container it
/// lets that go. A name that is no metadata dropping's or no truncate's, and a missing folder, are damage at place 0.
#[derive(Drop)]
pub struct TruncFlow {
    size: u64,
    stage: Stage,
}

#[derive(Clone, Copy)]
enum Stage {
    Finding(LogicalName),
    Holding(u64),
    ListingMetadata {
        room: u64,
        holder: u64,
    },
    ListingTruncs {
        room: u64,
        holder: u64,
        top: u64,
    },
    Marking {
        holder: u64,
        top: u64,
    },
    Releasing {
        holder: u64,
        outcome: Result<u64, Stuck>,
    },
    Ended(Result<u64, Stuck>),
}

/// The stamp of the truncate.
fn marked(reply: &Reply) -> Result<u64, Stuck>
    ensures { result ≡ marked_of reply.now }
{
    match reply {
        Reply::Marked { stamp } => Ok(*stamp),
        _ => Err(failure(reply)),
    }
}

impl TruncFlow {
    /// Truncates the file of this name to `size` bytes.
    pub fn new(name: LogicalName, size: u64) -> Self
        ensures { truncate_standing result ≡ ready (truncate_program name size) }
    {
        TruncFlow {
            size,
            stage: Stage::Finding(name),
        }
    }
}

impl Stage {
    /// The call that is to be made, where there is one.
    fn call(self, size: u64) -> Option<Call>
        ensures { result ≡ next_of (ready (truncating size self)) }
    {
        match self {
            Stage::Finding(name) => Some(Call::Find { name }),
            Stage::Holding(room) => Some(Call::Hold { room }),
            Stage::ListingMetadata { room, .. } => Some(Call::Look {
                room,
                look: Look::List { folder: metadata() },
            }),
            Stage::ListingTruncs { room, .. } => Some(Call::Look {
                room,
                look: Look::List { folder: truncs() },
            }),
            Stage::Marking { holder, top } => Some(Call::Mark { holder, size, top }),
            Stage::Releasing { holder, .. } => Some(Call::Release { holder }),
            Stage::Ended(_) => None,
        }
    }

    /// The stage after the reply to that call.
    fn after(self, size: u64, reply: Reply) -> Stage
        requires { Awaits (rest_of (ready (truncating size self))) }
        ensures goes_on { truncating size result ≡ replied (rest_of (ready (truncating size self))) reply }
        ensures fewer { calls_left result < calls_left self }
    {
        match self {
            Stage::Finding(_) => {
                let found = room_in(&reply);
                let why = failure(&reply);
                drop(reply);
                match found {
                    Some(room) => Stage::Holding(room),
                    None => Stage::Ended(Err(why)),
                }
            }
            Stage::Holding(room) => {
                let held = holder_in(&reply);
                let why = failure(&reply);
                drop(reply);
                match held {
                    Some(holder) => Stage::ListingMetadata { room, holder },
                    None => Stage::Ended(Err(why)),
                }
            }
            Stage::ListingMetadata { room, holder } => match top_of_metadata(reply) {
                Ok(top) => Stage::ListingTruncs { room, holder, top },
                Err(why) => Stage::Releasing {
                    holder,
                    outcome: Err(why),
                },
            },
            Stage::ListingTruncs { holder, top, .. } => match top_of_truncs(reply, top) {
                Ok(top) => Stage::Marking { holder, top },
                Err(why) => Stage::Releasing {
                    holder,
                    outcome: Err(why),
                },
            },
            Stage::Marking { holder, .. } => {
                let outcome = marked(&reply);
                drop(reply);
                Stage::Releasing { holder, outcome }
            }
            Stage::Releasing { outcome, .. } => {
                let outcome = released(outcome, &reply);
                drop(reply);
                Stage::Ended(outcome)
            }
            Stage::Ended(outcome) => {
                drop(reply);
                Stage::Ended(outcome)
            }
        }
    }
}

impl Flow for TruncFlow {
    type Out = Result<u64, Stuck>;

    ghost standing = { truncate_standing };

    ghost left = { truncate_left };

    ghost frugal = { Unit {0} };

    fn next(&mut self) -> Result<Option<Call>, NoMemory> {
        Ok(self.stage.call(self.size))
    }

    fn take(&mut self, reply: Reply) -> Result<(), NoMemory> {
        if let Reply::NoMemory = reply {
            return Err(NoMemory);
        }
        self.stage = self.stage.after(self.size, reply);
        Ok(())
    }

    fn out(self) -> Result<u64, Stuck> {
        match self.stage {
            Stage::Ended(outcome) => outcome,
            _ => unreachable!(),
        }
    }
}
