//! The name of a file that is to be made.
ghost use Rattle.std.specs.Prelude.{◌≡◌, ◌<◌, IfOk, OnErr};
ghost use Rattle.mount_model.specs.Standing.{next_of, ready};
ghost use Rattle.mount_sound.specs.Sound.{IsFine};
ghost use Rattle.lone_flow.specs.Driving.{BeginsToMake, Makes};
ghost use Rattle.trunc_rename.specs.Truncating.{truncate_program};
ghost use Rattle.copy_core.specs.Clearing.{BeginsToClear, Clears, cleared_as, cleared_behind, free_as, free_program, freeing};

use edge_io::Clock;
use lone_flow::{drive, drive_freely};
use mount_core::Mount;
use mount_model::{Call, Flow, Refusal, Reply, Stuck, failure};
use plfs_types::{LogicalName, NoMemory};
use recovery_laws::a_truncate_is_always_allowed;
use store_api::Store;
use trunc_rename::TruncFlow;

/// Asks whether no container has a name.
#[derive(Drop)]
struct FreeFlow {
    stage: Stage,
}

#[derive(Clone, Copy)]
enum Stage {
    Finding(LogicalName),
    Ended(Result<(), Stuck>),
}

/// A name that no container has is free.
fn free_behind(why: Refusal) -> Result<(), Stuck>
    ensures { result ≡ cleared_behind (Stuck.Refused why) }
{
    match why {
        Refusal::NoRoom => Ok(()),
        _ => Err(Stuck::Refused(why)),
    }
}

/// Whether the name is free, by the reply to who looked for its container.
fn free_as(reply: &Reply) -> Result<(), Stuck>
    ensures { result ≡ free_as reply.now }
{
    match reply {
        Reply::Room { .. } => Err(Stuck::Refused(Refusal::Exists)),
        Reply::Refused(why) => free_behind(*why),
        _ => Err(failure(reply)),
    }
}

/// The call that is to be made, where there is one.
fn call_of(stage: Stage) -> Option<Call>
    ensures { result ≡ next_of (ready (freeing stage)) }
{
    match stage {
        Stage::Finding(name) => Some(Call::Find { name }),
        Stage::Ended(_) => None,
    }
}

impl FreeFlow {
    ghost use Rattle.copy_core.specs.Clearing.{free_standing};

    /// Asks whether no container has this name.
    fn new(name: LogicalName) -> Self
        ensures { free_standing result ≡ ready (free_program name) }
    {
        FreeFlow {
            stage: Stage::Finding(name),
        }
    }
}

impl Flow for FreeFlow {
    ghost use Rattle.copy_core.specs.Clearing.{free_left, free_standing};

    type Out = Result<(), Stuck>;

    ghost standing = { free_standing };

    ghost left = { free_left };

    ghost frugal = { Unit {0} };

    fn next(&mut self) -> Result<Option<Call>, NoMemory> {
        Ok(call_of(self.stage))
    }

    fn take(&mut self, reply: Reply) -> Result<(), NoMemory> {
        if let Reply::NoMemory = reply {
            return Err(NoMemory);
        }
        self.stage = Stage::Ended(free_as(&reply));
        Ok(())
    }

    fn out(self) -> Result<(), Stuck> {
        match self.stage {
            Stage::Ended(outcome) => outcome,
            Stage::Finding(_) => unreachable!(),
        }
    }
}

/// A file that isn't there needs no truncate.
fn cleared_behind(why: Stuck) -> Result<(), Stuck>
    ensures { result ≡ cleared_behind why }
{
    match why {
        Stuck::Refused(refusal) => free_behind(refusal),
        _ => Err(why),
    }
}

/// What the end of a truncate comes to.
fn cleared_as(cut: Result<u64, Stuck>) -> Result<(), Stuck>
    ensures { result ≡ cleared_as cut }
{
    match cut {
        Ok(_) => Ok(()),
        Err(why) => cleared_behind(why),
    }
}

/// Asks whether no container has this name.
fn find_free<S: Store + Drop, C: Clock + Drop>(
    mount: &mut Mount<S, C>,
    name: LogicalName,
) -> Result<Result<(), Stuck>, NoMemory>
    requires { IsFine mount.old }
    ensures makes { IfOk result (λ told. Makes (free_program name) mount.old told mount.new) }
    ensures broken_off { OnErr result (BeginsToMake (free_program name) mount.old mount.new) }
    ensures fine { IsFine mount.new }
{
    drive_freely(mount, FreeFlow::new(name))
}

/// Cuts the file of this name to nothing.
fn cut_to_nothing<S: Store + Drop, C: Clock + Drop>(
    mount: &mut Mount<S, C>,
    name: LogicalName,
) -> Result<Result<u64, Stuck>, NoMemory>
    requires { IsFine mount.old }
    ensures makes { IfOk result (λ cut. Makes (truncate_program name 0) mount.old cut mount.new) }
    ensures broken_off { OnErr result (BeginsToMake (truncate_program name 0) mount.old mount.new) }
    ensures fine { IsFine mount.new }
{
    a_truncate_is_always_allowed();
    drive(mount, TruncFlow::new(name, 0))
}

/// Sees to it that the name is that of no file, or of one without bytes: where no file may be written over, one that is there is
/// refused as `Exists`, else it is cut to nothing.
pub(crate) fn clear<S: Store + Drop, C: Clock + Drop>(
    mount: &mut Mount<S, C>,
    name: LogicalName,
    over: bool,
) -> Result<Result<(), Stuck>, NoMemory>
    requires { IsFine mount.old }
    ensures clears { IfOk result (λ told. Clears over name mount.old told mount.new) }
    ensures broken_off { OnErr result (BeginsToClear over name mount.old mount.new) }
    ensures fine { IsFine mount.new }
{
    if over {
        let cut = cut_to_nothing(mount, name)?;
        return Ok(cleared_as(cut));
    }
    find_free(mount, name)
}
