//! Machines whose calls are free of the state.
ghost use Rattle.std.specs.Prelude.{IfOk, OnErr};
ghost use Rattle.mount_sound.specs.Sound.{IsFine};
ghost use Rattle.lone_flow.specs.Driving.{BeginsToDrive, Drives};
ghost use Rattle.lone_flow.specs.Free.{AsksFreely};

use crate::driving::drive;
use edge_io::Clock;
use mount_core::Mount;
use mount_model::Flow;
use plfs_types::NoMemory;
use store_api::Store;

/// Greets, and then makes all calls of the machine, none of which owes anything of the state. After `NoMemory` the calls are a
/// front of those.
pub fn drive_freely<S: Store + Drop, C: Clock + Drop, F: Flow + Drop>(
    mount: &mut Mount<S, C>,
    machine: F,
) -> Result<F::Out, NoMemory>
    requires free { AsksFreely (F.standing machine) }
    requires fine { IsFine mount.old }
    ensures drives { IfOk result (λ out. Drives (F.standing machine) mount.old out mount.new) }
    ensures broken_off { OnErr result (BeginsToDrive (F.standing machine) mount.old mount.new) }
    ensures fine { IsFine mount.new }
{
    drive(mount, machine)
}
