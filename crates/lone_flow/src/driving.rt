//! A machine is driven by one caller.
ghost use Rattle.std.specs.Prelude.{IfOk, OnErr};
ghost use Rattle.mount_model.specs.Running.{unbroken};
ghost use Rattle.mount_model.specs.Step.{IsStep, OwedBy};
ghost use Rattle.lone_flow.specs.Driving.{BeginsToDrive, Drives, MayDrive};

use edge_io::Clock;
use mount_core::Mount;
use mount_model::{Ask, Call, Flow, Reply};
use plfs_types::NoMemory;
use store_api::Store;

// Makes a call of caller 0.
fn make<S: Store + Drop, C: Clock + Drop>(mount: &mut Mount<S, C>, call: Call) -> Reply
    requires { OwedBy call }
    ensures { IsStep mount.old 0 (unbroken call) result mount.new }
{
    mount.apply(0, &Ask { call, stop: None })
}

/// Greets, and then makes all calls of the machine, as caller 0; answers what the machine ends with. After `NoMemory` the
/// calls that were made until then stand: a front of those, of which the last one may have been refused memory.
pub fn drive<S: Store + Drop, C: Clock + Drop, F: Flow + Drop>(
    mount: &mut Mount<S, C>,
    mut machine: F,
) -> Result<F::Out, NoMemory>
    requires may { MayDrive (F.standing machine) mount.old }
    ensures drives { IfOk result (λ out. Drives (F.standing machine) mount.old out mount.new) }
    ensures broken_off { OnErr result (BeginsToDrive (F.standing machine) mount.old mount.new) }
{
    make(mount, Call::Greet);
    while let Some(call) = machine.next()? {
        let reply = make(mount, call);
        machine.take(reply)?;
    }
    Ok(machine.out())
}
