//! The names of all files.
ghost use Rattle.std.specs.Prelude.{IfOk, OnErr};
ghost use Rattle.mount_sound.specs.Sound.{IsFine};
ghost use Rattle.lone_flow.specs.Driving.{BeginsToMake, Makes};
ghost use Rattle.actor_core.specs.Names.{names_program};

use actor_core::NamesRead;
use edge_io::Clock;
use lone_flow::drive_freely;
use mount_core::Mount;
use mount_model::Stuck;
use plfs_types::{NameList, NoMemory};
use store_api::Store;

/// The names of all files, in the order in which the store tells them, as caller 0 by itself.
pub(crate) fn list_files<S: Store + Drop, C: Clock + Drop>(
    mount: &mut Mount<S, C>,
) -> Result<Result<NameList, Stuck>, NoMemory>
    requires { IsFine mount.old }
    ensures makes { IfOk result (λ told. Makes names_program mount.old told mount.new) }
    ensures broken_off { OnErr result (BeginsToMake names_program mount.old mount.new) }
    ensures fine { IsFine mount.new }
{
    drive_freely(mount, NamesRead::new())
}
