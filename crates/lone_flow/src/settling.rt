//! The end of a writer.
ghost use Rattle.std.specs.Prelude.{◌≡◌, IfOk, OnErr};
ghost use Rattle.mount_sound.specs.Sound.{IsFine};
ghost use Rattle.lone_flow.specs.Settling.{BeginsToClose, BeginsToSettle, Closes, Settles, closed_as};

use crate::pack_core_driving::drive_freely;
use edge_io::Clock;
use mount_core::Mount;
use mount_model::Stuck;
use plfs_types::NoMemory;
use store_api::Store;
use writer_flow::{CloseFlow, SyncFlow, WriterHandle, WriterOut};

/// Whether it ended well, or its trouble.
fn ended(out: WriterOut) -> Result<(), Stuck>
    ensures { result ≡ closed_as out.result }
{
    match out.result {
        Ok(_) => Ok(()),
        Err(why) => Err(why),
    }
}

/// Closes the writer whose sync ended so.
fn close<S: Store + Drop, C: Clock + Drop>(
    mount: &mut Mount<S, C>,
    synced: WriterOut,
) -> Result<Result<(), Stuck>, NoMemory>
    requires { IsFine mount.old }
    ensures closes { IfOk result (λ told. Closes synced.handle synced.result mount.old told mount.new) }
    ensures broken_off { OnErr result (BeginsToClose synced.handle synced.result mount.old mount.new) }
    ensures fine { IsFine mount.new }
{
    match synced.result {
        Ok(_) => match synced.handle {
            Some(handle) => {
                let out = drive_freely(mount, CloseFlow::new(handle))?;
                Ok(ended(out))
            }
            None => Ok(Err(Stuck::Fault)),
        },
        Err(why) => Ok(Err(why)),
    }
}

/// Syncs the writer, and closes it.
pub fn settle<S: Store + Drop, C: Clock + Drop>(
    mount: &mut Mount<S, C>,
    handle: WriterHandle,
) -> Result<Result<(), Stuck>, NoMemory>
    requires { IsFine mount.old }
    ensures settles { IfOk result (λ told. Settles handle mount.old told mount.new) }
    ensures broken_off { OnErr result (BeginsToSettle handle mount.old mount.new) }
    ensures fine { IsFine mount.new }
{
    let synced = drive_freely(mount, SyncFlow::new(handle))?;
    close(mount, synced)
}
