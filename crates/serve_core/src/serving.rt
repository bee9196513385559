//! A request is served.
ghost use Rattle.std.specs.Prelude.{◌<◌, length, IfOk, OnErr};
ghost use Rattle.mount_sound.specs.Sound.{IsFine};
ghost use Rattle.script_lang.specs.Ranges.{FitsStatement};
ghost use Rattle.serve_core.specs.Making.{AreAtRest};
ghost use Rattle.serve_core.specs.Serving.{Serves, ServingBreaks};

use crate::client::Client;
use edge_io::Clock;
use mount_core::Mount;
use plfs_types::NoMemory;
use script_lang::{Line, Numbered};
use store_api::Store;

/// Serves a request: the client of its actor makes its statement, by calls under that client's number and no others, and the
/// statement's line is the answer. After `NoMemory` a front of the statement's calls was made, and no further request may be served.
pub fn serve<S: Store + Drop, C: Clock + Drop>(
    mount: &mut Mount<S, C>,
    clients: &mut [Client],
    asked: Numbered,
) -> Result<Line, NoMemory>
    requires rest { AreAtRest clients.old }
    requires there { asked.actor < length clients.old }
    requires fits { FitsStatement asked.statement }
    requires fine { IsFine mount.old }
    ensures serves { IfOk result (λ line. Serves asked clients.old mount.old line clients.new mount.new) }
    ensures broken { OnErr result (ServingBreaks asked clients.old mount.old mount.new) }
    ensures fine { IsFine mount.new }
{
    let place = asked.actor as usize;
    let client = &mut clients[place];
    let line = client.make(mount, asked)?;
    Ok(line)
}
