//! What clients left open is closed.
ghost use Rattle.std.specs.Prelude.{◌≡◌, ◌<◌, length, max, IfOk, OnErr};
ghost use Rattle.mount_sound.specs.Sound.{IsFine};
ghost use Rattle.serve_core.specs.Making.{AreAtRest};
ghost use Rattle.serve_program.specs.Closing.{BeginsToClose, BreaksClosing, Closes, HaveClosed, trouble_of as trouble_told};

use edge_io::Clock;
use mount_core::Mount;
use plfs_types::NoMemory;
use script_lang::{Numbered, Outcome, Statement};
use serve_core::{Client, serve};
use store_api::Store;

// 7 where an item was damaged, 4 where the store failed, and else 0.
fn trouble_of(outcome: &Outcome) -> u8
    ensures { result ≡ trouble_told outcome.now }
{
    match outcome {
        Outcome::Damaged { .. } => 7,
        Outcome::Fault => 4,
        _ => 0,
    }
}

// The greater of two troubles.
fn worse(one: u8, other: u8) -> u8
    ensures { result ≡ max one other }
{
    one.max(other)
}

// The client of this place closes its writer, and the trouble that its line tells is answered. A client without a writer is refused,
// which is none.
fn close<S: Store + Drop, C: Clock + Drop>(
    mount: &mut Mount<S, C>,
    clients: &mut [Client],
    place: u64,
) -> Result<u8, NoMemory>
    requires rest { AreAtRest clients.old }
    requires there { place < length clients.old }
    requires fine { IsFine mount.old }
    ensures closes { IfOk result (λ trouble. Closes place clients.old mount.old trouble clients.new mount.new) }
    ensures broken { OnErr result (BeginsToClose place clients.old mount.old mount.new) }
    ensures fine { IsFine mount.new }
{
    let asked = Numbered {
        line: 0,
        actor: place,
        statement: Statement::Close,
    };
    let line = serve(mount, clients, asked)?;
    let trouble = trouble_of(&line.outcome);
    drop(line);
    Ok(trouble)
}

/// Each client closes its writer, in the order of their places. The greatest trouble that a line tells is answered.
pub(crate) fn close_all<S: Store + Drop, C: Clock + Drop>(
    mount: &mut Mount<S, C>,
    clients: &mut [Client],
) -> Result<u8, NoMemory>
    requires rest { AreAtRest clients.old }
    requires fine { IsFine mount.old }
    ensures closes { IfOk result (λ trouble. HaveClosed (length clients.old) clients.old mount.old trouble clients.new mount.new) }
    ensures broken { OnErr result (BreaksClosing clients.old mount.old mount.new) }
    ensures fine { IsFine mount.new }
{
    let mut worst = 0;
    for place in 0..clients.len() {
        let trouble = close(mount, clients, place as u64)?;
        worst = worse(worst, trouble);
    }
    Ok(worst)
}
