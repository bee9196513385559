//! The clients of a mount.
ghost use Rattle.std.specs.Prelude.{All, IfOk};
ghost use Rattle.script_lang.specs.Ranges.{FitsActor};
ghost use Rattle.serve_core.specs.Serving.{AreNew};

use crate::client::Client;
use plfs_types::NoMemory;
use script_lang::ActorDecl;
use std::alloc::Global;

/// A client for each of these actors, under its place. None has asked for anything yet.
pub fn clients_of(alloc: Global, actors: &[ActorDecl]) -> Result<Vec<Client>, NoMemory>
    requires { All FitsActor actors.now }
    ensures { IfOk result (λ clients. AreNew actors.now clients.items) }
{
    let mut clients = Vec::new(alloc);
    for declared in actors {
        let number = clients.len() as u64;
        let client = Client::new(alloc, number, *declared);
        match clients.push(client) {
            Ok(()) => {}
            Err(failed) => {
                drop((failed, clients));
                return Err(NoMemory);
            }
        }
    }
    Ok(clients)
}
