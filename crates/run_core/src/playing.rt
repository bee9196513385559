//! Playing a script.
ghost use Rattle.std.specs.Prelude.{◌≡◌, [], IfOk, OnErr, All, length};
ghost use Rattle.plfs_types.specs.Counts.{HasRisen};
ghost use Rattle.mount_sound.specs.Sound.{IsFine};
ghost use Rattle.script_lang.specs.Ranges.{FitsActor};
ghost use Rattle.report_text.specs.Text.{HaveText};
ghost use Rattle.run_core.specs.Conditions.{IsPlayable};
ghost use Rattle.run_core.specs.Breaking.{IsPlayBroken};
ghost use Rattle.run_core.specs.Play.{IsPlay};
ghost use Rattle.run_core.specs.Faults.{HasFault};
ghost use Rattle.run_core.specs.World.{IsCast};

use crate::phase::play_all;
use crate::player::Player;
use edge_io::Clock;
use mount_core::Mount;
use plfs_types::NoMemory;
use script_lang::{ActorDecl, Lines, Script};
use std::alloc::Global;
use store_api::Store;

/// The declared actors, which have done nothing yet.
fn cast_of<'a>(alloc: Global, actors: &[ActorDecl]) -> Result<Vec<Player<'a>>, NoMemory>
    requires { All FitsActor actors.now }
    ensures { IfOk result (λ players. IsCast actors.now players.items) }
{
    let mut players = Vec::new(alloc);
    for declared in actors {
        let number = players.len() as u64;
        let player = Player::new(alloc, number, *declared);
        match players.push(player) {
            Ok(()) => {}
            Err(failed) => {
                drop((failed, players));
                return Err(NoMemory);
            }
        }
    }
    Ok(players)
}

/// Plays the script's actors by their written turns, each under its place in the declarations, and tells one line a statement, in the order in which the script has
/// the statements. Statements go on after a fault or damage. Want of memory ends it: the calls that
/// were made until then are a front of those of a play, and only the last one may have been refused memory. The mount's state is fine, as each is
/// that was mounted and that its calls lead to.
pub fn play<S: Store + Drop, C: Clock + Drop>(
    alloc: Global,
    mount: &mut Mount<S, C>,
    script: &Script,
) -> Result<Lines, NoMemory>
    requires playable { IsPlayable script.now }
    requires fine { IsFine mount.old }
    ensures plays { IfOk result (λ lines. IsPlay script.now mount.old lines mount.new) }
    ensures broken { OnErr result (IsPlayBroken script.now mount.old mount.new) }
    ensures text { IfOk result HaveText }
    ensures cause { IfOk result (λ lines. HasFault lines → HasRisen mount.old.store.faults mount.new.store.faults) }
{
    let mut players = cast_of(alloc, script.actors.as_slice())?;
    let mut lines = Lines::new(alloc);
    let phases = script.phases.as_slice();
    play_all(mount, &mut players, phases, &mut lines)?;
    Ok(lines)
}
