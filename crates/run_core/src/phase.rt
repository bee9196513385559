//! One phase.
ghost use Rattle.std.specs.Prelude.{◌≡◌, ◌<◌, [], OnOk, OnErr, All, length};
ghost use Rattle.script_lang.specs.Ranges.{FitsPhase};
ghost use Rattle.run_core.specs.Broken.{PhaseIsBroken, PlayIsBroken};
ghost use Rattle.run_core.specs.World.{AllStand, Dealt, PlayedPhase, PlayedSoFar};

use crate::ending::finish;
use crate::player::Player;
use crate::turns::take_turns;
use edge_io::Clock;
use mount_core::Mount;
use plfs_types::NoMemory;
use script_lang::{CompactStatement, Lines, Phase};
use store_api::Store;

/// Gives each player its own of these statements.
fn deal<'a>(players: &mut [Player<'a>], statements: &'a [CompactStatement]) -> Result<(), NoMemory>
    requires { All (λ statement. statement.actor < length players.old) statements.now }
    ensures { OnOk result (Dealt statements.entry.now players.old players.new) }
{
    for statement in statements {
        let place = statement.actor() as usize;
        let player = &mut players[place];
        player.give(statement)?;
    }
    Ok(())
}

/// Plays a phase: the written turns, and then what they left unfinished.
pub(crate) fn play_phase<'a, S: Store + Drop, C: Clock + Drop>(
    mount: &mut Mount<S, C>,
    players: &mut [Player<'a>],
    phase: &'a Phase,
    lines: &mut Lines,
) -> Result<(), NoMemory>
    requires fits { FitsPhase (length players.old) phase.now }
    requires stand { AllStand [] players.old mount.old }
    ensures plays { OnOk result (PlayedPhase phase.now lines.old players.old mount.old lines.new players.new mount.new) }
    ensures broken { OnErr result (PhaseIsBroken phase.now players.old mount.old mount.new) }
{
    let statements = phase.statements.as_slice();
    deal(players, statements)?;
    let turns = phase.turns.as_slice();
    take_turns(mount, players, turns)?;
    finish(mount, players, statements, lines)?;
    Ok(())
}

/// Plays the phases, one after the other.
pub(crate) fn play_all<'a, S: Store + Drop, C: Clock + Drop>(
    mount: &mut Mount<S, C>,
    players: &mut [Player<'a>],
    phases: &'a [Phase],
    lines: &mut Lines,
) -> Result<(), NoMemory>
    requires fits { All (FitsPhase (length players.old)) phases.now }
    requires stand { AllStand [] players.old mount.old }
    requires empty { lines.old ≡ [] }
    ensures played { OnOk result (PlayedSoFar phases.now lines.new players.old mount.old players.new mount.new) }
    ensures broken { OnErr result (PlayIsBroken phases.now players.old mount.old mount.new) }
{
    for phase in phases {
        play_phase(mount, players, phase, lines)?;
    }
    Ok(())
}
