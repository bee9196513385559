//! The written turns of a phase.
ghost use Rattle.std.specs.Prelude.{◌≡◌, ◌<◌, [], ◌∷◌, false, Some, IfOk, OnOk, OnErr, All, length, replicate, slice_get};
ghost use Rattle.run_core.specs.Broken.{BreaksAt, TurnBreaks, TurnsBreak};
ghost use Rattle.run_core.specs.Written.{turns_of as written_turns};
ghost use Rattle.run_core.specs.Moving.{Advances, Turns, IsDone};
ghost use Rattle.run_core.specs.World.{AllFit, At, TookTurns};
ghost use Rattle.run_core.specs.declared.player.Player.{Player as ThePlayer};

use crate::player::Player;
use edge_io::Clock;
use mount_core::Mount;
use plfs_types::NoMemory;
use script_lang::Turned;
use store_api::Store;

/// One turn of the player at this place. Answers whether it made a call: without one no statement is left.
fn turn<S: Store + Drop, C: Clock + Drop>(
    mount: &mut Mount<S, C>,
    players: &mut [Player<'_>],
    place: usize,
) -> Result<bool, NoMemory>
    requires there { place < length players.old }
    requires fit { AllFit players.old mount.old }
    ensures turned { OnOk result (At place players.old (λ before after. Advances Turns before mount.old after mount.new) players.new) }
    ensures done { IfOk result (λ called. called ≡ false → (player : ThePlayer) → slice_get players.new place ≡ Some player → IsDone player) }
    ensures broken { OnErr result (BreaksAt (λ player. TurnBreaks player mount.old mount.new) place players.old) }
{
    let player = &mut players[place];
    let called = player.take_turn(mount)?;
    Ok(called)
}

/// So many turns of one player. A player with no statement left takes none.
fn turns_of<S: Store + Drop, C: Clock + Drop>(
    mount: &mut Mount<S, C>,
    players: &mut [Player<'_>],
    turned: Turned,
) -> Result<(), NoMemory>
    requires there { turned.actor < length players.old }
    requires fit { AllFit players.old mount.old }
    ensures took { OnOk result (TookTurns (replicate turned.count turned.actor) players.old mount.old players.new mount.new) }
    ensures broken { OnErr result (TurnsBreak (replicate turned.count turned.actor) players.old mount.old mount.new) }
{
    for _i in 0..turned.count {
        if !turn(mount, players, turned.actor as usize)? {
            return Ok(());
        }
    }
    Ok(())
}

/// The turns in the order in which they are written.
pub(crate) fn take_turns<S: Store + Drop, C: Clock + Drop>(
    mount: &mut Mount<S, C>,
    players: &mut [Player<'_>],
    turns: &[Turned],
) -> Result<(), NoMemory>
    requires there { All (λ turned. turned.actor < length players.old) turns.now }
    requires fit { AllFit players.old mount.old }
    ensures took { OnOk result (TookTurns (written_turns turns.now) players.old mount.old players.new mount.new) }
    ensures broken { OnErr result (TurnsBreak (written_turns turns.now) players.old mount.old mount.new) }
{
    for turned in turns {
        turns_of(mount, players, *turned)?;
    }
    Ok(())
}
