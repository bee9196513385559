//! The statements that the turns left unfinished.
ghost use Rattle.std.specs.Prelude.{◌≡◌, ◌<◌, ◌≤◌, [], ◌∷◌, ◌++◌, Some, OnOk, OnErr, All, length, slice_get};
ghost use Rattle.run_core.specs.Written.{whose};
ghost use Rattle.run_core.specs.Players.{IsFit, lines_left};
ghost use Rattle.run_core.specs.Broken.{BreaksAt, EndsBreak, PassBreaks};
ghost use Rattle.run_core.specs.World.{AllStand, PassesAt, Tells};
ghost use Rattle.run_core.specs.declared.player.Player.{Player as ThePlayer};

use crate::player::Player;
use edge_io::Clock;
use mount_core::Mount;
use plfs_types::NoMemory;
use script_lang::{CompactStatement, Lines};
use store_api::Store;

/// The line of the next statement of the player at this place.
fn pass<S: Store + Drop, C: Clock + Drop>(
    mount: &mut Mount<S, C>,
    players: &mut [Player<'_>],
    place: usize,
    lines: &mut Lines,
) -> Result<(), NoMemory>
    requires there { place < length players.old }
    requires fit { (player : ThePlayer) → slice_get players.old place ≡ Some player → IsFit player mount.old }
    requires some { (player : ThePlayer) → slice_get players.old place ≡ Some player → 1 ≤ lines_left player }
    ensures passes { OnOk result (PassesAt place lines.old players.old mount.old lines.new players.new mount.new) }
    ensures broken { OnErr result (BreaksAt (λ player. PassBreaks player mount.old mount.new) place players.old) }
{
    let player = &mut players[place];
    let line = player.next_line(mount)?;
    lines.push(line)?;
    Ok(())
}

/// The lines of the statements in written order, those that are unfinished carried to their ends.
pub(crate) fn finish<S: Store + Drop, C: Clock + Drop>(
    mount: &mut Mount<S, C>,
    players: &mut [Player<'_>],
    statements: &[CompactStatement],
    lines: &mut Lines,
) -> Result<(), NoMemory>
    requires there { All (λ statement. statement.actor < length players.old) statements.now }
    requires stand { AllStand statements.now players.old mount.old }
    ensures tells { OnOk result (Tells (whose statements.now) [] lines.old players.old mount.old lines.new players.new mount.new) }
    ensures broken { OnErr result (EndsBreak (whose statements.now) players.old mount.old mount.new) }
{
    for statement in statements {
        pass(mount, players, statement.actor() as usize, lines)?;
    }
    Ok(())
}
