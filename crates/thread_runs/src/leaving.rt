//! How actors leave a run, and how its turn is closed.
ghost use Rattle.std.specs.Prelude.{◌≡◌, ◌^◌, ◌∷◌, ◌++◌, [], List, Bool, true, IfOk};
ghost use Rattle.turn_object.specs.Pass.{start_of, parts_of, IsPassOf};
ghost use Rattle.script_lang.specs.declared.line.Line.{Line};
ghost use Rattle.script_lang.specs.declared.script.ActorDecl.{ActorDecl};
ghost use Rattle.script_lang.specs.declared.script.Phase.{Phase};
ghost use Rattle.run_core.specs.Leading.{GoesOn};
ghost use Rattle.thread_runs.specs.Running.{Between, HaveAll, Leaves};
ghost use Rattle.thread_runs.specs.Closing.{BeginsToRun, HasRun};
ghost use Rattle.thread_runs.specs.Collecting.{lines_in};

use crate::player::Player;
use crate::told::Told;
use edge_io::Clock;
use mount_core::Mount;
use plfs_types::NoMemory;
use std::alloc::Global;
use store_api::Store;
use turn_object::{Pass, Turn};

/// Puts the lines of one actor to the others, and says whether all are whole so far.
fn collect_lines(all: &mut Vec<Told>, so_far: bool, whole: bool, told: Told) -> bool
    ensures { result ≡ true → (so_far ≡ true) × (whole ≡ true) × (all.new.items ≡ all.old.items ++ told ∷ []) }
{
    all.push(told).is_ok() && so_far && whole
}

/// Joins the passes of all actors, and gives their lines where memory was refused to none of them.
fn leave_all<S: Store + Drop, C: Clock + Drop>(
    alloc: Global,
    turn: &Turn<Mount<S, C>>,
    main: &mut Pass<Mount<S, C>>,
    players: Vec<Player<Pass<Mount<S, C>>>>,
) -> Result<Vec<Told>, NoMemory>
    requires { HaveAll turn.now main.old players.items }
    ensures pass { IsPassOf turn.now main.new × (parts_of main.new ≡ 2 ^ 40) }
    ensures left { (lines : List (List Line)) × (whole : Bool) × Leaves turn.now main.old main.new players.items lines whole × IfOk result (λ told. (lines_in told.items ≡ lines) × (whole ≡ true)) }
{
    let mut all = Vec::new(alloc);
    let mut so_far = true;
    for player in players {
        let (back, told, whole) = player.apart();
        turn.join(main, back);
        so_far = collect_lines(&mut all, so_far, whole, told);
    }
    if so_far { Ok(all) } else { Err(NoMemory) }
}

/// Ends a run: all passes are joined, and the turn is closed.
pub(crate) fn finish<S: Store + Drop, C: Clock + Drop>(
    alloc: Global,
    turn: Turn<Mount<S, C>>,
    mut main: Pass<Mount<S, C>>,
    players: Vec<Player<Pass<Mount<S, C>>>>,
) -> (Mount<S, C>, Result<Vec<Told>, NoMemory>)
    requires { HaveAll turn main players.items }
    ensures goes_on { GoesOn (start_of turn) result.0 }
    ensures begins { (actors : List ActorDecl) (phases left : List Phase) → Between turn actors phases left main players.items → BeginsToRun actors phases (start_of turn) result.0 }
    ensures run { IfOk result.1 (λ told. (actors : List ActorDecl) (phases : List Phase) → Between turn actors phases [] main players.items → HasRun actors phases (start_of turn) (lines_in told.items) result.0) }
{
    let told = leave_all(alloc, &turn, &mut main, players);
    match turn.close(main) {
        Ok(mount) => (mount, told),
        Err(_) => unreachable!(),
    }
}
