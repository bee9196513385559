//! How actors enter a run.
ghost use Rattle.std.specs.Prelude.{◌≡◌, ◌≤◌, ◌^◌, List, [], length, vec_capacity, All};
ghost use Rattle.mount_sound.specs.Sound.{IsFine};
ghost use Rattle.turn_object.specs.Pass.{start_of, parts_of, mine_of, seen_of, ended_of, IsPassOf};
ghost use Rattle.script_lang.specs.Ranges.{FitsActor};
ghost use Rattle.script_lang.specs.declared.script.Phase.{Phase as ThePhase};
ghost use Rattle.thread_runs.specs.Running.{Between, HaveAll};

use crate::player::Player;
use crate::told::Told;
use actor_core::Actor;
use edge_io::Clock;
use mount_core::Mount;
use script_lang::ActorDecl;
use std::alloc::Global;
use store_api::Store;
use turn_object::{Pass, Turn};

/// Gives each declared actor a pass of its own, with 2^20 parts. There is room for all of them.
pub(crate) fn enter_all<S: Store + Drop, C: Clock + Drop>(
    alloc: Global,
    turn: &Turn<Mount<S, C>>,
    main: &mut Pass<Mount<S, C>>,
    players: &mut Vec<Player<Pass<Mount<S, C>>>>,
    actors: &[ActorDecl],
)
    requires first { IsPassOf turn.now main.old × (seen_of main.old ≡ []) × (mine_of main.old ≡ []) × (ended_of main.old ≡ []) × (parts_of main.old ≡ 2 ^ 40) }
    requires none { players.old.items ≡ [] }
    requires room { length actors.now ≤ vec_capacity players.old }
    requires fine { IsFine (start_of turn.now) }
    requires few { length actors.now ≤ 256 }
    requires declared { All FitsActor actors.now }
    ensures all { HaveAll turn.now main.new players.new.items }
    ensures entered { (phases : List ThePhase) → Between turn.now actors.now phases phases main.new players.new.items }
{
    for declared in actors {
        let place = players.len() as u64;
        let player = Player {
            pass: turn.split(main, 1 << 20),
            place,
            made: 0,
            actor: Actor::new(alloc, *declared),
            told: Told::new(alloc),
            whole: true,
        };
        players.push_reserved(player);
    }
}
