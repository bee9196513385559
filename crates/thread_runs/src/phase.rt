//! A phase: the actors' passes learn from the main one, the actors play on threads, and the main pass learns from theirs.
ghost use Rattle.std.specs.Prelude.{◌≡◌, ◌<◌, ◌∷◌, [], List, All, length};
ghost use Rattle.turn_object.specs.History.{StartsWith};
ghost use Rattle.turn_object.specs.Front.{IsLegalFront};
ghost use Rattle.turn_object.specs.Pass.{start_of, front, parts_of, seen_of, IsPassOf};
ghost use Rattle.mount_model.specs.Step.{IsStep};
ghost use Rattle.mount_sound.specs.Owed.{Permits};
ghost use Rattle.script_lang.specs.declared.script.ActorDecl.{ActorDecl};
ghost use Rattle.script_lang.specs.declared.script.Phase.{Phase as ThePhase};
ghost use Rattle.run_core.specs.Players.{IsMade};
ghost use Rattle.thread_runs.specs.Parts.{dealt};
ghost use Rattle.thread_runs.specs.Runners.{IsReadyFor, Played, EachPlayed};
ghost use Rattle.thread_runs.specs.Each.{ChangedTo};
ghost use Rattle.thread_runs.specs.Phases.{Keeps, CaughtUp, HandedOver};
ghost use Rattle.thread_runs.specs.Running.{Between};

use crate::apart::each_apart;
use crate::parts::{Parts, deal};
use crate::player::{Player, play_own};
use edge_io::{Clock, Gate};
use mount_core::Mount;
use script_lang::Phase;
use std::alloc::Global;
use std::sync::Wait;
use std::thread::Threads;
use store_api::Store;
use turn_object::{Pass, Turn};

/// The actor sees what the main pass has seen.
fn catch_up<S: Store + Drop, C: Clock + Drop>(
    turn: &Turn<Mount<S, C>>,
    main: &mut Pass<Mount<S, C>>,
    player: &mut Player<Pass<Mount<S, C>>>,
)
    requires passes { IsPassOf turn.now main.old × IsPassOf turn.now player.old.pass }
    requires parts { 1 < parts_of main.old }
    ensures pass { IsPassOf turn.now main.new }
    ensures main { Keeps 0 1 main.old main.new × (seen_of main.new ≡ seen_of main.old) }
    ensures player { CaughtUp turn.now (seen_of main.old) player.old player.new }
{
    let given = turn.split(main, 1);
    turn.join(&mut player.pass, given);
}

/// The main pass sees what the actor has seen.
fn hand_over<S: Store + Drop, C: Clock + Drop>(
    turn: &Turn<Mount<S, C>>,
    main: &mut Pass<Mount<S, C>>,
    player: &mut Player<Pass<Mount<S, C>>>,
)
    requires passes { IsPassOf turn.now main.old × IsPassOf turn.now player.old.pass }
    requires parts { 1 < parts_of player.old.pass }
    ensures pass { IsPassOf turn.now main.new }
    ensures main { Keeps 1 0 main.old main.new }
    ensures known { IsLegalFront IsStep Permits (start_of turn.now) (front main.new) }
    ensures both { StartsWith (seen_of main.new) (seen_of main.old) × StartsWith (seen_of main.new) (seen_of player.old.pass) }
    ensures player { HandedOver turn.now player.old player.new }
{
    let given = turn.split(&mut player.pass, 1);
    turn.join(main, given);
}

/// All actors see what the main pass has seen.
fn begin_all<S: Store + Drop, C: Clock + Drop>(
    turn: &Turn<Mount<S, C>>,
    main: &mut Pass<Mount<S, C>>,
    players: &mut [Player<Pass<Mount<S, C>>>],
)
    requires main { IsPassOf turn.now main.old }
    requires parts { length players.old < parts_of main.old }
    requires passes { All (λ player. IsPassOf turn.now player.pass) players.old }
    ensures main { IsPassOf turn.now main.new }
    ensures keeps { Keeps 0 (length players.old) main.old main.new × (seen_of main.new ≡ seen_of main.old) }
    ensures changed { ChangedTo (CaughtUp turn.now (seen_of main.old)) (length players.old) players.old players.new }
{
    for index in 0..players.len() {
        let player = &mut players[index];
        catch_up(turn, main, player);
    }
}

/// The main pass sees what all actors have seen.
fn gather_all<S: Store + Drop, C: Clock + Drop>(
    turn: &Turn<Mount<S, C>>,
    main: &mut Pass<Mount<S, C>>,
    players: &mut [Player<Pass<Mount<S, C>>>],
)
    requires main { IsPassOf turn.now main.old }
    requires known { IsLegalFront IsStep Permits (start_of turn.now) (front main.old) }
    requires passes { All (λ player. IsPassOf turn.now player.pass × (1 < parts_of player.pass)) players.old }
    ensures main { IsPassOf turn.now main.new }
    ensures known { IsLegalFront IsStep Permits (start_of turn.now) (front main.new) }
    ensures keeps { Keeps (length players.old) 0 main.old main.new }
    ensures more { StartsWith (seen_of main.new) (seen_of main.old) }
    ensures changed { ChangedTo (HandedOver turn.now) (length players.old) players.old players.new }
    ensures seen { All (λ player. StartsWith (seen_of main.new) (seen_of player.pass)) players.old }
{
    for index in 0..players.len() {
        let player = &mut players[index];
        hand_over(turn, main, player);
    }
}

/// Has all actors play their parts, each that has statements on a thread of its own where there is more than one.
fn play_each<
    S: Store + Drop + Send,
    C: Clock + Drop + Send,
    G: Gate + Sync,
    R: Threads + Wait + Sync,
>(
    rt: &R,
    alloc: Global,
    turn: &Turn<Mount<S, C>>,
    gate: &G,
    players: &mut [Player<Pass<Mount<S, C>>>],
    parts: &Parts<'_>,
)
    requires { All (IsReadyFor turn.now (dealt parts.now.each.items)) players.old }
    ensures { EachPlayed turn.now (dealt parts.now.each.items) players.old players.new }
{
    let each = parts.each.as_slice();
    each_apart(
        rt,
        &|player: &mut Player<Pass<Mount<S, C>>>|
            requires { IsReadyFor turn.now (dealt each.now) player.old }
            ensures { Played turn.entry.now (dealt each.entry.now) player.old player.new }
        { play_own(rt, alloc, turn, gate, player, each) },
        parts.busy.as_slice(),
        0,
        players,
    );
}

/// Plays one phase. The actors learn of what was called before, play on threads, and the main pass learns of it.
fn play_phase<
    S: Store + Drop + Send,
    C: Clock + Drop + Send,
    G: Gate + Sync,
    R: Threads + Wait + Sync,
>(
    rt: &R,
    alloc: Global,
    turn: &Turn<Mount<S, C>>,
    gate: &G,
    main: &mut Pass<Mount<S, C>>,
    players: &mut [Player<Pass<Mount<S, C>>>],
    phase: &Phase,
)
    requires between { (actors : List ActorDecl) × (phases : List ThePhase) × (left : List ThePhase) × Between turn.now actors phases (phase.now ∷ left) main.old players.old }
    requires there { All (λ statement. statement.actor < length players.old) phase.now.statements }
    requires made { All IsMade phase.now.statements }
    ensures { (actors : List ActorDecl) (phases left : List ThePhase) → Between turn.now actors phases (phase.now ∷ left) main.old players.old → Between turn.now actors phases left main.new players.new }
{
    begin_all(turn, main, players);
    let parts = deal(alloc, players.len(), phase.statements.as_slice());
    play_each(rt, alloc, turn, gate, players, &parts);
    gather_all(turn, main, players);
}

/// Plays the phases, one after the other.
pub(crate) fn play_all<
    S: Store + Drop + Send,
    C: Clock + Drop + Send,
    G: Gate + Sync,
    R: Threads + Wait + Sync,
>(
    rt: &R,
    alloc: Global,
    turn: &Turn<Mount<S, C>>,
    gate: &G,
    main: &mut Pass<Mount<S, C>>,
    players: &mut [Player<Pass<Mount<S, C>>>],
    phases: &[Phase],
)
    requires between { (actors : List ActorDecl) × Between turn.now actors phases.now phases.now main.old players.old }
    requires there { All (λ phase. All (λ statement. statement.actor < length players.old) phase.statements) phases.now }
    requires made { All (λ phase. All IsMade phase.statements) phases.now }
    ensures { (actors : List ActorDecl) → Between turn.now actors phases.now phases.now main.old players.old → Between turn.now actors phases.now [] main.new players.new }
{
    for phase in phases {
        play_phase(rt, alloc, turn, gate, main, players, phase);
    }
}
