//! One actor in a phase.
ghost use Rattle.std.specs.Prelude.{◌≡◌, ◌<◌, ◌≤◌, ◌∷◌, [], IfOk, OnErr, OnOk, All};
ghost use Rattle.mount_model.specs.Step.{IsStep};
ghost use Rattle.mount_sound.specs.Owed.{Permits};
ghost use Rattle.turn_object.specs.Front.{IsLegalFront};
ghost use Rattle.turn_object.specs.Pass.{start_of, front, parts_of, IsPassOf};
ghost use Rattle.actor_core.specs.Progress.{IsIdle};
ghost use Rattle.actor_core.specs.Standings.{progress_of, calls_left};
ghost use Rattle.run_core.specs.Players.{IsMade};
ghost use Rattle.thread_runs.specs.Driving.{MayGoOn, IsBrokenOff, IsDriven, ComesToIts};
ghost use Rattle.share_workers.specs.Passes.{IsAfter};
ghost use Rattle.thread_runs.specs.declared.player.TheConstants.{TOO_MANY};
ghost use Rattle.thread_runs.specs.Parts.{statements_of, dealt};
ghost use Rattle.thread_runs.specs.Runners.{MayAct, Acted, ActedAll, BrokenOff, IsReadyFor, Played};

use crate::parts::Part;
use crate::told::Told;
use actor_core::Actor;
use edge_io::{Clock, Gate};
use mount_core::Mount;
use plfs_types::NoMemory;
use script_lang::{CompactStatement, Line};
use share_workers::read_by_workers;
use std::alloc::Global;
use std::sync::Wait;
use std::thread::Threads;
use store_api::Store;
use turn_object::{Pass, Turn};

/// An actor of a run: its pass, its place in the declarations, how many calls it has made, and the lines that it has told. The type of its pass is a bare
/// parameter, since only so it is seen to cross threads.
#[derive(Drop)]
pub(crate) struct Player<P> {
    pub(crate) pass: P,
    pub(crate) place: u64,
    pub(crate) made: u64,
    pub(crate) actor: Actor,
    pub(crate) told: Told,
    /// Memory was never refused to it. Otherwise it does nothing more.
    pub(crate) whole: bool,
}

impl<P> Player<P> {
    /// Its pass and its lines, and whether memory was never refused to it.
    pub(crate) fn apart(self) -> (P, Told, bool)
        ensures pass { result.0 ≡ self.pass }
        ensures told { result.1 ≡ self.told }
        ensures whole { result.2 ≡ self.whole }
    {
        let Player {
            pass,
            place: _,
            made: _,
            actor: _,
            told,
            whole,
        } = self;
        (pass, told, whole)
    }
}

/// More workers than any statement has.
const TOO_MANY: usize = 1 << 16;

/// Has workers read the shares of the reader that the actor opens, where it is at them.
fn share_out<
    S: Store + Drop + Send,
    C: Clock + Drop + Send,
    G: Gate + Sync,
    R: Threads + Wait + Sync,
>(
    rt: &R,
    alloc: Global,
    turn: &Turn<Mount<S, C>>,
    gate: &G,
    pass: &mut Pass<Mount<S, C>>,
    place: u64,
    actor: &mut Actor,
) -> Result<(), NoMemory>
    requires pass { IsPassOf turn.now pass.old }
    requires known { IsLegalFront IsStep Permits (start_of turn.now) (front pass.old) }
    requires may { MayGoOn (start_of turn.now) (front pass.old) (progress_of actor.old) }
    requires busy { IsIdle (progress_of actor.old) → ⊥ }
    requires parts { TOO_MANY < parts_of pass.old }
    ensures after { IsAfter turn.now pass.old pass.new }
    ensures driven { OnOk result (IsDriven turn.now pass.old (progress_of actor.old) pass.new (progress_of actor.new)) }
    ensures left { OnOk result (calls_left actor.new ≤ calls_left actor.old) }
    ensures broken { OnErr result (IsBrokenOff (front pass.old) (progress_of actor.old) (front pass.new)) }
{
    let Some(works) = actor.shares()? else {
        return Ok(());
    };
    if works.as_slice().len() >= TOO_MANY {
        drop(works);
        return Err(NoMemory);
    }
    let outcome = read_by_workers(rt, alloc, turn, gate, pass, place, works)?;
    actor.give(outcome)
}

/// Makes the calls of the statement in progress, each after the gate, and gives its line. The shares of a reader are read by workers.
fn drive<S: Store + Drop + Send, C: Clock + Drop + Send, G: Gate + Sync, R: Threads + Wait + Sync>(
    rt: &R,
    alloc: Global,
    turn: &Turn<Mount<S, C>>,
    gate: &G,
    pass: &mut Pass<Mount<S, C>>,
    place: u64,
    made: &mut u64,
    actor: &mut Actor,
) -> Result<Line, NoMemory>
    requires pass { IsPassOf turn.now pass.old }
    requires known { IsLegalFront IsStep Permits (start_of turn.now) (front pass.old) }
    requires may { MayGoOn (start_of turn.now) (front pass.old) (progress_of actor.old) }
    requires busy { IsIdle (progress_of actor.old) → ⊥ }
    requires parts { TOO_MANY < parts_of pass.old }
    ensures after { IsAfter turn.now pass.old pass.new }
    ensures comes { IfOk result (λ line. ComesToIts line (front pass.old) (progress_of actor.old) (front pass.new) (progress_of actor.new)) }
    ensures broken { OnErr result (IsBrokenOff (front pass.old) (progress_of actor.old) (front pass.new)) }
{
    while let Some(ask) = actor.next()? {
        *made = made.saturating_add(1);
        gate.before(place, 0, *made);
        let reply = turn.call(rt, pass, &ask);
        drop(ask);
        actor.take(reply)?;
        share_out(rt, alloc, turn, gate, pass, place, actor)?;
    }
    match actor.line() {
        Some(line) => Ok(line),
        None => unreachable!(),
    }
}

/// Makes this statement, and keeps its line.
fn act<S: Store + Drop + Send, C: Clock + Drop + Send, G: Gate + Sync, R: Threads + Wait + Sync>(
    rt: &R,
    alloc: Global,
    turn: &Turn<Mount<S, C>>,
    gate: &G,
    player: &mut Player<Pass<Mount<S, C>>>,
    statement: &CompactStatement,
) -> Result<(), NoMemory>
    requires may { MayAct turn.now player.old.pass }
    requires made { IsMade statement.now }
    requires idle { IsIdle (progress_of player.old.actor) }
    ensures after { IsAfter turn.now player.old.pass player.new.pass }
    ensures acted { OnOk result (Acted statement.now player.old player.new) }
    ensures broken { OnErr result (BrokenOff (statement.now ∷ []) player.old player.new) }
{
    let copy = statement.copy(alloc)?;
    player.actor.begin(statement.line(), copy)?;
    let line = drive(
        rt,
        alloc,
        turn,
        gate,
        &mut player.pass,
        player.place,
        &mut player.made,
        &mut player.actor,
    )?;
    player.told.push(line)?;
    Ok(())
}

/// Makes the statements of its part, one after the other.
fn act_all<
    S: Store + Drop + Send,
    C: Clock + Drop + Send,
    G: Gate + Sync,
    R: Threads + Wait + Sync,
>(
    rt: &R,
    alloc: Global,
    turn: &Turn<Mount<S, C>>,
    gate: &G,
    player: &mut Player<Pass<Mount<S, C>>>,
    part: &Part<'_>,
) -> Result<(), NoMemory>
    requires may { MayAct turn.now player.old.pass }
    requires made { All IsMade (statements_of part.now) }
    requires idle { IsIdle (progress_of player.old.actor) }
    ensures after { IsAfter turn.now player.old.pass player.new.pass }
    ensures acted { OnOk result (ActedAll (statements_of part.now) player.old player.new) }
    ensures broken { OnErr result (BrokenOff (statements_of part.now) player.old player.new) }
{
    let statements = part.statements.as_slice();
    for statement in statements {
        act(rt, alloc, turn, gate, player, statement)?;
    }
    Ok(())
}

/// Plays its part of a phase, where it has had memory so far, and there was memory for the parts.
pub(crate) fn play_own<
    S: Store + Drop + Send,
    C: Clock + Drop + Send,
    G: Gate + Sync,
    R: Threads + Wait + Sync,
>(
    rt: &R,
    alloc: Global,
    turn: &Turn<Mount<S, C>>,
    gate: &G,
    player: &mut Player<Pass<Mount<S, C>>>,
    parts: &[Part<'_>],
)
    requires { IsReadyFor turn.now (dealt parts.now) player.old }
    ensures { Played turn.now (dealt parts.now) player.old player.new }
{
    let place = player.place as usize;
    if !player.whole || parts.len() <= place {
        player.whole = false;
        return;
    }
    player.whole = act_all(rt, alloc, turn, gate, player, &parts[place]).is_ok();
}
