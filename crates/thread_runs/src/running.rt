//! A run of a script on threads.
ghost use Rattle.std.specs.Prelude.{◌≡◌, IfOk, IfSome, IsSome, length};
ghost use Rattle.plfs_types.specs.Counts.{HasRisen};
ghost use Rattle.mount_sound.specs.Sound.{IsFine};
ghost use Rattle.report_text.specs.Text.{HaveText};
ghost use Rattle.run_core.specs.Conditions.{IsPlayable};
ghost use Rattle.run_core.specs.Faults.{HasFault};
ghost use Rattle.run_core.specs.Leading.{GoesOn};
ghost use Rattle.run_core.specs.Play.{IsRight};
ghost use Rattle.thread_runs.specs.Closing.{BeginsToRun, HasRun};
ghost use Rattle.run_core.specs.Cast.{statements_in};
ghost use Rattle.thread_runs.specs.Collecting.{lines_in, HaveLines, ArePut, IsOkWith};

use crate::collecting::collect;
use crate::entering::enter_all;
use crate::leaving::finish;
use crate::phase::play_all;
use crate::told::Told;
use edge_io::{Clock, Gate};
use mount_core::Mount;
use plfs_types::NoMemory;
use script_lang::{Lines, Script};
use std::alloc::Global;
use std::sync::Wait;
use std::thread::Threads;
use store_api::Store;
use turn_object::Turn;

/// Has the actors make their calls, and gives the lines of each with the mount as it is then.
fn run_all<
    S: Store + Drop + Send,
    C: Clock + Drop + Send,
    G: Gate + Sync,
    R: Threads + Wait + Sync,
>(
    rt: &R,
    alloc: Global,
    mount: Mount<S, C>,
    script: &Script,
    gate: &G,
) -> (Mount<S, C>, Result<Vec<Told>, NoMemory>)
    requires playable { IsPlayable script.now }
    requires fine { IsFine mount }
    ensures goes_on { GoesOn mount result.0 }
    ensures begins { BeginsToRun script.now.actors script.now.phases mount result.0 }
    ensures run { IfOk result.1 (λ told. HasRun script.now.actors script.now.phases mount (lines_in told.items) result.0) }
{
    let actors = script.actors.as_slice();
    let mut players = Vec::new(alloc);
    if players.reserve(actors.len()).is_err() {
        drop(players);
        return (mount, Err(NoMemory));
    }
    let (turn, mut main) = match Turn::new(alloc, mount) {
        Ok(made) => made,
        Err((mount, NoMemory)) => {
            drop(players);
            return (mount, Err(NoMemory));
        }
    };
    enter_all(alloc, &turn, &mut main, &mut players, actors);
    let phases = script.phases.as_slice();
    play_all(
        rt,
        alloc,
        &turn,
        gate,
        &mut main,
        players.as_mut_slice(),
        phases,
    );
    finish(alloc, turn, main, players)
}

/// What a run ends with: the mount, and the lines of the script's statements.
#[derive(Drop)]
pub struct RunEnded<S: Store + Drop, C: Clock + Drop> {
    /// The mount after all calls. It is always handed back.
    pub mount: Option<Mount<S, C>>,
    /// One line a statement, in the order in which the script has them.
    pub lines: Result<Lines, NoMemory>,
}

/// The lines of all actors in the order in which their statements are written.
fn in_order(
    alloc: Global,
    told: Result<Vec<Told>, NoMemory>,
    script: &Script,
) -> Result<Lines, NoMemory>
    requires playable { IsPlayable script.now }
    requires enough { IfOk told (λ all. (length all.items ≡ length script.now.actors) × HaveLines (statements_in script.now.phases) (lines_in all.items)) }
    ensures { IfOk result (λ lines. IsOkWith told (λ all. ArePut (statements_in script.now.phases) (lines_in all.items) lines)) }
{
    let mut all = told?;
    collect(alloc, all.as_mut_slice(), script.phases.as_slice())
}

/// Runs the script's actors on the mount, phase by phase: in a phase each actor makes the calls of its statements on a thread of its own. Where a thread can't be
/// started, the caller does its work. The gate is asked before each call of an actor, which are counted from 1 over the whole run.
///
/// The lines are right: some order of all calls leads from the mount as it is given to the one that is handed back, makes the calls of the script's actors, all of one
/// phase before those of the next, and each actor tells the lines of its statements. Written turns are passed over. `NoMemory` comes where memory was refused;
/// the mount is handed back then too. An actor that was refused memory makes no further call, and the others go on. So each has made the calls of its statements
/// as far as it came, phase by phase, and nobody else has made any. Of each actor and each worker, only the last call may have been refused memory.
pub fn run<
    S: Store + Drop + Send,
    C: Clock + Drop + Send,
    G: Gate + Sync,
    R: Threads + Wait + Sync,
>(rt: &R, alloc: Global, mount: Mount<S, C>, script: &Script, gate: &G) -> RunEnded<S, C>
    requires playable { IsPlayable script.now }
    requires fine { IsFine mount }
    ensures mount { IsSome result.mount }
    ensures goes_on { IfSome result.mount (λ after. GoesOn mount after) }
    ensures begins { IfSome result.mount (λ after. BeginsToRun script.now.actors script.now.phases mount after) }
    ensures right { IfOk result.lines (λ lines. IfSome result.mount (λ after. IsRight script.now mount lines after)) }
    ensures text { IfOk result.lines HaveText }
    ensures cause { IfOk result.lines (λ lines. IfSome result.mount (λ after. HasFault lines → HasRisen mount.store.faults after.store.faults)) }
{
    let (mount, told) = run_all(rt, alloc, mount, script, gate);
    RunEnded {
        mount: Some(mount),
        lines: in_order(alloc, told, script),
    }
}
