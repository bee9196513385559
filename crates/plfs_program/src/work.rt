//! A store is mounted, and a script is played on it, by turns or on threads.
ghost use Rattle.std.specs.Prelude.{◌≡◌, true, false, IfOk};
ghost use Rattle.plfs_types.specs.Counts.{HasRisen};
ghost use Rattle.report_text.specs.Text.{HaveText};
ghost use Rattle.run_core.specs.Conditions.{IsPlayable};
ghost use Rattle.program_ends.specs.Leaving.{Leaves};
ghost use Rattle.plfs_program.specs.Lines.{AreLinesOf};
ghost use Rattle.program_ends.specs.Outcomes.{has_line, is_damage, is_fault};
ghost use Rattle.program_ends.specs.SoundTrees.{TellsSoundTree};
ghost use Rattle.plfs_program.specs.Ways.{HasBegun, by_turns, on_threads};

use edge_io::{Clock, Gate};
use mount_core::Mount;
use plfs_types::NoMemory;
use program_ends::mounting_line;
use run_core::play;
use script_lang::{Lines, Script};
use std::alloc::Global;
use std::sync::Wait;
use std::thread::Threads;
use store_api::Store;
use thread_runs::{RunEnded, run};

/// What the work on a store leaves.
#[derive(Drop)]
pub(crate) struct Worked<S> {
    pub(crate) store: S,
    pub(crate) lines: Result<Lines, NoMemory>,
}

/// Mounts a store, and plays the script on it by its written turns.
pub(crate) fn work<S: Store + Drop, C: Clock + Drop>(
    alloc: Global,
    store: S,
    clock: C,
    script: &Script,
) -> Worked<S>
    requires { IsPlayable script.now }
    ensures left { Leaves (HasBegun by_turns script.now) (C.times clock) (S.stored store) (S.stored result.store) }
    ensures in_turn { IfOk result.lines (AreLinesOf by_turns (C.times clock) (S.stored store) (S.stored result.store) script.now) }
    ensures text { IfOk result.lines HaveText }
    ensures cause { IfOk result.lines (λ lines. has_line is_fault lines ≡ true → HasRisen (S.stored store).faults (S.stored result.store).faults) }
    ensures undamaged { IfOk result.lines (λ lines. TellsSoundTree (S.stored store) → has_line is_damage lines ≡ false) }
{
    match Mount::open(alloc, store, clock) {
        Ok(mount) => {
            let mut mount = mount;
            let lines = play(alloc, &mut mount, script);
            Worked {
                store: mount.close(),
                lines,
            }
        }
        Err((store, trouble)) => Worked {
            store,
            lines: mounting_line(alloc, trouble),
        },
    }
}

/// Mounts a store, and plays the script on it, each actor on a thread of its own.
pub(crate) fn work_on_threads<
    R: Threads + Wait + Sync,
    S: Store + Drop + Send,
    C: Clock + Drop + Send,
    G: Gate + Sync,
>(rt: &R, alloc: Global, store: S, clock: C, script: &Script, gate: &G) -> Worked<S>
    requires { IsPlayable script.now }
    ensures left { Leaves (HasBegun on_threads script.now) (C.times clock) (S.stored store) (S.stored result.store) }
    ensures right { IfOk result.lines (AreLinesOf on_threads (C.times clock) (S.stored store) (S.stored result.store) script.now) }
    ensures text { IfOk result.lines HaveText }
    ensures cause { IfOk result.lines (λ lines. has_line is_fault lines ≡ true → HasRisen (S.stored store).faults (S.stored result.store).faults) }
    ensures undamaged { IfOk result.lines (λ lines. TellsSoundTree (S.stored store) → has_line is_damage lines ≡ false) }
{
    match Mount::open(alloc, store, clock) {
        Ok(mount) => {
            let RunEnded { mount: back, lines } = run(rt, alloc, mount, script, gate);
            Worked {
                store: back.unwrap().close(),
                lines,
            }
        }
        Err((store, trouble)) => Worked {
            store,
            lines: mounting_line(alloc, trouble),
        },
    }
}
