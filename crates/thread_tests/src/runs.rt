//! A script that is run on threads over an empty store in memory.
ghost use Rattle.std.specs.Prelude.{IfOk};
ghost use Rattle.mount_sound.specs.Sound.{IsFine};
ghost use Rattle.report_text.specs.Text.{HaveText};
ghost use Rattle.run_core.specs.Conditions.{IsPlayable};

use edge_io::{ClockList, Gate, ListClock, NoGate};
use mount_core::Mount;
use plfs_types::NoMemory;
use script_lang::{Lines, Script};
use std::alloc::Global;
use std::sync::Wait;
use std::thread::Threads;
use store_memory::{FailList, MemoryStore};
use thread_runs::{RunEnded, run};

// The script that this text is.
fn script_of(alloc: Global, text: &str) -> Result<Script, NoMemory>
    ensures { IfOk result IsPlayable }
{
    match Script::read(alloc, text.as_bytes()) {
        Ok(script) => Ok(script),
        Err(_) => Err(NoMemory),
    }
}

// A mount of an empty store, at these times.
fn mounted(alloc: Global, times: &[u64]) -> Result<Mount<MemoryStore, ListClock>, NoMemory>
    ensures { IfOk result IsFine }
{
    let store = MemoryStore::new(alloc, FailList::new(alloc))?;
    let clock = ListClock::new(ClockList::from_vec(Vec::from_slice(alloc, times)?));
    match Mount::open(alloc, store, clock) {
        Ok(mount) => Ok(mount),
        Err(_) => Err(NoMemory),
    }
}

/// The lines of a run of this script on threads.
pub(crate) fn on_threads<R: Threads + Wait + Sync>(
    rt: &R,
    alloc: Global,
    text: &str,
    times: &[u64],
) -> Result<Lines, NoMemory>
    ensures { IfOk result HaveText }
{
    at_gate(rt, alloc, text, times, &NoGate)
}

/// The same, at this gate.
pub(crate) fn at_gate<G: Gate + Sync, R: Threads + Wait + Sync>(
    rt: &R,
    alloc: Global,
    text: &str,
    times: &[u64],
    gate: &G,
) -> Result<Lines, NoMemory>
    ensures { IfOk result HaveText }
{
    let script = script_of(alloc, text)?;
    let mount = mounted(alloc, times)?;
    let RunEnded { mount: _, lines } = run(rt, alloc, mount, &script, gate);
    lines
}
