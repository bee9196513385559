//! Two actors of one phase wait for each other before their second calls, and so do two workers of a reader: they meet only
//! where each is on a thread of its own.
use crate::runs::at_gate;
use edge_io::Gate;
use plfs_types::NoMemory;
use std::alloc::Global;
use std::sync::Wait;
use std::sync::atomic::{AtomicU64, Ordering};
use std::test::Fail;
use std::thread;
use std::thread::Threads;

/// Two that wait before their second calls until the other one has come there too. It counts those that have waited in vain.
#[derive(Drop)]
struct Meeting {
    turns: u64,
    first: AtomicU64,
    second: AtomicU64,
    misses: AtomicU64,
}

impl Meeting {
    fn new(turns: u64) -> Meeting {
        Meeting {
            turns,
            first: AtomicU64::new(0),
            second: AtomicU64::new(0),
            misses: AtomicU64::new(0),
        }
    }

    fn meet(&self, own: &AtomicU64, other: &AtomicU64) {
        own.store(1, Ordering::SeqCst);
        for _ in 0..self.turns {
            if other.load(Ordering::SeqCst) == 1 {
                return;
            }
            thread::yield_now();
        }
        self.misses.fetch_add(1, Ordering::SeqCst);
    }

    /// Whether each of the two came, and how many have waited in vain.
    fn told(&self) -> [u64; 3] {
        [
            self.first.load(Ordering::SeqCst),
            self.second.load(Ordering::SeqCst),
            self.misses.load(Ordering::SeqCst),
        ]
    }
}

/// Has actor 0 and another one meet, and workers 1 and 2 of a reader.
#[derive(Drop)]
struct MeetGate {
    actors: Meeting,
    workers: Meeting,
}

impl Gate for MeetGate {
    fn before(&self, actor: u64, worker: u64, n: u64) {
        match (actor, worker, n) {
            (0, 0, 2) => self.actors.meet(&self.actors.first, &self.actors.second),
            (_, 0, 2) => self.actors.meet(&self.actors.second, &self.actors.first),
            (_, 1, 2) => self.workers.meet(&self.workers.first, &self.workers.second),
            (_, 2, 2) => self.workers.meet(&self.workers.second, &self.workers.first),
            _ => {}
        }
    }
}

/// A script, how many turns actors and workers wait, and of the two actors and of the two workers whether each came, and how
/// many have waited in vain.
type Row = (&'static str, u64, u64, [u64; 3], [u64; 3]);

const MEETINGS: &[Row] = &[
    // Two writers of one phase, and a reader with two workers.
    (
        "actor w1\nactor w2\nphase\nw1 open f\nw2 open f\nphase\nw1 write 0 text:AAAA\nw2 write 1 text:BB\nphase\nw1 close\nw2 close\nphase\nw1 ropen f 2\nw1 read 0 4\nw1 map\n",
        10_000_000,
        10_000_000,
        [1, 1, 0],
        [1, 1, 0],
    ),
    // A reader with one worker, which waits in vain.
    (
        "actor w1\nactor w2\nphase\nw1 open f\nw2 open f\nphase\nw1 write 0 text:AAAA\nw2 write 1 text:BB\nphase\nw1 close\nw2 close\nphase\nw1 ropen f\nw1 read 0 4\nw1 map\n",
        10_000_000,
        10,
        [1, 1, 0],
        [1, 0, 1],
    ),
    // Two writers of one phase, beside one actor between them and one behind them that have nothing to do in it.
    (
        "actor w1\nactor r\nactor w2\nactor s\nphase\nw1 open f\nw2 open f\nphase\nw1 write 0 text:AAAA\nw2 write 1 text:BB\nphase\nw1 close\nw2 close\nphase\nr ropen f 2\nr read 0 4\nr map\n",
        10_000_000,
        10_000_000,
        [1, 1, 0],
        [1, 1, 0],
    ),
    // Writers of one phase after the other.
    (
        "actor w1\nactor w2\nw1 open f\nphase\nw2 open f\n",
        10,
        10,
        [1, 1, 1],
        [0, 0, 0],
    ),
];

fn met<R: Threads + Wait + Sync>(
    rt: &R,
    alloc: Global,
    script: &str,
    gate: &MeetGate,
) -> Result<([u64; 3], [u64; 3]), NoMemory> {
    at_gate(rt, alloc, script, &[10], gate)?;
    Ok((gate.actors.told(), gate.workers.told()))
}

#[test]
fn actors_of_one_phase_and_workers_of_one_reader_are_on_threads_of_their_own(
    rt: HostRuntime,
) -> Result<(), Fail> {
    for (script, actor_turns, worker_turns, actors, workers) in MEETINGS {
        let gate = MeetGate {
            actors: Meeting::new(*actor_turns),
            workers: Meeting::new(*worker_turns),
        };
        let found = met(&rt, rt.alloc(), script, &gate)?;
        assert!(rt; found == (*actors, *workers));
    }
    Ok(())
}
