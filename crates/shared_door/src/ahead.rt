//! Frames that a thread reads while the engine is at work on others.
ghost use Rattle.std.specs.Result.{ForOk};
ghost use Rattle.frame_streams.specs.Arriving.{MayArrive};

use frame_streams::Arrival;
use plfs_types::NoMemory;
use std::alloc::Global;
use std::collections::VecDeque;
use std::io;
use std::sync::{Condvar, Mutex, Wait};

/// From so many bytes on a frame is long.
const LONG: usize = 1 << 15;

/// How many frames may wait for the engine.
const MOST_FRAMES: usize = 16;

/// How many bytes of theirs may. One frame may always wait.
const MOST_BYTES: usize = 1 << 20;

/// What came, or that memory was refused for it; and why a read failed, where one did.
#[derive(Drop)]
pub(crate) struct Came {
    pub(crate) arrival: Result<Arrival, NoMemory>,
    pub(crate) error: Option<io::Error>,
    ghost may: { ForOk arrival MayArrive },
}

impl Came {
    // Memory was refused.
    fn starved() -> Came {
        Came {
            arrival: Err(NoMemory),
            error: None,
        }
    }

    fn len(&self) -> usize {
        match &self.arrival {
            Ok(Arrival::Frame { payload, .. }) => payload.as_slice().len(),
            _ => 0,
        }
    }

    // Whose frame it is; 0 where it is none.
    fn actor(&self) -> u64 {
        match &self.arrival {
            Ok(Arrival::Frame { head, .. }) => head.actor,
            _ => 0,
        }
    }

    // Whether it is a long frame.
    fn is_long(&self) -> bool {
        self.len() >= LONG
    }

    /// Whether the thread reads behind it: it is a long frame, and of another actor than the long frame before. An actor that waits for its
    /// answer sends nothing meanwhile.
    pub(crate) fn leads(&self, before: u64) -> bool {
        self.is_long() && self.actor() != before
    }

    /// Whose the last long frame is, behind one of this actor and this frame.
    pub(crate) fn last_long(&self, before: u64) -> u64 {
        if self.is_long() { self.actor() } else { before }
    }
}

#[derive(Drop)]
struct State {
    // What was read and isn't taken yet, the oldest first.
    read: VecDeque<Came>,
    // The bytes of those frames.
    bytes: usize,
    // Whether the thread is to read.
    is_on: bool,
    // Whose the long frame was that was read last.
    last: u64,
    // The engine takes no more.
    is_over: bool,
}

/// What the engine shares with the thread that reads ahead of it.
#[derive(Drop)]
pub(crate) struct Ahead {
    state: Mutex<State>,
    // The thread is to read, or the engine takes no more.
    begun: Condvar,
    // Something was read.
    came: Condvar,
    // Something was taken, or the engine takes no more.
    left: Condvar,
}

impl State {
    // Whether a further frame of this length may wait.
    fn has_room(&self, len: usize) -> bool {
        self.read.is_empty()
            || self.read.len() < MOST_FRAMES && self.bytes.saturating_add(len) <= MOST_BYTES
    }
}

impl Ahead {
    /// Nothing was read, and nothing is to be.
    pub(crate) fn new(alloc: Global) -> Result<Ahead, NoMemory> {
        Ok(Ahead {
            state: Mutex::new(State {
                read: VecDeque::with_capacity(alloc, MOST_FRAMES)?,
                bytes: 0,
                is_on: false,
                last: 0,
                is_over: false,
            }),
            begun: Condvar::new(),
            came: Condvar::new(),
            left: Condvar::new(),
        })
    }

    /// From now on the thread reads, up to what it doesn't read behind. This actor's long frame was read last.
    pub(crate) fn begin<R: Wait>(&self, rt: &R, last: u64) {
        let mut guard = self.state.lock(rt);
        guard.is_on = true;
        guard.last = last;
        drop(guard);
        self.begun.notify_all();
    }

    /// The engine takes no more.
    pub(crate) fn end<R: Wait>(&self, rt: &R) {
        let mut guard = self.state.lock(rt);
        guard.is_over = true;
        drop(guard);
        self.begun.notify_all();
        self.left.notify_all();
    }

    /// Waits until the thread is to read. False where the engine takes no more.
    pub(crate) fn is_to_read<R: Wait>(&self, rt: &R) -> bool {
        let mut guard = self.state.lock(rt);
        for _ in rt.forever() {
            if guard.is_over {
                return false;
            }
            if guard.is_on {
                return true;
            }
            guard = self.begun.wait(rt, guard);
        }
        false
    }

    /// Waits for room, and lays down what came. The thread may read on behind it.
    pub(crate) fn put<R: Wait>(&self, rt: &R, came: Came) {
        let len = came.len();
        let mut guard = self.state.lock(rt);
        for _ in rt.forever() {
            if guard.is_over || guard.has_room(len) {
                break;
            }
            guard = self.left.wait(rt, guard);
        }
        let state = &mut *guard;
        state.bytes = state.bytes.saturating_add(len);
        state.is_on = came.leads(state.last);
        state.last = came.last_long(state.last);
        if state.read.push_back(came).is_err() {
            state.is_over = true;
        }
        drop(guard);
        self.came.notify_all();
    }

    /// Waits for what came next, and takes it.
    pub(crate) fn take<R: Wait>(&self, rt: &R) -> Came {
        let mut guard = self.state.lock(rt);
        for _ in rt.forever() {
            let state = &mut *guard;
            if let Some(came) = state.read.pop_front() {
                state.bytes = state.bytes.saturating_sub(came.len());
                drop(guard);
                self.left.notify_all();
                return came;
            }
            if guard.is_over {
                break;
            }
            guard = self.came.wait(rt, guard);
        }
        Came::starved()
    }
}
