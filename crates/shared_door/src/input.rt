//! Standard input as frames for the engine.
ghost use Rattle.std.specs.Prelude.{None};
ghost use Rattle.std.specs.Result.{ForOk};
ghost use Rattle.frame_streams.specs.Arriving.{CountsFault, MayArrive};

use crate::ahead::{Ahead, Came};
use crate::hearing::Hearing;
use edge_io::StdSource;
use frame_streams::{Arrival, Frames, next_frame};
use plfs_types::NoMemory;
use std::alloc::Global;
use std::cell::RefCell;
use std::io::{self, Stdin};
use std::sync::{Arc, Wait};
use std::thread;
use std::thread::Threads;

/// How many bytes of long frames a thread has memory for: one that is written, one that waits and one that is read.
const MOST_AHEAD: usize = 3 << 20;

/// How many bytes of a long frame the engine has memory for, which reads the first one itself.
const MOST_OWN: usize = 1 << 20;

/// Standard input. While a long frame is written a thread reads the next one, where a thread was had.
#[derive(Drop)]
struct Reading<'a, H> {
    handle: H,
    source: StdSource<Hearing<'a, Stdin>>,
    error: &'a RefCell<Option<io::Error>>,
    ahead: Option<Arc<Ahead>>,
    // The thread reads.
    is_ahead: bool,
    // Whose the long frame was that came last.
    last: u64,
}

/// The frames of standard input. They tell no bytes.
#[derive(Drop)]
pub struct InputFrames<'a, H> {
    reading: Reading<'a, H>,
    faults: u64,
}

// The next frame, and why its reading failed.
fn came_of(
    alloc: Global,
    source: &mut StdSource<Hearing<'_, Stdin>>,
    error: &RefCell<Option<io::Error>>,
) -> Came {
    let arrival = next_frame(alloc, source);
    let error = match error.try_borrow_mut() {
        Ok(mut last) => last.take(),
        Err(_) => None,
    };
    Came { arrival, error }
}

// Takes that much memory, touches it and frees it. The allocator keeps it, so that no long frame is the first in its memory.
fn make_room(alloc: Global, len: usize) {
    let _ = Vec::from_elem(alloc, 0u8, len);
}

// Reads whenever it is to, until the engine takes no more.
fn read_ahead<R: Wait>(handle: &R, rt: HostRuntime, ahead: &Ahead) {
    make_room(rt.alloc(), MOST_AHEAD);
    let error = RefCell::new(None);
    let mut source = StdSource::new(Hearing {
        reader: rt.stdin(),
        error: &error,
    });
    for _ in handle.forever() {
        if !ahead.is_to_read(handle) {
            return;
        }
        ahead.put(handle, came_of(rt.alloc(), &mut source, &error));
    }
}

// A thread that reads whenever it is to. It is never waited for, since a read may last for ever.
fn started<H: Threads + Wait + Copy + Send + 'static>(
    handle: H,
    rt: HostRuntime,
) -> Result<Arc<Ahead>, NoMemory> {
    let ahead = Arc::new(rt.alloc(), Ahead::new(rt.alloc())?)?;
    let theirs = Arc::try_clone(&ahead)?;
    match thread::spawn(&handle, move || read_ahead(&handle, rt, &theirs)) {
        Ok(_) => Ok(ahead),
        Err(_) => Err(NoMemory),
    }
}

impl<'a, H: Wait> Reading<'a, H> {
    // Has the thread read. Whether there is one.
    fn begin(&self) -> bool {
        match &self.ahead {
            Some(ahead) => {
                ahead.begin(&self.handle, self.last);
                true
            }
            None => false,
        }
    }

    fn next(&mut self, alloc: Global) -> Result<Arrival, NoMemory>
        ensures { ForOk result MayArrive }
    {
        let Came { arrival, error } = self.came(alloc);
        if let Some(error) = error {
            if let Ok(mut last) = self.error.try_borrow_mut() {
                *last = Some(error);
            }
        }
        arrival
    }

    // What comes next.
    fn came(&mut self, alloc: Global) -> Came {
        let came = match &self.ahead {
            Some(ahead) if self.is_ahead => ahead.take(&self.handle),
            _ => came_of(alloc, &mut self.source, self.error),
        };
        let leads = came.leads(self.last);
        self.last = came.last_long(self.last);
        self.is_ahead = leads && (self.is_ahead || self.begin());
        came
    }
}

/// Standard input as frames, of which nothing was read. Why a read failed will stand in `error`.
pub fn input_frames<'a, H: Threads + Wait + Copy + Send + 'static>(
    handle: H,
    rt: HostRuntime,
    error: &'a RefCell<Option<io::Error>>,
) -> InputFrames<'a, H> {
    make_room(rt.alloc(), MOST_OWN);
    InputFrames {
        reading: Reading {
            handle,
            source: StdSource::new(Hearing {
                reader: rt.stdin(),
                error,
            }),
            error,
            ahead: started(handle, rt).ok(),
            is_ahead: false,
            last: 0,
        },
        faults: 0,
    }
}

impl<'a, H: Wait> InputFrames<'a, H> {
    /// No further frame is taken.
    pub fn end(&self) {
        if let Some(ahead) = &self.reading.ahead {
            ahead.end(&self.reading.handle);
        }
    }
}

// The count of faults behind this.
fn faults_behind(arrival: &Arrival, faults: u64) -> u64
    ensures { CountsFault arrival.now faults result }
{
    match arrival {
        Arrival::Failed => faults.saturating_add(1),
        _ => faults,
    }
}

impl<'a, H: Wait> Frames for InputFrames<'a, H> {
    ghost given = { λ frames. record { left = None; faults = frames.faults } };

    fn next(&mut self, alloc: Global) -> Result<Arrival, NoMemory> {
        let arrival = self.reading.next(alloc)?;
        self.faults = faults_behind(&arrival, self.faults);
        Ok(arrival)
    }
}
