//! Bytes of a file that a thread reads before they are asked for.
ghost use Rattle.std.specs.Prelude.{◌≡◌, ◌≤◌, ◌<◌, ◌+◌, ◌-◌, ◌^◌, ◌↔◌, length, min, None, IfSome, IfNone, IsTrue};
ghost use Rattle.folder_calls.specs.Ahead.{HoldsNone, WasRead};

use plfs_types::NoMemory;
use std::alloc::Global;
use std::fs::File;
use std::os::unix::fs::{FileExt, MetadataExt};
use std::sync::{Arc, Condvar, Mutex, Wait};
use std::thread::Threads;
use std::{hint, thread};

/// From so many bytes on a read is long.
const LONG: u64 = 1 << 18;

/// How often it is looked whether a read that was begun is done, with 64 pauses of the processor between two looks: for up to some ms.
const MOMENT: usize = 500;

/// A file of the system, by its device and its number there.
#[derive(Clone, Copy)]
struct Identity {
    device: u64,
    number: u64,
}

impl Identity {
    fn is(&self, other: Identity) -> bool
        ensures { IsTrue result ↔ (self.now ≡ other) }
    {
        self.device == other.device && self.number == other.number
    }
}

// The file that is open there. None where the system doesn't tell it.
fn identity_of(file: &File) -> Option<Identity> {
    match file.metadata() {
        Ok(found) => Some(Identity {
            device: found.dev(),
            number: found.ino(),
        }),
        Err(_) => None,
    }
}

/// What the thread is to read, by a descriptor of its own.
#[derive(Drop)]
struct Wanted {
    file: File,
    at: u64,
    len: usize,
    order: u64,
}

/// What it read. None where it couldn't.
#[derive(Drop)]
struct Filled {
    order: u64,
    bytes: Option<Vec<u8>>,
}

impl Filled {
    // What was read, by this order alone.
    fn given(self, order: u64) -> Option<Vec<u8>> {
        if self.order == order {
            self.bytes
        } else {
            None
        }
    }
}

#[derive(Drop)]
struct State {
    wanted: Option<Wanted>,
    filled: Option<Filled>,
    // The number of the last order.
    orders: u64,
}

/// What a store shares with a thread that reads ahead of it. The store never waits for the thread.
#[derive(Drop)]
pub struct ReadAhead {
    state: Mutex<State>,
    // Something is to be read.
    wanted: Condvar,
}

impl ReadAhead {
    fn new() -> ReadAhead {
        ReadAhead {
            state: Mutex::new(State {
                wanted: None,
                filled: None,
                orders: 0,
            }),
            wanted: Condvar::new(),
        }
    }

    /// A thread that reads ahead of one store, as long as the process lives. It is never waited for.
    pub fn start<H: Threads + Wait + Copy + Send + 'static>(
        handle: H,
        alloc: Global,
    ) -> Result<Arc<ReadAhead>, NoMemory> {
        let shared = Arc::new(alloc, ReadAhead::new())?;
        let theirs = Arc::try_clone(&shared)?;
        match thread::spawn(&handle, move || read_on(&handle, alloc, &theirs)) {
            Ok(_) => Ok(shared),
            Err(_) => Err(NoMemory),
        }
    }

    // Orders a read, in place of what was ordered before: the order's number. None where the thread has the lock.
    fn order(&self, file: File, at: u64, len: usize) -> Option<u64> {
        let mut guard = self.state.try_lock()?;
        let state = &mut *guard;
        let order = state.orders.saturating_add(1);
        state.orders = order;
        state.filled = None;
        state.wanted = Some(Wanted {
            file,
            at,
            len,
            order,
        });
        drop(guard);
        self.wanted.notify_all();
        Some(order)
    }

    // What was read by this order, where it is done and was read. None else, or where the thread has the lock.
    fn take(&self, order: u64) -> Option<Vec<u8>> {
        let mut guard = self.state.try_lock()?;
        let filled = guard.filled.take()?;
        drop(guard);
        filled.given(order)
    }

    // The same, but that an order is taken back that the thread hasn't begun. None where it is at work.
    fn settle(&self, order: u64) -> Option<Option<Vec<u8>>> {
        let mut guard = self.state.try_lock()?;
        if let Some(filled) = guard.filled.take() {
            drop(guard);
            return Some(filled.given(order));
        }
        match guard.wanted.take() {
            Some(_) => Some(None),
            None => None,
        }
    }

    // The same, once the thread is done, which is waited for within a moment.
    fn take_soon(&self, order: u64) -> Option<Vec<u8>> {
        for _ in 0..MOMENT {
            if let Some(settled) = self.settle(order) {
                return settled;
            }
            for _ in 0..64 {
                hint::spin_loop();
            }
        }
        None
    }

    // Waits for an order.
    fn next<R: Wait>(&self, rt: &R) -> Option<Wanted> {
        let mut guard = self.state.lock(rt);
        for _ in rt.forever() {
            if let Some(wanted) = guard.wanted.take() {
                return Some(wanted);
            }
            guard = self.wanted.wait(rt, guard);
        }
        None
    }

    // Lays down what was read.
    fn fill<R: Wait>(&self, rt: &R, filled: Filled) {
        let mut guard = self.state.lock(rt);
        guard.filled = Some(filled);
    }
}

// So many bytes from a place on. None where they can't be read, or memory lacks.
fn read_of(alloc: Global, file: &File, at: u64, len: usize) -> Option<Vec<u8>> {
    let Ok(mut bytes) = Vec::from_elem(alloc, 0u8, len) else {
        return None;
    };
    match file.read_exact_at(bytes.as_mut_slice(), at) {
        Ok(()) => Some(bytes),
        Err(_) => None,
    }
}

// Reads what is ordered, one after the other.
fn read_on<R: Wait>(rt: &R, alloc: Global, shared: &ReadAhead) {
    for _ in rt.forever() {
        if let Some(wanted) = shared.next(rt) {
            let order = wanted.order;
            let bytes = read_of(alloc, &wanted.file, wanted.at, wanted.len);
            shared.fill(rt, Filled { order, bytes });
        }
    }
}

/// These bytes of a file.
#[derive(Clone, Copy)]
struct Stretch {
    file: Identity,
    at: u64,
    len: u64,
}

impl Stretch {
    fn is(&self, other: Stretch) -> bool
        ensures { IsTrue result ↔ (self.now ≡ other) }
    {
        self.file.is(other.file) && self.at == other.at && self.len == other.len
    }

    // As many bytes behind it, of `left` that are there. None where that would be no long read, which is never asked for here.
    fn behind(&self, left: u64) -> Option<Stretch>
        ensures some { IfSome result (λ stretch. (stretch.file ≡ self.now.file) × (stretch.at ≡ min (self.now.at + self.now.len) (2 ^ 64 - 1)) × (stretch.len ≡ min self.now.len left)) }
        ensures long { IfSome result (λ stretch. LONG ≤ stretch.len) }
        ensures none { IfNone result (min self.now.len left < LONG) }
    {
        let behind = self.len.min(left);
        if behind < LONG {
            return None;
        }
        Some(Stretch {
            file: self.file,
            at: self.at.saturating_add(self.len),
            len: behind,
        })
    }
}

/// The long reads of one store. As soon as two follow each other the thread reads what comes next. Where that is asked for
/// before it is read, the store reads the stretch behind it meanwhile.
#[derive(Drop)]
pub(crate) struct LongReads {
    alloc: Global,
    shared: Arc<ReadAhead>,
    // What was asked for last.
    last: Option<Stretch>,
    // What the thread reads, under its order.
    ordered: Option<(Stretch, u64)>,
    // What was read meanwhile.
    own: Option<(Stretch, Vec<u8>)>,
}

impl LongReads {
    pub(crate) fn new(alloc: Global, shared: Arc<ReadAhead>) -> LongReads
        ensures { HoldsNone result }
    {
        LongReads {
            alloc,
            shared,
            last: None,
            ordered: None,
            own: None,
        }
    }

    /// A file is changed: what was read ahead isn't given any more.
    pub(crate) fn forget(&mut self)
        ensures { HoldsNone self.new }
    {
        self.ordered = None;
        self.own = None;
    }

    /// The `len` bytes from `at` on, where they were read already. The file has `left` others behind them.
    pub(crate) fn next(&mut self, file: &File, at: u64, len: u64, left: u64) -> Option<Vec<u8>>
        ensures long { IfSome result (λ bytes. length bytes.items ≡ len) }
        ensures asked { IfSome result (λ bytes. (file : Identity) × WasRead (record { file = file; at = at; len = len }) bytes self.old.own self.old.ordered) }
    {
        if len < LONG {
            return None;
        }
        let Some(identity) = identity_of(file) else {
            self.forget();
            return None;
        };
        let asked = Stretch {
            file: identity,
            at,
            len,
        };
        let bytes = self.given(file, asked, left);
        self.last = Some(asked);
        match bytes {
            Some(bytes) if bytes.len() as u64 == len => Some(bytes),
            _ => None,
        }
    }

    // What is asked for, where it was read. What comes next is ordered.
    fn given(&mut self, file: &File, asked: Stretch, left: u64) -> Option<Vec<u8>>
        ensures asked { IfSome result (λ bytes. WasRead asked bytes self.old.own self.old.ordered) }
    {
        if let Some((stretch, bytes)) = self.own.take() {
            if stretch.is(asked) {
                return Some(bytes);
            }
        }
        match self.ordered.take() {
            Some((stretch, order)) if stretch.is(asked) => {
                self.ordered_bytes(file, asked, order, left)
            }
            _ => {
                if self.follows(asked) {
                    self.order(file, asked.behind(left));
                }
                None
            }
        }
    }

    // Whether it is behind what was asked for last.
    fn follows(&self, asked: Stretch) -> bool {
        match self.last {
            Some(last) => {
                last.file.is(asked.file) && last.at.saturating_add(last.len) == asked.at
            }
            None => false,
        }
    }

    // What was ordered. Where it isn't read yet, the stretch behind it is read meanwhile.
    fn ordered_bytes(
        &mut self,
        file: &File,
        asked: Stretch,
        order: u64,
        left: u64,
    ) -> Option<Vec<u8>> {
        let behind = asked.behind(left);
        if let Some(bytes) = self.shared.take(order) {
            self.order(file, behind);
            return Some(bytes);
        }
        let Some(behind) = behind else {
            return self.shared.take_soon(order);
        };
        self.own = match read_of(self.alloc, file, behind.at, behind.len as usize) {
            Some(bytes) => Some((behind, bytes)),
            None => None,
        };
        let bytes = self.shared.take_soon(order);
        self.order(file, behind.behind(left.saturating_sub(behind.len)));
        bytes
    }

    // Orders this stretch, by a descriptor of the thread's own.
    fn order(&mut self, file: &File, stretch: Option<Stretch>) {
        let Some(stretch) = stretch else {
            return;
        };
        let Ok(theirs) = file.try_clone() else {
            return;
        };
        if let Some(order) = self.shared.order(theirs, stretch.at, stretch.len as usize) {
            self.ordered = Some((stretch, order));
        }
    }
}
