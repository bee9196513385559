//! What the threads share: frames that wait for the engine, and answers that wait for their processes.
ghost use Rattle.std.specs.Prelude.{◌≡◌, ◌<◌, ◌≤◌, ◌==◌, ◌&&◌, ◌||◌, length, slice_get, true, Some, None, IfOk, IfSome, IfNone};
ghost use Rattle.shared_frames.specs.declared.placing.TheConstants.{PLACES};
ghost use Rattle.shared_door.specs.Places.{NoneIsFree, answer_in, answering, entered, is_free_in, left, silent, with_place};

use frame_format::Head;
use plfs_types::{Bytes, NoMemory};
use shared_frames::PLACES;
use std::alloc::Global;
use std::collections::VecDeque;
use std::sync::{Condvar, Mutex, Wait};

/// A frame of the process at this place.
#[derive(Drop)]
pub(crate) struct Asked {
    pub(crate) place: u64,
    pub(crate) head: Head,
    pub(crate) payload: Bytes,
}

/// A place for a process.
#[derive(Drop)]
struct Place {
    is_taken: bool,
    answer: Option<Bytes>,
}

#[derive(Drop)]
struct State {
    frames: VecDeque<Asked>,
    places: Vec<Place>,
    // How many processes are served.
    count: u64,
    // No further process is let in.
    is_closed: bool,
    // The engine answers no more.
    is_over: bool,
}

/// What the threads share. Each process has at most one frame here, or one answer.
#[derive(Drop)]
pub struct Board {
    state: Mutex<State>,
    // A frame came, or no further one will.
    asked: Condvar,
    // By its place: an answer came, or no further one will.
    answered: Vec<Condvar>,
    ghost each: { length answered.items ≡ PLACES },
}

impl State {
    // Takes the answer that waits at this place.
    fn take_answer(&mut self, place: u64) -> Option<Bytes>
        ensures answer { result ≡ answer_in (slice_get self.old.places.items place) }
        ensures taken { self.new.places.items ≡ with_place silent self.old.places.items place }
        ensures rest { (self.new.frames ≡ self.old.frames) × (self.new.count ≡ self.old.count) × (self.new.is_closed ≡ self.old.is_closed) × (self.new.is_over ≡ self.old.is_over) }
    {
        match self.places.get_mut(place as usize) {
            Some(it) => it.answer.take(),
            None => None,
        }
    }

    // Puts an answer at this place, where there is one.
    fn put_answer(&mut self, place: u64, bytes: Bytes)
        ensures put { self.new.places.items ≡ with_place (answering bytes) self.old.places.items place }
        ensures rest { (self.new.frames ≡ self.old.frames) × (self.new.count ≡ self.old.count) × (self.new.is_closed ≡ self.old.is_closed) × (self.new.is_over ≡ self.old.is_over) }
    {
        if let Some(it) = self.places.get_mut(place as usize) {
            it.answer = Some(bytes);
        }
    }

    // Whether this place is there and free.
    fn is_free(&self, place: u64) -> bool
        ensures { result ≡ is_free_in (slice_get self.now.places.items place) }
    {
        match self.places.get(place as usize) {
            Some(it) => !it.is_taken,
            None => false,
        }
    }

    // The first place that is free.
    fn free_place(&self) -> Option<u64>
        ensures there { IfSome result (λ place. place < PLACES) }
        ensures free { IfSome result (λ place. is_free_in (slice_get self.now.places.items place) ≡ true) }
        ensures first { IfSome result (NoneIsFree self.now.places.items) }
        ensures none { IfNone result (NoneIsFree self.now.places.items PLACES) }
    {
        for place in 0..PLACES {
            if self.is_free(place) {
                return Some(place);
            }
        }
        None
    }

    // Takes the first place that is free.
    fn take_place(&mut self) -> Option<u64>
        ensures there { IfSome result (λ place. place < PLACES) }
        ensures free { IfSome result (λ place. is_free_in (slice_get self.old.places.items place) ≡ true) }
        ensures first { IfSome result (NoneIsFree self.old.places.items) }
        ensures taken { IfSome result (λ place. self.new.places.items ≡ with_place entered self.old.places.items place) }
        ensures none { IfNone result (NoneIsFree self.old.places.items PLACES) }
        ensures unchanged { IfNone result (self.new ≡ self.old) }
        ensures rest { (self.new.frames ≡ self.old.frames) × (self.new.count ≡ self.old.count) × (self.new.is_closed ≡ self.old.is_closed) × (self.new.is_over ≡ self.old.is_over) }
    {
        let place = self.free_place()?;
        if let Some(it) = self.places.get_mut(place as usize) {
            it.is_taken = true;
            it.answer = None;
        }
        Some(place)
    }

    // Frees this place, where there is one.
    fn leave_place(&mut self, place: u64)
        ensures left { self.new.places.items ≡ with_place left self.old.places.items place }
        ensures rest { (self.new.frames ≡ self.old.frames) × (self.new.count ≡ self.old.count) × (self.new.is_closed ≡ self.old.is_closed) × (self.new.is_over ≡ self.old.is_over) }
    {
        if let Some(it) = self.places.get_mut(place as usize) {
            it.is_taken = false;
        }
    }

    // Whether no frame will come any more.
    fn is_done(&self) -> bool
        ensures { result ≡ (self.now.is_over || (self.now.is_closed && (self.now.count == 0))) }
    {
        self.is_over || self.is_closed && self.count == 0
    }
}

impl Board {
    /// Nobody is served.
    pub fn new(alloc: Global) -> Result<Board, NoMemory> {
        let mut places = Vec::new(alloc);
        let mut answered = Vec::new(alloc);
        for _i in 0..PLACES {
            places.push(Place {
                is_taken: false,
                answer: None,
            })?;
            answered.push(Condvar::new())?;
        }
        Ok(Board {
            state: Mutex::new(State {
                frames: VecDeque::new(alloc),
                places,
                count: 0,
                is_closed: false,
                is_over: false,
            }),
            asked: Condvar::new(),
            answered,
        })
    }

    /// Lets a process in: its place. None where no further one is let in, or no place is free.
    pub(crate) fn enter<R: Wait>(&self, rt: &R) -> Option<u64>
        ensures there { IfSome result (λ place. place < PLACES) }
    {
        let mut guard = self.state.lock(rt);
        let state = &mut *guard;
        if state.is_closed || state.is_over {
            return None;
        }
        let place = state.take_place()?;
        state.count = state.count.saturating_add(1);
        Some(place)
    }

    /// A process has left. Its place is free again where all that it had open is closed.
    pub(crate) fn leave<R: Wait>(&self, rt: &R, place: u64, is_closed: bool) {
        let mut guard = self.state.lock(rt);
        let state = &mut *guard;
        state.count = state.count.saturating_sub(1);
        if is_closed {
            state.leave_place(place);
        }
        drop(guard);
        self.asked.notify_all();
    }

    /// No further process is let in.
    pub(crate) fn close<R: Wait>(&self, rt: &R) {
        let mut guard = self.state.lock(rt);
        guard.is_closed = true;
        drop(guard);
        self.asked.notify_all();
    }

    /// No further frame is answered.
    pub fn end<R: Wait>(&self, rt: &R) {
        let mut guard = self.state.lock(rt);
        guard.is_over = true;
        drop(guard);
        self.asked.notify_all();
        for it in self.answered.as_slice() {
            it.notify_all();
        }
    }

    // Hands a frame in. Whether it will be answered.
    fn put<R: Wait>(&self, rt: &R, asked: Asked) -> bool {
        let mut guard = self.state.lock(rt);
        let state = &mut *guard;
        if state.is_over || state.frames.push_back(asked).is_err() {
            return false;
        }
        drop(guard);
        self.asked.notify_all();
        true
    }

    /// Hands a frame in and waits for its answer. None where the engine answers no more, or memory was refused.
    pub(crate) fn ask<R: Wait>(&self, rt: &R, asked: Asked) -> Option<Bytes>
        ensures outside { PLACES ≤ asked.place → result ≡ None }
    {
        let place = asked.place;
        let answered = self.answered.get(place as usize)?;
        if !self.put(rt, asked) {
            return None;
        }
        let mut guard = self.state.lock(rt);
        for _ in rt.forever() {
            if let Some(bytes) = guard.take_answer(place) {
                return Some(bytes);
            }
            if guard.is_over {
                return None;
            }
            guard = answered.wait(rt, guard);
        }
        None
    }

    /// Waits for a frame. None where none will come any more.
    pub(crate) fn next<R: Wait>(&self, rt: &R) -> Option<Asked> {
        let mut guard = self.state.lock(rt);
        for _ in rt.forever() {
            if let Some(asked) = guard.frames.pop_front() {
                return Some(asked);
            }
            if guard.is_done() {
                return None;
            }
            guard = self.asked.wait(rt, guard);
        }
        None
    }

    /// Hands an answer to the process at this place.
    pub(crate) fn answer<R: Wait>(&self, rt: &R, place: u64, bytes: Bytes) {
        let mut guard = self.state.lock(rt);
        guard.put_answer(place, bytes);
        drop(guard);
        if let Some(it) = self.answered.get(place as usize) {
            it.notify_all();
        }
    }
}
