//! A sink in memory.
ghost use Rattle.std.specs.Prelude.{◌≡◌, length, min, [], true, false, OnErr, IfOk, Some};
ghost use Rattle.edge_io.specs.Sink.{Takes};
ghost use Rattle.edge_io.specs.Memory.{is_failing, intake_after, intake_failed, taking_of};

use crate::failed::Failed;
use crate::memory_source::{CallList, is_failing};
use crate::sink::Sink;
use std::alloc::Global;
use std::marker::Model;

/// A sink in memory, of which the calls of some numbers fail.
#[derive(Drop)]
pub struct MemorySink {
    taken: Vec<u8>,
    piece: usize,
    fails: CallList,
    calls: u64,
    faults: u64,
    stalls: u64,
}

impl Model for MemorySink {
    ghost use Rattle.edge_io.specs.Memory.{Intake};

    ghost Value = { Intake };

    ghost view = { λ s. record { taken = s.taken.items; piece = s.piece; fails = s.fails; calls = s.calls; faults = s.faults; stalls = s.stalls } };
}

impl MemorySink {
    /// A sink that has taken nothing. One call moves at most `piece` bytes, and the calls of these numbers fail.
    pub fn new(alloc: Global, piece: usize, fails: CallList) -> MemorySink
        ensures { result ≡ record { taken = []; piece = piece; fails = fails; calls = 0; faults = 0; stalls = 0 } }
    {
        MemorySink {
            taken: Vec::new(alloc),
            piece,
            fails,
            calls: 0,
            faults: 0,
            stalls: 0,
        }
    }

    /// The bytes it has taken.
    pub fn taken(&self) -> &[u8]
        ensures { result.now ≡ self.now.taken }
    {
        self.taken.as_slice()
    }

    /// How often it has failed.
    pub fn faults(&self) -> u64
        ensures { result ≡ self.now.faults }
    {
        self.faults
    }

    /// How often it took nothing of a piece that isn't empty.
    pub fn stalls(&self) -> u64
        ensures { result ≡ self.now.stalls }
    {
        self.stalls
    }
}

impl Sink for MemorySink {
    ghost taking = { taking_of };

    // Want of memory is a fault like the planned ones.
    fn write(&mut self, piece: &[u8]) -> Result<usize, Failed>
        ensures sink { Takes piece.now (taking_of self.old) (taking_of self.new) result }
        ensures works { IfOk result (λ n. is_failing self.old.fails self.old.calls ≡ false) }
        ensures count { IfOk result (λ n. n ≡ min (length piece.now) self.old.piece) }
        ensures taken { IfOk result (λ n. self.new ≡ intake_after n piece.now self.old) }
        ensures failed { OnErr result (self.new ≡ intake_failed self.old) }
    {
        let call = self.calls;
        self.calls = call.saturating_add(1);
        let count = piece.len().min(self.piece);
        if is_failing(self.fails.as_slice(), call)
            || self.taken.extend_from_slice(&piece[..count]).is_err()
        {
            self.faults = self.faults.saturating_add(1);
            return Err(Failed);
        }
        if count == 0 && !piece.is_empty() {
            self.stalls = self.stalls.saturating_add(1);
        }
        Ok(count)
    }
}
