//! A source in memory.
ghost use Rattle.std.specs.Prelude.{◌≡◌, ◌≤◌, ◌+◌, List, length, take, drop, ◌++◌, min, true, false, OnOk, OnErr, IfOk, Some};
ghost use Rattle.edge_io.specs.Source.{Reads};
ghost use Rattle.edge_io.specs.Memory.{given_of, is_failing, supply_after, supply_failed};

use crate::failed::Failed;
use crate::source::Source;
use plfs_types::{Bytes, IdList};
use std::marker::Model;

/// Numbers of calls, from 0.
pub type CallList = IdList;

/// A source in memory, of which the calls of some numbers fail.
#[derive(Drop)]
pub struct MemorySource {
    bytes: Bytes,
    at: usize,
    piece: usize,
    fails: CallList,
    calls: u64,
    faults: u64,
}

impl Model for MemorySource {
    ghost use Rattle.std.specs.Prelude.{◌≤◌, length, drop};
    ghost use Rattle.edge_io.specs.Memory.{Supply};

    ghost Value = { Supply };

    ghost view = { λ s. record { left = drop s.at s.bytes; piece = s.piece; fails = s.fails; calls = s.calls; faults = s.faults } };

    ghost invariant = { λ s. (s.at ≤ length s.bytes) × (1 ≤ s.piece) };
}

impl MemorySource {
    /// A source of these bytes. One call moves at most `piece` bytes, and the calls of these numbers fail.
    pub fn new(bytes: Bytes, piece: usize, fails: CallList) -> MemorySource
        requires { 1 ≤ piece }
        ensures { result ≡ record { left = bytes; piece = piece; fails = fails; calls = 0; faults = 0 } }
    {
        MemorySource {
            bytes,
            at: 0,
            piece,
            fails,
            calls: 0,
            faults: 0,
        }
    }

    /// How often it has failed.
    pub fn faults(&self) -> u64
        ensures { result ≡ self.now.faults }
    {
        self.faults
    }
}

// Whether the call of this number is one of those that fail.
pub(crate) fn is_failing(fails: &[u64], call: u64) -> bool
    ensures { result ≡ is_failing fails.now call }
{
    fails.iter().any(|fail| *fail == call)
}

// Lays the front of what is left over the front of `into`, at most `piece` bytes, and says how many.
fn hand_over(left: &[u8], piece: usize, into: &mut [u8]) -> usize
    ensures count { result ≡ min (min (length left.now) piece) (length into.old) }
    ensures bytes { into.new ≡ take result left.now ++ drop result into.old }
{
    let count = left.len().min(piece).min(into.len());
    let front = &mut into[..count];
    front.copy_from_slice(&left[..count]);
    count
}

impl Source for MemorySource {
    ghost given = { given_of };

    fn read(&mut self, into: &mut [u8]) -> Result<usize, Failed>
        ensures source { Reads into.new (given_of self.old) (given_of self.new) result }
        ensures fails { OnErr result (is_failing self.old.fails self.old.calls ≡ true) }
        ensures works { OnOk result (is_failing self.old.fails self.old.calls ≡ false) }
        ensures failed { OnErr result (self.new ≡ supply_failed self.old) }
        ensures count { IfOk result (λ n. n ≡ min (min (length self.old.left) self.old.piece) (length into.old)) }
        ensures bytes { IfOk result (λ n. into.new ≡ take n self.old.left ++ drop n into.old) }
        ensures left { IfOk result (λ n. self.new ≡ supply_after n self.old) }
    {
        let call = self.calls;
        self.calls = call.saturating_add(1);
        if is_failing(self.fails.as_slice(), call) {
            self.faults = self.faults.saturating_add(1);
            return Err(Failed);
        }
        let count = hand_over(&self.bytes.as_slice()[self.at..], self.piece, into);
        self.at += count;
        Ok(count)
    }
}
