//! The bytes of an answer, as far as they came.
ghost use Rattle.std.specs.Prelude.{◌≡◌, ◌++◌, [], IfOk, OnErr, length, take, min};
ghost use Rattle.shared_frames.specs.Answers.{is_whole, missing};

use frame_format::ANSWER_HEAD_SIZE;
use index_entry::number_at;
use plfs_types::{Bytes, NoMemory};
use std::alloc::Global;
use std::marker::Model;
use std::mem;

/// The front of an answer that came so far. In contracts it is these bytes.
#[derive(Drop)]
pub struct Incoming {
    bytes: Vec<u8>,
}

impl Model for Incoming {
    ghost use Rattle.std.specs.Prelude.{List, ℕ};

    ghost Value = { List ℕ };

    ghost view = { λ i. i.bytes.items };
}

impl Incoming {
    /// Nothing came.
    pub fn none(alloc: Global) -> Incoming
        ensures { result ≡ [] }
    {
        Incoming {
            bytes: Vec::new(alloc),
        }
    }

    // How many bytes are missing of the head, or behind that of the answer.
    fn missing(&self) -> u64
        ensures { result ≡ missing self.now }
    {
        let count = self.bytes.len();
        if count < ANSWER_HEAD_SIZE {
            return (ANSWER_HEAD_SIZE - count) as u64;
        }
        let len = number_at(&self.bytes, 24);
        len.saturating_sub((count - ANSWER_HEAD_SIZE) as u64)
    }

    /// Whether all of the answer came.
    pub fn is_whole(&self) -> bool
        ensures { result ≡ is_whole self.now }
    {
        ANSWER_HEAD_SIZE <= self.bytes.len() && self.missing() == 0
    }

    /// Takes a front of the piece, and says how many bytes. It takes none of those behind the head or the answer that it belongs to.
    pub fn take(&mut self, piece: &[u8]) -> Result<usize, NoMemory>
        ensures count { IfOk result (λ n. n ≡ min (missing self.old) (length piece.now)) }
        ensures bytes { IfOk result (λ n. self.new ≡ self.old ++ take n piece.now) }
        ensures kept { OnErr result (self.new ≡ self.old) }
    {
        let count = self.missing().min(piece.len() as u64) as usize;
        self.bytes.extend_from_slice(&piece[..count])?;
        Ok(count)
    }

    /// Gives what came, and begins anew.
    pub fn give(&mut self, alloc: Global) -> Bytes
        ensures given { result ≡ self.old }
        ensures anew { self.new ≡ [] }
    {
        Bytes::from_vec(mem::replace(&mut self.bytes, Vec::new(alloc)))
    }
}
