//! The bytes of a frame that is handed on.
ghost use Rattle.std.specs.Prelude.{◌≡◌, ◌+◌, ◌≤◌, ◌++◌, ◌⊎◌, [], IfOk, length, take, drop, min};
ghost use Rattle.std.specs.Int.{w64, to_le_bytes};
ghost use Rattle.frame_format.specs.Heads.{head_bytes};

use frame_format::{HEAD_SIZE, Head};
use plfs_types::{Bytes, NoMemory};
use std::alloc::Global;
use std::marker::Model;

/// What is left to be handed over of a frame. In contracts it is these bytes.
#[derive(Drop)]
pub struct Outgoing {
    head: Bytes,
    at: usize,
    payload: Bytes,
    from: usize,
}

impl Model for Outgoing {
    ghost use Rattle.std.specs.Prelude.{◌≤◌, ◌++◌, List, ℕ, length, drop};

    ghost Value = { List ℕ };

    ghost view = { λ o. drop o.at o.head ++ drop o.from o.payload };

    ghost invariant = { λ o. (o.at ≤ length o.head) × (o.from ≤ length o.payload) };
}

// The bytes of a head.
fn head_bytes(head: &Head) -> [u8; HEAD_SIZE]
    ensures { result ≡ head_bytes head.now }
{
    let mut bytes = [0; HEAD_SIZE];
    put_number(&mut bytes, 0, head.kind);
    put_number(&mut bytes, 8, head.actor);
    put_number(&mut bytes, 16, head.number);
    put_number(&mut bytes, 24, head.place);
    put_number(&mut bytes, 32, head.extent);
    put_number(&mut bytes, 40, head.len);
    bytes
}

// Puts a number behind the first `place` bytes, which stay.
fn put_number(bytes: &mut [u8; HEAD_SIZE], place: usize, number: u64)
    requires { place + 8 ≤ HEAD_SIZE }
    ensures { take (place + 8) bytes.new ≡ take place bytes.old ++ to_le_bytes w64 number }
{
    let field = &mut bytes[place..place + 8];
    field.copy_from_slice(&number.to_le_bytes());
}

// Lays the front of what is left over the front of `into`, as much as there is and fits, and says how much.
fn lay_over(left: &[u8], into: &mut [u8]) -> usize
    ensures count { result ≡ min (length left.now) (length into.old) }
    ensures bytes { into.new ≡ take result left.now ++ drop result into.old }
{
    let count = left.len().min(into.len());
    let front = &mut into[..count];
    front.copy_from_slice(&left[..count]);
    count
}

impl Outgoing {
    /// No bytes.
    pub fn none(alloc: Global) -> Outgoing
        ensures { result ≡ [] }
    {
        Outgoing {
            head: Bytes::new(alloc),
            at: 0,
            payload: Bytes::new(alloc),
            from: 0,
        }
    }

    /// The bytes of a frame.
    pub fn frame(alloc: Global, head: &Head, payload: Bytes) -> Result<Outgoing, NoMemory>
        ensures { IfOk result (λ left. left ≡ head_bytes head.now ++ payload) }
    {
        let bytes = head_bytes(head);
        let head = Bytes::copy(alloc, &bytes)?;
        Ok(Outgoing {
            head,
            at: 0,
            payload,
            from: 0,
        })
    }

    /// Hands over a front of what is left, in the first bytes of `into`, and says how many. None are handed over only where none are left, or
    /// `into` is empty.
    pub fn hand(&mut self, into: &mut [u8]) -> usize
        ensures within { result ≤ length into.old }
        ensures bytes { into.new ≡ take result self.old ++ drop result into.old }
        ensures left { self.new ≡ drop result self.old }
        ensures ends { result ≡ 0 → (self.old ≡ []) ⊎ (length into.old ≡ 0) }
    {
        if self.at < self.head.as_slice().len() {
            let count = lay_over(&self.head.as_slice()[self.at..], into);
            self.at += count;
            return count;
        }
        let count = lay_over(&self.payload.as_slice()[self.from..], into);
        self.from += count;
        count
    }
}
