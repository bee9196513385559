//! A short text that is put together from its end.
ghost use Rattle.std.specs.Prelude.{◌≡◌, ◌+◌, ◌≤◌, ◌<◌, ◌++◌, [], ◌∷◌, length};
ghost use Rattle.std.specs.Fmt.{decimal};

use itoa::Buffer;
use std::marker::Model;

// The end of a text, of up to 96 bytes, to which bytes come in front. In contracts it is the list of them.
#[derive(Drop)]
pub struct Tail {
    bytes: [u8; 96],
    start: usize,
}

impl Model for Tail {
    ghost use Rattle.std.specs.Prelude.{◌≡◌, ◌≤◌, ℕ, List, length, drop};

    ghost Value = { List ℕ };

    ghost view = { λ t. drop t.start t.bytes };

    ghost invariant = { λ t. (t.start ≤ 96) × (length t.bytes ≡ 96) };
}

impl Tail {
    pub fn new() -> Tail
        ensures { result ≡ [] }
    {
        Tail {
            bytes: [0; 96],
            start: 96,
        }
    }

    // One byte in front.
    pub fn put(&mut self, byte: u8)
        requires { length self.old < 96 }
        ensures text { self.new ≡ byte ∷ self.old }
        ensures longer { length self.new ≡ length self.old + 1 }
    {
        self.start -= 1;
        self.bytes[self.start] = byte;
    }

    // These bytes in front.
    pub fn put_all(&mut self, piece: &[u8])
        requires { length piece.now + length self.old ≤ 96 }
        ensures text { self.new ≡ piece.now ++ self.old }
        ensures longer { length self.new ≡ length self.old + length piece.now }
    {
        let start = self.start - piece.len();
        let place = &mut self.bytes[start..self.start];
        place.copy_from_slice(piece);
        self.start = start;
    }

    // A number in decimal in front.
    #[tactic(auto, using(crate::proofs::Tails::at_most_20, crate::proofs::Tails::longer_by_20))]
    pub fn put_number(&mut self, number: u64)
        requires { length self.old ≤ 76 }
        ensures text { self.new ≡ decimal number ++ self.old }
        ensures longer { length self.new ≤ length self.old + 20 }
    {
        let mut buffer = Buffer::new();
        self.put_all(buffer.format(number).as_bytes());
    }

    pub fn as_slice(&self) -> &[u8]
        ensures { result.now ≡ self.now }
    {
        &self.bytes[self.start..]
    }
}
