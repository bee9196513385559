//! A name in the making.
ghost use Rattle.std.specs.Prelude.{◌≡◌, ◌+◌, ◌≤◌, ◌++◌, [], ◌∷◌, length};
ghost use Rattle.std.specs.List.{flat_map};
ghost use Rattle.std.specs.Fmt.{decimal};
ghost use Rattle.container_layout.specs.Numbers.{dotted, behind_dot};

use itoa::Buffer;
use plfs_types::Name;
use std::marker::Model;

// Up to 96 bytes. In contracts it is the list of them.
#[derive(Drop)]
pub struct Text {
    bytes: [u8; 96],
    len: usize,
}

impl Model for Text {
    ghost use Rattle.std.specs.Prelude.{◌≡◌, ◌≤◌, ℕ, List, length, take};

    ghost Value = { List ℕ };

    ghost view = { λ t. take t.len t.bytes };

    ghost invariant = { λ t. (t.len ≤ 96) × (length t.bytes ≡ 96) };
}

impl Text {
    pub fn new() -> Text
        ensures { result ≡ [] }
    {
        Text {
            bytes: [0; 96],
            len: 0,
        }
    }

    pub fn push(&mut self, piece: &[u8])
        requires { length self.old + length piece.now ≤ 96 }
        ensures { self.new ≡ self.old ++ piece.now }
    {
        let end = self.len + piece.len();
        let place = &mut self.bytes[self.len..end];
        place.copy_from_slice(piece);
        self.len = end;
    }

    // In decimal.
    pub fn push_number(&mut self, number: u64)
        requires { length self.old + length (decimal number) ≤ 96 }
        ensures { self.new ≡ self.old ++ decimal number }
    {
        let mut buffer = Buffer::new();
        self.push(buffer.format(number).as_bytes());
    }

    // In decimal, with a dot between each two.
    pub fn push_dotted(&mut self, numbers: &[u64])
        requires { length self.old + length (dotted numbers.now) ≤ 96 }
        ensures { self.new ≡ self.old ++ dotted numbers.now }
    {
        if let [first, others @ ..] = numbers {
            self.push_number(*first);
            self.push_behind_dots(others);
        }
    }

    // In decimal, each behind a dot.
    fn push_behind_dots(&mut self, numbers: &[u64])
        requires { length self.old + length (flat_map behind_dot numbers.now) ≤ 96 }
        ensures { self.new ≡ self.old ++ flat_map behind_dot numbers.now }
    {
        for number in numbers {
            self.push(b".");
            self.push_number(*number);
        }
    }

    pub fn name(&self) -> Name
        ensures { result ≡ self.now }
    {
        Name::from_bytes(&self.bytes[..self.len]).unwrap()
    }
}
