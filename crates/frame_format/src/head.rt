//! The heads of requests.
ghost use Rattle.std.specs.Prelude.{◌≡◌, length};
ghost use Rattle.frame_format.specs.Heads.{head_bytes, FitsHead};
ghost use Rattle.frame_format.specs.declared.head.Head.{Head as AHead};

use index_entry::number_at;

/// The bytes of a request's head.
pub const HEAD_SIZE: usize = 48;

/// The head of a request: six numbers.
#[derive(Clone, Copy, PartialEq, Eq)]
pub struct Head {
    /// What is asked.
    pub kind: u64,
    /// The place of the actor that makes the statement, from 0.
    pub actor: u64,
    /// A number of the client's choice, which the answer tells again.
    pub number: u64,
    /// A place or a size in bytes, or how many workers.
    pub place: u64,
    /// How many bytes are read, or how long the first of two names is.
    pub extent: u64,
    /// How many bytes follow.
    pub len: u64,
}

impl Head {
    /// The head that these bytes are. Any are one.
    pub fn read(bytes: &[u8]) -> Head
        requires { length bytes.now ≡ HEAD_SIZE }
        ensures found { bytes.now ≡ head_bytes result }
        ensures only { (head : AHead) → FitsHead head → bytes.now ≡ head_bytes head → result ≡ head }
    {
        Head {
            kind: number_at(bytes, 0),
            actor: number_at(bytes, 8),
            number: number_at(bytes, 16),
            place: number_at(bytes, 24),
            extent: number_at(bytes, 32),
            len: number_at(bytes, 40),
        }
    }
}
