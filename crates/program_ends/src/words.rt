//! Words that several programs have, and the status of several ends.
ghost use Rattle.std.specs.Prelude.{◌≡◌, ◌<◌, ◌^◌, ◌↔◌, ℕ, IfNone, IfSome, IsTrue, codes, max};
ghost use Rattle.std.specs.Fmt.{decimal};

use plfs_types::{Word, read_decimal};

/// The host that a word spells, or None exactly where it spells none.
pub fn host_of(word: &Word) -> Option<u32>
    ensures found { IfSome result (λ host. word.now ≡ decimal host) }
    ensures none { IfNone result ((host : ℕ) → host < 2 ^ 32 → word.now ≡ decimal host → ⊥) }
{
    match read_decimal(word.as_bytes()) {
        Some(number) => u32::try_from(number).ok(),
        None => None,
    }
}

/// Whether a word says that files may be written over.
pub fn is_over(word: &Word) -> bool
    ensures { IsTrue result ↔ (word.now ≡ codes "--over") }
{
    word.as_bytes() == b"--over".as_slice()
}

/// The greater of two statuses.
pub fn greater(a: u8, b: u8) -> u8
    ensures { result ≡ max a b }
{
    if a < b { b } else { a }
}
