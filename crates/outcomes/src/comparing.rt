//! Bytes beside bytes, many at a time.
ghost use Rattle.std.specs.Prelude.{◌≡◌, ◌↔◌, ◌+◌, ◌≤◌, length, take, drop, IsTrue};

use std::simd::prelude::*;

/// How many bytes are compared at a time.
const LANES: usize = 64;

/// Whether the next 64 bytes from this place on are the same.
#[inline(always)]
fn are_same_bytes_at(a: &[u8], b: &[u8], at: usize) -> bool
    requires { (at + 64 ≤ length a.now) × (at + 64 ≤ length b.now) }
    ensures { IsTrue result ↔ (take 64 (drop at a.now) ≡ take 64 (drop at b.now)) }
{
    u8x64::from_slice(&a[at..])
        .simd_ne(u8x64::from_slice(&b[at..]))
        .to_bitmask()
        == 0
}

/// Whether these are the same bytes. Slices compare theirs one by one, which takes many times as long.
pub(crate) fn are_same_bytes(a: &[u8], b: &[u8]) -> bool
    ensures { IsTrue result ↔ (a.now ≡ b.now) }
{
    if a.len() != b.len() {
        return false;
    }
    let mut at = 0;
    while LANES <= a.len() - at {
        if !are_same_bytes_at(a, b, at) {
            return false;
        }
        at += LANES;
    }
    let rest = &a[at..];
    let other = &b[at..];
    rest == other
}
