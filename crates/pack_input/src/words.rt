//! What stands between spaces, and between line feeds.
ghost use Rattle.std.specs.Prelude.{◌≡◌, ◌<◌, ◌≤◌, ◌==◌, ◌∷◌, length, Some, IfSome, option_map, position};
ghost use Rattle.std.specs.List.{list_any};
ghost use Rattle.pack_input.specs.Words.{lines_of};
ghost use Rattle.plfs_types.specs.Parts.{parts_of, parts_behind, words_of, is_empty};

use memchr::memchr;

/// The place of the first such byte.
#[tactic(auto, using(crate::proofs::FirstBytes::first_place))]
fn place_of_byte(bytes: &[u8], at: u8) -> Option<usize>
    ensures place { result ≡ position (λ b. b == at) bytes.now }
    ensures within { IfSome result (λ place. place < length bytes.now) }
{
    memchr(at, bytes)
}

/// What stands before the first such byte, and what stands behind it, or None where there is none.
pub(crate) fn cut(bytes: &[u8], at: u8) -> (&[u8], Option<&[u8]>)
    ensures parts { parts_of at bytes.now ≡ result.0.now ∷ parts_behind at (option_map (λ r. r.now) result.1) }
    ensures shorter { IfSome result.1 (λ rest. length rest.now < length bytes.now) }
{
    match place_of_byte(bytes, at) {
        Some(place) => (&bytes[..place], Some(&bytes[place + 1..])),
        None => (bytes, None),
    }
}

/// Whether a word of the line is empty.
pub(crate) fn has_empty_word(line: &[u8]) -> bool
    ensures { result ≡ list_any is_empty (words_of line.now) }
{
    let mut rest = Some(line);
    while let Some(words) = rest {
        let (word, later) = cut(words, b' ');
        if word.is_empty() {
            return true;
        }
        rest = later;
    }
    false
}

/// The first line, and the bytes behind it.
#[tactic(auto, using(crate::proofs::Cuts::line_cut, crate::proofs::Cuts::line_whole))]
pub(crate) fn first_line(bytes: &[u8]) -> (&[u8], &[u8])
    requires { 1 ≤ length bytes.now }
    ensures lines { lines_of bytes.now ≡ result.0.now ∷ lines_of result.1.now }
    ensures shorter { length result.1.now < length bytes.now }
{
    let (line, later) = cut(bytes, b'\n');
    match later {
        Some(rest) => (line, rest),
        None => (line, &[]),
    }
}
