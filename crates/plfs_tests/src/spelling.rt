//! What stands in a text, and what is put behind a line.
use edge_io::CallList;
use plfs_types::Bytes;
use std::alloc::Global;
use test_lines::Line;

/// What stands before the first such sign and what stands behind it, or all of the text and nothing.
pub(crate) fn parts<'a>(text: &'a str, sign: &str) -> (&'a str, &'a str) {
    text.split_once(sign).unwrap_or((text, ""))
}

/// The number that the text is, or 0.
pub(crate) fn number(text: &str) -> u64 {
    text.parse::<u64>().unwrap_or(0)
}

/// The numbers of a text.
pub(crate) fn numbers(alloc: Global, text: &str) -> CallList {
    let mut all = CallList::new(alloc);
    for word in text.split_whitespace() {
        let _ = all.push(number(word));
    }
    all
}

/// The bytes that a text tells: a number stands for its 8 bytes, the least first, and any other word for its letters.
pub(crate) fn contents(alloc: Global, text: &str) -> Vec<u8> {
    let mut bytes = Vec::new(alloc);
    for word in text.split_whitespace() {
        let _ = match word.parse::<u64>() {
            Ok(number) => bytes.extend_from_slice(&number.to_le_bytes()),
            Err(_) => bytes.extend_from_slice(word.as_bytes()),
        };
    }
    bytes
}

/// The letters of a text, each a byte.
pub(crate) fn letters(alloc: Global, text: &str) -> Bytes {
    let mut bytes = Vec::new(alloc);
    for letter in text.chars() {
        let _ = bytes.push(u8::try_from(letter).unwrap_or(b'?'));
    }
    Bytes::from_vec(bytes)
}

/// A text behind what the line has, and a line feed behind it.
pub(crate) fn end(line: &mut Line, text: &str) {
    line.push(text);
    line.push("\n");
}

/// The text behind what the line has, where `{ab*3}` in it stands for `ababab`.
pub(crate) fn spread(line: &mut Line, text: &str) {
    for part in text.split('{') {
        let (inner, rest) = part.split_once('}').unwrap_or(("", part));
        let (piece, times) = parts(inner, "*");
        for _ in 0..number(times) {
            line.push(piece);
        }
        line.push(rest);
    }
}
