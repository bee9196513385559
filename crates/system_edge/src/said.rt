//! What is remembered of standard output, so that it can be said on standard error why a run ended.
ghost use Rattle.std.specs.Prelude.{◌≡◌, ◌≤◌, ◌<◌, ◌+◌, ◌-◌, ◌^◌, ◌⊎◌, ℕ, List, [], length, min, true, false, None, IfSome, IfNone};
ghost use Rattle.std.specs.Str.{IsUtf8};
ghost use Rattle.system_edge.specs.Telling.{after_bytes, at_end, begun, from_space, is_of_damage, memory_of, nothing, tells_damage, with_more};

use crate::amount::Amount;
use memchr::memchr;
use std::alloc::Global;
use std::cell::RefCell;
use std::io::Write;
use std::{io, str};

/// The most bytes of a line that are remembered.
const MOST_REMEMBERED: usize = 1024;

/// The first line that was written of damage, up to its 1024th byte, and why the writing failed last.
///
/// Where a file is written out, one line may stand in its place, which says why. Where damage cuts a file off, what was written of it is
/// longer than any line of damage: it goes out in pieces of 2^20 bytes, of which only the last is shorter. A small file is not cut off so.
#[derive(Drop)]
pub struct Said {
    pub has_lines: bool,
    line: Vec<u8>,
    is_of_damage: bool,
    // Memory was refused for a line, so none is remembered any more.
    is_lost: bool,
    // How many bytes were written, up to 2^64 - 1.
    written: u64,
    pub error: Option<io::Error>,
}

impl Said {
    /// Nothing was written. What is written has lines, or it is the bytes of a file or one line in their place.
    pub fn new(alloc: Global, has_lines: bool) -> Said
        ensures lines { result.has_lines ≡ has_lines }
        ensures line { result.line.items ≡ [] }
        ensures none { (result.is_of_damage ≡ false) × (result.is_lost ≡ false) × (result.written ≡ 0) }
        ensures well { result.error ≡ None }
    {
        Said {
            has_lines,
            line: Vec::new(alloc),
            is_of_damage: false,
            is_lost: false,
            written: 0,
            error: None,
        }
    }

    /// The first line of damage without its line feed: the number of the script's line, a space, and what is damaged. It is empty where there was none, or where
    /// memory was refused for it.
    pub fn damage(&self) -> &str
        ensures text { tells_damage self.now ≡ true → IsUtf8 self.now.line.items → result.now ≡ self.now.line.items }
        ensures other { tells_damage self.now ≡ true → (¬ IsUtf8 self.now.line.items) → result.now ≡ [] }
        ensures none { tells_damage self.now ≡ false → result.now ≡ [] }
    {
        if self.tells_damage() {
            str::from_utf8(self.line.as_slice()).unwrap_or("")
        } else {
            ""
        }
    }

    // Whether a line of damage was written: among lines, or in the place of a file.
    fn tells_damage(&self) -> bool
        ensures { result ≡ tells_damage self.now }
    {
        self.is_of_damage && (self.has_lines || self.written == self.line.len() as u64 + 1)
    }

    // Takes in what was written next. Of a file, nothing is taken in once more than a line was written.
    fn hear(&mut self, bytes: &[u8])
        ensures written { self.new.written ≡ min (self.old.written + length bytes.now) (2 ^ 64 - 1) }
        ensures heard { (self.old.has_lines ≡ true) ⊎ (self.new.written ≤ 1024) → self.new.is_lost ≡ false → memory_of self.new ≡ after_bytes (memory_of self.old) bytes.now }
        ensures unheard { self.old.has_lines ≡ false → 1024 < self.new.written → memory_of self.new ≡ memory_of self.old }
        ensures lost { self.old.is_lost ≡ true → (self.new.is_lost ≡ true) × (memory_of self.new ≡ memory_of self.old) }
        ensures same { (self.new.has_lines ≡ self.old.has_lines) × (self.new.error ≡ self.old.error) }
    {
        self.written = self.written.saturating_add(bytes.len() as u64);
        if self.has_lines || self.written <= MOST_REMEMBERED as u64 {
            self.take_in(bytes);
        }
    }

    // Takes in lines, and the front of one behind them.
    fn take_in(&mut self, bytes: &[u8])
        ensures heard { self.new.is_lost ≡ false → memory_of self.new ≡ after_bytes (memory_of self.old) bytes.now }
        ensures lost { self.old.is_lost ≡ true → (self.new.is_lost ≡ true) × (memory_of self.new ≡ memory_of self.old) }
        ensures same { (self.new.has_lines ≡ self.old.has_lines) × (self.new.error ≡ self.old.error) × (self.new.written ≡ self.old.written) }
    {
        let mut rest = bytes;
        while let Some((line, behind)) = first_line(rest) {
            self.take_line(line);
            rest = behind;
        }
        self.remember(rest);
    }

    // Takes in the rest of a line. Most lines come whole and tell of no damage, and nothing of them is copied.
    fn take_line(&mut self, line: &[u8])
        ensures heard { self.old.is_of_damage ≡ false → self.new.is_lost ≡ false → memory_of self.new ≡ at_end (with_more self.old.line.items line.now) }
        ensures found { self.old.is_of_damage ≡ true → memory_of self.new ≡ memory_of self.old }
        ensures lost { self.old.is_lost ≡ true → (self.new.is_lost ≡ true) × (memory_of self.new ≡ memory_of self.old) }
        ensures same { (self.new.has_lines ≡ self.old.has_lines) × (self.new.error ≡ self.old.error) × (self.new.written ≡ self.old.written) }
    {
        if self.line.as_slice().is_empty() && !may_be_of_damage(line) {
            return;
        }
        self.remember(line);
        self.end_line();
    }

    // The line is at its end: unless it tells of damage it is forgotten.
    fn end_line(&mut self)
        ensures found { self.old.is_of_damage ≡ true → memory_of self.new ≡ memory_of self.old }
        ensures ends { self.old.is_of_damage ≡ false → self.old.is_lost ≡ false → memory_of self.new ≡ at_end self.old.line.items }
        ensures lost { self.old.is_lost ≡ true → memory_of self.new ≡ memory_of self.old }
        ensures same { (self.new.has_lines ≡ self.old.has_lines) × (self.new.error ≡ self.old.error) × (self.new.written ≡ self.old.written) × (self.new.is_lost ≡ self.old.is_lost) }
    {
        if self.is_of_damage || self.is_lost {
            return;
        }
        if is_of_damage(self.line.as_slice()) {
            self.is_of_damage = true;
        } else {
            self.line.clear();
        }
    }

    // Remembers more of the line, unless one of damage is remembered.
    fn remember(&mut self, part: &[u8])
        ensures found { self.old.is_of_damage ≡ true → memory_of self.new ≡ memory_of self.old }
        ensures more { self.old.is_of_damage ≡ false → self.new.is_lost ≡ false → self.new.line.items ≡ with_more self.old.line.items part.now }
        ensures lost { self.old.is_lost ≡ true → (self.new.is_lost ≡ true) × (memory_of self.new ≡ memory_of self.old) }
        ensures same { (self.new.has_lines ≡ self.old.has_lines) × (self.new.error ≡ self.old.error) × (self.new.written ≡ self.old.written) × (self.new.is_of_damage ≡ self.old.is_of_damage) }
    {
        if self.is_of_damage || self.is_lost {
            return;
        }
        let room = MOST_REMEMBERED.saturating_sub(self.line.len());
        let count = part.len().min(room);
        if self.line.extend_from_slice(&part[..count]).is_err() {
            self.line.clear();
            self.is_lost = true;
        }
    }
}

// A line from its first space on.
fn from_space(line: &[u8]) -> &[u8]
    ensures { result.now ≡ from_space line.now }
{
    let mut rest = line;
    while let Some((first, behind)) = rest.split_first() {
        if *first == b' ' {
            return rest;
        }
        rest = behind;
    }
    rest
}

// Whether a line tells of damage: behind its number stands the word.
fn is_of_damage(line: &[u8]) -> bool
    ensures { result ≡ is_of_damage line.now }
{
    from_space(line).starts_with(b" damaged ") && str::from_utf8(line).is_ok()
}

// Whether behind the first space stands the letter with which the word of damage begins.
fn may_be_of_damage(line: &[u8]) -> bool
    ensures { result ≡ false → at_end (with_more [] line.now) ≡ nothing }
{
    let behind = from_space(line);
    behind.len() >= 2 && behind[1] == b'd'
}

// The first line without its line feed, and what is behind that. None where there is no line feed.
fn first_line(bytes: &[u8]) -> Option<(&[u8], &[u8])>
    ensures line { IfSome result (λ parts. (line : List ℕ) → after_bytes (begun line) bytes.now ≡ after_bytes (at_end (with_more line parts.0.now)) parts.1.now) }
    ensures shorter { IfSome result (λ parts. length parts.1.now < length bytes.now) }
    ensures none { IfNone result ((line : List ℕ) → after_bytes (begun line) bytes.now ≡ begun (with_more line bytes.now)) }
{
    match memchr(b'\n', bytes) {
        Some(place) => Some((&bytes[..place], &bytes[place + 1..])),
        None => None,
    }
}

/// A writer, beside which stands what it wrote last. What is shown of an amount is cleared before it writes.
#[derive(Drop)]
pub struct Saying<'a, 'b, W> {
    pub writer: W,
    pub said: &'a RefCell<Said>,
    pub amount: &'b RefCell<Amount>,
}

impl<'a, 'b, W: Write> Write for Saying<'a, 'b, W> {
    ghost contents = { λ saying. W.contents saying.writer };

    fn write(&mut self, buf: &[u8]) -> io::Result<usize> {
        if let Ok(mut amount) = self.amount.try_borrow_mut() {
            amount.clear();
        }
        let end = self.writer.write(buf);
        if let Ok(mut said) = self.said.try_borrow_mut() {
            match &end {
                Ok(count) => said.hear(&buf[..*count]),
                Err(error) => said.error = Some(*error),
            }
        }
        end
    }

    fn flush(&mut self) -> io::Result<()> {
        self.writer.flush()
    }
}
