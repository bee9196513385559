//! The summary of a run's lines.
ghost use Rattle.std.specs.Prelude.{◌≡◌, ◌++◌, IfOk, OnOk};
ghost use Rattle.std.specs.Fmt.{decimal};
ghost use Rattle.plfs_program.specs.Summary.{is_counted as counts, count as count_of, told_size as size_told, last_size as the_last_size, size_text as text_of_size, row as row_of, summary as summary_of};

use itoa::Buffer;
use plfs_types::NoMemory;
use script_lang::{CompactLine, Outcome};
use std::alloc::Global;

/// What a row of the summary counts.
#[derive(Clone, Copy)]
pub(crate) enum Counted {
    Refused,
    Faults,
    Damaged,
    Same,
    Differs,
}

fn is_counted(counted: Counted, outcome: &Outcome) -> bool
    ensures { result ≡ counts counted outcome.now }
{
    match counted {
        Counted::Refused => matches!(outcome, Outcome::Refused { .. }),
        Counted::Faults => matches!(outcome, Outcome::Fault),
        Counted::Damaged => matches!(outcome, Outcome::Damaged { .. }),
        Counted::Same => matches!(outcome, Outcome::Same),
        Counted::Differs => matches!(outcome, Outcome::Differs { .. }),
    }
}

fn counts_line(counted: Counted, line: &CompactLine) -> bool
    ensures { result ≡ counts counted line.now.outcome }
{
    let seen = line.seen();
    let found = is_counted(counted, seen.outcome());
    drop(seen);
    found
}

// How many of the lines have such an outcome.
fn count(counted: Counted, lines: &[CompactLine]) -> u64
    ensures { result ≡ count_of counted lines.now }
{
    let mut count = 0;
    for line in lines {
        if counts_line(counted, line) {
            count += 1;
        }
    }
    count
}

fn size_in(outcome: &Outcome) -> Option<u64>
    ensures { result ≡ size_told outcome.now }
{
    match outcome {
        Outcome::Stat { size, .. } => Some(*size),
        _ => None,
    }
}

fn told_size(line: &CompactLine) -> Option<u64>
    ensures { result ≡ size_told line.now.outcome }
{
    let seen = line.seen();
    let size = size_in(seen.outcome());
    drop(seen);
    size
}

// The size that the last line tells.
fn last_size(lines: &[CompactLine]) -> Option<u64>
    ensures { result ≡ the_last_size lines.now }
{
    match lines.last() {
        Some(line) => told_size(line),
        None => None,
    }
}

// One row more.
fn push_row(text: &mut Vec<u8>, word: &[u8], rest: &[u8]) -> Result<(), NoMemory>
    ensures { OnOk result (text.new.items ≡ text.old.items ++ row_of word.now rest.now) }
{
    text.extend_from_slice(word)?;
    text.extend_from_slice(rest)?;
    text.push(b'\n')?;
    Ok(())
}

fn push_number(text: &mut Vec<u8>, word: &[u8], number: u64) -> Result<(), NoMemory>
    ensures { OnOk result (text.new.items ≡ text.old.items ++ row_of word.now (decimal number)) }
{
    let mut buffer = Buffer::new();
    push_row(text, word, buffer.format(number).as_bytes())
}

fn push_size(text: &mut Vec<u8>, word: &[u8], size: Option<u64>) -> Result<(), NoMemory>
    ensures { OnOk result (text.new.items ≡ text.old.items ++ row_of word.now (text_of_size size)) }
{
    match size {
        Some(size) => push_number(text, word, size),
        None => push_row(text, word, b"-"),
    }
}

/// Seven rows: how many lines there are, how many of each kind, and the size that the last one tells.
pub(crate) fn summary(alloc: Global, lines: &[CompactLine]) -> Result<Vec<u8>, NoMemory>
    ensures { IfOk result (λ text. text.items ≡ summary_of lines.now) }
{
    let mut text = Vec::new(alloc);
    push_number(&mut text, b"lines ", lines.len() as u64)?;
    push_number(&mut text, b"refused ", count(Counted::Refused, lines))?;
    push_number(&mut text, b"faults ", count(Counted::Faults, lines))?;
    push_number(&mut text, b"damaged ", count(Counted::Damaged, lines))?;
    push_number(&mut text, b"same ", count(Counted::Same, lines))?;
    push_number(&mut text, b"differs ", count(Counted::Differs, lines))?;
    push_size(&mut text, b"size ", last_size(lines))?;
    Ok(text)
}
