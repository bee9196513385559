//! The program `merge_bench`: how long the merge of strided entries takes, and what is read of it.
//!
//! Its words are the number of entries and that of their writers, 64 where it is left out, and it
//! prints a line a figure; times are those of the processor, in nanoseconds. Without words it takes
//! 640 entries and leaves the times out, so that it prints the same at each run. It owns the entries,
//! truncates and reads that are measured; the work is that of `interval_merge` and `read_plan`.
#![tactic(auto)]

mod measured;
mod strided;
mod sums;
mod uneven;

use crate::measured::{Failure, measure};
use crate::strided::Task;
use std::env;
use std::io::{self, Write};
use std::process::ExitCode;

/// Measures, and ends with 0, with 2 where the words are wrong, with 3 for want of memory, or with 4
/// where `/proc` can't be read, or the system's clock or output fails.
fn main(rt: HostRuntime) -> ExitCode {
    let Some(task) = asked(&rt) else {
        let _ = io::writer(&rt).write_all(USAGE);
        return ExitCode::from(2);
    };
    match measure(&rt, &task) {
        Ok(()) => ExitCode::SUCCESS,
        Err(Failure::Memory) => ExitCode::from(3),
        Err(Failure::System) => ExitCode::from(4),
    }
}

const USAGE: &[u8] = b"merge_bench [ENTRIES [WRITERS]], up to 100000000 of up to 10000\n";

/// What the words ask for, or None where they are wrong.
fn asked(rt: &HostRuntime) -> Option<Task> {
    let mut words = env::args(rt).ok()?.skip(1);
    let Some(count) = words.next() else {
        return Some(Task {
            count: 640,
            writers: 64,
            is_timed: false,
        });
    };
    let count = number(count.as_str(), 100_000_000)?;
    let writers = match words.next() {
        None => 64,
        Some(writers) => number(writers.as_str(), 10_000)?,
    };
    if words.next().is_some() {
        return None;
    }
    Some(Task {
        count,
        writers,
        is_timed: true,
    })
}

/// The number that a word is, from 1 up to a limit.
fn number(word: &str, most: u64) -> Option<u64> {
    let number = word.parse::<u64>().ok()?;
    if number < 1 || number > most {
        return None;
    }
    Some(number)
}
