//! Runs of a command over the store.
use crate::spelling::{end, letters, numbers, parts};
use crate::stages::{Stage, Under};
use edge_io::{ListClock, MemorySink, MemorySource, NoGate};
use plfs_program::{plfs, single};
use plfs_types::{Bytes, Word};
use program_ends::Ended;
use std::alloc::Global;
use std::sync::Wait;
use std::thread::Threads;
use std::{mem, str};
use test_lines::Line;

fn words(alloc: Global, text: &str) -> Vec<Word> {
    let mut words = Vec::new(alloc);
    for word in text.split_whitespace() {
        if let Ok(word) = Word::copy(alloc, word) {
            let _ = words.push(word);
        }
    }
    words
}

// What stands behind this word of the head, or else this.
fn setting<'a>(head: &'a str, word: &str, otherwise: &'a str) -> &'a str {
    for setting in head.split(", ") {
        let (first, rest) = parts(setting, " ");
        if first == word {
            return rest;
        }
    }
    otherwise
}

// Runs the words of the head with this input over the store. Gives what the run left, and what it printed.
fn run_on<R: Threads + Wait + Sync>(
    rt: &R,
    alloc: Global,
    store: Under,
    head: &str,
    input: Bytes,
) -> (Ended<Under>, MemorySink) {
    let words = words(alloc, parts(head, ",").0);
    let piece = setting(head, "sink-piece", "1048576")
        .parse::<usize>()
        .unwrap_or(0);
    let source_fails = numbers(alloc, setting(head, "source-fault", ""));
    let sink_fails = numbers(alloc, setting(head, "sink-fault", ""));
    let clock = ListClock::new(numbers(alloc, setting(head, "at", "10")));
    let mut input = MemorySource::new(input, 7, source_fails);
    let mut out = MemorySink::new(alloc, piece, sink_fails);
    let ended = if setting(head, "threads", "no").is_empty() {
        plfs(
            rt, alloc, &words, &mut input, &mut out, store, clock, &NoGate,
        )
    } else {
        single(alloc, &words, &mut input, &mut out, store, clock)
    };
    drop((words, input));
    (ended, out)
}

// Runs it over the stage's store. Gives the status, or none of a run's.
fn status_of<R: Threads + Wait + Sync>(rt: &R, stage: &mut Stage, head: &str, input: Bytes) -> u8 {
    match stage.store.take() {
        Some(store) => {
            let (ended, out) = run_on(rt, stage.alloc, store, head, input);
            let Ended { status, store } = ended;
            drop(mem::replace(&mut stage.store, store));
            drop(mem::replace(&mut stage.out, out));
            status
        }
        None => {
            drop(input);
            u8::MAX
        }
    }
}

// The lines of an input, and what is printed of them.
fn tell_apart(body: &str, input: &mut Line, printed: &mut Line) {
    let mut number: u64 = 0;
    for line in body.lines() {
        number = number.saturating_add(1);
        if let Some(text) = line.strip_prefix("= ") {
            end(printed, text);
        } else {
            let (statement, outcome) = parts(line, " -> ");
            end(input, statement);
            if !outcome.is_empty() {
                printed.say("", number);
                printed.push(" ");
                end(printed, outcome);
            }
        }
    }
}

// The bytes of the input, of which the last line may have no line feed.
fn input_of(alloc: Global, head: &str, input: &str) -> Bytes {
    if setting(head, "unended", "no").is_empty() {
        letters(alloc, input.trim_end())
    } else {
        letters(alloc, input)
    }
}

// Says where a run ended otherwise.
fn judge(stage: &mut Stage, head: &str, status: u8, want: &str, printed: &str) {
    let mut told = Line::new(stage.alloc);
    told.say("", u64::from(status));
    let (statuses, front) = parts(want, " ");
    let is_printed = front == ".." || stage.out.taken() == printed.as_bytes();
    if !is_printed || !statuses.contains(told.as_str()) {
        stage.wrong.push(head);
        stage.wrong.push(": ");
        end(&mut stage.wrong, told.as_str());
        end(
            &mut stage.wrong,
            str::from_utf8(stage.out.taken()).unwrap_or("no text"),
        );
    }
    drop(told);
}

/// Runs the words of the head with the input that the body tells.
pub(crate) fn run<R: Threads + Wait + Sync>(
    rt: &R,
    stage: &mut Stage,
    head: &str,
    want: &str,
    body: &str,
) {
    let alloc = stage.alloc;
    let mut input = Line::new(alloc);
    let mut printed = Line::new(alloc);
    printed.push(parts(want, " ").1);
    tell_apart(body, &mut input, &mut printed);
    let bytes = input_of(alloc, head, input.as_str());
    stage.input = bytes.as_slice().len() as u64;
    let status = status_of(rt, stage, head, bytes);
    judge(stage, head, status, want, printed.as_str());
    drop((input, printed));
}
