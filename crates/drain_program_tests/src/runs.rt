//! Drains over two stores in memory.
use crate::trees::tree_of;
use drain_program::{DrainEnded, drain};
use edge_io::{CallList, ClockList, ListClock, MemorySink};
use plfs_types::Word;
use std::alloc::Global;
use std::str;
use store_memory::{Fail, FailList, MemoryStore};
use test_lines::Line;

fn words_of(alloc: Global, text: &str) -> Vec<Word> {
    let mut words = Vec::new(alloc);
    for word in text.split_whitespace() {
        if let Ok(word) = Word::copy(alloc, word) {
            let _ = words.push(word);
        }
    }
    words
}

// A clock that stands at 10.
fn clock(alloc: Global) -> ListClock {
    let mut times = ClockList::new(alloc);
    let _ = times.push(10);
    ListClock::new(times)
}

/// Runs these words of a drain, and prints to this sink.
pub(crate) fn run(
    alloc: Global,
    text: &str,
    out: &mut MemorySink,
    source: MemoryStore,
    target: MemoryStore,
) -> DrainEnded<MemoryStore, MemoryStore> {
    let words = words_of(alloc, text);
    let ended = drain(alloc, &words, out, source, target, clock(alloc));
    drop(words);
    ended
}

/// A sink that takes all, or one whose call of this number fails.
pub(crate) fn sink(alloc: Global, fails: Option<u64>) -> MemorySink {
    let mut calls = CallList::new(alloc);
    if let Some(call) = fails {
        let _ = calls.push(call);
    }
    MemorySink::new(alloc, 1 << 20, calls)
}

/// The status, and behind a space what was printed.
pub(crate) fn told(alloc: Global, status: u8, out: &MemorySink) -> Line {
    let mut line = Line::new(alloc);
    line.say("", u64::from(status));
    line.push(" ");
    line.push(str::from_utf8(out.taken()).unwrap_or("no text"));
    line
}

/// A store of these rows, which never fails.
pub(crate) fn store_of(alloc: Global, rows: &str) -> MemoryStore {
    MemoryStore::with_tree(alloc, tree_of(alloc, rows), FailList::new(alloc))
}

/// A store of these rows, which fails so.
pub(crate) fn failing_of(alloc: Global, rows: &str, fail: Fail) -> MemoryStore {
    let mut fails = FailList::new(alloc);
    let _ = fails.push(fail);
    MemoryStore::with_tree(alloc, tree_of(alloc, rows), fails)
}
