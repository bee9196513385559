//! Runs over stores in memory.
use crate::rows::{COMMANDS, CONTAINERS, INDICES, PLACES, Row, SHAPES, STAMPS, TWO_BROKEN};
use crate::trees::tree_of;
use check_program::{NoWatcher, Watcher, check};
use edge_io::{CallList, MemorySink};
use plfs_types::{NoMemory, Word};
use std::alloc::Global;
use std::test::Fail;
use store_memory::{Fail as PlannedFail, FailList, MemoryStore};

/// How many bytes the sink takes at once.
const PIECE: usize = 7;

fn words_of(alloc: Global, words: &[&str]) -> Result<Vec<Word>, NoMemory> {
    let mut list = Vec::new(alloc);
    for word in words {
        list.push(Word::copy(alloc, word)?)?;
    }
    Ok(list)
}

fn is_printed(alloc: Global, row: &Row) -> Result<bool, NoMemory> {
    let words = words_of(alloc, row.words)?;
    let tree = tree_of(alloc, row.rooms)?;
    let store = MemoryStore::with_tree(alloc, tree, FailList::new(alloc));
    let mut out = MemorySink::new(alloc, PIECE, CallList::new(alloc));
    let ended = check(alloc, words.as_slice(), &mut out, &mut NoWatcher, store);
    Ok(ended.status == row.status && out.taken() == row.text.as_bytes())
}

/// The first of these runs that prints something else, if there is one.
fn other(alloc: Global, rows: &[Row]) -> Result<&'static str, NoMemory> {
    for row in rows {
        let is = is_printed(alloc, row)?;
        if !is {
            return Ok(row.about);
        }
    }
    Ok("")
}

#[test]
fn each_command_is_obeyed(rt: HostRuntime) -> Result<(), Fail> {
    assert_eq!(rt; other(rt.alloc(), COMMANDS)?, "");
    Ok(())
}

#[test]
fn several_complaints_come_in_order(rt: HostRuntime) -> Result<(), Fail> {
    assert_eq!(rt; other(rt.alloc(), CONTAINERS)?, "");
    Ok(())
}

#[test]
fn each_change_of_a_shape_is_told(rt: HostRuntime) -> Result<(), Fail> {
    assert_eq!(rt; other(rt.alloc(), SHAPES)?, "");
    Ok(())
}

#[test]
fn each_change_of_a_file_is_told(rt: HostRuntime) -> Result<(), Fail> {
    assert_eq!(rt; other(rt.alloc(), PLACES)?, "");
    Ok(())
}

#[test]
fn each_change_of_an_index_is_told(rt: HostRuntime) -> Result<(), Fail> {
    assert_eq!(rt; other(rt.alloc(), INDICES)?, "");
    Ok(())
}

#[test]
fn each_change_of_a_stamp_is_told(rt: HostRuntime) -> Result<(), Fail> {
    assert_eq!(rt; other(rt.alloc(), STAMPS)?, "");
    Ok(())
}

const FAULT: &[u8] = b"0 fault\n";

const FIRST: &[u8] = b"broken unaccounted a hostdir.1/index.1.4294967297 -\n0 fault\n";

const BOTH: &[u8] =
    b"broken unaccounted a hostdir.1/index.1.4294967297 -\nbroken untrue b metadata/11.10.5.1.4294967297 -\n";

/// How many complaints are told of two containers where the act of this number fails; 9 where something else is printed.
fn told_before(alloc: Global, act: u64) -> Result<u8, NoMemory> {
    let tree = tree_of(alloc, TWO_BROKEN)?;
    let mut fails = FailList::new(alloc);
    fails.push(PlannedFail { act, part: 0 })?;
    let store = MemoryStore::with_tree(alloc, tree, fails);
    let mut out = MemorySink::new(alloc, PIECE, CallList::new(alloc));
    let ended = check(alloc, &[], &mut out, &mut NoWatcher, store);
    if ended.status == 4 && out.taken() == FAULT {
        return Ok(0);
    }
    if ended.status == 4 && out.taken() == FIRST {
        return Ok(1);
    }
    if ended.status == 7 && out.taken() == BOTH {
        return Ok(2);
    }
    Ok(9)
}

/// How often none, one and both complaints are told, where one act after the other fails; and whether they come in this order.
fn counts(alloc: Global) -> Result<([u8; 3], bool), NoMemory> {
    let mut counts: [u8; 3] = [0, 0, 0];
    let mut before = 0;
    let mut rises = true;
    for act in 0..100 {
        let told = told_before(alloc, act)?;
        rises = rises && before <= told && told < 3;
        before = told;
        if told < 3 {
            let place = told as usize;
            counts[place] = counts[place].saturating_add(1);
        }
    }
    Ok((counts, rises))
}

#[test]
fn a_fault_is_told_behind_what_came_before(rt: HostRuntime) -> Result<(), Fail> {
    let (counts, rises) = counts(rt.alloc())?;
    assert!(rt; rises);
    assert!(rt; counts[0] > 0 && counts[1] > 0 && counts[2] > 0);
    Ok(())
}

/// Keeps what it was told last, and counts.
#[derive(Clone, Copy)]
struct Counter {
    calls: u64,
    rooms: u64,
    all: u64,
}

impl Watcher for Counter {
    fn checked(&mut self, rooms: u64, all: u64) {
        self.calls = self.calls.saturating_add(1);
        self.rooms = rooms;
        self.all = all;
    }
}

#[test]
fn the_watcher_is_told_before_each_room_and_behind_the_last(rt: HostRuntime) -> Result<(), Fail> {
    let alloc = rt.alloc();
    let store = MemoryStore::with_tree(alloc, tree_of(alloc, TWO_BROKEN)?, FailList::new(alloc));
    let mut out = MemorySink::new(alloc, PIECE, CallList::new(alloc));
    let mut counter = Counter {
        calls: 0,
        rooms: 9,
        all: 0,
    };
    let ended = check(alloc, &[], &mut out, &mut counter, store);
    assert_eq!(rt; ended.status, 7);
    assert_eq!(rt; counter.calls, 4);
    assert_eq!(rt; counter.rooms, 3);
    assert_eq!(rt; counter.all, 3);
    Ok(())
}

#[test]
fn a_broken_sink_ends_the_run(rt: HostRuntime) -> Result<(), Fail> {
    let alloc = rt.alloc();
    let store = MemoryStore::with_tree(alloc, tree_of(alloc, TWO_BROKEN)?, FailList::new(alloc));
    let mut calls = CallList::new(alloc);
    calls.push(1)?;
    let mut out = MemorySink::new(alloc, PIECE, calls);
    let ended = check(alloc, &[], &mut out, &mut NoWatcher, store);
    assert_eq!(rt; ended.status, 6);
    assert!(rt; out.taken() == b"broken ".as_slice());
    Ok(())
}
