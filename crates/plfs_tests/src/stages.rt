//! Stores in memory, and what a deed finds.
use crate::several::as_one;
use crate::spelling::{number, numbers, parts};
use edge_io::MemorySink;
use plfs_types::{Name, NoMemory, Path};
use spread_store::Backing;
use std::alloc::Global;
use std::mem;
use store_memory::{Fail, FailList, Keep, KeepList, MemoryStore};
use test_lines::Line;

/// What a run is made over.
pub(crate) type Under = Backing<MemoryStore>;

/// The store, the length of the last run's input, what that printed, and what came otherwise than it was to.
#[derive(Drop)]
pub(crate) struct Stage {
    pub(crate) alloc: Global,
    pub(crate) store: Option<Under>,
    pub(crate) input: u64,
    pub(crate) out: MemorySink,
    pub(crate) wrong: Line,
}

impl Stage {
    pub(crate) fn new(alloc: Global) -> Self {
        Stage {
            alloc,
            store: None,
            input: 0,
            out: MemorySink::new(alloc, 0, numbers(alloc, "")),
            wrong: Line::new(alloc),
        }
    }
}

// A store of which this act faults, and leaves so many bytes.
fn planned(alloc: Global, act: u64, part: u64) -> Result<MemoryStore, NoMemory> {
    let mut fails = FailList::new(alloc);
    fails.push(Fail { act, part })?;
    MemoryStore::new(alloc, fails)
}

// `faults 12 41`: the act 12 faults and leaves 41 bytes. `off 12 1`: the power goes off in it, after one byte. Other words
// are about a store that never fails.
fn memory(alloc: Global, verb: &str, rest: &str) -> Result<Under, NoMemory> {
    let (act, part) = parts(rest, " ");
    let act = number(act);
    let part = number(part);
    let store = match verb {
        "faults" => planned(alloc, act, part)?,
        "off" => MemoryStore::off(alloc, act, part)?,
        _ => MemoryStore::new(alloc, FailList::new(alloc))?,
    };
    Ok(Backing::One(store))
}

/// The store is an empty one, or three as one.
pub(crate) fn begin(stage: &mut Stage, verb: &str, rest: &str) {
    let alloc = stage.alloc;
    let store = if verb == "three" {
        as_one(alloc)
    } else {
        memory(alloc, verb, rest)
    };
    drop(mem::replace(&mut stage.store, store.ok()));
}

fn name(text: &str) -> Name {
    Name::from_bytes(text.as_bytes()).unwrap_or(Name::empty())
}

/// A room, a path in it, and a number: a place in the file, or a count of its bytes.
pub(crate) type Place = (u64, Path, u64);

/// The place of a text such as `1 hostdir.0/log.0.4294967297 4`.
pub(crate) fn place(text: &str) -> Place {
    let (room, rest) = parts(text, " ");
    let (path, count) = parts(rest, " ");
    let (folder, file) = parts(path, "/");
    let path = Path {
        folder: name(folder),
        file: name(file),
    };
    (number(room), path, number(count))
}

// So many bytes of this file are left more than are kept, or of no file.
fn keeps(alloc: Global, text: &str) -> KeepList {
    let mut all = KeepList::new(alloc);
    if !text.is_empty() {
        let (room, path, extra) = place(text);
        let _ = all.push(Keep { room, path, extra });
    }
    all
}

/// The power is lost.
pub(crate) fn lose(stage: &mut Stage, rest: &str) {
    let keeps = keeps(stage.alloc, rest);
    let left = match stage.store.take() {
        Some(Backing::One(store)) => Some(Backing::One(store.lose(keeps))),
        other => {
            drop((other, keeps));
            None
        }
    };
    drop(mem::replace(&mut stage.store, left));
}

/// How many acts the one store has made.
pub(crate) fn acts(store: &Option<Under>) -> u64 {
    match store {
        Some(Backing::One(store)) => store.acts(),
        _ => 0,
    }
}
