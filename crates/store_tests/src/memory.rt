//! A store in memory: its answers, and its planned faults.
use crate::acts::{Act, act_on, name};
use crate::playing::{Row, Site, holds};
use crate::telling::{count, note};
use plfs_types::{Bytes, Name, NameList, NoMemory, Path};
use std::alloc::Global;
use std::mem;
use std::process::Abort;
use std::test::Fail as Failure;
use store_memory::{
    Fail, FailList, File, FileList, Keep, KeepList, MemoryStore, Room, RoomList, Tree,
};
use test_lines::Line;

#[derive(Drop)]
struct InMemory {
    alloc: Global,
    store: MemoryStore,
    shows: bool,
}

fn failing(alloc: Global, faults: &[(u64, u64)]) -> Result<FailList, NoMemory> {
    let mut fails = FailList::new(alloc);
    for (act, part) in faults {
        fails.push(Fail {
            act: *act,
            part: *part,
        })?;
    }
    Ok(fails)
}

/// A store with these planned faults, each an act and a part.
pub(crate) fn new_store(alloc: Global, faults: &[(u64, u64)]) -> Result<MemoryStore, NoMemory> {
    MemoryStore::new(alloc, failing(alloc, faults)?)
}

// A file in the top of its room.
fn at_top(file: &str) -> Path {
    Path {
        folder: Name::empty(),
        file: name(file),
    }
}

fn given_files(alloc: Global, of: &[(&str, &str, u64)]) -> Result<FileList, NoMemory> {
    let mut files = FileList::new(alloc);
    for (file, text, kept) in of {
        files.push(File {
            path: at_top(file),
            bytes: Bytes::copy(alloc, text.as_bytes())?,
            kept: *kept,
        })?;
    }
    Ok(files)
}

// A store of the room `r`.
fn given(
    alloc: Global,
    folder: &str,
    files: &[(&str, &str, u64)],
) -> Result<MemoryStore, NoMemory> {
    let mut folders = NameList::new(alloc);
    if !folder.is_empty() {
        folders.push(name(folder))?;
    }
    let room = Room {
        name: name("r"),
        folders,
        files: given_files(alloc, files)?,
    };
    let rooms = RoomList::from_vec(Vec::from_array(alloc, [room])?);
    Ok(MemoryStore::with_tree(alloc, Tree { rooms }, FailList::new(alloc)))
}

fn keeping(alloc: Global, of: &[(u64, &str, u64)]) -> Result<KeepList, NoMemory> {
    let mut keeps = KeepList::new(alloc);
    for (room, file, extra) in of {
        keeps.push(Keep {
            room: *room,
            path: at_top(file),
            extra: *extra,
        })?;
    }
    Ok(keeps)
}

fn counts(line: &mut Line, store: &MemoryStore) {
    count(line, "", store.acts(), " acts, ");
    count(line, "", store.faults(), " faults");
}

// How many bytes the first room's first file has, and how many of them are kept; and the counts.
fn left(line: &mut Line, store: &MemoryStore) {
    if let Some(room) = store.tree().rooms.as_slice().first() {
        if let Some(file) = room.files.as_slice().first() {
            count(line, "; ", file.bytes.as_slice().len() as u64, " bytes, ");
            count(line, "", file.kept, " kept");
        }
    }
    line.push("; ");
    counts(line, store);
}

impl InMemory {
    fn put(&mut self, made: Result<MemoryStore, NoMemory>, line: &mut Line) {
        match made {
            Ok(store) => drop(mem::replace(&mut self.store, store)),
            Err(NoMemory) => note(line, false),
        }
    }

    fn lose(&mut self, of: &[(u64, &str, u64)]) -> Result<MemoryStore, NoMemory> {
        let empty = new_store(self.alloc, &[])?;
        let store = mem::replace(&mut self.store, empty);
        match keeping(self.alloc, of) {
            Ok(keeps) => Ok(store.lose(keeps)),
            Err(why) => {
                drop(store);
                Err(why)
            }
        }
    }
}

impl Site for InMemory {
    fn play(&mut self, act: Act, line: &mut Line) {
        match act {
            Act::Failing(faults) => self.put(new_store(self.alloc, faults), line),
            Act::Off(act, part) => self.put(MemoryStore::off(self.alloc, act, part), line),
            Act::Given(folder, files) => self.put(given(self.alloc, folder, files), line),
            Act::Lose(keeps) => {
                let left = self.lose(keeps);
                self.put(left, line);
            }
            Act::Show => self.shows = true,
            Act::Counts => counts(line, &self.store),
            _ => {
                act_on(&mut self.store, act, line);
                if self.shows {
                    left(line, &self.store);
                }
            }
        }
    }
}

/// The rows of each of the tables hold of a new store in memory.
pub(crate) fn in_memory<R: Abort>(rt: &R, alloc: Global, tables: &[&[Row]]) -> Result<(), Failure> {
    for rows in tables {
        let mut site = InMemory {
            alloc,
            store: new_store(alloc, &[])?,
            shows: false,
        };
        holds(rt, alloc, &mut site, rows);
        drop(site);
    }
    Ok(())
}

const TABLES: &[&[Row]] = &[
    // A broken write keeps its first bytes, and a retry makes it whole.
    &[
        (Act::Failing(&[(3, 3)]), ""),
        (Act::MakeRoom("f", "", ""), "number 0"),
        (Act::MakeFolder(0, "hostdir.0"), "made"),
        (Act::Create("hostdir.0", "log.0.7"), "made"),
        (Act::Write("hostdir.0", "log.0.7", 0, "hello"), "fault"),
        (Act::Read("hostdir.0", "log.0.7", 1, 9), "bytes el"),
        (Act::Write("hostdir.0", "log.0.7", 0, "hello"), "made"),
        (Act::Read("hostdir.0", "log.0.7", 1, 3), "bytes ell"),
        (Act::Counts, "7 acts, 1 faults"),
    ],
    // The first fault of an act counts.
    &[
        (Act::Failing(&[(1, 1), (0, 0), (0, 1)]), ""),
        (Act::MakeRoom("f", "", ""), "fault"),
        (Act::MakeRoom("f", "", ""), "fault"),
        (Act::FindRoom("f"), "number 0"),
        (Act::Counts, "3 acts, 2 faults"),
        // part 0 makes nothing
        (Act::Failing(&[(0, 0), (0, 1)]), ""),
        (Act::MakeRoom("f", "", ""), "fault"),
        (Act::Rooms, "names"),
    ],
    // Names come in byte order.
    &[
        (Act::MakeRoom("9.1", "", "f"), "number 0"),
        (Act::MakeRoom("10.1", "", ""), "number 1"),
        (Act::Rooms, "names 10.1 9.1"),
        (Act::MakeFolder(0, "openhosts"), "made"),
        (Act::List(""), "names f openhosts"),
        (Act::Create("openhosts", "9.1"), "made"),
        (Act::Create("openhosts", "10.1"), "made"),
        (Act::RemoveFolder("openhosts"), "not empty 10.1"),
    ],
    // A taken room is old with its number.
    &[
        (Act::MakeRoom("f", "", ""), "number 0"),
        (Act::MakeRoom("g", "", ""), "number 1"),
        (Act::MakeRoom("g", "", "f"), "old 1"),
        (Act::RenameRoom(0, "g"), "target there"),
        (Act::RenameRoom(0, "h"), "made"),
        (Act::FindRoom("h"), "number 0"),
        (Act::FindRoom("f"), "absent"),
    ],
    // A replacement removes the file that had the name.
    &[
        (
            Act::Given("empty", &[("1", "old", 3), ("tmp.1", "new", 3)]),
            "",
        ),
        (Act::Replace("", "tmp.1", "1"), "made"),
        (Act::Read("", "1", 0, 9), "bytes new"),
        (Act::RemoveFolder("empty"), "made"),
        (Act::List(""), "names 1"),
        (Act::Remove("", "1"), "made"),
        (Act::Remove("", "1"), "absent"),
    ],
    // No cut or write leaves a gap.
    &[
        (Act::MakeRoom("f", "", "index"), "number 0"),
        (Act::Write("", "index", 0, "abcd"), "made"),
        (Act::Cut("", "index", 5), "beyond"),
        (Act::Cut("", "index", 2), "made"),
        (Act::Write("", "index", 3, "x"), "beyond"),
        (Act::Write("", "index", 1, "xy"), "made"),
        (Act::Read("", "index", 0, 9), "bytes axy"),
        (Act::Length("", "index"), "number 3"),
        (Act::Sync("", "index"), "made"),
        (Act::MakeFolder(1, ""), "no room"),
    ],
];

#[test]
fn a_store_in_memory_answers_and_fails_as_planned(rt: HostRuntime) -> Result<(), Failure> {
    in_memory(&rt, rt.alloc(), TABLES)
}
