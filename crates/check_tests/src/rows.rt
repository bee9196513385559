//! What is told of a container and of the room of marks, and of changes of them. The bytes and what is told are worked out by hand.
use plfs_types::{Bytes, Name, NameList, NoMemory, Path};
use shape_check::{Place, check_marks, check_shape, find_room};
use std::alloc::Global;
use store_api::marks_name;
use store_memory::{FailList, File, FileList, MemoryStore, Room, RoomList, Tree};
use test_lines::Line;
use tree_check::{Complaint, Finding, check_tree};

/// A sound container and its marks, an item a line. A folder ends in a slash, and the items of the room of marks begin with `marks:`.
/// Behind a file stand its bytes, or the word of these.
const SOUND: &str = "\
access
openhosts/
metadata/
truncs/
flats/
hostdir.1/
metadata/10.10.5.1.4294967297
hostdir.1/index.1.4294967297 entry
hostdir.1/log.1.4294967297 abcdefghij
marks:mounts/
marks:mounts/1
";

/// Bytes that a word stands for.
const SPELLED: &[(&str, &[u8])] = &[
    // The entry of 10 bytes at place 0, stamp 5.
    (
        "entry",
        b"\0\0\0\0\0\0\0\0\x0a\0\0\0\0\0\0\0\0\0\0\0\0\0\0\0\x05\0\0\0\0\0\0\0\x01\0\0\0\x01\0\0\0",
    ),
    // The entry twice.
    (
        "twice",
        b"\0\0\0\0\0\0\0\0\x0a\0\0\0\0\0\0\0\0\0\0\0\0\0\0\0\x05\0\0\0\0\0\0\0\x01\0\0\0\x01\0\0\0\0\0\0\0\0\0\0\0\x0a\0\0\0\0\0\0\0\0\0\0\0\0\0\0\0\x05\0\0\0\0\0\0\0\x01\0\0\0\x01\0\0\0",
    ),
    // The entry, and one of 4 bytes at place 3 behind it, stamp 6.
    (
        "next",
        b"\0\0\0\0\0\0\0\0\x0a\0\0\0\0\0\0\0\0\0\0\0\0\0\0\0\x05\0\0\0\0\0\0\0\x01\0\0\0\x01\0\0\0\x03\0\0\0\0\0\0\0\x04\0\0\0\0\0\0\0\x0a\0\0\0\0\0\0\0\x06\0\0\0\0\0\0\0\x01\0\0\0\x01\0\0\0",
    ),
    // The entry, and 17 bytes more.
    (
        "torn",
        b"\0\0\0\0\0\0\0\0\x0a\0\0\0\0\0\0\0\0\0\0\0\0\0\0\0\x05\0\0\0\0\0\0\0\x01\0\0\0\x01\0\0\0xxxxxxxxxxxxxxxxx",
    ),
    // The flattened index of the entry.
    (
        "flat",
        b"PLFSFLT1\x01\0\0\0\0\0\0\0\x01\0\0\0\0\0\0\0\x01\0\0\0\x01\0\0\0\x01\0\0\0\0\0\0\0\x0a\0\0\0\0\0\0\0\x05\0\0\0\0\0\0\0\0\0\0\0\0\0\0\0\x0a\0\0\0\0\0\0\0\0\0\0\0\0\0\0\0\x05\0\0\0\0\0\0\0\x01\0\0\0\x01\0\0\0",
    ),
    // The same, with a piece of 9 bytes.
    (
        "other-flat",
        b"PLFSFLT1\x01\0\0\0\0\0\0\0\x01\0\0\0\0\0\0\0\x01\0\0\0\x01\0\0\0\x01\0\0\0\0\0\0\0\x0a\0\0\0\0\0\0\0\x05\0\0\0\0\0\0\0\0\0\0\0\0\0\0\0\x09\0\0\0\0\0\0\0\0\0\0\0\0\0\0\0\x05\0\0\0\0\0\0\0\x01\0\0\0\x01\0\0\0",
    ),
    // A flattened index of no writer.
    ("empty-flat", b"PLFSFLT1\0\0\0\0\0\0\0\0\0\0\0\0\0\0\0\0"),
    // The packed index of the entry.
    (
        "pack",
        b"PLFSIDX2\x01\0\0\0\0\0\0\0\x01\0\0\0\0\0\0\0\0\0\0\0\0\0\0\0\0\0\0\0\0\0\0\0\x0a\0\0\0\0\0\0\0\x01\0\0\0\0\0\0\0\0\0\0\0\0\0\0\0\x05\0\0\0\0\0\0\0\0\0\0\0\0\0\0\0\x01\0\0\0\x01\0\0\0",
    ),
    // The same, of an entry of stamp 6.
    (
        "other-pack",
        b"PLFSIDX2\x01\0\0\0\0\0\0\0\x01\0\0\0\0\0\0\0\0\0\0\0\0\0\0\0\0\0\0\0\0\0\0\0\x0a\0\0\0\0\0\0\0\x01\0\0\0\0\0\0\0\0\0\0\0\0\0\0\0\x06\0\0\0\0\0\0\0\0\0\0\0\0\0\0\0\x01\0\0\0\x01\0\0\0",
    ),
];

/// Changes of what is sound, and what is told of the shape of both rooms. A line puts an item in the place of the one of its path, or takes
/// it away where a minus stands before it.
const SHAPES: &str = "\
## sound
## sound
flats/tmp.4294967298 12345
truncs/6.0
openhosts/1.4294967297
## no folder
-truncs/
## no access
-access
## foreign folder
hostdir.32/
## foreign folder
access/
## foreign
hostdir.1/dog
## foreign
-metadata/
-metadata/10.10.5.1.4294967297
metadata
## foreign
hostdir.1/log.2.4294967297
## filled
truncs/6.0 x
## unmarked
hostdir.1/log.1.8589934593
## unmarked
hostdir.1/log.1.4294967296
## unmarked
-marks:mounts/1
## no mark
marks:mounts/01
## no mark
marks:mounts/2 x
## no mark
marks:1
## foreign folder
marks:more/
## no folder
-marks:mounts/
-marks:mounts/1
";

/// The same, and what is told of the whole tree.
const TREES: &str = "\
## sound
## sound
-metadata/10.10.5.1.4294967297
openhosts/1.4294967297
## sound
-metadata/10.10.5.1.4294967297
openhosts/1.4294967297
hostdir.1/index.1.4294967297 torn
## sound
-metadata/10.10.5.1.4294967297
openhosts/1.4294967297
hostdir.1/index.1.4294967297 next
## sound
openhosts/1.4294967297
hostdir.1/log.1.4294967297 abcdefghijklmn
## sound
-metadata/10.10.5.1.4294967297
metadata/0.0.0.1.4294967297
hostdir.1/index.1.4294967297
hostdir.1/log.1.4294967297 abcdefghi
## sound
flats/4294967298 flat
hostdir.1/index2.1.4294967297 pack
truncs/6.3
truncs/4.0
## sound
-metadata/10.10.5.1.4294967297
openhosts/1.4294967297
flats/4294967298 empty-flat
## entry at 40
-metadata/10.10.5.1.4294967297
openhosts/1.4294967297
hostdir.1/index.1.4294967297 twice
## unsettled
hostdir.1/index.1.4294967297 torn
## unsettled
hostdir.1/index.1.4294967297 next
## untrue
hostdir.1/log.1.4294967297 abcdefghi
## untrue
-hostdir.1/index.1.4294967297
## unaccounted
-metadata/10.10.5.1.4294967297
## untrue
-metadata/10.10.5.1.4294967297
metadata/11.10.5.1.4294967297
## two hosts
openhosts/2.4294967297
## between
truncs/5.0
## between
-metadata/10.10.5.1.4294967297
openhosts/1.4294967297
hostdir.1/index.1.4294967297 next
hostdir.1/log.1.4294967297 abcdefghijklmn
truncs/6.0
## two truncates
truncs/9.0
truncs/9.1
## wrong index
flats/4294967298 other-flat
## wrong index
flats/4294967298 abcdefghij
## wrong index
-metadata/10.10.5.1.4294967297
openhosts/1.4294967297
hostdir.1/index.1.4294967297
flats/4294967298 flat
## wrong index
hostdir.1/index2.1.4294967297 other-pack
## wrong index
-metadata/10.10.5.1.4294967297
openhosts/1.4294967297
hostdir.1/index2.1.4294967297 pack
## unmarked
hostdir.1/log.1.8589934593
";

fn name(text: &str) -> Name {
    Name::from_bytes(text.as_bytes()).unwrap_or(Name::empty())
}

// The bytes that stand behind a file.
fn bytes_of(word: &str) -> &[u8] {
    for (called, bytes) in SPELLED {
        if *called == word {
            return bytes;
        }
    }
    word.as_bytes()
}

// The path of an item, and what stands behind it.
fn parts(line: &str) -> (&str, &str) {
    line.split_once(' ').unwrap_or((line, ""))
}

// Whether a change is of the item of this path.
fn is_changed(changes: &str, path: &str) -> bool {
    changes.lines().any(|line| parts(line.strip_prefix('-').unwrap_or(line)).0 == path)
}

// Puts a file or a folder into the room.
fn put(alloc: Global, room: &mut Room, path: &str, bytes: &str) {
    let (folder, file) = path.split_once('/').unwrap_or(("", path));
    if file.is_empty() {
        let _ = room.folders.push(name(folder));
    } else if let Ok(bytes) = Bytes::copy(alloc, bytes_of(bytes)) {
        let path = Path {
            folder: name(folder),
            file: name(file),
        };
        let _ = room.files.push(File {
            path,
            bytes,
            kept: 0,
        });
    }
}

// Puts an item where it is one of this room, and not taken away.
fn put_item(alloc: Global, room: &mut Room, is_of_marks: bool, line: &str) {
    let (path, bytes) = parts(line);
    match path.strip_prefix("marks:") {
        Some(path) if is_of_marks => put(alloc, room, path, bytes),
        None if !is_of_marks && !path.starts_with('-') => put(alloc, room, path, bytes),
        _ => {}
    }
}

// The container, or the room of marks, with these changes.
fn room(alloc: Global, called: &str, is_of_marks: bool, changes: &str) -> Room {
    let mut room = Room {
        name: name(called),
        folders: NameList::new(alloc),
        files: FileList::new(alloc),
    };
    for line in SOUND.lines() {
        if !is_changed(changes, parts(line).0) {
            put_item(alloc, &mut room, is_of_marks, line);
        }
    }
    for line in changes.lines() {
        put_item(alloc, &mut room, is_of_marks, line);
    }
    room
}

fn store_of(alloc: Global, changes: &str) -> MemoryStore {
    let mut rooms = RoomList::new(alloc);
    let _ = rooms.push(room(alloc, "a", false, changes));
    let _ = rooms.push(room(alloc, ".plfs", true, changes));
    MemoryStore::with_tree(alloc, Tree { rooms }, FailList::new(alloc))
}

fn kind(complaint: &Complaint) -> &'static str {
    match *complaint {
        Complaint::RoomName { .. } => "room name",
        Complaint::NoFolder { .. } => "no folder",
        Complaint::NoAccess { .. } => "no access",
        Complaint::ForeignFolder { .. } => "foreign folder",
        Complaint::Foreign { .. } => "foreign",
        Complaint::NoMark { .. } => "no mark",
        Complaint::Filled { .. } => "filled",
        Complaint::Unmarked { .. } => "unmarked",
        Complaint::TwoHosts { .. } => "two hosts",
        Complaint::Entry { place, .. } => { if place == 40 { "entry at 40" } else { "entry" } }
        Complaint::LongLog { .. } => "long log",
        Complaint::Unaccounted { .. } => "unaccounted",
        Complaint::Untrue { .. } => "untrue",
        Complaint::Unsettled { .. } => "unsettled",
        Complaint::Between { .. } => "between",
        Complaint::TwoTruncates { .. } => "two truncates",
        Complaint::WrongIndex { .. } => "wrong index",
    }
}

// Checks the shape of both rooms.
fn check_rooms(alloc: Global, store: &mut MemoryStore) -> Result<(), Finding> {
    let marks = find_room(store, marks_name())?;
    if let Some(number) = marks {
        check_marks(store, number)?;
    }
    if let Some(number) = find_room(store, name("a"))? {
        let place = Place {
            name: name("a"),
            number,
            marks,
        };
        let _paths = check_shape(alloc, store, &place)?;
    }
    Ok(())
}

// What is told of the tree with these changes, or of the shape of its rooms alone.
fn told(alloc: Global, changes: &str, is_whole: bool) -> &'static str {
    let mut store = store_of(alloc, changes);
    let found = if is_whole {
        check_tree(alloc, &mut store)
    } else {
        check_rooms(alloc, &mut store)
    };
    drop(store);
    match found {
        Ok(()) => "sound",
        Err(Finding::Broken { complaint }) => kind(&complaint),
        Err(Finding::Fault) => "fault",
        Err(Finding::NoMemory) => "memory",
        Err(Finding::Untold) => "untold",
    }
}

// The changes of which something else is told, each behind that.
fn told_otherwise(alloc: Global, cases: &str, is_whole: bool) -> Line {
    let mut wrong = Line::new(alloc);
    for case in cases.split("## ") {
        let (want, changes) = case.split_once('\n').unwrap_or(("", ""));
        let told = told(alloc, changes, is_whole);
        if told != want && !want.is_empty() {
            wrong.push(told);
            wrong.push(" and not ");
            wrong.push(case);
        }
    }
    wrong
}

#[test]
fn each_change_of_a_sound_shape_is_told(rt: HostRuntime) {
    assert!(rt; told_otherwise(rt.alloc(), SHAPES, false).as_str() == "");
}

#[test]
fn each_change_of_a_sound_container_is_told(rt: HostRuntime) {
    assert!(rt; told_otherwise(rt.alloc(), TREES, true).as_str() == "");
}
