//! Trees that are told as text. Each row is a folder, as `f/truncs`, or a file with its bytes, as `f/hostdir.1/log.1.7 AAAA`. A file at
//! the top of its room has two slashes, as `f//access`, and a room by itself has none. The rows of a room stand together.
//!
//! Of the bytes a number stands for its 8 bytes, the least first, and any other word for its letters.
use plfs_types::{Bytes, Name, NameList, Path};
use std::alloc::Global;
use store_memory::{File, FileList, Room, RoomList, Tree};

fn parts<'a>(text: &'a str, sign: &str) -> (&'a str, &'a str) {
    text.split_once(sign).unwrap_or((text, ""))
}

fn name(text: &str) -> Name {
    Name::from_bytes(text.as_bytes()).unwrap_or(Name::empty())
}

fn path(text: &str) -> Path {
    let (folder, file) = parts(text, "/");
    Path {
        folder: name(folder),
        file: name(file),
    }
}

fn contents(alloc: Global, text: &str) -> Vec<u8> {
    let mut bytes = Vec::new(alloc);
    for word in text.split_whitespace() {
        let _ = match word.parse::<u64>() {
            Ok(number) => bytes.extend_from_slice(&number.to_le_bytes()),
            Err(_) => bytes.extend_from_slice(word.as_bytes()),
        };
    }
    bytes
}

// The last room is that of this name.
fn open_room(alloc: Global, rooms: &mut RoomList, name: Name) {
    let is_last = match rooms.as_slice().last() {
        Some(room) => room.name == name,
        None => false,
    };
    if !is_last {
        let _ = rooms.push(Room {
            name,
            folders: NameList::new(alloc),
            files: FileList::new(alloc),
        });
    }
}

// A folder or a file more.
fn add(alloc: Global, room: &mut Room, inner: &str, words: &str) {
    let path = path(inner);
    if inner.contains('/') {
        let _ = room.files.push(File {
            path,
            bytes: Bytes::from_vec(contents(alloc, words)),
            kept: 0,
        });
    } else if !inner.is_empty() {
        let _ = room.folders.push(path.folder);
    }
}

fn add_row(alloc: Global, rooms: &mut RoomList, row: &str) {
    let (place, words) = parts(row, " ");
    let (room, inner) = parts(place, "/");
    open_room(alloc, rooms, name(room));
    let last = rooms.as_slice().len().saturating_sub(1);
    if let Some(room) = rooms.get_mut(last) {
        add(alloc, room, inner, words);
    }
}

/// The tree of these rows.
pub(crate) fn tree_of(alloc: Global, text: &str) -> Tree {
    let mut rooms = RoomList::new(alloc);
    for row in text.lines() {
        add_row(alloc, &mut rooms, row);
    }
    Tree { rooms }
}

// Whether the first file at this path has these bytes.
fn has_file(room: &Room, path: &Path, bytes: &[u8]) -> bool {
    for file in room.files.as_slice() {
        if file.path.folder == path.folder && file.path.file == path.file {
            return file.bytes.as_slice() == bytes;
        }
    }
    false
}

fn has(alloc: Global, room: &Room, inner: &str, words: &str) -> bool {
    let path = path(inner);
    if !inner.contains('/') {
        return room
            .folders
            .as_slice()
            .iter()
            .any(|folder| *folder == path.folder);
    }
    let wanted = contents(alloc, words);
    let has = has_file(room, &path, wanted.as_slice());
    drop(wanted);
    has
}

fn has_row(alloc: Global, tree: &Tree, row: &str) -> bool {
    let (place, words) = parts(row, " ");
    let (room, inner) = parts(place, "/");
    let wanted = name(room);
    for room in tree.rooms.as_slice() {
        if room.name == wanted {
            return has(alloc, room, inner, words);
        }
    }
    false
}

// How many folders and files there are.
fn count(tree: &Tree) -> usize {
    let mut count: usize = 0;
    for room in tree.rooms.as_slice() {
        count = count.saturating_add(room.folders.as_slice().len());
        count = count.saturating_add(room.files.as_slice().len());
    }
    count
}

/// Whether the tree has the folders and files of these rows, and no others.
pub(crate) fn is_tree(alloc: Global, tree: &Tree, text: &str) -> bool {
    let mut rows: usize = 0;
    for row in text.lines() {
        if !has_row(alloc, tree, row) {
            return false;
        }
        rows = rows.saturating_add(1);
    }
    rows == count(tree)
}
