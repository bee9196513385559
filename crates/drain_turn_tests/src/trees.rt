//! Whether two stores hold the same files.
use plfs_types::Name;
use store_memory::{File, Tree};

// Whether a room of this name has this file.
fn has(tree: &Tree, name: &Name, file: &File) -> bool {
    for room in tree.rooms.as_slice() {
        if room.name == *name {
            return room.files.as_slice().iter().any(|it| it.path.folder == file.path.folder
                && it.path.file == file.path.file
                && it.bytes.as_slice() == file.bytes.as_slice());
        }
    }
    false
}

// Whether the room of this name in the tree has all of these files.
fn has_all(tree: &Tree, name: &Name, files: &[File]) -> bool {
    for file in files {
        if !has(tree, name, file) {
            return false;
        }
    }
    true
}

/// Whether the second tree has each file of the first one, with the same bytes.
pub(crate) fn is_copied(from: &Tree, to: &Tree) -> bool {
    for room in from.rooms.as_slice() {
        if !has_all(to, &room.name, room.files.as_slice()) {
            return false;
        }
    }
    true
}

/// How many bytes all files have.
pub(crate) fn bytes_in(tree: &Tree) -> u64 {
    let mut all: u64 = 0;
    for room in tree.rooms.as_slice() {
        for file in room.files.as_slice() {
            all = all.saturating_add(file.bytes.as_slice().len() as u64);
        }
    }
    all
}
