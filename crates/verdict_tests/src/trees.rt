//! Trees of two containers and the room of marks.
use plfs_types::{Bytes, Name, NameList, NoMemory, Path};
use std::alloc::Global;
use store_memory::{File, FileList, Room, RoomList, Tree};

/// A file, by its folder and its name, and its bytes.
pub(crate) type Told = (&'static str, &'static str, &'static [u8]);

/// A room, by its name, its folders and its files.
#[derive(Clone, Copy)]
pub(crate) struct RoomTold {
    pub(crate) name: &'static str,
    pub(crate) folders: &'static [&'static str],
    pub(crate) files: &'static [Told],
}

fn name(text: &str) -> Name {
    Name::from_bytes(text.as_bytes()).unwrap_or(Name::empty())
}

fn add(alloc: Global, files: &mut FileList, told: &Told) -> Result<(), NoMemory> {
    let mut bytes = Vec::new(alloc);
    bytes.extend_from_slice(told.2)?;
    files.push(File {
        path: Path {
            folder: name(told.0),
            file: name(told.1),
        },
        bytes: Bytes::from_vec(bytes),
        kept: 0,
    })
}

fn room_of(alloc: Global, told: &RoomTold) -> Result<Room, NoMemory> {
    let mut folders = NameList::new(alloc);
    for folder in told.folders {
        folders.push(name(folder))?;
    }
    let mut files = FileList::new(alloc);
    for file in told.files {
        add(alloc, &mut files, file)?;
    }
    Ok(Room {
        name: name(told.name),
        folders,
        files,
    })
}

/// The tree of these rooms.
pub(crate) fn tree_of(alloc: Global, rooms: &[RoomTold]) -> Result<Tree, NoMemory> {
    let mut list = RoomList::new(alloc);
    for told in rooms {
        list.push(room_of(alloc, told)?)?;
    }
    Ok(Tree { rooms: list })
}
