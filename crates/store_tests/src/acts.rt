//! What the rows do to a store, as the tables spell it.
use crate::telling::tell;
use plfs_types::Name;
use store_api::{Step, Store};
use test_lines::Line;

/// An act. Files are named by their folder and their name, and lie in the first room.
#[derive(Clone, Copy)]
pub(crate) enum Act {
    Rooms,
    FindRoom(&'static str),
    /// Its name, its folder and its top file, each empty where it has none.
    MakeRoom(&'static str, &'static str, &'static str),
    RenameRoom(u64, &'static str),
    MakeFolder(u64, &'static str),
    RemoveFolder(&'static str),
    List(&'static str),
    Create(&'static str, &'static str),
    Remove(&'static str, &'static str),
    /// A folder, and the names from which and to which a file in it goes.
    Replace(&'static str, &'static str, &'static str),
    Length(&'static str, &'static str),
    /// From a byte on, and at most so many.
    Read(&'static str, &'static str, u64, u64),
    /// From a byte on.
    Write(&'static str, &'static str, u64, &'static str),
    Cut(&'static str, &'static str, u64),
    Sync(&'static str, &'static str),
    /// How many acts and faults there were.
    Counts,

    // ---- of a store in memory
    /// A new store with these planned faults, each an act and a part.
    Failing(&'static [(u64, u64)]),
    /// A new store whose power goes off in this act, of which a part is made.
    Off(u64, u64),
    /// A new store of one room with this folder and these top files, each with its bytes and how many of them are kept.
    Given(&'static str, &'static [(&'static str, &'static str, u64)]),
    /// What is left after a loss of power that keeps so many more bytes of these top files, each with its room.
    Lose(&'static [(u64, &'static str, u64)]),
    /// From now on each step also tells what it left.
    Show,

    // ---- beside a store on a folder of the system
    MakeDir(&'static str),
    RemoveDir(&'static str),
    WriteFile(&'static str, &'static str),
    RemoveFile(&'static str),
    ReadFile(&'static str),
    /// Where it leads, and where it stands.
    Link(&'static str, &'static str),
    /// What stands there.
    Kind(&'static str),
    /// A new store on this folder.
    Open(&'static str),
    /// The text of the last fault's cause.
    Cause,
}

pub(crate) fn name(text: &str) -> Name {
    Name::from_bytes(text.as_bytes()).unwrap_or(Name::empty())
}

fn step_in_file(act: Act) -> Step<'static> {
    let room = 0;
    match act {
        Act::Length(folder, file) => Step::Length {
            room,
            folder: name(folder),
            file: name(file),
        },
        Act::Read(folder, file, at, len) => Step::ReadAt {
            room,
            folder: name(folder),
            file: name(file),
            at,
            len,
        },
        Act::Write(folder, file, at, text) => Step::WriteAt {
            room,
            folder: name(folder),
            file: name(file),
            at,
            bytes: text.as_bytes(),
        },
        Act::Cut(folder, file, len) => Step::Cut {
            room,
            folder: name(folder),
            file: name(file),
            len,
        },
        Act::Sync(folder, file) => Step::Sync {
            room,
            folder: name(folder),
            file: name(file),
        },
        _ => Step::Rooms,
    }
}

fn step_of(act: Act) -> Step<'static> {
    match act {
        Act::FindRoom(room) => Step::FindRoom { name: name(room) },
        Act::RenameRoom(room, to) => Step::RenameRoom { room, to: name(to) },
        Act::MakeFolder(room, folder) => Step::MakeFolder {
            room,
            folder: name(folder),
        },
        Act::RemoveFolder(folder) => Step::RemoveFolder {
            room: 0,
            folder: name(folder),
        },
        Act::List(folder) => Step::List {
            room: 0,
            folder: name(folder),
        },
        Act::Create(folder, file) => Step::Create {
            room: 0,
            folder: name(folder),
            file: name(file),
        },
        Act::Remove(folder, file) => Step::Remove {
            room: 0,
            folder: name(folder),
            file: name(file),
        },
        Act::Replace(folder, from, to) => Step::Replace {
            room: 0,
            folder: name(folder),
            from: name(from),
            to: name(to),
        },
        _ => step_in_file(act),
    }
}

// None where the name is empty.
fn if_named(one: &[Name; 1]) -> &[Name] {
    if one[0] == Name::empty() { &[] } else { one }
}

/// Makes the step, and tells what the store answers.
pub(crate) fn act_on<S: Store>(store: &mut S, act: Act, line: &mut Line) {
    let told = match act {
        Act::MakeRoom(room, folder, file) => {
            let folders = [name(folder)];
            let files = [name(file)];
            store.act(&Step::MakeRoom {
                name: name(room),
                folders: if_named(&folders),
                files: if_named(&files),
            })
        }
        _ => store.act(&step_of(act)),
    };
    tell(line, &told);
    drop(told);
}
