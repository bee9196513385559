//! A store on a folder of the system: what it makes there, and what it tells of it.
use crate::acts::Act;
use crate::memory::new_store;
use crate::on_folder::{on_folders, open};
use crate::playing::Row;
use std::test::Fail;

const ROOM: Row = (Act::MakeRoom("f", "d", "access"), "number 0");

const TABLES: &[(&str, &[Row])] = &[
    // A room is a folder with its folders and files.
    (
        "store_tests_room",
        &[
            ROOM,
            (Act::Kind("store_tests_room/f/d"), "folder"),
            (Act::Kind("store_tests_room/f/access"), "file"),
            (Act::Kind("store_tests_room/.new.0"), "nothing"),
            (Act::FindRoom("f"), "number 0"),
            (Act::List(""), "names access d"),
            (Act::MakeRoom("f", "", ""), "old 0"),
        ],
    ),
    // Bytes are written, read and cut.
    (
        "store_tests_bytes",
        &[
            ROOM,
            (Act::Create("d", "log"), "made"),
            (Act::Write("d", "log", 0, "hello"), "made"),
            (Act::Write("d", "log", 4, "p you"), "made"),
            (Act::Write("d", "log", 10, "x"), "beyond"),
            (Act::Read("d", "log", 1, 100), "bytes ellp you"),
            (Act::ReadFile("store_tests_bytes/f/d/log"), "hellp you"),
            (Act::Cut("d", "log", 4), "made"),
            (Act::Cut("d", "log", 5), "beyond"),
            (Act::Length("d", "log"), "number 4"),
            (Act::Sync("d", "log"), "made"),
            (Act::ReadFile("store_tests_bytes/f/d/log"), "hell"),
        ],
    ),
    // A replaced file has the other one's bytes.
    (
        "store_tests_replace",
        &[
            ROOM,
            (Act::Create("d", "a"), "made"),
            (Act::Create("d", "b"), "made"),
            (Act::Create("d", "b"), "old 0"),
            (Act::Write("d", "a", 0, "new"), "made"),
            (Act::Write("d", "b", 0, "older"), "made"),
            (Act::Replace("d", "b", "b"), "made"),
            (Act::Replace("d", "a", "b"), "made"),
            (Act::Read("d", "b", 1, 100), "bytes ew"),
            (Act::Read("d", "a", 1, 100), "absent"),
            (Act::List("d"), "names b"),
        ],
    ),
    // A folder goes once it is empty.
    (
        "store_tests_empty",
        &[
            ROOM,
            (Act::Create("d", "9"), "made"),
            (Act::Create("d", "10"), "made"),
            (Act::RemoveFolder("d"), "not empty 10"),
            (Act::Remove("d", "9"), "made"),
            (Act::Remove("d", "9"), "absent"),
            (Act::Remove("d", "10"), "made"),
            (Act::RemoveFolder("d"), "made"),
            (Act::Kind("store_tests_empty/f/d"), "nothing"),
            (Act::Remove("d", "9"), "no folder"),
            (Act::Create("d", "9"), "no folder"),
            (Act::MakeFolder(0, "d"), "made"),
            (Act::MakeFolder(0, "d"), "old 0"),
            (Act::MakeFolder(1, "d"), "no room"),
        ],
    ),
    // A removed file is absent though it was open.
    (
        "store_tests_removed",
        &[
            ROOM,
            (Act::Create("d", "log"), "made"),
            (Act::Write("d", "log", 0, "old"), "made"),
            (Act::Remove("d", "log"), "made"),
            (Act::Read("d", "log", 1, 100), "absent"),
            (Act::Create("d", "log"), "made"),
            (Act::Read("d", "log", 1, 100), "bytes "),
        ],
    ),
    // Another store sees what the first wrote.
    (
        "store_tests_again",
        &[
            ROOM,
            (Act::Create("d", "log"), "made"),
            (Act::Write("d", "log", 0, "kept"), "made"),
            (Act::RenameRoom(0, "f"), "target there"),
            (Act::RenameRoom(0, "g"), "made"),
            (Act::Write("d", "log", 4, "!"), "made"),
            (Act::WriteFile("store_tests_again/note", "no room"), ""),
            (Act::MakeDir("store_tests_again/.new.0"), ""),
            (Act::Open("store_tests_again"), ""),
            (Act::Rooms, "names g"),
            (Act::Read("d", "log", 1, 100), "bytes ept!"),
        ],
    ),
    // Each act on a missing root faults.
    (
        "store_tests_missing",
        &[
            (Act::RemoveDir("store_tests_missing"), ""),
            (Act::Open("store_tests_missing"), ""),
            (Act::Rooms, "fault"),
            (Act::Counts, "1 acts, 1 faults"),
            (Act::WriteFile("store_tests_missing", "a file"), ""),
            (Act::Rooms, "fault"),
            (Act::RemoveFile("store_tests_missing"), ""),
            (Act::MakeDir("store_tests_missing"), ""),
            (Act::Rooms, "names"),
            (Act::Counts, "3 acts, 2 faults"),
        ],
    ),
    // No name leads out of its folder.
    (
        "store_tests_out",
        &[
            ROOM,
            (Act::Create("d", ""), "fault"),
            (Act::Create("d", "."), "fault"),
            (Act::Create("d", ".."), "fault"),
            (Act::Create("d", "../access"), "fault"),
            (Act::Create("d", "a/b"), "fault"),
            (Act::Create("d", "a\0b"), "fault"),
            (Act::List(".."), "fault"),
            (Act::Counts, "8 acts, 7 faults"),
            (Act::List("d"), "names"),
        ],
    ),
    // The system fails a file in a folder's place.
    (
        "store_tests_place",
        &[
            ROOM,
            (Act::MakeDir("store_tests_place/f/d/log"), ""),
            (Act::WriteFile("store_tests_place/f/e", ""), ""),
            (Act::Write("d", "log", 0, "x"), "fault"),
            (Act::Remove("d", "log"), "fault"),
            (Act::Replace("d", "log", "a"), "fault"),
            (Act::List("e"), "no folder"),
            (Act::MakeFolder(0, "e"), "fault"),
        ],
    ),
    // What the making of a room left where it was broken off is cleared and used again; what another has put there is not.
    (
        "store_tests_leftover",
        &[
            (Act::MakeDir("store_tests_leftover/.new.0"), ""),
            (Act::MakeDir("store_tests_leftover/.new.0/old"), ""),
            (Act::WriteFile("store_tests_leftover/.new.0/gone", ""), ""),
            (Act::Open("store_tests_leftover"), ""),
            ROOM,
            (Act::Kind("store_tests_leftover/.new.0"), "nothing"),
            (Act::Kind("store_tests_leftover/f/old"), "nothing"),
            (Act::MakeDir("store_tests_leftover/.new.0"), ""),
            (
                Act::WriteFile("store_tests_leftover/.new.0/own", "kept"),
                "",
            ),
            (Act::MakeRoom("g", "d", "access"), "number 1"),
            (Act::Kind("store_tests_leftover/.new.1"), "nothing"),
            (Act::ReadFile("store_tests_leftover/.new.0/own"), "kept"),
        ],
    ),
];

#[test]
fn a_store_on_a_folder_makes_what_it_tells(rt: HostRuntime) -> Result<(), Fail> {
    on_folders(&rt, rt, TABLES)
}

// A mount, and the store in it, goes from thread to thread.
fn crosses<T: Send + Drop>(_value: T) {}

fn is_shared<T: Send + Sync>(_value: &T) {}

#[test]
fn stores_cross_threads(rt: HostRuntime) -> Result<(), Fail> {
    is_shared(&new_store(rt.alloc(), &[])?);
    crosses(open(rt, "store_tests_nowhere")?);
    Ok(())
}
