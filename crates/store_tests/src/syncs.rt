//! A sync of a store on a folder that failed is final.
use crate::acts::Act;
use crate::failing::NO_SYNC;
use crate::on_folder::on_folders;
use crate::playing::Row;
use std::test::Fail;

const ROOM: Row = (Act::MakeRoom("f", "d", ""), "number 0");

const FAIL: Row = (Act::WriteFile(NO_SYNC, ""), "");

const WORK: Row = (Act::RemoveFile(NO_SYNC), "");

const TABLES: &[(&str, &[Row])] = &[
    // A file. The next sync of it is none, also under another name, and that of another file is one.
    (
        "store_tests_unsynced",
        &[
            ROOM,
            (Act::Create("d", "log"), "made"),
            (Act::Create("d", "other"), "made"),
            (Act::Write("d", "log", 0, "abc"), "made"),
            FAIL,
            (Act::Sync("d", "log"), "fault"),
            (Act::Cause, "/f/d/log: sync: no sync"),
            WORK,
            (Act::Sync("d", "log"), "fault"),
            (
                Act::Cause,
                "/f/d/log: a sync of it or of its folder failed before: no sync",
            ),
            (Act::Sync("d", "other"), "made"),
            (Act::Write("d", "log", 3, "d"), "made"),
            (Act::Read("d", "log", 0, 9), "bytes abcd"),
            (Act::Replace("d", "log", "new"), "fault"),
            (Act::Sync("d", "new"), "absent"),
            (Act::RenameRoom(0, "g"), "made"),
            (Act::Sync("d", "log"), "fault"),
            (Act::Remove("d", "log"), "made"),
            (Act::Create("d", "log"), "made"),
            (Act::Sync("d", "log"), "fault"),
            (Act::Counts, "16 acts, 5 faults"),
        ],
    ),
    // A folder: no name in it is made or removed any more, also where the name is there.
    (
        "store_tests_unsynced_folder",
        &[
            ROOM,
            FAIL,
            (Act::Create("d", "log"), "fault"),
            (Act::Cause, "/f/d/log: sync: no sync"),
            (Act::Kind("store_tests_unsynced_folder/f/d/log"), "file"),
            WORK,
            (Act::Create("d", "log"), "fault"),
            (
                Act::Cause,
                "/f/d/log: a sync of it or of its folder failed before: no sync",
            ),
            (Act::Create("d", "other"), "fault"),
            (Act::Remove("d", "log"), "fault"),
            (Act::Replace("d", "log", "new"), "fault"),
            (Act::Kind("store_tests_unsynced_folder/f/d/log"), "file"),
            (Act::List("d"), "names log"),
            (Act::Write("d", "log", 0, "abc"), "made"),
            (Act::Sync("d", "log"), "made"),
            (Act::MakeFolder(0, "e"), "made"),
            (Act::Create("e", "log"), "made"),
        ],
    ),
    // A room's own folder, and ROOT.
    (
        "store_tests_unsynced_room",
        &[
            ROOM,
            FAIL,
            (Act::MakeFolder(0, "e"), "fault"),
            WORK,
            (Act::MakeFolder(0, "e"), "fault"),
            (Act::RemoveFolder("d"), "fault"),
            FAIL,
            (Act::RenameRoom(0, "g"), "fault"),
            WORK,
            (Act::FindRoom("g"), "number 0"),
            (Act::RenameRoom(0, "h"), "fault"),
            (
                Act::Cause,
                "/g: a sync of it or of its folder failed before: no sync",
            ),
            (Act::MakeRoom("i", "", ""), "fault"),
            (Act::MakeRoom("g", "", ""), "fault"),
            (Act::Create("d", "log"), "made"),
            // Another run knows nothing of it.
            (Act::Open("store_tests_unsynced_room"), ""),
            (Act::RenameRoom(0, "h"), "made"),
        ],
    ),
];

#[test]
fn a_sync_that_failed_is_final(rt: HostRuntime) -> Result<(), Fail> {
    on_folders(&rt, rt, TABLES)
}
