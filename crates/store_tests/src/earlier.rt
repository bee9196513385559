//! A store on a folder changes no bytes of an earlier run.
use crate::acts::Act;
use crate::failing::NO_SYNC;
use crate::on_folder::on_folders;
use crate::playing::Row;
use std::test::Fail;

const ROOM: Row = (Act::MakeRoom("f", "d", ""), "number 0");

const TABLES: &[(&str, &[Row])] = &[
    // Other bytes are not written over those that were found, nor partly over them; the same are, and so is what is behind.
    (
        "store_tests_earlier",
        &[
            ROOM,
            (Act::WriteFile("store_tests_earlier/f/d/log", "earlier"), ""),
            (Act::Write("d", "log", 0, "own"), "fault"),
            (
                Act::Cause,
                "/f/d/log: would overwrite bytes of an earlier run",
            ),
            (Act::Write("d", "log", 5, "er run"), "made"),
            (Act::Write("d", "log", 6, "?"), "fault"),
            (Act::Write("d", "log", 0, "earl"), "made"),
            (Act::Write("d", "log", 7, "?"), "fault"),
            (Act::ReadFile("store_tests_earlier/f/d/log"), "earlier run"),
            (Act::Counts, "6 acts, 3 faults"),
        ],
    ),
    // What is written behind a cut is the run's own.
    (
        "store_tests_earlier_cut",
        &[
            ROOM,
            (
                Act::WriteFile("store_tests_earlier_cut/f/d/log", "torn"),
                "",
            ),
            (Act::Cut("d", "log", 2), "made"),
            (Act::Write("d", "log", 2, "xyz"), "made"),
            (Act::Write("d", "log", 3, "!"), "made"),
            (Act::Write("d", "log", 1, "!"), "fault"),
            (Act::ReadFile("store_tests_earlier_cut/f/d/log"), "tox!z"),
        ],
    ),
    // A file that the run made, or found empty, is its own, also when it is opened again: a step on it that failed
    // closes it. A file that comes to its name is not.
    (
        "store_tests_earlier_own",
        &[
            ROOM,
            (Act::Create("d", "made"), "made"),
            (Act::WriteFile("store_tests_earlier_own/f/d/found", ""), ""),
            (Act::Write("d", "made", 0, "abc"), "made"),
            (Act::Write("d", "found", 0, "abc"), "made"),
            (Act::WriteFile(NO_SYNC, ""), ""),
            (Act::Sync("d", "made"), "fault"),
            (Act::Sync("d", "found"), "fault"),
            (Act::RemoveFile(NO_SYNC), ""),
            (Act::Write("d", "made", 1, "?"), "made"),
            (Act::Write("d", "found", 1, "?"), "made"),
            (Act::ReadFile("store_tests_earlier_own/f/d/made"), "a?c"),
            (Act::ReadFile("store_tests_earlier_own/f/d/found"), "a?c"),
            (Act::WriteFile("store_tests_earlier_own/f/d/old", "old"), ""),
            (Act::Replace("d", "old", "made"), "made"),
            (Act::Write("d", "made", 0, "new"), "fault"),
            (Act::Open("store_tests_earlier_own"), ""),
            (Act::Write("d", "found", 0, "b"), "fault"),
            (Act::Write("d", "found", 0, "a?cd"), "made"),
        ],
    ),
];

#[test]
fn bytes_of_an_earlier_run_stay(rt: HostRuntime) -> Result<(), Fail> {
    on_folders(&rt, rt, TABLES)
}
