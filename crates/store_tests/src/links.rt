//! Links where a store on a folder of the system has its folders and files.
use crate::acts::Act;
use crate::on_folder::on_folders;
use crate::playing::Row;
use std::test::Fail;

const ROOM: Row = (Act::MakeRoom("f", "d", ""), "number 0");

const TABLES: &[(&str, &[Row])] = &[
    // A link in a file's place is not written through. ROOT is a folder in another one, which has a file that the link leads
    // to.
    (
        "store_tests_file_link",
        &[
            (Act::MakeDir("store_tests_file_link/root"), ""),
            (Act::Open("store_tests_file_link/root"), ""),
            ROOM,
            (Act::WriteFile("store_tests_file_link/victim", "kept"), ""),
            (
                Act::Link("../../../victim", "store_tests_file_link/root/f/d/log"),
                "",
            ),
            (Act::ReadFile("store_tests_file_link/root/f/d/log"), "kept"),
            (Act::Create("d", "log"), "fault"),
            (Act::Write("d", "log", 0, "written"), "fault"),
            (Act::ReadFile("store_tests_file_link/victim"), "kept"),
        ],
    ),
    // No step goes through a link in a folder's place.
    (
        "store_tests_dir_link",
        &[
            (Act::MakeDir("store_tests_dir_link/root"), ""),
            (Act::MakeDir("store_tests_dir_link/beside"), ""),
            (Act::Open("store_tests_dir_link/root"), ""),
            ROOM,
            (
                Act::WriteFile("store_tests_dir_link/beside/victim", "kept"),
                "",
            ),
            (
                Act::Link("../../beside", "store_tests_dir_link/root/f/e"),
                "",
            ),
            (
                Act::ReadFile("store_tests_dir_link/root/f/e/victim"),
                "kept",
            ),
            (Act::Create("e", "new"), "fault"),
            (Act::Write("e", "victim", 0, "written"), "fault"),
            (Act::List("e"), "fault"),
            (Act::Remove("e", "victim"), "fault"),
            (Act::MakeFolder(0, "e"), "fault"),
            (Act::ReadFile("store_tests_dir_link/beside/victim"), "kept"),
            (Act::Kind("store_tests_dir_link/beside/new"), "nothing"),
        ],
    ),
    // A link in ROOT is no room, and ROOT may be one.
    (
        "store_tests_room_link",
        &[
            (Act::MakeDir("store_tests_room_link/root"), ""),
            (Act::MakeDir("store_tests_room_link/beside"), ""),
            (Act::Open("store_tests_room_link/root"), ""),
            ROOM,
            (Act::Link("../beside", "store_tests_room_link/root/g"), ""),
            (Act::Kind("store_tests_room_link/root/g"), "folder"),
            (
                Act::Link("../root", "store_tests_room_link/beside/root"),
                "",
            ),
            (Act::Open("store_tests_room_link/beside/root"), ""),
            (Act::FindRoom("g"), "absent"),
            (Act::Create("d", "log"), "made"),
            (Act::Write("d", "log", 0, "written"), "made"),
            (
                Act::ReadFile("store_tests_room_link/root/f/d/log"),
                "written",
            ),
        ],
    ),
];

#[test]
fn no_step_goes_through_a_link_below_root(rt: HostRuntime) -> Result<(), Fail> {
    on_folders(&rt, rt, TABLES)
}
