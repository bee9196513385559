//! What a store on a folder of the system tells of a fault's cause.
use crate::acts::Act;
use crate::on_folder::on_folders;
use crate::playing::Row;
use std::test::Fail;

const TABLES: &[(&str, &[Row])] = &[
    // A fault tells its place below ROOT, and the system's reason.
    (
        "store_tests_causes",
        &[
            (Act::RemoveDir("store_tests_causes"), ""),
            (Act::Open("store_tests_causes"), ""),
            (Act::Rooms, "fault"),
            (Act::Cause, ": list: No such file or directory (os error 2)"),
            (Act::MakeDir("store_tests_causes"), ""),
            (Act::MakeDir("store_tests_causes/f"), ""),
            (Act::MakeDir("store_tests_causes/f/d"), ""),
            (Act::MakeDir("store_tests_causes/f/d/log"), ""),
            (Act::Length("d", "log"), "fault"),
            (Act::Cause, "/f/d/log: a folder stands there"),
        ],
    ),
    // A name with control characters is told with escapes.
    (
        "store_tests_control",
        &[
            (Act::MakeDir("store_tests_control/f"), ""),
            (Act::MakeDir("store_tests_control/f/it's\n\u{1b}[2J"), ""),
            (Act::Open("store_tests_control"), ""),
            (Act::Length("", "it's\n\u{1b}[2J"), "fault"),
            (Act::Cause, "/f/it\\'s\\n\\u{1b}[2J: a folder stands there"),
        ],
    ),
];

#[test]
fn a_fault_tells_its_place_below_root_and_the_systems_reason(rt: HostRuntime) -> Result<(), Fail> {
    on_folders(&rt, rt, TABLES)
}
