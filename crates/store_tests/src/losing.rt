//! What a loss of power leaves of a store in memory, and what each step keeps from it.
use crate::acts::Act;
use crate::memory::in_memory;
use crate::playing::Row;
use std::test::Fail;

const TABLES: &[&[Row]] = &[
    // A loss keeps what was synced: of four bytes two are, and so many more are kept.
    &[
        (Act::MakeRoom("r", "", "f"), "number 0"),
        (Act::Write("", "f", 0, "ab"), "made"),
        (Act::Sync("", "f"), "made"),
        (Act::Write("", "f", 2, "cd"), "made"),
        (Act::Lose(&[(0, "f", 0)]), ""),
        (Act::Read("", "f", 0, 9), "bytes ab"),
        (Act::Sync("", "f"), "made"),
        (Act::Write("", "f", 2, "cd"), "made"),
        (Act::Lose(&[(0, "f", 1)]), ""),
        (Act::Read("", "f", 0, 9), "bytes abc"),
        (Act::Cut("", "f", 2), "made"),
        (Act::Sync("", "f"), "made"),
        (Act::Write("", "f", 2, "cd"), "made"),
        (Act::Lose(&[(0, "f", 2)]), ""),
        (Act::Read("", "f", 0, 9), "bytes abcd"),
        (Act::Cut("", "f", 2), "made"),
        (Act::Sync("", "f"), "made"),
        (Act::Write("", "f", 2, "cd"), "made"),
        (Act::Lose(&[(0, "f", 3)]), ""),
        (Act::Read("", "f", 0, 9), "bytes abcd"),
    ],
    // Power goes off in the second act, of which one byte is made.
    &[
        (Act::Off(1, 1), ""),
        (Act::MakeRoom("r", "", "f"), "number 0"),
        (Act::Write("", "f", 0, "ab"), "fault"),
        (Act::Write("", "f", 0, "ab"), "fault"),
        (Act::Counts, "3 acts, 2 faults"),
        (Act::Lose(&[]), ""),
        (Act::Read("", "f", 0, 9), "bytes "),
    ],
    // Each step keeps what it should.
    &[
        (Act::Failing(&[(13, 1), (14, 0), (15, 1)]), ""),
        (Act::Show, ""),
        (Act::MakeRoom("r", "", ""), "number 0; 1 acts, 0 faults"),
        (
            Act::Create("", "f"),
            "made; 0 bytes, 0 kept; 2 acts, 0 faults",
        ),
        (
            Act::Write("", "f", 0, "abcd"),
            "made; 4 bytes, 0 kept; 3 acts, 0 faults",
        ),
        (
            Act::Sync("", "f"),
            "made; 4 bytes, 4 kept; 4 acts, 0 faults",
        ),
        (
            Act::Write("", "f", 4, "ef"),
            "made; 6 bytes, 4 kept; 5 acts, 0 faults",
        ),
        (
            Act::Write("", "f", 3, "Xe"),
            "made; 6 bytes, 3 kept; 6 acts, 0 faults",
        ),
        (
            Act::Write("", "f", 3, "Xe"),
            "made; 6 bytes, 3 kept; 7 acts, 0 faults",
        ),
        (
            Act::Write("", "f", 0, "ab"),
            "made; 6 bytes, 3 kept; 8 acts, 0 faults",
        ),
        (
            Act::Cut("", "f", 2),
            "made; 2 bytes, 2 kept; 9 acts, 0 faults",
        ),
        (
            Act::Sync("", "f"),
            "made; 2 bytes, 2 kept; 10 acts, 0 faults",
        ),
        (
            Act::Write("", "f", 2, "cd"),
            "made; 4 bytes, 2 kept; 11 acts, 0 faults",
        ),
        (
            Act::Cut("", "f", 9),
            "beyond; 4 bytes, 2 kept; 12 acts, 0 faults",
        ),
        (
            Act::Write("", "f", 9, "x"),
            "beyond; 4 bytes, 2 kept; 13 acts, 0 faults",
        ),
        // two of its bytes are as before, of which one is written
        (
            Act::Write("", "f", 1, "bcX"),
            "fault; 4 bytes, 2 kept; 14 acts, 1 faults",
        ),
        (
            Act::Sync("", "f"),
            "fault; 4 bytes, 2 kept; 15 acts, 2 faults",
        ),
        (
            Act::Write("", "f", 0, "Yb"),
            "fault; 4 bytes, 0 kept; 16 acts, 3 faults",
        ),
        (
            Act::Replace("", "f", "g"),
            "made; 4 bytes, 0 kept; 17 acts, 3 faults",
        ),
        (
            Act::Sync("", "g"),
            "made; 4 bytes, 4 kept; 18 acts, 3 faults",
        ),
    ],
    // A loss leaves the kept bytes and those that are wanted. Of a file that was given all bytes are kept; then it gets
    // two more. The first step after a loss is told with what the loss left.
    &[
        (Act::Show, ""),
        (Act::Given("", &[("f", "abcd", 1)]), ""),
        (
            Act::Write("", "f", 4, "ef"),
            "made; 6 bytes, 4 kept; 1 acts, 0 faults",
        ),
        // of another room, of another file, and of a file without a name
        (Act::Lose(&[(1, "f", 2), (0, "g", 2), (0, "", 2)]), ""),
        (
            Act::Read("", "f", 0, 9),
            "bytes abcd; 4 bytes, 4 kept; 1 acts, 0 faults",
        ),
        // the first for the file counts
        (Act::Given("", &[("f", "abcd", 1)]), ""),
        (
            Act::Write("", "f", 4, "ef"),
            "made; 6 bytes, 4 kept; 1 acts, 0 faults",
        ),
        (Act::Lose(&[(1, "f", 2), (0, "f", 1), (0, "f", 2)]), ""),
        (
            Act::Read("", "f", 0, 9),
            "bytes abcde; 5 bytes, 5 kept; 1 acts, 0 faults",
        ),
        (Act::Given("", &[("f", "abcd", 1)]), ""),
        (
            Act::Write("", "f", 4, "ef"),
            "made; 6 bytes, 4 kept; 1 acts, 0 faults",
        ),
        (Act::Lose(&[(0, "f", 0), (0, "f", 1), (0, "f", 2)]), ""),
        (
            Act::Read("", "f", 0, 9),
            "bytes abcd; 4 bytes, 4 kept; 1 acts, 0 faults",
        ),
        (Act::Given("", &[("f", "abcd", 1)]), ""),
        (
            Act::Write("", "f", 4, "ef"),
            "made; 6 bytes, 4 kept; 1 acts, 0 faults",
        ),
        (Act::Lose(&[(0, "f", 2), (0, "f", 0), (0, "f", 0)]), ""),
        (
            Act::Read("", "f", 0, 9),
            "bytes abcdef; 6 bytes, 6 kept; 1 acts, 0 faults",
        ),
        (Act::Given("", &[("f", "abcd", 1)]), ""),
        (
            Act::Write("", "f", 4, "ef"),
            "made; 6 bytes, 4 kept; 1 acts, 0 faults",
        ),
        (Act::Lose(&[(0, "f", u64::MAX), (0, "f", 0)]), ""),
        (
            Act::Read("", "f", 0, 9),
            "bytes abcdef; 6 bytes, 6 kept; 1 acts, 0 faults",
        ),
    ],
    // Nothing is made once the power is off: it goes off in the fourth act, a write, which leaves one byte.
    &[
        (Act::Off(3, 1), ""),
        (Act::Show, ""),
        (Act::MakeRoom("r", "", ""), "number 0; 1 acts, 0 faults"),
        (
            Act::Create("", "f"),
            "made; 0 bytes, 0 kept; 2 acts, 0 faults",
        ),
        (
            Act::Write("", "f", 0, "ab"),
            "made; 2 bytes, 0 kept; 3 acts, 0 faults",
        ),
        (
            Act::Write("", "f", 2, "cd"),
            "fault; 3 bytes, 0 kept; 4 acts, 1 faults",
        ),
        (
            Act::Sync("", "f"),
            "fault; 3 bytes, 0 kept; 5 acts, 2 faults",
        ),
        (
            Act::Write("", "f", 3, "d"),
            "fault; 3 bytes, 0 kept; 6 acts, 3 faults",
        ),
        (Act::Rooms, "fault; 3 bytes, 0 kept; 7 acts, 4 faults"),
        (Act::Lose(&[]), ""),
        (
            Act::Sync("", "f"),
            "made; 0 bytes, 0 kept; 1 acts, 0 faults",
        ),
    ],
];

#[test]
fn a_loss_leaves_the_kept_bytes_and_those_that_are_wanted(rt: HostRuntime) -> Result<(), Fail> {
    in_memory(&rt, rt.alloc(), TABLES)
}
