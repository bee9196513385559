//! Cases, and whether they hold.
//!
//! A case begins with the machine that runs, and a number where it has one. Behind that each row has a call of the machine
//! and the reply to it, and the last one tells how the machine ends. What stands behind a `#` says why.
//!
//!     share 1 # its first entry is covered
//!     length index.7.9: long 79
//!     length log.7.9: long 5
//!     = share 9:1
use crate::gathered::{tell_gathered, tell_joined};
use crate::machines::Greeter;
use crate::playing::show;
use crate::readers::{reading, refreshing, sharing};
use crate::spelling::parts;
use crate::writers::{handle_of, writing};
use attr_flow::AttrFlow;
use index_reader::{OpenRead, TruncRead};
use migrate_core::MigrateFlow;
use plfs_types::LogicalName;
use std::alloc::Global;
use std::process::Abort;
use std::thread::Threads;
use test_lines::Line;
use torn_tail::RecoverFlow;
use trunc_rename::{RenameFlow, TruncFlow};
use writer_flow::{CloseFlow, OpenWrite, SyncFlow};

/// Which machine runs.
#[derive(Clone, Copy)]
enum Machine {
    Greet,
    Truncate,
    Rename,
    Attr,
    Recover,
    Migrate,
    Find,
    List,
    Share { packed: bool },
    Truncates,
    Read,
    Refresh,
    Joined,
    Gathered,
    Open,
    Write,
    Sync,
    Close { closing: bool },
}

fn machine_of(word: &str) -> Option<Machine> {
    match word {
        // It greets once.
        "greet" => Some(Machine::Greet),
        // It truncates to 3 bytes.
        "truncate" => Some(Machine::Truncate),
        "rename" => Some(Machine::Rename),
        "attr" => Some(Machine::Attr),
        "recover" => Some(Machine::Recover),
        "migrate" => Some(Machine::Migrate),
        // It lists a container that it finds by its name.
        "find" => Some(Machine::Find),
        // It lists the container of room 1.
        "list" => Some(Machine::List),
        // It reads the index dropping of writer 9 of host 7, of which so many entries are covered, 0 to 2.
        "share" => Some(Machine::Share { packed: false }),
        // It reads the packed index of that writer.
        "packed" => Some(Machine::Share { packed: true }),
        "truncates" => Some(Machine::Truncates),
        // It reads the bytes of a file of two entries.
        "read" => Some(Machine::Read),
        // It refreshes the reader of that file.
        "refresh" => Some(Machine::Refresh),
        // What comes of a set of writes, which stands in place of the rows.
        "joined" => Some(Machine::Joined),
        "gathered" => Some(Machine::Gathered),
        "open" => Some(Machine::Open),
        // It writes one byte at 3, where so many entries are pending.
        "write" => Some(Machine::Write),
        // It syncs where so many are pending.
        "sync" => Some(Machine::Sync),
        // It closes, or goes on with a close, where so many have landed.
        "close" => Some(Machine::Close { closing: false }),
        "closing" => Some(Machine::Close { closing: true }),
        _ => None,
    }
}

// Takes the machine with this number through the rows, where it can be made.
fn play<R: Threads + Sync>(
    rt: &R,
    alloc: Global,
    (machine, number): (Machine, u64),
    rows: &str,
    shown: &mut Line,
) -> Option<()> {
    let name = LogicalName::read(b"a")?;
    let other = LogicalName::read(b"b")?;
    match machine {
        Machine::Greet => show(alloc, Greeter { is_answered: false }, rows, shown),
        Machine::Truncate => show(alloc, TruncFlow::new(name, 3), rows, shown),
        Machine::Rename => show(alloc, RenameFlow::new(name, other), rows, shown),
        Machine::Attr => show(alloc, AttrFlow::new(alloc, name), rows, shown),
        Machine::Recover => show(alloc, RecoverFlow::new(alloc, name), rows, shown),
        Machine::Migrate => show(alloc, MigrateFlow::new(alloc, name), rows, shown),
        Machine::Find => show(alloc, OpenRead::new(alloc, name), rows, shown),
        Machine::List => show(alloc, OpenRead::at(alloc, 1), rows, shown),
        Machine::Share { packed } => show(alloc, sharing(alloc, packed, number)?, rows, shown),
        Machine::Truncates => show(alloc, TruncRead::new(alloc, 1), rows, shown),
        Machine::Read => show(alloc, reading(rt, alloc)?, rows, shown),
        Machine::Refresh => show(alloc, refreshing(rt, alloc)?, rows, shown),
        Machine::Joined => tell_joined(rt, alloc, rows, shown)?,
        Machine::Gathered => tell_gathered(rt, alloc, rows, shown)?,
        Machine::Open => show(alloc, OpenWrite::new(name, 7, 2), rows, shown),
        Machine::Write => show(alloc, writing(alloc, number)?, rows, shown),
        Machine::Sync => show(
            alloc,
            SyncFlow::new(handle_of(number, false, 5)),
            rows,
            shown,
        ),
        Machine::Close { closing } => show(
            alloc,
            CloseFlow::new(handle_of(0, closing, number)),
            rows,
            shown,
        ),
    }
    Some(())
}

/// Each of the cases, between which there is an empty line, comes as its rows tell.
pub(crate) fn all_hold<R: Threads + Sync + Abort>(rt: &R, alloc: Global, cases: &str) {
    let mut wrong = Line::new(alloc);
    for case in cases.split("\n\n") {
        let (head, want) = parts(case, '\n');
        let (machine, _) = parts(head, '#');
        let (word, number) = parts(machine, ' ');
        let number = number.parse::<u64>().unwrap_or(0);
        let (rows, _) = parts(want, '=');
        let mut shown = Line::new(alloc);
        if let Some(machine) = machine_of(word) {
            let _ = play(rt, alloc, (machine, number), rows, &mut shown);
        }
        wrong.expect(case, &shown, want);
        drop(shown);
    }
    ends(rt, wrong);
}

/// Nothing came otherwise than the rows say.
pub(crate) fn ends<R: Abort>(rt: &R, wrong: Line) {
    assert!(rt; wrong.as_str().is_empty(), "{}", wrong.as_str());
    drop(wrong);
}
