//! Writers that write at one place in one phase: which of them came later stands in their lines, and a reader in the next phase reads what it wrote.
use crate::runs::on_threads;
use plfs_types::NoMemory;
use script_lang::{CompactLine, Outcome};
use std::alloc::Global;
use std::sync::Wait;
use std::test::Fail;
use std::thread::Threads;

// The writer of the actor whose lines of opening and writing these are, with the write's stamp.
fn written(opening: &CompactLine, writing: &CompactLine) -> Option<(u64, u64)> {
    let (opened, wrote) = (opening.seen(), writing.seen());
    let found = match (opened.outcome(), wrote.outcome()) {
        (
            Outcome::Opened { writer },
            Outcome::Wrote {
                stamp: Some(stamp),
                ..
            },
        ) => Some((*stamp, *writer)),
        _ => None,
    };
    drop((opened, wrote));
    found
}

// Whether the line tells that this byte was read at the front.
fn reads(line: &CompactLine, byte: &[u8]) -> bool {
    let seen = line.seen();
    let found = match seen.outcome() {
        Outcome::Read { at: 0, content } => content.as_slice() == byte,
        _ => false,
    };
    drop(seen);
    found
}

const TWO_WRITERS: &str =
    "actor w1\nactor w2\nactor r\nw1 open f\nw2 open f\nw1 write 0 text:A\nw2 write 0 text:B\nw1 close\nw2 close\nphase\nr ropen f\nr read 0 9\n";

// Runs both writers, and says whether the reader has read the byte of the greater stamp, or at one stamp of the greater writer.
fn reads_the_later<R: Threads + Wait + Sync>(
    rt: &R,
    alloc: Global,
    times: &[u64],
) -> Result<bool, NoMemory> {
    let lines = on_threads(rt, alloc, TWO_WRITERS, times)?;
    let [open_1, open_2, write_1, write_2, _, _, _, read] = lines.as_slice() else {
        return Ok(false);
    };
    let (Some(first), Some(second)) = (written(open_1, write_1), written(open_2, write_2)) else {
        return Ok(false);
    };
    let later: &[u8] = if second < first { b"A" } else { b"B" };
    Ok(first.1 != second.1 && reads(read, later))
}

// The clock rises, stands still, or falls.
const TIMES: &[&[u64]] = &[&[10, 11], &[10], &[20, 10]];

#[test]
fn a_reader_reads_what_the_printed_stamps_say(rt: HostRuntime) -> Result<(), Fail> {
    for times in TIMES {
        assert!(rt; reads_the_later(&rt, rt.alloc(), times)?);
    }
    Ok(())
}
