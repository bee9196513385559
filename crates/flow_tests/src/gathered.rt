//! What is made of shares: one share of several, an open reader, and what a gathered index tells of its file.
//!
//! A case of a set of writes has the set in place of the rows.
use crate::cases::all_hold;
use crate::newest::{FIRST, SECOND, gathered, joined};
use crate::outcomes::Tell;
use crate::sets::read;
use attr_flow::attr_of;
use std::alloc::Global;
use std::thread::Threads;
use test_lines::Line;

/// Tells the share of two workers, of whom the first has the greater writer.
pub(crate) fn tell_joined<R: Threads + Sync>(
    rt: &R,
    alloc: Global,
    line: &str,
    shown: &mut Line,
) -> Option<()> {
    let set = read(alloc, line, 0)?;
    let shares = joined(rt, alloc, &set, &[&[SECOND], &[FIRST]]);
    drop(set);
    let shares = shares?;
    shown.push(line);
    shown.push("\n= ");
    for share in shares.as_slice() {
        share.tell(shown);
    }
    drop(shares);
    Some(())
}

/// Tells of the file of a gathered index.
pub(crate) fn tell_gathered<R: Threads + Sync>(
    rt: &R,
    alloc: Global,
    line: &str,
    shown: &mut Line,
) -> Option<()> {
    let set = read(alloc, line, 0)?;
    let all = gathered(rt, alloc, &set);
    drop(set);
    let all = all?;
    let attr = attr_of(alloc, &all.flat, &all.truncs);
    drop(all);
    let attr = attr.ok()?;
    shown.push(line);
    shown.push("\n= ");
    attr.tell(shown);
    drop(attr);
    Some(())
}

const CASES: &str = "\
# A read asks a log once for each part.

read
read log.7.9 0 4: bytes hell
read log.7.9 5 3: bytes abc
= hellabc

read # a log that is too short for a part
read log.7.9 0 4: bytes hell
read log.7.9 5 3: bytes a
= damaged hostdir.7/log.7.9 6

# A joined share has each writer and the newest bytes. Beside two entries of the writer 9 there is the newest one, of the writer 3.

joined
b@11:0+5 b@12:4+3 a@13:6+2
= share 3:1 9:2 0+4 4+2 6+2

# A gathered index tells of its file.

gathered
b@11:0+5 b@12:4+3 @20:3
= size 3 stored 8 9=8 truncates 20:3
";

#[test]
fn what_was_gathered_is_read_and_told_of(rt: HostRuntime) {
    all_hold(&rt, rt.alloc(), CASES)
}
