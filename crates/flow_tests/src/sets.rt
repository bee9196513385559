//! Sets of writes, and truncates, each a line.
//!
//! In a line `a@5:0+20` is a write of the writer a with the stamp 5, of 20 bytes from byte 0 on, behind those that stand
//! before it in the writer's log, and `@7:4` is a truncate to 4 bytes with the stamp 7. What stands behind a `#` says why.
use crate::spelling::parts;
use crate::worlds::{Set, Write, logged};
use std::alloc::Global;

/// They end below byte 64.
pub(crate) const SETS: &str = "\
# nothing was written
a@1:0+8
a@1:5+3 b@2:20+4 # a hole before the first byte, and one between two writes
a@1:0+20 b@2:6+5 # a newer write within an older one
a@2:0+20 b@1:6+5 # an older write within a newer one
a@5:0+10 b@5:5+10 c@5:8+3 # at one stamp the greater writer shows
a@5:0+6 a@6:10+6 b@6:0+6 b@7:10+6 c@6:3+10
a@1:0+4 a@2:4+4 b@3:8+4 c@4:12+4 c@5:16+4 # writes that touch
a@1:30+10 a@2:20+15 a@3:10+15 a@4:0+39 a@5:5+1 # a writer goes back, and over its own bytes
a@1:0+6 a@2:0+6 a@3:0+6 c@2:2+2
a@1:0+9 a@4:12+9 b@2:4+9 b@5:16+9 c@3:8+9 c@6:20+9 # stairs
a@2:0+10 @3:4 # a truncate within a write
a@4:0+10 @3:4 # a write over the end of a truncated file
a@3:0+10 @3:4 # at one stamp a truncate takes what is written
a@2:4+6 @3:4 # a truncate at the first byte of a write
a@2:4+6 @3:5
a@2:4+6 @3:9
a@2:4+6 @3:10 # a truncate at the end of a write
a@2:4+6 @3:11
a@2:0+10 @3:30 # up
a@2:0+10 b@6:2+3 @3:4 @4:20 # down and up again
a@1:0+12 b@5:3+4 @4:0 # to nothing, and written again
a@1:0+20 c@3:10+6 @3:5 @3:12 # two of one stamp: the greater is the size, and both take
@7:9 # a truncate alone
a@2:0+8 a@8:8+8 b@5:4+8 @5:6 @2:1 # each truncate takes what is older
a@2:26+2 a@5:11+9 b@1:9+8 b@3:43+6 b@4:33+1 b@8:32+16 @9:29 @12:54 @12:13
a@2:28+8 a@3:40+2 c@4:14+13 @11:14
a@3:38+10 a@6:13+11 a@7:44+10 b@3:31+3 c@1:42+15 c@4:34+13 c@7:18+13 @12:49 @8:3
a@1:10+3 b@4:13+5 b@7:38+12 @10:31 @5:34 @12:26
a@1:17+4 a@2:35+10 a@3:36+6 a@6:9+3 b@3:37+14 b@4:23+1 b@6:0+6 b@9:39+5 c@1:0+16 c@4:30+11 c@5:4+2 @5:44 @3:49 @7:45
b@2:31+16 b@4:15+1 b@8:32+6 b@11:32+1 c@2:20+15 c@5:29+13 @11:56 @5:15
a@1:11+12 a@5:29+5 a@9:21+6 a@12:4+5 b@3:32+14 c@4:39+15 c@8:15+6 c@12:13+6 @4:45
a@3:21+6 a@4:24+13 a@7:19+12 b@2:19+8 b@3:4+1 b@7:26+4 b@9:8+10 c@3:7+14 c@4:10+2 c@7:27+10
b@4:14+7 c@3:44+15 @6:55 @11:9
a@3:27+16 a@6:31+3 a@8:33+10 a@12:6+10 b@1:41+11 b@3:23+3 c@4:22+12 @4:54 @7:52
a@1:2+4 a@4:4+8 a@7:40+16 b@2:2+6 @5:29 @12:11 @2:18
a@1:13+7 a@4:11+11 a@8:14+8 b@4:3+15 b@8:29+10 b@11:24+14 b@13:16+4 c@1:44+1 c@3:3+16 @7:60
a@4:24+11 b@3:20+15 b@7:24+9 b@11:16+3 b@12:41+12 @7:38 @1:57
a@2:12+14 b@4:34+7 c@2:23+9 c@4:35+7 @5:27
a@1:8+11 a@2:12+9 a@4:7+14 b@3:0+4 b@5:19+6 b@6:42+14 b@8:9+1 c@1:11+6 c@5:15+9 c@8:10+8 @2:12
";

/// They end at or below byte 40, so that from byte 2^40 - 40 on a file of them ends at the greatest size.
pub(crate) const EDGES: &str = "\
a@5:37+3
a@5:20+20 b@6:30+10 c@4:39+1
a@5:20+20 @5:36
a@5:20+8 b@7:38+2 @6:40
@1:40
";

fn add(set: &mut Set, word: &str) -> Option<()> {
    let (letter, rest) = parts(word, '@');
    let (stamp, what) = parts(rest, ':');
    let (at, len) = parts(what, '+');
    let stamp = stamp.parse::<u64>().ok()?;
    let at = set.from.saturating_add(at.parse::<u64>().ok()?);
    if word.starts_with('@') && len.is_empty() {
        return set.truncs.push((stamp, at)).ok();
    }
    let len = len.parse::<u64>().ok()?;
    let writer = "abc".find(letter)?;
    let place = logged(set, writer);
    let write = Write {
        writer,
        at,
        len,
        place,
        stamp,
    };
    set.writes.push(write).ok()
}

/// The set of a line, with its bytes counted from this one on.
pub(crate) fn read(alloc: Global, line: &str, from: u64) -> Option<Set> {
    let (words, _) = parts(line, '#');
    let mut set = Set {
        writes: Vec::new(alloc),
        truncs: Vec::new(alloc),
        from,
    };
    for word in words.split_whitespace() {
        if add(&mut set, word).is_none() {
            drop(set);
            return None;
        }
    }
    Some(set)
}
