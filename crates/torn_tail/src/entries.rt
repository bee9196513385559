//! The entries of an index dropping, which are checked in order.
ghost use Rattle.std.specs.Prelude.{◌≡◌, ◌*◌, ◌≤◌, length, true};
ghost use Rattle.mount_model.specs.Entries.{is_next as next_of};
ghost use Rattle.torn_tail.specs.Entries.{no_entries, longer as longer_of, checked as checked_of, looked};

use crate::runs::{Counted, Run};
use mount_model::{first_entry, is_next, past_first};
use plfs_types::{Cover, Entry};

/// How far the checking of entries went.
#[derive(Clone, Copy)]
pub(crate) enum Went {
    /// All are there.
    On,
    /// The next one ends past the log, so it and all after it count as not there.
    Ends,
    /// The next one breaks a rule.
    Breaks,
}

/// None of this writer's entries.
pub(crate) fn none_counted(writer: u64) -> Counted
    ensures { result.run ≡ no_entries writer }
{
    let cover = Cover {
        writer,
        count: 0,
        bytes: 0,
        stamp: 0,
    };
    Counted {
        run: Run { cover, last: 0 },
    }
}

/// With an entry that follows.
#[tactic(auto, using(crate::proofs::RunLemmas::next_rules))]
fn longer(counted: Counted, entry: Entry) -> Counted
    requires { next_of counted.run.cover entry ≡ true }
    ensures { result.run ≡ longer_of entry counted.run }
{
    let run = counted.run;
    let cover = Cover {
        writer: run.cover.writer,
        count: run.cover.count + 1,
        bytes: run.cover.bytes + entry.len,
        stamp: entry.stamp,
    };
    Counted {
        run: Run {
            cover,
            last: run.last.max(entry.at + entry.len),
        },
    }
}

/// Goes on with the first of so many entries of these bytes, up to one that doesn't follow or ends past so many bytes of
/// the log.
fn checked(first: Counted, log: u64, count: usize, bytes: &[u8]) -> (Went, Counted)
    requires { 40 * count ≤ length bytes.now }
    ensures { (result.0, result.1.run) ≡ checked_of log count bytes.now first.run }
{
    let mut counted = first;
    let mut rest = bytes;
    let mut left = count;
    while left > 0 {
        let entry = first_entry(rest);
        if !is_next(&counted.run.cover, &entry) {
            return (Went::Breaks, counted);
        }
        if entry.physical + entry.len > log {
            return (Went::Ends, counted);
        }
        counted = longer(counted, entry);
        rest = past_first(rest);
        left -= 1;
    }
    (Went::On, counted)
}

/// Looks at the entries of the bytes that a Read of so many gave, unless one before them ended past the log.
pub(crate) fn look(
    counted: Counted,
    log: u64,
    asked: u64,
    ended: bool,
    bytes: &[u8],
) -> (Went, Counted)
    ensures { (result.0, result.1.run) ≡ looked ended log asked bytes.now counted.run }
{
    if ended {
        return (Went::Ends, counted);
    }
    let count = (bytes.len() / 40).min(asked as usize);
    checked(counted, log, count, bytes)
}
