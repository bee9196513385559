//! How many files may be open at once, by what the system tells of the process.
ghost use Rattle.std.specs.Prelude.{◌≡◌, ◌≤◌, ◌<◌, ◌^◌, ℕ, List, Some, IfSome, codes, length, option_map};
ghost use Rattle.std.specs.Fmt.{decimal};
ghost use Rattle.folder_calls.specs.Limits.{line_of, first_word, limit_word, IsLimitBy, share_of};

use crate::system::System;
use plfs_types::read_decimal;
use std::fs;

/// Where Linux tells a process its limits.
const LIMITS: &str = "/proc/self/limits";

/// How the line begins that has the number of files that the process may have open.
const NAME: &[u8] = b"Max open files";

/// How many files the process is taken to be allowed where the system doesn't tell it.
const ASSUMED: u64 = 576;

/// How many open files are left to the rest of the process: its streams and locks, and what a step opens for a moment.
const RESERVE: u64 = 64;

/// The most files that one store keeps open, whatever the process may: each takes memory of the system.
const MOST: u64 = 65_536;

/// How many files a store may keep open that is one of so many. Together they have half of what the process may have open,
/// but for some that are left to the rest of it, so that a second store may be open beside them. Each has one at least.
pub fn share_of(limit: u64, stores: u64) -> u64
    ensures { result ≡ share_of limit stores }
{
    (limit.saturating_sub(RESERVE) / 2 / stores.max(1))
        .min(MOST)
        .max(1)
}

// The first line that begins with the name.
fn named_line(limits: &[u8]) -> Option<&[u8]>
    ensures line { option_map (λ line. line.now) result ≡ line_of (codes "Max open files") limits.now }
    ensures long { IfSome result (λ line. 14 ≤ length line.now) }
{
    limits
        .split(|byte| *byte == b'\n')
        .find(|line| line.starts_with(NAME))
}

fn first_word(line: &[u8]) -> Option<&[u8]>
    ensures { option_map (λ word. word.now) result ≡ first_word line.now }
{
    line.split(|byte| *byte == b' ')
        .find(|word| !word.is_empty())
}

/// How many files the process may have open, by the list of its limits: the first number in the first line that begins with that
/// limit's name. None where no number below 2^64 stands there.
pub fn limit_in(limits: &[u8]) -> Option<u64>
    ensures found { IfSome result (λ n. limit_word limits.now ≡ Some (decimal n)) }
    ensures exact { (n : ℕ) → n < 2 ^ 64 → limit_word limits.now ≡ Some (decimal n) → result ≡ Some n }
{
    let line = named_line(limits)?;
    let word = first_word(&line[NAME.len()..])?;
    read_decimal(word)
}

// The same, or what is assumed.
fn limit_by(limits: &[u8]) -> u64
    ensures { IsLimitBy limits.now result }
{
    limit_in(limits).unwrap_or(ASSUMED)
}

/// How many files the process may have open, by the list of limits that the system gives of it. Where it gives none, 576 are
/// assumed. What the system gives is in no contract.
pub fn open_limit<R: System>(rt: &R) -> u64
    ensures { (limits : List ℕ) × IsLimitBy limits result }
{
    match fs::read(rt, LIMITS) {
        Ok(limits) => limit_by(limits.as_slice()),
        Err(_) => limit_by(b""),
    }
}
