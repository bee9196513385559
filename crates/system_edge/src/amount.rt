//! How much of an input was copied, on standard error where that is a terminal and the input's length is known.
ghost use Rattle.std.specs.Prelude.{◌≡◌, ◌<◌, ◌≤◌, ◌⊎◌, ◌+◌, ◌*◌, ◌/◌, ◌-◌, ◌^◌, [], min};
ghost use Rattle.std.specs.Fs.{IsFile, file_type, metadata_len};

use edge_io::{Clock, SystemClock};
use std::fs::{self, File, Metadata};
use std::io::IsTerminal;

/// How many bytes of how many were read, how many that are in a second, and how many seconds are left, in a line that each new one
/// overwrites.
#[derive(Clone, Copy)]
pub struct Amount {
    rt: HostRuntime,
    // 0 where nothing is shown.
    all: u64,
    done: u64,
    // Milliseconds since 1970.
    began: u64,
    // The hundredths that are shown, and one more; 0 where nothing is.
    shown: u64,
}

// The time in milliseconds since 1970.
fn milliseconds(rt: HostRuntime) -> u64 {
    SystemClock::new(rt).now() / 1_000_000
}

// The bytes of what the system describes so, where it is a plain file, and else 0.
fn plain_length(found: &Metadata) -> u64
    ensures plain { IsFile (file_type found.now) → result ≡ metadata_len found.now }
    ensures other { (¬ IsFile (file_type found.now)) → result ≡ 0 }
{
    if found.is_file() { found.len() } else { 0 }
}

/// The bytes of standard input, where it is a file, and else 0. What the system tells of it is trusted, and where it tells nothing it is 0.
pub fn input_length(rt: &HostRuntime) -> u64 {
    match fs::metadata(rt, "/dev/stdin") {
        Ok(found) => plain_length(&found),
        Err(_) => 0,
    }
}

/// The bytes of a plain file, and else 0. What the system tells of it is trusted, and where it tells nothing it is 0.
pub fn file_length(file: &File) -> u64 {
    match file.metadata() {
        Ok(found) => plain_length(&found),
        Err(_) => 0,
    }
}

/// The bytes of these files together, up to 2^64 - 1. What `file_length` answers of each of them is trusted.
pub fn files_length(files: &[File]) -> u64
    ensures none { files.now ≡ [] → result ≡ 0 }
{
    let mut all: u64 = 0;
    for file in files {
        all = all.saturating_add(file_length(file));
    }
    all
}

// How many there are in a second, where so many came in so many milliseconds.
fn per_second(count: u64, milliseconds: u64) -> u128
    requires { 1 ≤ milliseconds }
    ensures { result ≡ count * 1000 / milliseconds }
{
    u128::from(count) * 1000 / u128::from(milliseconds)
}

// How many seconds so many bytes take.
fn seconds(count: u64, rate: u128) -> u128
    requires { 1 ≤ rate }
    ensures { result ≡ count / rate }
{
    u128::from(count) / rate
}

/// How many hundredths of all these are, rounded down.
pub fn hundredths(done: u64, all: u64) -> u64
    requires { done < all }
    ensures { result ≡ done * 100 / all }
{
    (u128::from(done) * 100 / u128::from(all)) as u64
}

// How many bytes are shown as all: none, unless standard error is a terminal.
fn shown_as_all(rt: &HostRuntime, all: u64) -> u64
    ensures { (result ≡ all) ⊎ (result ≡ 0) }
{
    if rt.stderr().is_terminal() { all } else { 0 }
}

impl Amount {
    /// So many bytes are to come, or it isn't known how many where that is 0. It is shown where standard error is a terminal.
    pub fn new(rt: HostRuntime, all: u64) -> Amount
        ensures all { (result.all ≡ all) ⊎ (result.all ≡ 0) }
        ensures none { (result.done ≡ 0) × (result.shown ≡ 0) }
    {
        Amount {
            rt,
            all: shown_as_all(&rt, all),
            done: 0,
            began: milliseconds(rt),
            shown: 0,
        }
    }

    /// So many bytes more were read, or the end where that is 0.
    pub fn add(&mut self, count: usize)
        ensures all { self.new.all ≡ self.old.all }
        ensures hidden { self.old.all ≡ 0 → self.new ≡ self.old }
        ensures done { 1 ≤ self.old.all → self.new.done ≡ min (self.old.done + count) (2 ^ 64 - 1) }
    {
        if self.all == 0 {
            return;
        }
        self.done = self.done.saturating_add(count as u64);
        if count == 0 || self.all <= self.done {
            self.clear();
            return;
        }
        let now = hundredths(self.done, self.all) + 1;
        if now != self.shown {
            self.shown = now;
            self.show();
        }
    }

    // Shows it.
    fn show(&self) {
        let rt = &self.rt;
        let (done, all) = (self.done, self.all);
        let passed = milliseconds(*rt).saturating_sub(self.began).max(1);
        let rate = per_second(done, passed);
        let left = seconds(all.saturating_sub(done), rate.max(1));
        let _ = eprint!(rt; "{done} of {all} bytes, {rate} a second, {left} s left\x1b[K\r");
    }

    /// Clears the line, where something is shown. It is shown anew behind the next read.
    pub fn clear(&mut self)
        ensures none { self.new.shown ≡ 0 }
        ensures same { (self.new.all ≡ self.old.all) × (self.new.done ≡ self.old.done) × (self.new.began ≡ self.old.began) }
    {
        if self.shown == 0 {
            return;
        }
        self.shown = 0;
        let rt = &self.rt;
        let _ = eprint!(rt; "\x1b[K");
    }
}
