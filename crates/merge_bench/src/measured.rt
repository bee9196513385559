//! The work that is measured, and the lines that are printed of it.

use crate::strided::{BLOCK, Task, Writer, truncates, writers};
use crate::sums::{START, bytes_of, next_of, of_pieces, with_parts};
use crate::uneven::uneven;
use interval_merge::{PiecesList, clip, merge_all, of_writer, size};
use plain_file::Pieces;
use plfs_types::NoMemory;
use read_plan::plan;
use std::alloc::Global;
use std::time::{CpuClock, Duration};
use std::{fs, io};

/// How many plans are made.
const PLANS: u64 = 100_000;

/// The bytes of 10000 blocks. Plans of a place below are the same however many blocks follow.
const NEAR: u64 = 10_000 * BLOCK;

/// Why a run ends before its end.
#[derive(Clone, Copy)]
pub enum Failure {
    /// Memory was refused.
    Memory,
    /// The system's clock or output failed.
    System,
}

impl From<NoMemory> for Failure {
    fn from(_: NoMemory) -> Self {
        Failure::Memory
    }
}

impl From<io::Error> for Failure {
    fn from(_: io::Error) -> Self {
        Failure::System
    }
}

/// Merges the entries of the task, clips the pieces by many and by few truncates, plans reads of them and
/// of as many pieces of uneven lengths, and prints what came of it.
pub(crate) fn measure(rt: &HostRuntime, task: &Task) -> Result<(), Failure> {
    let writers = writers(rt.alloc(), task)?;
    let start = rt.thread_cpu_time()?;
    let whole = merged(rt.alloc(), writers.as_slice())?;
    print_time(rt, "merge", start, task.is_timed)?;
    print_peak(rt, task.is_timed)?;
    print_pieces(rt, "merge", &whole)?;
    measure_clip(rt, "clip_1000", &whole, task, 1000)?;
    measure_clip(rt, "clip_10", &whole, task, 10)?;
    measure_plans(rt, "plan", &whole, NEAR, task.is_timed)?;
    measure_plans(rt, "plan_far", &whole, u64::MAX, task.is_timed)?;
    let uneven = uneven(rt.alloc(), task.count)?;
    measure_plans(rt, "plan_uneven", &uneven, u64::MAX, task.is_timed)
}

/// The pieces of all writers.
fn merged(alloc: Global, writers: &[Writer]) -> Result<Pieces, NoMemory> {
    let mut lists = PiecesList::new(alloc);
    for writer in writers {
        lists.push(of_writer(alloc, writer.entries.as_slice())?)?;
    }
    let whole = merge_all(alloc, lists)?;
    Ok(whole)
}

/// Clips the pieces by so many truncates.
fn measure_clip(
    rt: &HostRuntime,
    name: &str,
    whole: &Pieces,
    task: &Task,
    many: u64,
) -> Result<(), Failure> {
    let truncates = truncates(rt.alloc(), task.count, many)?;
    let start = rt.thread_cpu_time()?;
    let clipped = clip(rt.alloc(), whole, truncates.as_slice())?;
    print_time(rt, name, start, task.is_timed)?;
    print_pieces(rt, name, &clipped)
}

/// Plans reads of a block's length at places that look like chance, within the first bytes of the file.
fn measure_plans(
    rt: &HostRuntime,
    name: &str,
    whole: &Pieces,
    within: u64,
    is_timed: bool,
) -> Result<(), Failure> {
    let size = size(whole, &[]);
    let places = size.min(within).saturating_sub(BLOCK).saturating_add(1);
    let mut seed = 2009;
    let mut parts = 0u64;
    let mut sum = START;
    let start = rt.thread_cpu_time()?;
    for _ in 0..PLANS {
        let at = next_of(&mut seed).saturating_mul(512) % places.max(1);
        let planned = plan(rt.alloc(), whole, size, at, BLOCK)?;
        parts = parts.saturating_add(planned.as_slice().len() as u64);
        sum = with_parts(sum, planned.as_slice());
    }
    print_time(rt, name, start, is_timed)?;
    println!(rt; "{name}_parts {parts}")?;
    println!(rt; "{name}_checksum {sum}")?;
    Ok(())
}

/// Prints the nanoseconds of the processor since the start.
fn print_time(
    rt: &HostRuntime,
    name: &str,
    start: Duration,
    is_timed: bool,
) -> Result<(), Failure> {
    let now = rt.thread_cpu_time()?;
    if is_timed {
        let nanoseconds = now.saturating_sub(start).as_nanos();
        println!(rt; "{name}_ns {nanoseconds}")?;
    }
    Ok(())
}

/// Prints the most memory that the process has had so far, as Linux tells it.
fn print_peak(rt: &HostRuntime, is_timed: bool) -> Result<(), Failure> {
    if is_timed {
        let status = fs::read_to_string(rt, "/proc/self/status")?;
        for line in status.as_str().lines() {
            if let Some(peak) = line.strip_prefix("VmHWM:") {
                let peak = peak.trim();
                println!(rt; "merge_peak {peak}")?;
            }
        }
    }
    Ok(())
}

/// Prints what tells one list of pieces from another.
fn print_pieces(rt: &HostRuntime, name: &str, pieces: &Pieces) -> Result<(), Failure> {
    let pieces = pieces.as_slice();
    let count = pieces.len();
    let bytes = bytes_of(pieces);
    let sum = of_pieces(pieces);
    println!(rt; "{name}_pieces {count}")?;
    println!(rt; "{name}_bytes {bytes}")?;
    println!(rt; "{name}_checksum {sum}")?;
    Ok(())
}
