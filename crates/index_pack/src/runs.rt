//! A run of entries.
ghost use Rattle.std.specs.Prelude.{◌≡◌, ◌<◌, ◌≤◌, ◌+◌, ◌-◌, ◌*◌, ◌^◌, ◌↔◌, ◌++◌, [], ◌∷◌, IsTrue, IfSome, IfNone};
ghost use Rattle.index_entry.specs.Spelling.{FitsPlaces};
ghost use Rattle.index_pack.specs.RunEnds.{run_stamp};
ghost use Rattle.index_pack.specs.Runs.{entry_of, run_entries, IsRun, CouldGoOn};

use plfs_types::Entry;

/// Entries of one writer and one length, whose places in the file rise by a stride and whose stamps rise by a step.
#[derive(Clone, Copy)]
pub struct Run {
    /// Where the first entry begins in the file, in bytes.
    pub start: u64,
    /// How much further on each next one begins.
    pub stride: u64,
    /// The length of each entry in bytes.
    pub len: u64,
    /// How many entries it has.
    pub count: u64,
    /// Where the first entry's bytes begin in the log.
    pub physical: u64,
    /// The first entry's stamp.
    pub stamp: u64,
    /// How much greater each next stamp is.
    pub step: u64,
    /// The writer.
    pub writer: u64,
}

/// The run of this one entry.
pub(crate) fn single(entry: &Entry) -> Run
    ensures shape { IsRun result }
    ensures entries { run_entries result ≡ entry.now ∷ [] }
{
    Run {
        start: entry.at,
        stride: 0,
        len: entry.len,
        count: 1,
        physical: entry.physical,
        stamp: entry.stamp,
        step: 0,
        writer: entry.writer,
    }
}

/// The run with an entry more, with which it can go on. The second entry sets the stride and the step.
pub(crate) fn longer(run: &Run, entry: &Entry) -> Run
    requires run { IsRun run.now }
    requires goes_on { CouldGoOn run.now entry.now }
    requires later { run_stamp run.now < entry.now.stamp }
    requires few { run.now.count < 2 ^ 20 }
    requires place { entry.now.physical ≡ run.now.physical + run.now.count * run.now.len }
    requires owner { entry.now.writer ≡ run.now.writer }
    ensures shape { IsRun result }
    ensures entries { run_entries result ≡ run_entries run.now ++ entry.now ∷ [] }
{
    if run.count == 1 {
        Run {
            start: run.start,
            stride: entry.at - run.start,
            len: run.len,
            count: 2,
            physical: run.physical,
            stamp: run.stamp,
            step: entry.stamp - run.stamp,
            writer: run.writer,
        }
    } else {
        Run {
            start: run.start,
            stride: run.stride,
            len: run.len,
            count: run.count + 1,
            physical: run.physical,
            stamp: run.stamp,
            step: run.step,
            writer: run.writer,
        }
    }
}

/// Whether the run could go on with this entry.
pub(crate) fn could_go_on(run: &Run, entry: Entry) -> bool
    ensures { IsTrue result ↔ CouldGoOn run.now entry }
{
    if run.count == 1 {
        return entry.len == run.len && run.start <= entry.at;
    }
    match entry_at(run, run.count) {
        Some(next) => run.count > 1 && next == entry,
        None => false,
    }
}

/// Entry `index` of the run, from 0, where all of its numbers have 64 bits.
fn entry_at(run: &Run, index: u64) -> Option<Entry>
    ensures some { IfSome result (λ e. e ≡ entry_of run.now index) }
    ensures none { IfNone result (FitsPlaces (entry_of run.now index) → ⊥) }
{
    Some(Entry {
        at: further(run.start, index, run.stride)?,
        len: run.len,
        physical: further(run.physical, index, run.len)?,
        stamp: further(run.stamp, index, run.step)?,
        writer: run.writer,
    })
}

/// So many steps further, where that has 64 bits.
pub(crate) fn further(first: u64, times: u64, step: u64) -> Option<u64>
    ensures some { IfSome result (λ n. n ≡ first + times * step) }
    ensures none { IfNone result (2 ^ 64 ≤ first + times * step) }
{
    first.checked_add(times.checked_mul(step)?)
}
