//! What is to be copied.
ghost use Rattle.std.specs.Prelude.{◌≡◌, ◌≤◌, ◌<◌, ◌+◌, ◌*◌, ◌^◌, ◌++◌, None, length, IfOk, OnOk};
ghost use Rattle.drain_copy.specs.Draining.{job_of as job_for};
ghost use Rattle.drain_copy.specs.Planning.{covers_of as covers_told, count_there as count_held, due_if, due_of as due_for, drained_of as drained_for, dues_of as dues_for, is_settled as is_settled_of, is_taken as is_taken_of, log_there as log_held, mirror_in, mounts_of as mounts_for, nothing_held as nothing_told, owners_of as owners_for, taken as taken_of, with_due as with_due_of};

use crate::outcome::{DrainStuck, Drained};
use drain_read::{Contained, Held, Mirror, MirrorList, Waiting, WriterRead, WriterReadList};
use plfs_types::{CoverList, EntryList, IdList, LogicalName, NoMemory, Queue, Sequence, TruncList};
use std::alloc::Global;

/// What is to be copied of a writer.
#[derive(Drop)]
pub struct Due {
    pub host: u32,
    pub writer: u64,
    /// How many of its entries have landed at the target.
    pub count: u64,
    /// How many bytes its log has there.
    pub log: u64,
    /// How many bytes the gathered entries have.
    pub bytes: u64,
    /// The gathered entries past those that have landed.
    pub entries: EntryList,
}

pub(crate) type DueList = Sequence<Due>;

/// A writer and its host.
#[derive(Clone, Copy)]
pub struct Owner {
    pub host: u32,
    pub writer: u64,
}

/// A writer that is copied, from this room of the source to this one of the target.
#[derive(Drop)]
pub(crate) struct Copying {
    pub(crate) from: u64,
    pub(crate) to: u64,
    pub(crate) due: Due,
}

/// All that is to be copied, from this room of the source, and what is written by that.
#[derive(Drop)]
pub(crate) struct Job {
    pub(crate) name: LogicalName,
    pub(crate) from: u64,
    pub(crate) dues: Waiting<Due>,
    pub(crate) truncs: TruncList,
    pub(crate) drained: Drained,
}

/// What a target has without the container.
pub(crate) fn nothing_held(alloc: Global) -> Held
    ensures { result ≡ nothing_told }
{
    Held {
        mirrors: MirrorList::new(alloc),
        settled: IdList::new(alloc),
    }
}

/// The covers of the entries that have landed at the target.
pub(crate) fn covers_of(alloc: Global, mirrors: &[Mirror]) -> Result<CoverList, NoMemory>
    ensures { IfOk result (λ covers. covers ≡ covers_told mirrors.now) }
{
    let mut covers = Vec::new(alloc);
    for mirror in mirrors {
        covers.push(mirror.cover)?;
    }
    Ok(CoverList::from_vec(covers))
}

/// What the target has of a writer. One writer after the other is looked at: a drain syncs more of each than that costs.
fn mirror_of(mirrors: &[Mirror], writer: u64) -> Option<Mirror>
    ensures { result ≡ mirror_in mirrors.now writer }
{
    for mirror in mirrors {
        if mirror.cover.writer == writer {
            return Some(*mirror);
        }
    }
    None
}

fn count_there(held: &Held, writer: u64) -> u64
    ensures { result ≡ count_held held.now writer }
{
    match mirror_of(held.mirrors.as_slice(), writer) {
        Some(mirror) => mirror.cover.count,
        None => 0,
    }
}

fn log_there(held: &Held, writer: u64) -> u64
    ensures { result ≡ log_held held.now writer }
{
    match mirror_of(held.mirrors.as_slice(), writer) {
        Some(mirror) => mirror.log,
        None => 0,
    }
}

/// Whether the writer has a metadata dropping at the target.
fn is_settled(held: &Held, writer: u64) -> bool
    ensures { result ≡ is_settled_of held.now writer }
{
    held.settled.as_slice().iter().any(|other| *other == writer)
}

/// Whether the writer was settled at the target, and went on at the source.
fn is_taken(held: &Held, read: &WriterRead) -> bool
    ensures { result ≡ is_taken_of held.now read.now }
{
    is_settled(held, read.writer) && count_there(held, read.writer) < read.cover.count
}

/// The first such writer.
pub(crate) fn taken(held: &Held, writers: &[WriterRead]) -> Option<DrainStuck>
    ensures { result ≡ taken_of held.now writers.now }
{
    for read in writers {
        if is_taken(held, read) {
            return Some(DrainStuck::Taken {
                writer: read.writer,
                there: count_there(held, read.writer),
                here: read.cover.count,
            });
        }
    }
    None
}

/// What is due of a writer.
fn due_of(held: &Held, read: WriterRead) -> Due
    ensures { result ≡ due_for held.now read }
{
    let count = count_there(held, read.writer);
    let log = log_there(held, read.writer);
    let WriterRead {
        host,
        writer,
        cover,
        entries,
    } = read;
    Due {
        host,
        writer,
        count,
        log,
        bytes: cover.bytes,
        entries,
    }
}

/// With what is due of a writer, where it isn't settled at the target.
fn add_due(held: &Held, read: WriterRead, dues: &mut DueList) -> Result<(), NoMemory>
    ensures { OnOk result (dues.new ≡ dues.old ++ due_if held.now read) }
{
    if is_settled(held, read.writer) {
        drop(read);
        return Ok(());
    }
    dues.push(due_of(held, read))
}

/// What is due of the writers that aren't settled at the target.
pub(crate) fn dues_of(
    alloc: Global,
    held: &Held,
    writers: WriterReadList,
) -> Result<DueList, NoMemory>
    ensures { IfOk result (λ dues. dues ≡ dues_for held.now writers) }
{
    let mut rest = Waiting::of(writers);
    let mut dues = DueList::new(alloc);
    while let Some(read) = rest.pop() {
        if let Err(why) = add_due(held, read, &mut dues) {
            drop((rest, dues));
            return Err(why);
        }
    }
    drop(rest);
    Ok(dues)
}

/// The writers with entries that aren't at the target.
pub(crate) fn owners_of(alloc: Global, writers: &[WriterRead]) -> Result<Queue<Owner>, NoMemory>
    ensures owners { IfOk result (λ owners. owners ≡ owners_for writers.now) }
    ensures few { IfOk result (λ owners. length owners < 2 ^ 64) }
{
    let mut owners = Vec::new(alloc);
    for read in writers {
        if read.entries.as_slice().len() > 0 {
            owners.push(Owner {
                host: read.host,
                writer: read.writer,
            })?;
        }
    }
    let count = owners.len();
    let _ = count;
    Ok(Queue::of(Sequence::from_vec(owners)))
}

/// The mounts of the writers, each once.
pub(crate) fn mounts_of(alloc: Global, writers: &[WriterRead]) -> Result<Queue<u64>, NoMemory>
    ensures mounts { IfOk result (λ mounts. mounts ≡ mounts_for writers.now) }
    ensures few { IfOk result (λ mounts. length mounts < 2 ^ 64) }
{
    let mut mounts = Vec::new(alloc);
    let mut last = None;
    for read in writers {
        let mount = read.writer / 4_294_967_296;
        if last != Some(mount) {
            mounts.push(mount)?;
            last = Some(mount);
        }
    }
    let count = mounts.len();
    let _ = count;
    Ok(Queue::of(Sequence::from_vec(mounts)))
}

/// With what is due of a writer more.
fn with_due(sofar: Drained, due: &Due) -> Drained
    requires writers { sofar.writers + 1 < 2 ^ 64 }
    requires entries { sofar.entries + 2 ^ 64 ≤ 2 ^ 128 }
    requires bytes { sofar.bytes + 2 ^ 64 ≤ 2 ^ 128 }
    ensures with { result ≡ with_due_of due.now sofar }
    ensures one { result.writers ≤ sofar.writers + 1 }
    ensures few { result.entries ≤ sofar.entries + 2 ^ 64 }
    ensures short { result.bytes ≤ sofar.bytes + 2 ^ 64 }
{
    let entries = due.entries.as_slice().len() as u64;
    Drained {
        writers: sofar.writers + entries.min(1),
        entries: sofar.entries + u128::from(entries),
        bytes: sofar.bytes + u128::from(due.bytes.saturating_sub(due.log)),
    }
}

/// What is written, where all that is due is.
pub(crate) fn drained_of(dues: &[Due]) -> Drained
    ensures { result ≡ drained_for dues.now }
{
    let mut sofar = Drained {
        writers: 0,
        entries: 0,
        bytes: 0,
    };
    for due in dues {
        sofar = with_due(sofar, due);
    }
    sofar
}

/// All that is to be copied.
pub(crate) fn job_of(
    alloc: Global,
    name: LogicalName,
    held: &Held,
    contained: Contained,
) -> Result<Job, NoMemory>
    ensures job { IfOk result (λ job. job ≡ job_for name held.now contained) }
    ensures few { IfOk result (λ job. length job.dues < 2 ^ 64) }
    ensures short { IfOk result (λ job. length job.truncs < 2 ^ 64) }
{
    let Contained {
        room,
        writers,
        truncs,
    } = contained;
    match dues_of(alloc, held, writers) {
        Ok(dues) => {
            let drained = drained_of(dues.as_slice());
            let count = dues.as_slice().len();
            let listed = truncs.as_slice().len();
            let _ = (count, listed);
            Ok(Job {
                name,
                from: room,
                dues: Waiting::of(dues),
                truncs,
                drained,
            })
        }
        Err(why) => {
            drop(truncs);
            Err(why)
        }
    }
}
