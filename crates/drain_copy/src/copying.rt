//! What is due of each writer is copied, and last the truncates are put.
ghost use Rattle.std.specs.Prelude.{◌≡◌, ◌≤◌, ◌<◌, ◌+◌, length, IfOk};
ghost use Rattle.drain_copy.specs.Bounds.{ahead_left, entries_left, log_left, making_left, turn_left, work_left};
ghost use Rattle.store_api.specs.Owned.{step_given};
ghost use Rattle.drain_copy.specs.Copying.{copies, copies_bytes, entry_of as entry_path_of, index_of as index_path_of, log_of as log_path_of, puts_truncs, trunc_file as file_of_trunc, writes_entries};
ghost use Rattle.drain_copy.specs.Stages.{entries_program, goes_ahead, log_program, log_writes, making_next, making_program, making_step as making_step_of, making_told, part_spelling, source_rest, target_rest, turn_program, IsOwedTurn};

use crate::outcome::{DrainStuck, Drained};
use crate::parts::{LOG_PART, entries_part, entry_place, parts_of, spelled};
use crate::plan::{Copying, Due};
use crate::stages::{Making, SourceStage, TargetStage, Turn};
use crate::telling::{folder_alone, is_entry_made, is_made, is_made_now, part_told};
use crate::work::{Ahead, EntriesPart, LogPart, Work};
use container_layout::{Item, hostdir, print, truncs};
use mount_model::{Call, Look, Reply};
use plfs_types::{Bytes, ENTRIES_A_READ, MAX_SIZE, MAX_STAMP, NoMemory, Path, Queue, Trunc};
use std::alloc::Global;
use store_api::{Answer, OwnedStep, Trouble};

// ---- its files

fn log_of(due: &Due) -> Path
    ensures { result ≡ log_path_of due.now }
{
    print(&Item::Log {
        host: due.host,
        writer: due.writer,
    })
}

fn index_of(due: &Due) -> Path
    ensures { result ≡ index_path_of due.now }
{
    print(&Item::Index {
        host: due.host,
        writer: due.writer,
    })
}

fn entry_of(due: &Due) -> Path
    ensures { result ≡ entry_path_of due.now }
{
    print(&Item::OpenHost {
        host: due.host,
        writer: due.writer,
    })
}

/// The dropping of a truncate.
fn trunc_file(trunc: Trunc) -> Path
    ensures { result ≡ file_of_trunc trunc }
{
    if trunc.stamp > 0 && trunc.stamp <= MAX_STAMP && trunc.size <= MAX_SIZE {
        print(&Item::Trunc {
            stamp: trunc.stamp,
            size: trunc.size,
        })
    } else {
        folder_alone(truncs())
    }
}

fn create(room: u64, path: &Path) -> OwnedStep
    ensures { result ≡ OwnedStep.Create room path.now.folder path.now.file }
{
    OwnedStep::Create {
        room,
        folder: path.folder,
        file: path.file,
    }
}

fn sync(room: u64, path: &Path) -> OwnedStep
    ensures { result ≡ OwnedStep.Sync room path.now.folder path.now.file }
{
    OwnedStep::Sync {
        room,
        folder: path.folder,
        file: path.file,
    }
}

// ---- the truncates

/// The next truncate, or the end.
fn truncs_on(to: u64, rest: Queue<Trunc>, drained: Drained) -> Turn
    ensures goes_on { turn_program result ≡ puts_truncs to rest drained }
    ensures fewer { turn_left result ≤ length rest }
    ensures owed { IsOwedTurn result }
{
    let mut rest = rest;
    match rest.pop() {
        Some(trunc) => {
            let step = create(to, &trunc_file(trunc));
            let stage = TargetStage::Trunc {
                to,
                trunc,
                rest,
                drained,
            };
            Turn::Acts(step, stage)
        }
        None => {
            drop(rest);
            Turn::Over(Ok(drained))
        }
    }
}

/// What comes after the making of a truncate.
pub(crate) fn after_trunc(
    to: u64,
    trunc: Trunc,
    rest: Queue<Trunc>,
    drained: Drained,
    told: Result<Answer, Trouble>,
) -> Turn
    ensures goes_on { turn_program result ≡ target_rest (TargetStage.Trunc to trunc rest drained) told }
    ensures fewer { turn_left result ≤ length rest }
    ensures owed { IsOwedTurn result }
{
    let made = is_made(&trunc_file(trunc), &told);
    drop(told);
    match made {
        Ok(()) => truncs_on(to, rest, drained),
        Err(why) => {
            drop(rest);
            Turn::Over(Err(why))
        }
    }
}

// ---- the writers

/// The step that makes or keeps this of a writer.
fn making_step(making: Making, copying: &Copying) -> OwnedStep
    ensures { step_given result ≡ making_step_of making copying.now }
{
    match making {
        Making::Entry => create(copying.to, &entry_of(&copying.due)),
        Making::Hostdir => OwnedStep::MakeFolder {
            room: copying.to,
            folder: hostdir(copying.due.host),
        },
        Making::Index => create(copying.to, &index_of(&copying.due)),
        Making::Log => create(copying.to, &log_of(&copying.due)),
        Making::LogKept => sync(copying.to, &log_of(&copying.due)),
        Making::IndexKept => sync(copying.to, &index_of(&copying.due)),
    }
}

/// Makes or keeps this of a writer.
#[tactic(auto, using(crate::proofs::CopyLemmas::making_same))]
fn make(making: Making, work: Work) -> Turn
    ensures goes_on { turn_program result ≡ making_program making work }
    ensures fewer { turn_left result ≡ making_left making + work_left work }
    ensures owed { IsOwedTurn result }
{
    let step = making_step(making, &work.copying);
    Turn::Acts(step, TargetStage::Making { making, work })
}

/// The first of the writers that are left, or the truncates.
pub(crate) fn writers_on(from: u64, to: u64, ahead: Ahead) -> Turn
    ensures goes_on { turn_program result ≡ copies from to ahead.truncs ahead.drained ahead.rest }
    ensures fewer { turn_left result ≤ ahead_left ahead.rest ahead.truncs }
    ensures owed { IsOwedTurn result }
{
    let Ahead {
        mut rest,
        truncs,
        drained,
    } = ahead;
    match rest.pop() {
        Some(due) => {
            let work = Work {
                copying: Copying { from, to, due },
                ahead: Ahead {
                    rest,
                    truncs,
                    drained,
                },
            };
            make(Making::Entry, work)
        }
        None => {
            drop(rest);
            truncs_on(to, Queue::of(truncs), drained)
        }
    }
}

/// What comes after a writer.
fn ahead_of(work: Work) -> Turn
    ensures goes_on { turn_program result ≡ goes_ahead work }
    ensures fewer { turn_left result ≤ work_left work }
    ensures owed { IsOwedTurn result }
{
    let Work { copying, ahead } = work;
    let from = copying.from;
    let to = copying.to;
    drop(copying);
    writers_on(from, to, ahead)
}

// ---- its log

/// The next part of its log, or its sync.
fn log_on(part: LogPart) -> Turn
    ensures goes_on { turn_program result ≡ log_program part }
    ensures fewer { turn_left result ≤ log_left part }
    ensures owed { IsOwedTurn result }
{
    let LogPart { work, parts, left } = part;
    if parts == 0 {
        return make(Making::LogKept, work);
    }
    let path = log_of(&work.copying.due);
    let at = work.copying.due.bytes - left;
    let call = Call::Look {
        room: work.copying.from,
        look: Look::Read {
            path,
            at,
            len: left.min(LOG_PART),
        },
    };
    let rest = LogPart {
        work,
        parts: parts - 1,
        left,
    };
    Turn::Calls(call, SourceStage::ReadingLog(rest))
}

/// Begins to copy its log.
fn copy_bytes(work: Work) -> Turn
    ensures goes_on { turn_program result ≡ copies_bytes (goes_ahead work) work.copying }
    ensures fewer { turn_left result < making_left Making.Log + work_left work }
    ensures owed { IsOwedTurn result }
{
    let left = work.copying.due.bytes.saturating_sub(work.copying.due.log);
    let parts = parts_of(LOG_PART, left);
    log_on(LogPart { work, parts, left })
}

/// Writes a part of its log.
fn write_log(part: LogPart, bytes: Bytes) -> Turn
    ensures goes_on { turn_program result ≡ log_writes part bytes }
    ensures fewer { turn_left result ≡ 1 + log_left part }
    ensures owed { IsOwedTurn result }
{
    let path = log_of(&part.work.copying.due);
    let step = OwnedStep::WriteAt {
        room: part.work.copying.to,
        folder: path.folder,
        file: path.file,
        at: part.work.copying.due.bytes - part.left,
        bytes,
    };
    Turn::Acts(step, TargetStage::WritingLog(part))
}

/// What comes after a Read of a part of its log.
pub(crate) fn after_log_read(part: LogPart, reply: Reply) -> Turn
    ensures goes_on { turn_program result ≡ source_rest (SourceStage.ReadingLog part) reply }
    ensures fewer { turn_left result < 2 + log_left part }
    ensures owed { IsOwedTurn result }
{
    let path = log_of(&part.work.copying.due);
    let at = part.work.copying.due.bytes - part.left;
    match part_told(&path, at, part.left.min(LOG_PART), reply) {
        Ok(bytes) => write_log(part, bytes),
        Err(why) => {
            drop(part);
            Turn::Over(Err(why))
        }
    }
}

/// What comes after a part of its log was written.
pub(crate) fn after_log_write(part: LogPart, told: Result<Answer, Trouble>) -> Turn
    ensures goes_on { turn_program result ≡ target_rest (TargetStage.WritingLog part) told }
    ensures fewer { turn_left result < 1 + log_left part }
    ensures owed { IsOwedTurn result }
{
    let made = is_made_now(&log_of(&part.work.copying.due), &told);
    drop(told);
    match made {
        Ok(()) => {
            let LogPart { work, parts, left } = part;
            let left = left - left.min(LOG_PART);
            log_on(LogPart { work, parts, left })
        }
        Err(why) => {
            drop(part);
            Turn::Over(Err(why))
        }
    }
}

// ---- its entries

/// The bytes of the next part of its entries.
fn part_spelled(alloc: Global, due: &Due, left: usize) -> Result<Bytes, NoMemory>
    requires { left ≤ length due.now.entries }
    ensures { IfOk result (λ bytes. bytes ≡ part_spelling due.now left) }
{
    spelled(alloc, entries_part(due.entries.as_slice(), left))
}

/// The next part of its entries, or the sync of its index dropping.
fn entries_on(alloc: Global, part: EntriesPart) -> Result<Turn, NoMemory>
    ensures goes_on { IfOk result (λ turn. turn_program turn ≡ entries_program part) }
    ensures fewer { IfOk result (λ made. turn_left made ≤ entries_left part) }
    ensures owed { IfOk result IsOwedTurn }
{
    let EntriesPart { work, parts, left } = part;
    if parts == 0 {
        return Ok(make(Making::IndexKept, work));
    }
    let bytes = match part_spelled(alloc, &work.copying.due, left) {
        Ok(bytes) => bytes,
        Err(why) => {
            drop(work);
            return Err(why);
        }
    };
    let path = index_of(&work.copying.due);
    let behind = work.copying.due.entries.as_slice().len() - left;
    let step = OwnedStep::WriteAt {
        room: work.copying.to,
        folder: path.folder,
        file: path.file,
        at: entry_place(work.copying.due.count, behind as u64),
        bytes,
    };
    let rest = EntriesPart {
        work,
        parts: parts - 1,
        left,
    };
    Ok(Turn::Acts(step, TargetStage::WritingEntries(rest)))
}

/// Begins to write its entries.
fn write_entries(alloc: Global, work: Work) -> Result<Turn, NoMemory>
    ensures goes_on { IfOk result (λ turn. turn_program turn ≡ writes_entries (goes_ahead work) work.copying) }
    ensures fewer { IfOk result (λ made. turn_left made < making_left Making.LogKept + work_left work) }
    ensures owed { IfOk result IsOwedTurn }
{
    let left = work.copying.due.entries.as_slice().len();
    let parts = parts_of(ENTRIES_A_READ, left as u64);
    entries_on(alloc, EntriesPart { work, parts, left })
}

/// What comes after a part of its entries was written.
pub(crate) fn after_entries(
    alloc: Global,
    part: EntriesPart,
    told: Result<Answer, Trouble>,
) -> Result<Turn, NoMemory>
    ensures goes_on { IfOk result (λ turn. turn_program turn ≡ target_rest (TargetStage.WritingEntries part) told) }
    ensures fewer { IfOk result (λ made. turn_left made < 1 + entries_left part) }
    ensures owed { IfOk result IsOwedTurn }
{
    let made = is_made_now(&index_of(&part.work.copying.due), &told);
    drop(told);
    match made {
        Ok(()) => {
            let EntriesPart { work, parts, left } = part;
            let left = left - left.min(ENTRIES_A_READ as usize);
            entries_on(alloc, EntriesPart { work, parts, left })
        }
        Err(why) => {
            drop(part);
            Ok(Turn::Over(Err(why)))
        }
    }
}

// ---- after a single step

/// Whether this was made or kept of a writer.
fn has_made(making: Making, due: &Due, told: &Result<Answer, Trouble>) -> Result<(), DrainStuck>
    ensures { result ≡ making_told making due.now told.now }
{
    match making {
        Making::Entry => is_entry_made(&entry_of(due), told),
        Making::Hostdir => is_made(&folder_alone(hostdir(due.host)), told),
        Making::Index => is_made(&index_of(due), told),
        Making::Log => is_made(&log_of(due), told),
        Making::LogKept => is_made_now(&log_of(due), told),
        Making::IndexKept => is_made_now(&index_of(due), told),
    }
}

/// What comes once this is made or kept.
fn made_on(alloc: Global, making: Making, work: Work) -> Result<Turn, NoMemory>
    ensures goes_on { IfOk result (λ turn. turn_program turn ≡ making_next making work) }
    ensures fewer { IfOk result (λ made. turn_left made < making_left making + work_left work) }
    ensures owed { IfOk result IsOwedTurn }
{
    match making {
        Making::Entry => Ok(make(Making::Hostdir, work)),
        Making::Hostdir => Ok(make(Making::Index, work)),
        Making::Index => Ok(make(Making::Log, work)),
        Making::Log => Ok(copy_bytes(work)),
        Making::LogKept => write_entries(alloc, work),
        Making::IndexKept => Ok(ahead_of(work)),
    }
}

/// What comes after a step that makes or keeps something of a writer.
pub(crate) fn after_making(
    alloc: Global,
    making: Making,
    work: Work,
    told: Result<Answer, Trouble>,
) -> Result<Turn, NoMemory>
    ensures goes_on { IfOk result (λ turn. turn_program turn ≡ target_rest (TargetStage.Making making work) told) }
    ensures fewer { IfOk result (λ made. turn_left made < making_left making + work_left work) }
    ensures owed { IfOk result IsOwedTurn }
{
    let made = has_made(making, &work.copying.due, &told);
    drop(told);
    match made {
        Ok(()) => made_on(alloc, making, work),
        Err(why) => {
            drop(work);
            Ok(Turn::Over(Err(why)))
        }
    }
}
