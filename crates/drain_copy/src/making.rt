//! At the target the room of marks, the marks and the container are made.
ghost use Rattle.std.specs.Prelude.{◌≡◌, ◌≤◌, ◌<◌, ◌+◌, ◌∷◌, [], codes, length, IfOk};
ghost use Rattle.drain_copy.specs.Bounds.{job_left, turn_left};
ghost use Rattle.mount_model.specs.Paths as paths;
ghost use Rattle.store_api.specs.Names as names;
ghost use Rattle.drain_copy.specs.Draining.{copies_to, makes_container, makes_marks, makes_marks_room};
ghost use Rattle.drain_copy.specs.Stages.{target_rest, turn_program, IsOwedTurn};

use crate::copying::writers_on;
use crate::plan::Job;
use crate::stages::{TargetStage, Turn};
use crate::telling::{is_made, room_made};
use crate::work::Ahead;
use container_layout::{flats, metadata, openhosts, print_number, truncs};
use plfs_types::{Name, NameList, NoMemory, Path, Queue};
use std::alloc::Global;
use store_api::{Answer, OwnedStep, Trouble, marks_folder, marks_name};

fn access() -> Name
    ensures { result ≡ codes "access" }
{
    Name::from_bytes(b"access").unwrap()
}

/// The mark of this mount.
fn mark_path(mount: u64) -> Path
    ensures { result ≡ paths.mark_path mount }
{
    Path {
        folder: marks_folder(),
        file: print_number(mount),
    }
}

fn names(alloc: Global, of: &[Name]) -> Result<NameList, NoMemory>
    ensures { IfOk result (λ list. list ≡ of.now) }
{
    Ok(NameList::from_vec(Vec::from_slice(alloc, of)?))
}

/// Copies what is due to this room.
fn copy_to(job: Job, to: u64) -> Turn
    ensures goes_on { turn_program result ≡ copies_to job to }
    ensures fewer { turn_left result ≤ job_left job }
    ensures owed { IsOwedTurn result }
{
    let Job {
        from,
        dues,
        truncs,
        drained,
        ..
    } = job;
    let ahead = Ahead {
        rest: dues,
        truncs,
        drained,
    };
    writers_on(from, to, ahead)
}

/// What comes after the making of the container.
pub(crate) fn after_container(job: Job, told: Result<Answer, Trouble>) -> Turn
    ensures goes_on { turn_program result ≡ target_rest (TargetStage.Container job) told }
    ensures fewer { turn_left result < 1 + job_left job }
    ensures owed { IsOwedTurn result }
{
    let made = room_made(&told);
    drop(told);
    match made {
        Ok(to) => copy_to(job, to),
        Err(why) => {
            drop(job);
            Turn::Over(Err(why))
        }
    }
}

fn container_step(alloc: Global, name: Name) -> Result<OwnedStep, NoMemory>
    ensures { IfOk result (λ step. step ≡ OwnedStep.MakeRoom name paths.new_folders paths.new_files) }
{
    let folders = names(alloc, &[openhosts(), metadata(), truncs(), flats()])?;
    match names(alloc, &[access()]) {
        Ok(files) => Ok(OwnedStep::MakeRoom {
            name,
            folders,
            files,
        }),
        Err(why) => {
            drop(folders);
            Err(why)
        }
    }
}

/// Makes the container.
fn make_container(alloc: Global, job: Job) -> Result<Turn, NoMemory>
    ensures goes_on { IfOk result (λ turn. turn_program turn ≡ makes_container job) }
    ensures fewer { IfOk result (λ made. turn_left made ≤ 1 + job_left job) }
    ensures owed { IfOk result IsOwedTurn }
{
    match container_step(alloc, job.name.name()) {
        Ok(step) => Ok(Turn::Acts(step, TargetStage::Container { job })),
        Err(why) => {
            drop(job);
            Err(why)
        }
    }
}

/// The next mark, or the container.
fn marks_on(alloc: Global, job: Job, marks: u64, rest: Queue<u64>) -> Result<Turn, NoMemory>
    ensures goes_on { IfOk result (λ turn. turn_program turn ≡ makes_marks job marks rest) }
    ensures fewer { IfOk result (λ made. turn_left made ≤ 1 + length rest + job_left job) }
    ensures owed { IfOk result IsOwedTurn }
{
    let mut rest = rest;
    match rest.pop() {
        Some(mount) => {
            let path = mark_path(mount);
            let step = OwnedStep::Create {
                room: marks,
                folder: path.folder,
                file: path.file,
            };
            let stage = TargetStage::Mark {
                job,
                marks,
                mount,
                rest,
            };
            Ok(Turn::Acts(step, stage))
        }
        None => {
            drop(rest);
            make_container(alloc, job)
        }
    }
}

/// What comes after the making of a mark.
pub(crate) fn after_mark(
    alloc: Global,
    job: Job,
    marks: u64,
    mount: u64,
    rest: Queue<u64>,
    told: Result<Answer, Trouble>,
) -> Result<Turn, NoMemory>
    ensures goes_on { IfOk result (λ turn. turn_program turn ≡ target_rest (TargetStage.Mark job marks mount rest) told) }
    ensures fewer { IfOk result (λ made. turn_left made < 2 + length rest + job_left job) }
    ensures owed { IfOk result IsOwedTurn }
{
    let made = is_made(&mark_path(mount), &told);
    drop(told);
    match made {
        Ok(()) => marks_on(alloc, job, marks, rest),
        Err(why) => {
            drop((job, rest));
            Ok(Turn::Over(Err(why)))
        }
    }
}

/// What comes after the making of the room of marks.
pub(crate) fn after_marks_room(
    alloc: Global,
    job: Job,
    mounts: Queue<u64>,
    told: Result<Answer, Trouble>,
) -> Result<Turn, NoMemory>
    ensures goes_on { IfOk result (λ turn. turn_program turn ≡ target_rest (TargetStage.MarksRoom job mounts) told) }
    ensures fewer { IfOk result (λ made. turn_left made < 2 + length mounts + job_left job) }
    ensures owed { IfOk result IsOwedTurn }
{
    let made = room_made(&told);
    drop(told);
    match made {
        Ok(marks) => marks_on(alloc, job, marks, mounts),
        Err(why) => {
            drop((job, mounts));
            Ok(Turn::Over(Err(why)))
        }
    }
}

fn marks_step(alloc: Global) -> Result<OwnedStep, NoMemory>
    ensures { IfOk result (λ step. step ≡ OwnedStep.MakeRoom names.marks_name (names.marks_folder ∷ []) []) }
{
    let folders = names(alloc, &[marks_folder()])?;
    Ok(OwnedStep::MakeRoom {
        name: marks_name(),
        folders,
        files: NameList::new(alloc),
    })
}

/// Makes the room of marks.
pub(crate) fn make_marks_room(alloc: Global, job: Job, mounts: Queue<u64>) -> Result<Turn, NoMemory>
    ensures goes_on { IfOk result (λ turn. turn_program turn ≡ makes_marks_room job mounts) }
    ensures fewer { IfOk result (λ made. turn_left made ≤ 2 + length mounts + job_left job) }
    ensures owed { IfOk result IsOwedTurn }
{
    match marks_step(alloc) {
        Ok(step) => Ok(Turn::Acts(step, TargetStage::MarksRoom { job, mounts })),
        Err(why) => {
            drop((job, mounts));
            Err(why)
        }
    }
}
