//! What the source has past the target is gathered, and synced there.
ghost use Rattle.std.specs.Prelude.{◌≡◌, ◌≤◌, ◌<◌, ◌+◌, ◌*◌, length, IfOk};
ghost use Rattle.drain_copy.specs.Bounds.{job_bound, job_left, source_bound, syncing_left, turn_left};
ghost use Rattle.drain_read.specs.Stages.{container_bound, container_left, container_turn, container_turn_left, IsOwedContainer};
ghost use Rattle.drain_copy.specs.Asking.{at_source};
ghost use Rattle.drain_copy.specs.Draining.{finds_source, gathers, if_gathered, known_at as known_past, makes_marks_room, syncs, works_on};
ghost use Rattle.drain_copy.specs.Stages.{source_rest, turn_program, IsOwedTurn};

use crate::making::make_marks_room;
use crate::outcome::DrainStuck;
use crate::plan::{Job, Owner, covers_of, job_of, mounts_of, owners_of, taken};
use crate::stages::{SourceStage, Syncing, Turn};
use crate::telling::{found_room, kept};
use drain_read::{Contained, ContainerRead, ContainerTurn, Held, Known};
use mount_model::{Call, Reply, Stuck};
use plfs_types::{LogicalName, NoMemory, Queue};
use std::alloc::Global;

// ---- its droppings are synced

/// The droppings of the next writer, or the target.
fn syncs_on(
    alloc: Global,
    rest: Queue<Owner>,
    job: Job,
    mounts: Queue<u64>,
) -> Result<Turn, NoMemory>
    ensures goes_on { IfOk result (λ turn. turn_program turn ≡ syncs job.from rest (makes_marks_room job mounts)) }
    ensures fewer { IfOk result (λ made. turn_left made ≤ 2 * length rest + (2 + length mounts + job_left job)) }
    ensures owed { IfOk result IsOwedTurn }
{
    let mut rest = rest;
    match rest.pop() {
        Some(owner) => {
            let call = Call::SyncDropping {
                room: job.from,
                host: owner.host,
                writer: owner.writer,
                log: true,
            };
            let syncing = Syncing {
                owner,
                rest,
                job,
                mounts,
            };
            Ok(Turn::Calls(call, SourceStage::SyncingLog(syncing)))
        }
        None => {
            drop(rest);
            make_marks_room(alloc, job, mounts)
        }
    }
}

/// What comes after the sync of a log.
pub(crate) fn after_log_sync(syncing: Syncing, reply: Reply) -> Turn
    ensures goes_on { turn_program result ≡ source_rest (SourceStage.SyncingLog syncing) reply }
    ensures fewer { turn_left result < 2 + syncing_left syncing }
    ensures owed { IsOwedTurn result }
{
    let synced = kept(&reply);
    drop(reply);
    match synced {
        Ok(()) => {
            let call = Call::SyncDropping {
                room: syncing.job.from,
                host: syncing.owner.host,
                writer: syncing.owner.writer,
                log: false,
            };
            Turn::Calls(call, SourceStage::SyncingIndex(syncing))
        }
        Err(why) => {
            drop(syncing);
            Turn::Over(Err(why))
        }
    }
}

/// What comes after the sync of an index dropping.
pub(crate) fn after_index_sync(
    alloc: Global,
    syncing: Syncing,
    reply: Reply,
) -> Result<Turn, NoMemory>
    ensures goes_on { IfOk result (λ turn. turn_program turn ≡ source_rest (SourceStage.SyncingIndex syncing) reply) }
    ensures fewer { IfOk result (λ made. turn_left made < 1 + syncing_left syncing) }
    ensures owed { IfOk result IsOwedTurn }
{
    let synced = kept(&reply);
    drop(reply);
    match synced {
        Ok(()) => {
            let Syncing {
                rest,
                job,
                mounts,
                ..
            } = syncing;
            syncs_on(alloc, rest, job, mounts)
        }
        Err(why) => {
            drop(syncing);
            Ok(Turn::Over(Err(why)))
        }
    }
}

// ---- what is gathered

/// Begins to work, where no writer was taken.
fn work_on(
    alloc: Global,
    name: LogicalName,
    held: Held,
    contained: Contained,
) -> Result<Turn, NoMemory>
    ensures goes_on { IfOk result (λ turn. turn_program turn ≡ works_on name held contained) }
    ensures fewer { IfOk result (λ made. turn_left made ≤ job_bound) }
    ensures owed { IfOk result IsOwedTurn }
{
    if let Some(why) = taken(&held, contained.writers.as_slice()) {
        drop((held, contained));
        return Ok(Turn::Over(Err(why)));
    }
    let owners = match owners_of(alloc, contained.writers.as_slice()) {
        Ok(owners) => owners,
        Err(why) => {
            drop((held, contained));
            return Err(why);
        }
    };
    let mounts = match mounts_of(alloc, contained.writers.as_slice()) {
        Ok(mounts) => mounts,
        Err(why) => {
            drop((held, contained, owners));
            return Err(why);
        }
    };
    let job = job_of(alloc, name, &held, contained);
    drop(held);
    match job {
        Ok(job) => syncs_on(alloc, owners, job, mounts),
        Err(why) => {
            drop((owners, mounts));
            Err(why)
        }
    }
}

/// Goes on with what was gathered.
fn gathered(
    alloc: Global,
    name: LogicalName,
    held: Held,
    read: Result<Contained, Stuck>,
) -> Result<Turn, NoMemory>
    ensures goes_on { IfOk result (λ turn. turn_program turn ≡ if_gathered name held read) }
    ensures fewer { IfOk result (λ made. turn_left made ≤ job_bound) }
    ensures owed { IfOk result IsOwedTurn }
{
    match read {
        Ok(contained) => work_on(alloc, name, held, contained),
        Err(why) => {
            drop(held);
            Ok(Turn::Over(Err(DrainStuck::Source(why))))
        }
    }
}

/// Goes on with the gathering, or with what was gathered.
fn gather_on(
    alloc: Global,
    name: LogicalName,
    held: Held,
    turn: ContainerTurn,
) -> Result<Turn, NoMemory>
    requires { IsOwedContainer turn }
    ensures goes_on { IfOk result (λ next. turn_program next ≡ at_source (container_turn turn) (if_gathered name held)) }
    ensures fewer { IfOk result (λ next. turn_left next ≤ container_turn_left turn + job_bound) }
    ensures owed { IfOk result IsOwedTurn }
{
    match turn {
        ContainerTurn::Asks(call, read) => {
            Ok(Turn::Calls(call, SourceStage::Gathering { name, held, read }))
        }
        ContainerTurn::Over(read) => gathered(alloc, name, held, read),
    }
}

/// What comes after a reply to a call of the gathering.
pub(crate) fn after_gathering(
    alloc: Global,
    name: LogicalName,
    held: Held,
    read: ContainerRead,
    reply: Reply,
) -> Result<Turn, NoMemory>
    ensures goes_on { IfOk result (λ turn. turn_program turn ≡ source_rest (SourceStage.Gathering name held read) reply) }
    ensures fewer { IfOk result (λ made. turn_left made < container_left read + job_bound) }
    ensures owed { IfOk result IsOwedTurn }
{
    match read.take(reply) {
        Ok(turn) => gather_on(alloc, name, held, turn),
        Err(why) => {
            drop(held);
            Err(why)
        }
    }
}

/// What is known of the source, by what the target has.
fn known_at(alloc: Global, held: &Held, room: u64) -> Result<Known, NoMemory>
    ensures { IfOk result (λ known. known ≡ known_past held.now room) }
{
    let covers = covers_of(alloc, held.mirrors.as_slice())?;
    Ok(Known {
        room,
        keeps: true,
        covers,
    })
}

/// Begins to gather.
fn gather(alloc: Global, name: LogicalName, held: Held, room: u64) -> Result<Turn, NoMemory>
    ensures goes_on { IfOk result (λ turn. turn_program turn ≡ gathers name held room) }
    ensures fewer { IfOk result (λ made. turn_left made ≤ container_bound + job_bound) }
    ensures owed { IfOk result IsOwedTurn }
{
    let known = match known_at(alloc, &held, room) {
        Ok(known) => known,
        Err(why) => {
            drop(held);
            return Err(why);
        }
    };
    match ContainerRead::begin(alloc, known) {
        Ok(turn) => gather_on(alloc, name, held, turn),
        Err(why) => {
            drop(held);
            Err(why)
        }
    }
}

/// What comes after the search for the source's container.
pub(crate) fn after_find(
    alloc: Global,
    name: LogicalName,
    held: Held,
    reply: Reply,
) -> Result<Turn, NoMemory>
    ensures goes_on { IfOk result (λ turn. turn_program turn ≡ source_rest (SourceStage.Finding name held) reply) }
    ensures fewer { IfOk result (λ made. turn_left made < source_bound) }
    ensures owed { IfOk result IsOwedTurn }
{
    let found = found_room(&reply);
    drop(reply);
    match found {
        Ok(room) => gather(alloc, name, held, room),
        Err(why) => {
            drop(held);
            Ok(Turn::Over(Err(why)))
        }
    }
}

/// Searches for the source's container.
pub(crate) fn find_source(name: LogicalName, held: Held) -> Turn
    ensures goes_on { turn_program result ≡ finds_source name held }
    ensures fewer { turn_left result ≡ source_bound }
    ensures owed { IsOwedTurn result }
{
    Turn::Calls(Call::Find { name }, SourceStage::Finding { name, held })
}
