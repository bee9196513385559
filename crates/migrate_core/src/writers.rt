//! The packing of one writer.
ghost use Rattle.std.specs.Prelude.{◌≡◌, ◌≤◌, ◌<◌, ◌+◌, ◌/◌, ◌^◌, ℕ, Some, Ok, IfOk, IfSome};
ghost use Rattle.plfs_types.specs.declared.limits.TheConstants.{MAX_PACKED};
ghost use Rattle.mount_model.specs.Standing.{ready, next_of, rest_of, replied};
ghost use Rattle.mount_model.specs.declared.names.Metadata.{Metadata as Left};
ghost use Rattle.mount_model.specs.FlowReplies.{Tries};
ghost use Rattle.mount_model.specs.Paths.{index_path as path_of_index};
ghost use Rattle.mount_model.specs.Step.{OwedBy};
ghost use Rattle.mount_model.specs.Program.{done};
ghost use Rattle.migrate_core.specs.declared.migrated.Fate.{Fate as Became};
ghost use Rattle.migrate_core.specs.declared.migrated.Fate.TheVariants.{Packs};
ghost use Rattle.migrate_core.specs.Steps.{step_standing, after_standing, step_calls, after_calls};
ghost use Rattle.index_reader.specs.Replies.{number_in as number_of};
ghost use Rattle.migrate_core.specs.Writers.{flat_in as flat_of, reads_left, reads_on, or_damage, sized as sized_of, if_done as if_done_of, writer_program};

use crate::entries::Told;
use crate::migrated::{Fate, Packed};
use crate::packing::pack_read;
use crate::steps::{Reads, Step};
use container_layout::{Item, print};
use mount_model::{
    Call, Look, Metadata, Reply, Stuck, bytes_in, damage, failure, next_read, trouble,
};
use plfs_types::{MAX_PACKED, NoMemory, Path};
use std::alloc::Global;
use store_api::Answer;

/// What comes after a reply.
#[derive(Drop)]
pub(crate) enum After {
    GoesOn(Step),
    Is(Result<Fate, Stuck>),
}

fn index_path(meta: Metadata) -> Path
    ensures { result ≡ path_of_index meta.host meta.writer }
{
    print(&Item::Index {
        host: meta.host,
        writer: meta.writer,
    })
}

/// The length of a file that is there.
fn number_in(reply: &Reply) -> Option<u64>
    ensures { result ≡ number_of reply.now }
{
    match reply {
        Reply::Looked(answer) => match answer {
            Answer::Number { value } => Some(*value),
            _ => None,
        },
        _ => None,
    }
}

/// The number of a flattening that was begun.
fn flat_in(reply: &Reply) -> Option<u64>
    ensures { result ≡ flat_of reply.now }
{
    match reply {
        Reply::Started { flat } => Some(*flat),
        _ => None,
    }
}

impl Step {
    /// The call that is to be made, where there is one, and the step once it was given.
    pub(crate) fn give(self, room: u64, meta: Metadata) -> (Step, Option<Call>)
        ensures call { result.1 ≡ next_of (step_standing room meta self) }
        ensures owed { IfSome result.1 OwedBy }
        ensures rest { rest_of (step_standing room meta result.0) ≡ rest_of (step_standing room meta self) }
        ensures again { IfSome (next_of (step_standing room meta result.0)) (λ call. next_of (step_standing room meta self) ≡ Some call) }
        ensures left { step_calls result.0 ≡ step_calls self }
    {
        let Metadata { host, writer, .. } = meta;
        match self {
            Step::Measure => (
                Step::Measure,
                Some(Call::Look {
                    room,
                    look: Look::Length {
                        path: index_path(meta),
                    },
                }),
            ),
            Step::Read(reads) => {
                let look = Look::Read {
                    path: index_path(meta),
                    at: 40 * reads.tail.count(),
                    len: 40 * next_read(reads.left),
                };
                (Step::Read(reads), Some(Call::Look { room, look }))
            }
            Step::Start(packing) => (
                Step::Start(packing),
                Some(Call::StartPack { room, host, writer }),
            ),
            Step::Putting(flat, packing) => (
                Step::Put(flat, packing.packed),
                Some(Call::PutFlat {
                    flat,
                    bytes: packing.bytes,
                }),
            ),
            Step::Put(flat, packed) => (Step::Put(flat, packed), None),
            Step::Sync(flat, packed) => (Step::Sync(flat, packed), Some(Call::SyncFlat { flat })),
            Step::Install(flat, packed) => (
                Step::Install(flat, packed),
                Some(Call::InstallFlat { flat }),
            ),
        }
    }

    /// What comes after the reply to that call.
    pub(crate) fn after(
        self,
        alloc: Global,
        room: u64,
        meta: Metadata,
        reply: Reply,
    ) -> Result<After, NoMemory>
        ensures goes_on { IfOk result (λ after. after_standing room meta after ≡ ready (replied (rest_of (step_standing room meta self)) reply)) }
        ensures fewer { IfOk result (λ after. after_calls after < step_calls self) }
    {
        match self {
            Step::Measure => {
                let after = after_length(alloc, meta, &reply);
                drop(reply);
                Ok(after)
            }
            Step::Read(reads) => after_read(alloc, meta, reads, reply),
            Step::Start(packing) => {
                let begun = flat_in(&reply);
                let why = failure(&reply);
                drop(reply);
                match begun {
                    Some(flat) => Ok(After::GoesOn(Step::Putting(flat, packing))),
                    None => {
                        drop(packing);
                        Ok(After::Is(Err(why)))
                    }
                }
            }
            Step::Putting(flat, packing) => {
                let after = if_done(Step::Sync(flat, packing.packed), &reply);
                drop((packing, reply));
                Ok(after)
            }
            Step::Put(flat, packed) => {
                let after = if_done(Step::Sync(flat, packed), &reply);
                drop(reply);
                Ok(after)
            }
            Step::Sync(flat, packed) => {
                let after = if_done(Step::Install(flat, packed), &reply);
                drop(reply);
                Ok(after)
            }
            Step::Install(_, packed) => {
                let after = if_installed(packed, &reply);
                drop(reply);
                Ok(after)
            }
        }
    }
}

/// It goes on with this step after Done.
fn if_done(next: Step, reply: &Reply) -> After
    ensures goes_on { (room : ℕ) (meta : Left) (p : Tries Became) → step_standing room meta next ≡ ready p → after_standing room meta result ≡ ready (if_done_of p reply.now) }
    ensures fewer { after_calls result ≤ step_calls next }
{
    match reply {
        Reply::Done => After::GoesOn(next),
        _ => {
            drop(next);
            After::Is(Err(failure(reply)))
        }
    }
}

fn if_installed(packed: Packed, reply: &Reply) -> After
    ensures goes_on { (room : ℕ) (meta : Left) → after_standing room meta result ≡ ready (if_done_of (done (Ok (Packs packed))) reply.now) }
    ensures fewer { after_calls result ≡ 0 }
{
    match reply {
        Reply::Done => After::Is(Ok(Fate::Packs(packed))),
        _ => After::Is(Err(failure(reply))),
    }
}

fn after_length(alloc: Global, meta: Metadata, reply: &Reply) -> After
    ensures goes_on { (room : ℕ) → after_standing room meta result ≡ ready (replied (rest_of (ready (writer_program room meta))) reply.now) }
    ensures fewer { after_calls result < 2 ^ 20 + 5 }
{
    match number_in(reply) {
        Some(told) => sized(alloc, meta, told),
        None => After::Is(Err(trouble(&index_path(meta), reply))),
    }
}

/// What comes after its index dropping turned out to be so long.
#[tactic(auto, using(crate::proofs::ReadLemmas::reads_going_on))]
fn sized(alloc: Global, meta: Metadata, told: u64) -> After
    ensures goes_on { (room : ℕ) → after_standing room meta result ≡ ready (sized_of room meta told (told / 40)) }
    ensures fewer { after_calls result < 2 ^ 20 + 5 }
{
    let count = told / 40;
    if count > MAX_PACKED {
        return After::Is(Ok(Fate::Left));
    }
    if count == 0 {
        return After::Is(Err(damage(&index_path(meta), told)));
    }
    After::GoesOn(Step::Read(Reads {
        left: count,
        tail: Told::none(alloc, meta.writer),
    }))
}

fn after_read(alloc: Global, meta: Metadata, reads: Reads, reply: Reply) -> Result<After, NoMemory>
    ensures goes_on { IfOk result (λ after. (room : ℕ) → after_standing room meta after ≡ ready (replied (rest_of (ready (reads_on room meta reads.left reads.tail))) reply)) }
    ensures fewer { IfOk result (λ after. after_calls after < reads.left + 4) }
{
    let why = trouble(&index_path(meta), &reply);
    let Some(bytes) = bytes_in(reply) else {
        drop(reads);
        return Ok(After::Is(Err(why)));
    };
    let asked = next_read(reads.left);
    let left = reads.left - asked;
    let went = reads.tail.checked(asked, bytes.as_slice());
    drop(bytes);
    let after = read_on(alloc, meta, left, went?)?;
    Ok(after)
}

/// What comes after a Read, behind which so many entries are left.
fn read_on(
    alloc: Global,
    meta: Metadata,
    left: u64,
    went: Result<Told, u64>,
) -> Result<After, NoMemory>
    requires some { IfOk went (λ tail. 1 ≤ tail.cover.count) }
    requires few { IfOk went (λ tail. tail.cover.count + left ≤ MAX_PACKED) }
    ensures goes_on { IfOk result (λ after. (room : ℕ) → after_standing room meta after ≡ ready (or_damage (path_of_index meta.host meta.writer) (λ more. reads_left room meta left more) went)) }
    ensures fewer { IfOk result (λ after. after_calls after ≤ left + 4) }
{
    match went {
        Err(place) => Ok(After::Is(Err(damage(&index_path(meta), place)))),
        Ok(tail) => reading(alloc, meta, left, tail),
    }
}

/// So many entries are left.
#[tactic(auto, using(crate::proofs::ReadLemmas::reads_going_on))]
fn reading(alloc: Global, meta: Metadata, left: u64, tail: Told) -> Result<After, NoMemory>
    requires some { 1 ≤ tail.cover.count }
    requires few { tail.cover.count + left ≤ MAX_PACKED }
    ensures goes_on { IfOk result (λ after. (room : ℕ) → after_standing room meta after ≡ ready (reads_left room meta left tail)) }
    ensures fewer { IfOk result (λ after. after_calls after ≤ left + 4) }
{
    let _ = meta;
    if left == 0 {
        let packing = pack_read(alloc, tail)?;
        return Ok(After::GoesOn(Step::Start(packing)));
    }
    Ok(After::GoesOn(Step::Read(Reads { left, tail })))
}
