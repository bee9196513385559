//! What the container of a target has.
ghost use Rattle.std.specs.Prelude.{◌≡◌, ◌≤◌, ◌<◌, ◌+◌, ◌^◌, [], length, IfOk, IsErr};
ghost use Rattle.mount_model.specs.declared.reply.Reply.TheVariants.{NoMemory as WantsMemory};
ghost use Rattle.mount_model.specs.Program.{followed_by};
ghost use Rattle.mount_model.specs.FlowReplies.{on_ok};
ghost use Rattle.mount_model.specs.Paths as paths;
ghost use Rattle.drain_read.specs.Holding.{held_program, lists_settled, measures, unknown as unknown_of};
ghost use Rattle.drain_read.specs.Stages.{container_turn, container_turn_left, held_bound, held_calls, held_left, held_rest, held_stage_rest, held_turn, held_turn_left, IsOwedContainer, IsOwedHeld};

use crate::container::{ContainerRead, ContainerTurn};
use crate::read::{Contained, Known, WriterRead, WriterReadList};
use crate::settled::settled;
use crate::waiting::Waiting;
use container_layout::{Item, metadata, print};
use index_reader::log_length_in;
use mount_model::{Call, Look, Reply, Stuck, trouble};
use plfs_types::{Cover, CoverList, IdList, NoMemory, Path, Sequence};
use std::alloc::Global;

/// What a target has of a writer with an index dropping there.
#[derive(Clone, Copy)]
pub struct Mirror {
    /// It counts the writer's landed entries.
    pub cover: Cover,
    /// How many bytes its log has.
    pub log: u64,
}

/// A list of such.
pub type MirrorList = Sequence<Mirror>;

/// What the container of a target has.
#[derive(Drop)]
pub struct Held {
    pub mirrors: MirrorList,
    /// The writers that have a metadata dropping.
    pub settled: IdList,
}

/// How far it has been told.
#[derive(Drop)]
pub(crate) enum HeldStage {
    Container(ContainerRead),
    Metadata {
        writers: WriterReadList,
    },
    /// The length of a writer's log is asked.
    Logs {
        settled: IdList,
        writer: WriterRead,
        rest: Waiting<WriterRead>,
        sofar: MirrorList,
    },
}

/// Tells what the container of a target has: it reads it, lists its metadata, and asks for the length of each log.
///
/// It ends with that, or with the first trouble. A call of the machine is out, and each is a look.
#[derive(Drop)]
pub struct HeldRead {
    alloc: Global,
    pub(crate) room: u64,
    pub(crate) stage: HeldStage,
}

/// The next call, or the end.
#[derive(Drop)]
pub enum HeldTurn {
    Asks(Call, HeldRead),
    Over(Result<Held, Stuck>),
}

fn log_path(writer: &WriterRead) -> Path
    ensures { result ≡ paths.log_path writer.now.host writer.now.writer }
{
    print(&Item::Log {
        host: writer.host,
        writer: writer.writer,
    })
}

/// Asks for the length of the next log, or ends.
fn measure_next(
    alloc: Global,
    room: u64,
    settled: IdList,
    rest: Waiting<WriterRead>,
    sofar: MirrorList,
) -> HeldTurn
    ensures goes_on { held_turn result ≡ measures room settled rest sofar }
    ensures fewer { held_turn_left result ≤ length rest }
    ensures owed { IsOwedHeld result }
{
    let mut rest = rest;
    match rest.pop() {
        Some(writer) => {
            let path = log_path(&writer);
            HeldTurn::Asks(
                Call::Look {
                    room,
                    look: Look::Length { path },
                },
                HeldRead {
                    alloc,
                    room,
                    stage: HeldStage::Logs {
                        settled,
                        writer,
                        rest,
                        sofar,
                    },
                },
            )
        }
        None => {
            drop(rest);
            HeldTurn::Over(Ok(Held {
                mirrors: sofar,
                settled,
            }))
        }
    }
}

/// What comes after the length of a log.
fn after_log(
    alloc: Global,
    room: u64,
    settled: IdList,
    writer: WriterRead,
    rest: Waiting<WriterRead>,
    sofar: MirrorList,
    reply: Reply,
) -> Result<HeldTurn, NoMemory>
    ensures goes_on { IfOk result (λ turn. held_turn turn ≡ held_stage_rest room (HeldStage.Logs settled writer rest sofar) reply) }
    ensures fewer { IfOk result (λ turn. held_turn_left turn ≤ length rest) }
    ensures owed { IfOk result IsOwedHeld }
{
    let told = log_length_in(&reply);
    let why = trouble(&log_path(&writer), &reply);
    drop(reply);
    let cover = writer.cover;
    drop(writer);
    match told {
        Some(log) => {
            let mut mirrors = sofar;
            match mirrors.push(Mirror { cover, log }) {
                Ok(()) => Ok(measure_next(alloc, room, settled, rest, mirrors)),
                Err(why) => {
                    drop((settled, rest, mirrors));
                    Err(why)
                }
            }
        }
        None => {
            drop((settled, rest, sofar));
            Ok(HeldTurn::Over(Err(why)))
        }
    }
}

fn counted(writers: WriterReadList) -> Waiting<WriterRead>
    ensures all { result ≡ writers }
    ensures few { length result < 2 ^ 64 }
{
    let count = writers.as_slice().len();
    let _ = count;
    Waiting::of(writers)
}

/// What comes after the listing of the metadata.
fn after_metadata(
    alloc: Global,
    room: u64,
    writers: WriterReadList,
    reply: Reply,
) -> Result<HeldTurn, NoMemory>
    ensures goes_on { IfOk result (λ turn. held_turn turn ≡ held_stage_rest room (HeldStage.Metadata writers) reply) }
    ensures fewer { IfOk result (λ turn. held_turn_left turn ≤ 2 ^ 64) }
    ensures owed { IfOk result IsOwedHeld }
{
    match settled(alloc, reply) {
        Ok(Ok(settled)) => {
            let rest = counted(writers);
            Ok(measure_next(alloc, room, settled, rest, MirrorList::new(alloc)))
        }
        Ok(Err(why)) => {
            drop(writers);
            Ok(HeldTurn::Over(Err(why)))
        }
        Err(why) => {
            drop(writers);
            Err(why)
        }
    }
}

/// Goes on with the reading of the container, or with what comes of it.
fn container_on(alloc: Global, room: u64, turn: ContainerTurn) -> HeldTurn
    requires { IsOwedContainer turn }
    ensures goes_on { held_turn result ≡ followed_by (container_turn turn) (on_ok (lists_settled room)) }
    ensures fewer { held_turn_left result ≤ container_turn_left turn + (2 ^ 64 + 1) }
    ensures owed { IsOwedHeld result }
{
    match turn {
        ContainerTurn::Asks(call, read) => HeldTurn::Asks(
            call,
            HeldRead {
                alloc,
                room,
                stage: HeldStage::Container(read),
            },
        ),
        ContainerTurn::Over(Ok(contained)) => {
            let Contained {
                writers,
                truncs,
                ..
            } = contained;
            drop(truncs);
            HeldTurn::Asks(
                Call::Look {
                    room,
                    look: Look::List { folder: metadata() },
                },
                HeldRead {
                    alloc,
                    room,
                    stage: HeldStage::Metadata { writers },
                },
            )
        }
        ContainerTurn::Over(Err(why)) => HeldTurn::Over(Err(why)),
    }
}

/// What comes after a reply to a call that reads the container.
fn after_container(
    alloc: Global,
    room: u64,
    read: ContainerRead,
    reply: Reply,
) -> Result<HeldTurn, NoMemory>
    ensures goes_on { IfOk result (λ turn. held_turn turn ≡ held_stage_rest room (HeldStage.Container read) reply) }
    ensures fewer { IfOk result (λ turn. held_turn_left turn < held_calls (HeldStage.Container read)) }
    ensures owed { IfOk result IsOwedHeld }
{
    let turn = read.take(reply)?;
    Ok(container_on(alloc, room, turn))
}

fn unknown(alloc: Global, room: u64) -> Known
    ensures { result ≡ unknown_of room }
{
    Known {
        room,
        keeps: false,
        covers: CoverList::new(alloc),
    }
}

impl HeldRead {
    /// Begins to ask what the container of this room has.
    pub fn begin(alloc: Global, room: u64) -> Result<HeldTurn, NoMemory>
        ensures goes_on { IfOk result (λ turn. held_turn turn ≡ held_program room) }
        ensures left { IfOk result (λ turn. held_turn_left turn ≤ held_bound) }
        ensures owed { IfOk result IsOwedHeld }
    {
        let turn = ContainerRead::begin(alloc, unknown(alloc, room))?;
        Ok(container_on(alloc, room, turn))
    }

    /// Goes on with the reply to the call that is out. A reply of `NoMemory` ends it, and is answered so.
    pub fn take(self, reply: Reply) -> Result<HeldTurn, NoMemory>
        ensures goes_on { IfOk result (λ turn. held_turn turn ≡ held_rest self reply) }
        ensures fewer { IfOk result (λ turn. held_turn_left turn < held_left self) }
        ensures owed { IfOk result IsOwedHeld }
        ensures no_memory { reply ≡ WantsMemory → IsErr result }
    {
        if let Reply::NoMemory = reply {
            drop(self);
            return Err(NoMemory);
        }
        let HeldRead { alloc, room, stage } = self;
        match stage {
            HeldStage::Container(read) => after_container(alloc, room, read, reply),
            HeldStage::Metadata { writers } => after_metadata(alloc, room, writers, reply),
            HeldStage::Logs {
                settled,
                writer,
                rest,
                sofar,
            } => after_log(alloc, room, settled, writer, rest, sofar, reply),
        }
    }
}
