//! The reading of a container.
ghost use Rattle.std.specs.Prelude.{◌≡◌, ◌≤◌, ◌<◌, ◌+◌, ◌^◌, ◌++◌, [], ◌∷◌, length, IfOk, IsErr};
ghost use Rattle.mount_model.specs.declared.reply.Reply.TheVariants.{NoMemory as WantsMemory};
ghost use Rattle.mount_model.specs.Program.{followed_by};
ghost use Rattle.mount_model.specs.FlowReplies.{on_ok};
ghost use Rattle.plfs_types.specs.declared.entries.Cover.{Cover as Covered};
ghost use Rattle.index_reader.specs.Found.{item_of};
ghost use Rattle.index_reader.specs.Covered.{cover_of as cover_for};
ghost use Rattle.index_reader.specs.OpenStages.{after_open, after_open_calls, IsAfterOpen};
ghost use Rattle.index_reader.specs.Stages.{tail_calls};
ghost use Rattle.index_reader.specs.TruncStages.{trunc_left};
ghost use Rattle.drain_read.specs.Reading.{contained_program, contains, lists_truncs, read_as, reads_all, reads_listed};
ghost use Rattle.drain_read.specs.Stages.{container_bound, container_left, container_rest, container_turn, container_turn_left, droppings_calls, stage_calls, stage_rest, IsOwedContainer};

use crate::out::{Scan, TailOut, TruncsOut};
use crate::read::{Contained, Known, WriterRead, WriterReadList};
use index_reader::{AfterOpen, Dropping, Listing, OpenRead, Tail, TailFlow, TruncRead};
use mount_model::{Call, Flow, Reply, Stuck};
use plfs_types::{Cover, EntryList, NoMemory, Queue, TruncList};
use std::alloc::Global;

/// How far the reading of a container is.
#[derive(Drop)]
pub(crate) enum Stage {
    Listing(Scan),
    Reading {
        rest: Queue<Dropping>,
        dropping: Dropping,
        tail: TailOut,
        sofar: WriterReadList,
    },
    Truncs {
        writers: WriterReadList,
        truncs: TruncsOut,
    },
}

/// Reads a container: it lists the top and the folders of droppings, reads of each index dropping, by ascending writer, its
/// length, that of its log and the whole entries behind those that are known, and last lists the truncates.
///
/// It ends with what was read, or with the first trouble: a call that was refused or failed, or damage, as when a container is
/// opened. Packed and flattened indices are passed by. A call of the machine is out.
#[derive(Drop)]
pub struct ContainerRead {
    alloc: Global,
    pub(crate) known: Known,
    pub(crate) stage: Stage,
}

/// The next call of the reading, or its end.
#[derive(Drop)]
pub enum ContainerTurn {
    Asks(Call, ContainerRead),
    Over(Result<Contained, Stuck>),
}

/// The first cover of this writer. One writer after the other is looked at: to read its dropping costs more.
fn found(covers: &[Cover], writer: u64) -> Option<Cover>
    ensures { result ≡ item_of (λ (c : Covered). c.writer) writer covers.now }
{
    for cover in covers {
        if cover.writer == writer {
            return Some(*cover);
        }
    }
    None
}

/// The cover of this writer, or one of no entries.
fn cover_of(covers: &[Cover], writer: u64) -> Cover
    ensures { result ≡ cover_for writer covers.now }
{
    match found(covers, writer) {
        Some(cover) => cover,
        None => Cover {
            writer,
            count: 0,
            bytes: 0,
            stamp: 0,
        },
    }
}

/// What was read of a writer, whose entries are kept or not.
fn writer_read(alloc: Global, keeps: bool, dropping: Dropping, tail: Tail) -> WriterRead
    ensures { result ≡ read_as keeps dropping tail }
{
    let Tail { cover, entries } = tail;
    if keeps {
        return WriterRead {
            host: dropping.host,
            writer: dropping.writer,
            cover,
            entries,
        };
    }
    drop(entries);
    WriterRead {
        host: dropping.host,
        writer: dropping.writer,
        cover,
        entries: EntryList::new(alloc),
    }
}

/// With what was read of a writer more.
fn with_read(
    alloc: Global,
    keeps: bool,
    dropping: Dropping,
    tail: Tail,
    sofar: WriterReadList,
) -> Result<WriterReadList, NoMemory>
    ensures { IfOk result (λ list. list ≡ sofar ++ read_as keeps dropping tail ∷ []) }
{
    let read = writer_read(alloc, keeps, dropping, tail);
    let mut list = sofar;
    match list.push(read) {
        Ok(()) => Ok(list),
        Err(why) => {
            drop(list);
            Err(why)
        }
    }
}

/// Begins to list the truncates.
fn begin_truncs(
    alloc: Global,
    known: Known,
    writers: WriterReadList,
) -> Result<ContainerTurn, NoMemory>
    ensures goes_on { IfOk result (λ turn. container_turn turn ≡ lists_truncs known writers) }
    ensures fewer { IfOk result (λ turn. container_turn_left turn ≤ 1) }
    ensures owed { IfOk result IsOwedContainer }
{
    let mut flow = TruncRead::new(alloc, known.room);
    match flow.next() {
        Ok(Some(call)) => Ok(ContainerTurn::Asks(
            call,
            ContainerRead {
                alloc,
                known,
                stage: Stage::Truncs {
                    writers,
                    truncs: TruncsOut { flow },
                },
            },
        )),
        Ok(None) => unreachable!(),
        Err(why) => {
            drop((flow, known, writers));
            Err(why)
        }
    }
}

/// Begins to read this dropping.
fn begin_tail(
    alloc: Global,
    known: Known,
    dropping: Dropping,
    rest: Queue<Dropping>,
    sofar: WriterReadList,
) -> Result<ContainerTurn, NoMemory>
    ensures goes_on { IfOk result (λ turn. container_turn turn ≡ reads_all known (dropping ∷ rest) sofar) }
    ensures fewer { IfOk result (λ turn. container_turn_left turn ≤ 2 ^ 64 + 2 + droppings_calls (length rest)) }
    ensures owed { IfOk result IsOwedContainer }
{
    let cover = cover_of(known.covers.as_slice(), dropping.writer);
    let mut flow = TailFlow::new(alloc, known.room, dropping, cover);
    match flow.next() {
        Ok(Some(call)) => Ok(ContainerTurn::Asks(
            call,
            ContainerRead {
                alloc,
                known,
                stage: Stage::Reading {
                    rest,
                    dropping,
                    tail: TailOut { flow },
                    sofar,
                },
            },
        )),
        Ok(None) => unreachable!(),
        Err(why) => {
            drop((flow, known, rest, sofar));
            Err(why)
        }
    }
}

/// Goes on with the first of the droppings that are left, or with the truncates.
fn read_next(
    alloc: Global,
    known: Known,
    rest: Queue<Dropping>,
    sofar: WriterReadList,
) -> Result<ContainerTurn, NoMemory>
    ensures goes_on { IfOk result (λ turn. container_turn turn ≡ reads_all known rest sofar) }
    ensures fewer { IfOk result (λ turn. container_turn_left turn ≤ droppings_calls (length rest)) }
    ensures owed { IfOk result IsOwedContainer }
{
    let mut rest = rest;
    match rest.pop() {
        Some(dropping) => begin_tail(alloc, known, dropping, rest, sofar),
        None => {
            drop(rest);
            begin_truncs(alloc, known, sofar)
        }
    }
}

/// Goes on after what was read of a dropping.
fn tail_over(
    alloc: Global,
    known: Known,
    dropping: Dropping,
    rest: Queue<Dropping>,
    sofar: WriterReadList,
    read: Result<Tail, Stuck>,
) -> Result<ContainerTurn, NoMemory>
    ensures goes_on { IfOk result (λ turn. container_turn turn ≡ on_ok (λ tail. reads_all known rest (sofar ++ read_as known.keeps dropping tail ∷ [])) read) }
    ensures fewer { IfOk result (λ turn. container_turn_left turn ≤ droppings_calls (length rest)) }
    ensures owed { IfOk result IsOwedContainer }
{
    match read {
        Ok(tail) => match with_read(alloc, known.keeps, dropping, tail, sofar) {
            Ok(sofar) => read_next(alloc, known, rest, sofar),
            Err(why) => {
                drop((known, rest));
                Err(why)
            }
        },
        Err(why) => {
            drop((known, rest, sofar));
            Ok(ContainerTurn::Over(Err(why)))
        }
    }
}

/// What comes after the reply to the call of a dropping.
fn after_tail(
    alloc: Global,
    known: Known,
    dropping: Dropping,
    rest: Queue<Dropping>,
    sofar: WriterReadList,
    tail: TailOut,
    reply: Reply,
) -> Result<ContainerTurn, NoMemory>
    ensures goes_on { IfOk result (λ turn. container_turn turn ≡ stage_rest known (Stage.Reading rest dropping tail sofar) reply) }
    ensures fewer { IfOk result (λ turn. container_turn_left turn < tail_calls tail.flow + droppings_calls (length rest)) }
    ensures owed { IfOk result IsOwedContainer }
{
    let TailOut { mut flow } = tail;
    if let Err(why) = flow.take(reply) {
        drop((flow, known, rest, sofar));
        return Err(why);
    }
    match flow.next() {
        Ok(Some(call)) => Ok(ContainerTurn::Asks(
            call,
            ContainerRead {
                alloc,
                known,
                stage: Stage::Reading {
                    rest,
                    dropping,
                    tail: TailOut { flow },
                    sofar,
                },
            },
        )),
        Ok(None) => {
            let read = flow.out();
            tail_over(alloc, known, dropping, rest, sofar, read)
        }
        Err(why) => {
            drop((flow, known, rest, sofar));
            Err(why)
        }
    }
}

/// What comes of the listing of the truncates.
fn truncs_over(
    known: Known,
    writers: WriterReadList,
    listed: Result<TruncList, Stuck>,
) -> ContainerTurn
    ensures goes_on { container_turn result ≡ on_ok (contains known writers) listed }
    ensures fewer { container_turn_left result ≡ 0 }
    ensures owed { IsOwedContainer result }
{
    let room = known.room;
    drop(known);
    match listed {
        Ok(truncs) => ContainerTurn::Over(Ok(Contained {
            room,
            writers,
            truncs,
        })),
        Err(why) => {
            drop(writers);
            ContainerTurn::Over(Err(why))
        }
    }
}

/// What comes after the reply to the call that lists the truncates.
fn after_truncs(
    alloc: Global,
    known: Known,
    writers: WriterReadList,
    truncs: TruncsOut,
    reply: Reply,
) -> Result<ContainerTurn, NoMemory>
    ensures goes_on { IfOk result (λ turn. container_turn turn ≡ stage_rest known (Stage.Truncs writers truncs) reply) }
    ensures fewer { IfOk result (λ turn. container_turn_left turn < trunc_left truncs.flow) }
    ensures owed { IfOk result IsOwedContainer }
{
    let TruncsOut { mut flow } = truncs;
    if let Err(why) = flow.take(reply) {
        drop((flow, known, writers));
        return Err(why);
    }
    match flow.next() {
        Ok(Some(call)) => Ok(ContainerTurn::Asks(
            call,
            ContainerRead {
                alloc,
                known,
                stage: Stage::Truncs {
                    writers,
                    truncs: TruncsOut { flow },
                },
            },
        )),
        Ok(None) => {
            let listed = flow.out();
            Ok(truncs_over(known, writers, listed))
        }
        Err(why) => {
            drop((flow, known, writers));
            Err(why)
        }
    }
}

fn counted(listing: Listing) -> Queue<Dropping>
    ensures all { result ≡ listing.droppings }
    ensures few { length result < 2 ^ 64 }
{
    let Listing {
        droppings,
        flat,
        ..
    } = listing;
    drop(flat);
    let count = droppings.as_slice().len();
    let _ = count;
    Queue::of(droppings)
}

/// Goes on with the listing, or with what comes of it.
fn scan_on(alloc: Global, known: Known, after: AfterOpen) -> Result<ContainerTurn, NoMemory>
    requires { IsAfterOpen after }
    ensures goes_on { IfOk result (λ turn. container_turn turn ≡ followed_by (after_open after) (on_ok (reads_listed known))) }
    ensures fewer { IfOk result (λ turn. container_turn_left turn ≤ after_open_calls after + droppings_calls (2 ^ 64)) }
    ensures owed { IfOk result IsOwedContainer }
{
    match after {
        AfterOpen::GoesOn(mut scan) => match scan.next() {
            Ok(Some(call)) => Ok(ContainerTurn::Asks(
                call,
                ContainerRead {
                    alloc,
                    known,
                    stage: Stage::Listing(Scan { scan }),
                },
            )),
            Ok(None) => unreachable!(),
            Err(why) => {
                drop((scan, known));
                Err(why)
            }
        },
        AfterOpen::Is(Ok(listing)) => {
            let rest = counted(listing);
            read_next(alloc, known, rest, WriterReadList::new(alloc))
        }
        AfterOpen::Is(Err(why)) => {
            drop(known);
            Ok(ContainerTurn::Over(Err(why)))
        }
    }
}

/// What comes after the reply to a call of the listing.
fn after_scan(
    alloc: Global,
    known: Known,
    scan: Scan,
    reply: Reply,
) -> Result<ContainerTurn, NoMemory>
    ensures goes_on { IfOk result (λ turn. container_turn turn ≡ stage_rest known (Stage.Listing scan) reply) }
    ensures fewer { IfOk result (λ turn. container_turn_left turn < stage_calls (Stage.Listing scan)) }
    ensures owed { IfOk result IsOwedContainer }
{
    let Scan { scan } = scan;
    match scan.after(reply) {
        Ok(after) => scan_on(alloc, known, after),
        Err(why) => {
            drop(known);
            Err(why)
        }
    }
}

impl ContainerRead {
    /// Begins to read.
    pub fn begin(alloc: Global, known: Known) -> Result<ContainerTurn, NoMemory>
        ensures goes_on { IfOk result (λ turn. container_turn turn ≡ contained_program known) }
        ensures left { IfOk result (λ turn. container_turn_left turn ≤ container_bound) }
        ensures owed { IfOk result IsOwedContainer }
    {
        let scan = OpenRead::top(alloc, known.room);
        scan_on(alloc, known, AfterOpen::GoesOn(scan))
    }

    /// Goes on with the reply to the call that is out. A reply of `NoMemory` ends the reading, and is answered so.
    pub fn take(self, reply: Reply) -> Result<ContainerTurn, NoMemory>
        ensures goes_on { IfOk result (λ turn. container_turn turn ≡ container_rest self reply) }
        ensures fewer { IfOk result (λ turn. container_turn_left turn < container_left self) }
        ensures owed { IfOk result IsOwedContainer }
        ensures no_memory { reply ≡ WantsMemory → IsErr result }
    {
        if let Reply::NoMemory = reply {
            drop(self);
            return Err(NoMemory);
        }
        let ContainerRead {
            alloc,
            known,
            stage,
        } = self;
        match stage {
            Stage::Listing(scan) => after_scan(alloc, known, scan, reply),
            Stage::Reading {
                rest,
                dropping,
                tail,
                sofar,
            } => after_tail(alloc, known, dropping, rest, sofar, tail, reply),
            Stage::Truncs { writers, truncs } => after_truncs(alloc, known, writers, truncs, reply),
        }
    }
}
