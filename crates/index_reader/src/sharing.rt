//! Reading a share of a container's index droppings.
ghost use Rattle.std.specs.Prelude.{All, ◌≡◌, ◌≤◌, ◌<◌, ◌+◌, ◌*◌, ◌^◌, ℕ, List, [], length, Some, IfOk, OnOk};
ghost use Rattle.interval_merge.specs.Writer.{HasPiece};
ghost use Rattle.mount_model.specs.Program.{followed_by};
ghost use Rattle.mount_model.specs.Standing.{ready, next_of, rest_of, replied, Awaits};
ghost use Rattle.mount_model.specs.FlowReplies.{on_ok};
ghost use Rattle.index_reader.specs.Runs.{merged_of, pieces_of};
ghost use Rattle.index_reader.specs.Covered.{AreByWriter, cover_of as cover_for};
ghost use Rattle.index_reader.specs.Sharing.{nothing, added, share_of, dropping_program, gathers, share_program};
ghost use Rattle.index_reader.specs.Stages.{after_left, after_calls, dropping_left, dropping_calls, IsOfPieces, stage_left, stage_calls, share_standing, share_left};

use crate::covers::Covers;
use crate::entries::Tail;
use crate::listing::{Dropping, DroppingList};
use crate::steps::{DroppingRead, PackRead, TailRead};
use crate::tails::After;
use interval_merge::{PiecesList, give_back, merge_all, of_writer};
use mount_model::{Call, Flow, Reply, Stuck};
use plain_file::{PieceList, Pieces};
use plfs_types::{Cover, CoverList, Entry, NoMemory, Queue};
use std::alloc::Global;
use std::mem;

/// What was read of a share: a cover of each writer with entries, and the pieces of those entries that the flattened
/// index doesn't cover.
#[derive(Drop)]
pub struct Share {
    pub covers: CoverList,
    pub pieces: Pieces,
}

/// What was read so far: covers, and the pieces of each tail.
#[derive(Drop)]
pub(crate) struct Sofar {
    pub(crate) covers: CoverList,
    pub(crate) lists: PiecesList,
}

/// Reads what a flattened index doesn't cover of these index droppings, one after the other: the length of each, the
/// length of its log, which is 0 where the log is absent, and the whole entries behind the covered ones, 4096 by a Read.
/// Of a dropping with a packed index that one is read in its place: its length, its head of 24 bytes, and, where it has
/// another number of entries than are covered, the rest, 2^20 bytes by a Read.
///
/// It ends with the share, in which an entry that ends past its log and all behind it count as not there, or with the
/// first trouble: a call that was refused or failed, or damage. Damage is an index dropping with fewer entries than its
/// cover counts, at its length; a log shorter than its cover's bytes, at its length; an entry that breaks a rule, at its
/// first byte; a missing file or folder, at 0. Of a packed index it is: other letters, at 0; a number of entries out of
/// its range or below the covered ones, at 8; a length that doesn't fit the number of runs, at 16; bytes that are no
/// packed index, at the first fault; another writer's entries, at 24; covered entries without the cover's bytes and
/// stamp, at the run of the first entry past them. The entries of one dropping at a time are held.
#[derive(Drop)]
pub struct ShareRead {
    alloc: Global,
    room: u64,
    covers: Covers,
    rest: Queue<Dropping>,
    sofar: Sofar,
    stage: Stage,
}

#[derive(Drop)]
pub(crate) enum Stage {
    Underway(DroppingRead),
    Ended(Result<Share, Stuck>),
}

/// The pieces of a writer's entries.
fn pieces(alloc: Global, entries: &[Entry]) -> Result<Pieces, NoMemory>
    requires { All HasPiece entries.now }
    ensures { IfOk result (λ pieces. pieces ≡ pieces_of entries.now) }
{
    let pieces = of_writer(alloc, entries)?;
    Ok(pieces)
}

/// The pieces of all tails.
fn merged(alloc: Global, lists: PiecesList) -> Result<Pieces, NoMemory>
    ensures { IfOk result (λ pieces. pieces ≡ merged_of lists) }
{
    let pieces = merge_all(alloc, lists)?;
    Ok(pieces)
}

fn no_pieces(alloc: Global) -> Pieces
    ensures { result ≡ merged_of [] }
{
    match Pieces::read(PieceList::new(alloc)) {
        Ok(pieces) => pieces,
        Err(_) => unreachable!(),
    }
}

impl Sofar {
    fn new(alloc: Global) -> Self
        ensures { result ≡ nothing }
    {
        Sofar {
            covers: CoverList::new(alloc),
            lists: PiecesList::new(alloc),
        }
    }

    /// Takes the tail of one dropping in.
    fn add(&mut self, alloc: Global, tail: Tail) -> Result<(), NoMemory>
        requires { All HasPiece tail.entries }
        ensures { OnOk result (self.new ≡ added tail self.old) }
    {
        let Tail { cover, entries } = tail;
        let pieces = pieces(alloc, entries.as_slice())?;
        give_back(entries.into_vec());
        self.lists.push(pieces)?;
        if cover.count > 0 {
            self.covers.push(cover)?;
        }
        Ok(())
    }

    /// All that was read, which is taken out.
    fn share(&mut self, alloc: Global) -> Result<Share, NoMemory>
        ensures { IfOk result (λ share. share ≡ share_of self.old) }
    {
        let all = mem::replace(self, Sofar::new(alloc));
        Ok(Share {
            covers: all.covers,
            pieces: merged(alloc, all.lists)?,
        })
    }
}

impl ShareRead {
    /// Reads these index droppings of this room, behind what a flattened index with these covers has, which stand by
    /// ascending writer.
    pub fn new(alloc: Global, room: u64, share: DroppingList, covers: CoverList) -> Self
        requires { AreByWriter covers }
        ensures starts { share_standing result ≡ ready (share_program room share covers) }
        ensures left { share_left result ≤ length share * (2 ^ 64 + 3) }
    {
        let covers = Covers::of(covers);
        let mut rest = Queue::of(share);
        let stage = first_stage(alloc, &covers, &mut rest);
        ShareRead {
            alloc,
            room,
            covers,
            rest,
            sofar: Sofar::new(alloc),
            stage,
        }
    }
}

impl ShareRead {
    /// The call that is to be made, where there is one.
    fn call(&self) -> Option<Call>
        ensures { result ≡ next_of (share_standing self.now) }
    {
        match &self.stage {
            Stage::Underway(read) => Some(dropping_call(self.room, read)),
            Stage::Ended(_) => None,
        }
    }
}

/// The call that is to be made for one dropping.
pub(crate) fn dropping_call(room: u64, read: &DroppingRead) -> Call
    ensures { Some result ≡ next_of (ready (dropping_left room read.now)) }
{
    match read {
        DroppingRead::Entries(read) => read.call(room),
        DroppingRead::Packed(read) => read.call(room),
    }
}

impl Flow for ShareRead {
    type Out = Result<Share, Stuck>;

    ghost standing = { share_standing };

    ghost left = { share_left };

    fn next(&mut self) -> Result<Option<Call>, NoMemory> {
        Ok(self.call())
    }

    fn take(&mut self, reply: Reply) -> Result<(), NoMemory> {
        if let Reply::NoMemory = reply {
            return Err(NoMemory);
        }
        let stage = mem::replace(&mut self.stage, Stage::Ended(Err(Stuck::Fault)));
        let stage = after_reply(
            self.alloc,
            self.room,
            &self.covers,
            &mut self.rest,
            &mut self.sofar,
            stage,
            reply,
        )?;
        drop(mem::replace(&mut self.stage, stage));
        Ok(())
    }

    fn out(self) -> Result<Share, Stuck> {
        let ShareRead { stage, .. } = self;
        match stage {
            Stage::Ended(result) => result,
            Stage::Underway(_) => unreachable!(),
        }
    }
}

/// Begins with a dropping, by its packed index where it has one.
fn begin(alloc: Global, covers: &Covers, dropping: Dropping) -> DroppingRead
    ensures starts { (room : ℕ) → dropping_left room result ≡ dropping_program room dropping (cover_for dropping.writer covers.now) }
    ensures calls { dropping_calls result ≤ 2 ^ 64 + 2 }
{
    let cover = covers.of_writer(dropping.writer);
    if dropping.packed {
        DroppingRead::Packed(PackRead::new(dropping.host, dropping.writer, cover))
    } else {
        DroppingRead::Entries(TailRead::new(alloc, dropping, cover))
    }
}

/// Begins with the first of the droppings, where nothing was read.
fn first_stage(alloc: Global, covers: &Covers, rest: &mut Queue<Dropping>) -> Stage
    ensures starts { (room : ℕ) → stage_left room covers.now rest.new nothing result ≡ gathers room covers.now rest.old nothing }
    ensures few { stage_calls rest.new result ≤ length rest.old * (2 ^ 64 + 3) }
{
    let Some(dropping) = rest.pop() else {
        return Stage::Ended(Ok(Share {
            covers: CoverList::new(alloc),
            pieces: no_pieces(alloc),
        }));
    };
    Stage::Underway(begin(alloc, covers, dropping))
}

/// Begins with the first of the droppings that are left, or ends where there is none.
fn next_stage(
    alloc: Global,
    covers: &Covers,
    rest: &mut Queue<Dropping>,
    sofar: &mut Sofar,
) -> Result<Stage, NoMemory>
    ensures goes_on { IfOk result (λ stage. (room : ℕ) → stage_left room covers.now rest.new sofar.new stage ≡ gathers room covers.now rest.old sofar.old) }
    ensures fewer { IfOk result (λ stage. stage_calls rest.new stage ≤ length rest.old * (2 ^ 64 + 3)) }
{
    let Some(dropping) = rest.pop() else {
        return Ok(Stage::Ended(Ok(sofar.share(alloc)?)));
    };
    Ok(Stage::Underway(begin(alloc, covers, dropping)))
}

/// Goes on after a reply.
fn goes_on(
    alloc: Global,
    covers: &Covers,
    rest: &mut Queue<Dropping>,
    sofar: &mut Sofar,
    after: After,
) -> Result<Stage, NoMemory>
    requires { IsOfPieces after }
    ensures goes_on { IfOk result (λ stage. (room : ℕ) → stage_left room covers.now rest.new sofar.new stage
        ≡ followed_by (after_left room after) (on_ok (λ tail. gathers room covers.now rest.old (added tail sofar.old)))) }
    ensures fewer { IfOk result (λ stage. stage_calls rest.new stage ≤ after_calls after + length rest.old * (2 ^ 64 + 3)) }
{
    match after {
        After::GoesOn(read) => Ok(Stage::Underway(read)),
        After::Is(Err(why)) => Ok(Stage::Ended(Err(why))),
        After::Is(Ok(tail)) => {
            sofar.add(alloc, tail)?;
            next_stage(alloc, covers, rest, sofar)
        }
    }
}

/// What comes after the reply to the call of one dropping.
pub(crate) fn after_dropping(
    alloc: Global,
    room: u64,
    read: DroppingRead,
    reply: Reply,
) -> Result<After, NoMemory>
    ensures goes_on { IfOk result (λ after. after_left room after ≡ replied (rest_of (ready (dropping_left room read))) reply) }
    ensures fewer { IfOk result (λ after. after_calls after < dropping_calls read) }
    ensures pieces { IfOk result IsOfPieces }
{
    match read {
        DroppingRead::Entries(read) => read.after(room, reply),
        DroppingRead::Packed(read) => read.after(alloc, reply),
    }
}

/// What comes after the reply to the call of this stage.
fn after_reply(
    alloc: Global,
    room: u64,
    covers: &Covers,
    rest: &mut Queue<Dropping>,
    sofar: &mut Sofar,
    stage: Stage,
    reply: Reply,
) -> Result<Stage, NoMemory>
    requires { Awaits (rest_of (ready (stage_left room covers.now rest.old sofar.old stage))) }
    ensures goes_on { IfOk result (λ next. stage_left room covers.now rest.new sofar.new next
        ≡ replied (rest_of (ready (stage_left room covers.now rest.old sofar.old stage))) reply) }
    ensures fewer { IfOk result (λ next. stage_calls rest.new next < stage_calls rest.old stage) }
{
    match stage {
        Stage::Underway(read) => {
            let after = after_dropping(alloc, room, read, reply)?;
            let next = goes_on(alloc, covers, rest, sofar, after)?;
            Ok(next)
        }
        Stage::Ended(_) => unreachable!(),
    }
}
