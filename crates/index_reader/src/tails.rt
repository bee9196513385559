//! Reading what a flattened index doesn't cover of one writer's index dropping.
ghost use Rattle.std.specs.Prelude.{All, ℕ, ◌≡◌, ◌≤◌, ◌<◌, ◌+◌, ◌*◌, ◌^◌, Some, IfOk, OnOk};
ghost use Rattle.interval_merge.specs.Writer.{HasPiece};
ghost use Rattle.mount_model.specs.Standing.{ready, next_of, rest_of, replied};
ghost use Rattle.mount_model.specs.Paths.{index_path as path_of_index, log_path as path_of_log};
ghost use Rattle.index_reader.specs.Tails.{tail_program, looked, reads_left};
ghost use Rattle.index_reader.specs.Packs.{no_tail};
ghost use Rattle.index_reader.specs.Stages.{tail_left, after_left, IsOfPieces, step_calls, after_calls};

use crate::entries::{Tail, Went};
use crate::listing::Dropping;
use crate::replies::{log_length_in, number_in};
use crate::steps::{DroppingRead, Step, TailRead};
use container_layout::{Item, print};
use interval_merge::give_back;
use mount_model::{Call, Look, Reply, Stuck, bytes_in, damage, next_read, trouble};
use plfs_types::{Cover, ENTRY_SIZE, EntryList, NoMemory, Path};
use std::alloc::Global;

/// The bytes of an entry.
const ENTRY: u64 = ENTRY_SIZE as u64;

/// What comes after a reply.
#[derive(Drop)]
pub(crate) enum After {
    GoesOn(DroppingRead),
    Is(Result<Tail, Stuck>),
}

pub(crate) fn index_path(dropping: Dropping) -> Path
    ensures { result ≡ path_of_index dropping.host dropping.writer }
{
    print(&Item::Index {
        host: dropping.host,
        writer: dropping.writer,
    })
}

pub(crate) fn log_path(host: u32, writer: u64) -> Path
    ensures { result ≡ path_of_log host writer }
{
    print(&Item::Log { host, writer })
}

impl TailRead {
    /// Nothing was asked yet.
    pub(crate) fn new(alloc: Global, dropping: Dropping, cover: Cover) -> Self
        ensures starts { (room : ℕ) → tail_left room result ≡ tail_program room dropping (no_tail cover) }
        ensures calls { step_calls result.step ≡ 2 ^ 64 + 2 }
    {
        TailRead {
            dropping,
            tail: Tail {
                cover,
                entries: EntryList::new(alloc),
            },
            step: Step::Index,
        }
    }

    /// The call that is to be made.
    pub(crate) fn call(&self, room: u64) -> Call
        ensures { Some result ≡ next_of (ready (tail_left room self.now)) }
    {
        let look = match self.step {
            Step::Index => Look::Length {
                path: index_path(self.dropping),
            },
            Step::Log { .. } => Look::Length {
                path: log_path(self.dropping.host, self.dropping.writer),
            },
            Step::Entries { whole, left, .. } => Look::Read {
                path: index_path(self.dropping),
                at: ENTRY * (whole - left),
                len: ENTRY * next_read(left),
            },
        };
        Call::Look { room, look }
    }

    /// What comes after the reply to that call.
    pub(crate) fn after(self, room: u64, reply: Reply) -> Result<After, NoMemory>
        ensures goes_on { IfOk result (λ after. after_left room after ≡ replied (rest_of (ready (tail_left room self))) reply) }
        ensures fewer { IfOk result (λ after. after_calls after < step_calls self.step) }
        ensures pieces { IfOk result IsOfPieces }
    {
        match self.step {
            Step::Index => Ok(self.after_index(reply)),
            Step::Log { whole } => Ok(self.after_log(whole, reply)),
            Step::Entries {
                log,
                whole,
                left,
                ended,
            } => self.after_read(log, whole, left, ended, reply),
        }
    }

    fn after_index(self, reply: Reply) -> After
        requires { self.step ≡ Step.Index }
        ensures goes_on { (room : ℕ) → after_left room result ≡ replied (rest_of (ready (tail_left room self))) reply }
        ensures fewer { after_calls result < 2 ^ 64 + 2 }
        ensures pieces { IsOfPieces result }
    {
        let path = index_path(self.dropping);
        let Some(told) = number_in(&reply) else {
            let why = trouble(&path, &reply);
            drop((self, reply));
            return After::Is(Err(why));
        };
        drop(reply);
        let whole = told / ENTRY;
        if whole < self.tail.cover.count {
            drop(self);
            return After::Is(Err(damage(&path, told)));
        }
        After::GoesOn(DroppingRead::Entries(TailRead {
            dropping: self.dropping,
            tail: self.tail,
            step: Step::Log { whole },
        }))
    }

    fn after_log(self, whole: u64, reply: Reply) -> After
        requires { self.step ≡ Step.Log whole }
        ensures goes_on { (room : ℕ) → after_left room result ≡ replied (rest_of (ready (tail_left room self))) reply }
        ensures fewer { after_calls result < whole + 1 }
        ensures pieces { IsOfPieces result }
    {
        let path = log_path(self.dropping.host, self.dropping.writer);
        let Some(log) = log_length_in(&reply) else {
            let why = trouble(&path, &reply);
            drop((self, reply));
            return After::Is(Err(why));
        };
        drop(reply);
        if log < self.tail.cover.bytes {
            drop(self);
            return After::Is(Err(damage(&path, log)));
        }
        let left = whole - self.tail.cover.count;
        reading(self.dropping, self.tail, log, whole, left, false)
    }

    fn after_read(
        self,
        log: u64,
        whole: u64,
        left: u64,
        ended: bool,
        reply: Reply,
    ) -> Result<After, NoMemory>
        requires { self.step ≡ Step.Entries log whole left ended }
        ensures goes_on { IfOk result (λ after. (room : ℕ) → after_left room after ≡ replied (rest_of (ready (tail_left room self))) reply) }
        ensures fewer { IfOk result (λ after. after_calls after < left) }
        ensures pieces { IfOk result IsOfPieces }
    {
        let path = index_path(self.dropping);
        let why = trouble(&path, &reply);
        let Some(bytes) = bytes_in(reply) else {
            return Ok(After::Is(Err(why)));
        };
        let asked = next_read(left);
        let is_full = ENTRY * asked <= bytes.as_slice().len() as u64;
        let mut tail = self.tail;
        let went = look(&mut tail, log, asked, ended, bytes.as_slice())?;
        give_back(bytes.into_vec());
        let past = match went {
            Went::Breaks => {
                return Ok(After::Is(Err(damage(&path, ENTRY * tail.cover.count))));
            }
            Went::Ends => true,
            Went::On => false,
        };
        if is_full {
            Ok(reading(self.dropping, tail, log, whole, left - asked, past))
        } else {
            Ok(After::Is(Ok(tail)))
        }
    }
}

/// Looks at the entries of the bytes that a Read of so many gave, unless one before them ended past the log.
fn look(tail: &mut Tail, log: u64, asked: u64, ended: bool, bytes: &[u8]) -> Result<Went, NoMemory>
    requires count { tail.old.cover.count + asked < 2 ^ 64 }
    requires pieces { All HasPiece tail.old.entries }
    ensures looked { IfOk result (λ went. (went, tail.new) ≡ looked ended log asked bytes.now tail.old) }
    ensures most { OnOk result (tail.new.cover.count ≤ tail.old.cover.count + asked) }
    ensures pieces { OnOk result (All HasPiece tail.new.entries) }
{
    if ended {
        return Ok(Went::Ends);
    }
    let count = (bytes.len() / ENTRY_SIZE).min(asked as usize);
    tail.check(log, count, bytes)
}

/// So many entries are left.
#[tactic(auto, using(crate::proofs::Indices::TailLemmas::reads_going_on))]
fn reading(dropping: Dropping, tail: Tail, log: u64, whole: u64, left: u64, ended: bool) -> After
    requires pieces { All HasPiece tail.entries }
    requires within { tail.cover.count + left ≤ whole }
    requires places { ENTRY_SIZE * whole < 2 ^ 64 }
    ensures goes_on { (room : ℕ) → after_left room result ≡ reads_left room dropping log whole left ended tail }
    ensures fewer { after_calls result ≤ left }
    ensures pieces { IsOfPieces result }
{
    if left == 0 {
        return After::Is(Ok(tail));
    }
    After::GoesOn(DroppingRead::Entries(TailRead {
        dropping,
        tail,
        step: Step::Entries {
            log,
            whole,
            left,
            ended,
        },
    }))
}
