//! Reading the entries of one index dropping.
ghost use Rattle.std.specs.Prelude.{◌≡◌, ◌<◌, ◌+◌, ◌^◌, IfOk};
ghost use Rattle.mount_model.specs.Standing.{ready, next_of, rest_of, replied, Awaits};
ghost use Rattle.index_reader.specs.Packs.{no_tail};
ghost use Rattle.index_reader.specs.Stages.{after_calls, after_left, tail_calls, tail_standing};
ghost use Rattle.index_reader.specs.Tails.{tail_program};

use crate::entries::Tail;
use crate::listing::Dropping;
use crate::sharing::{after_dropping, dropping_call};
use crate::steps::{DroppingRead, TailRead};
use crate::tails::After;
use mount_model::{Call, Flow, Reply, Stuck};
use plfs_types::{Cover, NoMemory};
use std::alloc::Global;
use std::mem;

/// Reads what a cover doesn't count of one writer's index dropping: its length, the length of its log, which is 0 where
/// the log is absent, and the whole entries behind the counted ones, 4096 by a Read.
///
/// It ends with these entries and a cover of all, among which an entry that ends past its log and all behind it count as
/// not there, or with the first trouble: a call that was refused or failed, or damage, as a share has it.
#[derive(Drop)]
pub struct TailFlow {
    alloc: Global,
    room: u64,
    stage: After,
}

impl TailFlow {
    /// Reads this index dropping of the room, behind what the cover counts.
    pub fn new(alloc: Global, room: u64, dropping: Dropping, cover: Cover) -> Self
        ensures starts { tail_standing result ≡ ready (tail_program room dropping (no_tail cover)) }
        ensures left { tail_calls result ≡ 2 ^ 64 + 2 }
    {
        TailFlow {
            alloc,
            room,
            stage: After::GoesOn(DroppingRead::Entries(TailRead::new(alloc, dropping, cover))),
        }
    }

    /// The call that is to be made, where there is one.
    fn call(&self) -> Option<Call>
        ensures { result ≡ next_of (tail_standing self.now) }
    {
        match &self.stage {
            After::GoesOn(read) => Some(dropping_call(self.room, read)),
            After::Is(_) => None,
        }
    }
}

/// What comes after the reply to the call of this stage.
fn after_reply(alloc: Global, room: u64, stage: After, reply: Reply) -> Result<After, NoMemory>
    requires { Awaits (rest_of (ready (after_left room stage))) }
    ensures goes_on { IfOk result (λ next. after_left room next ≡ replied (rest_of (ready (after_left room stage))) reply) }
    ensures fewer { IfOk result (λ next. after_calls next < after_calls stage) }
{
    match stage {
        After::GoesOn(read) => after_dropping(alloc, room, read, reply),
        After::Is(_) => unreachable!(),
    }
}

impl Flow for TailFlow {
    type Out = Result<Tail, Stuck>;

    ghost standing = { tail_standing };

    ghost left = { tail_calls };

    fn next(&mut self) -> Result<Option<Call>, NoMemory> {
        Ok(self.call())
    }

    fn take(&mut self, reply: Reply) -> Result<(), NoMemory> {
        if let Reply::NoMemory = reply {
            return Err(NoMemory);
        }
        let stage = mem::replace(&mut self.stage, After::Is(Err(Stuck::Fault)));
        let stage = after_reply(self.alloc, self.room, stage, reply)?;
        drop(mem::replace(&mut self.stage, stage));
        Ok(())
    }

    fn out(self) -> Result<Tail, Stuck> {
        let TailFlow { stage, .. } = self;
        match stage {
            After::Is(result) => result,
            After::GoesOn(_) => unreachable!(),
        }
    }
}
