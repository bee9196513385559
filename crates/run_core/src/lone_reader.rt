//! A reader by itself on a mount: one actor opens a file and reads it piece by piece, and who drives it may choose each
//! statement by the lines before.
ghost use Rattle.std.specs.Prelude.{IfOk, OnErr};
ghost use Rattle.script_lang.specs.Ranges.{FitsActor, FitsStatement};
ghost use Rattle.actor_core.specs.declared.kept.Kept.{Kept};
ghost use Rattle.actor_core.specs.Progress.{fresh};
ghost use Rattle.actor_core.specs.Standings.{progress_of};

use crate::unowed::call_unowed;
use actor_core::Actor;
use edge_io::Clock;
use mount_core::Mount;
use plfs_types::NoMemory;
use script_lang::{ActorDecl, Line, Numbered};
use std::alloc::Global;
use store_api::Store;

/// An actor by itself, between two statements.
#[derive(Drop)]
pub struct LoneReader {
    actor: Actor,
}

impl LoneReader {
    ghost use Rattle.run_core.specs.Making.{Keeps, IsAtRest, IsReading, HasMadeOne};
    ghost use Rattle.run_core.specs.Broken.{OneIsBroken};
    ghost use Rattle.run_core.specs.Working.{IsPlainProgress, Carries, IsBroken};

    /// One that has done nothing yet.
    pub fn new(alloc: Global, declared: ActorDecl) -> LoneReader
        requires { FitsActor declared }
        ensures keeps { Keeps result (fresh declared.host declared.cap) }
        ensures rests { IsAtRest result }
    {
        LoneReader {
            actor: Actor::new(alloc, declared),
        }
    }

    /// Opens a reader, or reads from the one that is open, by calls of actor 0. After `NoMemory` it has made a front
    /// of the statement's calls, and makes no further statement.
    pub fn make<S: Store + Drop, C: Clock + Drop>(
        &mut self,
        mount: &mut Mount<S, C>,
        statement: Numbered,
    ) -> Result<Line, NoMemory>
        requires rests { IsAtRest self.old }
        requires fits { FitsStatement statement.statement }
        requires reads { IsReading statement.statement }
        ensures made { IfOk result (λ line. (kept : Kept) → Keeps self.old kept → HasMadeOne statement kept mount.old line self.new mount.new) }
        ensures rests { IfOk result (λ line. IsAtRest self.new) }
        ensures broken { OnErr result ((kept : Kept) → Keeps self.old kept → OneIsBroken statement kept mount.old mount.new) }
    {
        let Numbered {
            line,
            actor: _,
            statement,
        } = statement;
        self.actor.begin(line, statement)?;
        let line = self.carry(mount)?;
        Ok(line)
    }

    // Carries the statement in progress to its line.
    fn carry<S: Store + Drop, C: Clock + Drop>(
        &mut self,
        mount: &mut Mount<S, C>,
    ) -> Result<Line, NoMemory>
        requires { IsPlainProgress (progress_of self.old.actor) }
        ensures carries { IfOk result (λ line. Carries self.old mount.old line self.new mount.new) }
        ensures broken { OnErr result (IsBroken self.old mount.old mount.new) }
    {
        while let Some(ask) = self.actor.next()? {
            let reply = call_unowed(mount, &ask);
            drop(ask);
            self.actor.take(reply)?;
        }
        match self.actor.line() {
            Some(line) => Ok(line),
            None => unreachable!(),
        }
    }
}
