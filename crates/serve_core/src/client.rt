//! One client.
ghost use Rattle.std.specs.Prelude.{◌≡◌, IfOk, OnErr};
ghost use Rattle.mount_sound.specs.Sound.{IsFine};
ghost use Rattle.script_lang.specs.Ranges.{FitsActor, FitsStatement};
ghost use Rattle.actor_core.specs.declared.kept.Kept.{Kept};
ghost use Rattle.actor_core.specs.Progress.{idle, fresh};
ghost use Rattle.actor_core.specs.Standings.{progress_of};

use crate::calling::call;
use actor_core::Actor;
use edge_io::Clock;
use mount_core::Mount;
use plfs_types::NoMemory;
use script_lang::{ActorDecl, Line, Numbered};
use std::alloc::Global;
use store_api::Store;

/// A client: the number under which it calls, and its actor.
#[derive(Drop)]
pub struct Client {
    number: u64,
    actor: Actor,
}

impl Client {
    ghost use Rattle.serve_core.specs.Making.{Begins, IsAtRest, Keeps, MakesSo};
    ghost use Rattle.serve_core.specs.Working.{Carries, IsBroken, IsSafeWork};

    /// One that has done nothing yet.
    pub(crate) fn new(alloc: Global, number: u64, declared: ActorDecl) -> Client
        requires { FitsActor declared }
        ensures number { result.number ≡ number }
        ensures keeps { progress_of result.actor ≡ idle (fresh declared.host declared.cap) }
    {
        Client {
            number,
            actor: Actor::new(alloc, declared),
        }
    }

    /// Makes the statement, by calls of its own. After `NoMemory` it has made a front of the statement's calls, and makes no
    /// further statement.
    pub(crate) fn make<S: Store + Drop, C: Clock + Drop>(
        &mut self,
        mount: &mut Mount<S, C>,
        asked: Numbered,
    ) -> Result<Line, NoMemory>
        requires rests { IsAtRest self.old }
        requires fits { FitsStatement asked.statement }
        requires fine { IsFine mount.old }
        ensures makes { IfOk result (λ line. MakesSo asked self.old mount.old line self.new mount.new) }
        ensures broken { OnErr result ((kept : Kept) → Keeps self.old kept → Begins self.old.number asked kept mount.old mount.new) }
        ensures fine { IsFine mount.new }
    {
        let Numbered {
            line,
            actor: _,
            statement,
        } = asked;
        self.actor.begin(line, statement)?;
        let line = self.carry(mount)?;
        Ok(line)
    }

    // Carries the statement in progress to its line.
    fn carry<S: Store + Drop, C: Clock + Drop>(
        &mut self,
        mount: &mut Mount<S, C>,
    ) -> Result<Line, NoMemory>
        requires safe { IsSafeWork self.old.number (progress_of self.old.actor) mount.old }
        requires fine { IsFine mount.old }
        ensures carries { IfOk result (λ line. Carries self.old mount.old line self.new mount.new) }
        ensures broken { OnErr result (IsBroken self.old mount.old mount.new) }
        ensures fine { IsFine mount.new }
    {
        while let Some(ask) = self.actor.next()? {
            let reply = call(mount, self.number, &ask);
            drop(ask);
            self.actor.take(reply)?;
        }
        match self.actor.line() {
            Some(line) => Ok(line),
            None => unreachable!(),
        }
    }
}
