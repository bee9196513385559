//! One actor of a run.
ghost use Rattle.std.specs.Prelude.{◌≡◌, [], ◌∷◌, ◌++◌, true, false, All, IfOk, OnOk, OnErr, List};
ghost use Rattle.std.specs.Option.{option_to_list};
ghost use Rattle.actor_core.specs.Progress.{idle, fresh, IsIdle, waiting_line, line_taken};
ghost use Rattle.actor_core.specs.Standings.{progress_of};

use crate::calling::{call, greets};
use actor_core::Actor;
use edge_io::Clock;
use mount_core::Mount;
use plfs_types::NoMemory;
use script_lang::{ActorDecl, CompactStatement, Line};
use std::alloc::Global;
use std::collections::VecDeque;
use store_api::Store;

/// An actor, the number under which it calls, and how far it is in a phase.
#[derive(Drop)]
pub(crate) struct Player<'a> {
    alloc: Global,
    number: u64,
    actor: Actor,
    /// Its statements of the phase that are not begun. Each is copied as it begins.
    queue: VecDeque<&'a CompactStatement>,
    /// The lines of its statements that ended ahead of their place in writing.
    ahead: VecDeque<Line>,
}

impl<'a> Player<'a> {
    ghost use Rattle.script_lang.specs.Ranges.{FitsActor};
    ghost use Rattle.run_core.specs.Players.{waiting_in};

    /// An actor that has done nothing yet.
    pub(crate) fn new(alloc: Global, number: u64, declared: ActorDecl) -> Player<'a>
        requires { FitsActor declared }
        ensures number { result.number ≡ number }
        ensures progress { progress_of result.actor ≡ idle (fresh declared.host declared.cap) }
        ensures queue { waiting_in result ≡ [] }
        ensures ahead { result.ahead.items ≡ [] }
    {
        Player {
            alloc,
            number,
            actor: Actor::new(alloc, declared),
            queue: VecDeque::new(alloc),
            ahead: VecDeque::new(alloc),
        }
    }
}

impl<'a> Player<'a> {
    ghost use Rattle.run_core.specs.World.{IsDealt};
    ghost use Rattle.run_core.specs.Players.{waiting_in};

    /// Gives it one statement more of the phase.
    pub(crate) fn give(&mut self, statement: &'a CompactStatement) -> Result<(), NoMemory>
        ensures { OnOk result (IsDealt (statement.now ∷ []) self.old self.new) }
    {
        self.queue.push_back(statement)?;
        Ok(())
    }

    /// Takes the line that waits, where one does.
    fn put_ahead(&mut self) -> Result<(), NoMemory>
        ensures ahead { OnOk result (self.new.ahead.items ≡ self.old.ahead.items ++ option_to_list (waiting_line (progress_of self.old.actor))) }
        ensures progress { OnOk result (progress_of self.new.actor ≡ line_taken (progress_of self.old.actor)) }
        ensures queue { OnOk result (waiting_in self.new ≡ waiting_in self.old) }
        ensures number { OnOk result (self.new.number ≡ self.old.number) }
    {
        if let Some(line) = self.actor.line() {
            self.ahead.push_back(line)?;
        }
        Ok(())
    }
}

impl<'a> Player<'a> {
    ghost use Rattle.std.specs.Prelude.{◌<◌, length};
    ghost use Rattle.run_core.specs.Broken.{TurnBreaks};
    ghost use Rattle.run_core.specs.Players.{IsFit, IsMade, waiting_in};
    ghost use Rattle.run_core.specs.Moving.{Advances, Comes, Turns, Begins, IsDone};

    /// Goes on with the statement in progress: by a greeting, where one is due, and one call more. Without a further call its line is ahead.
    fn go_on<S: Store + Drop, C: Clock + Drop>(
        &mut self,
        mount: &mut Mount<S, C>,
    ) -> Result<bool, NoMemory>
        requires { IsFit self.old mount.old }
        ensures called { IfOk result (λ called. called ≡ true → Advances Turns self.old mount.old self.new mount.new) }
        ensures ended { IfOk result (λ called. called ≡ false → Advances Comes self.old mount.old self.new mount.new) }
        ensures idle { IfOk result (λ called. called ≡ false → IsIdle (progress_of self.new.actor)) }
        ensures queue { OnOk result (waiting_in self.new ≡ waiting_in self.old) }
        ensures broken { OnErr result (TurnBreaks self.old mount.old mount.new) }
    {
        while let Some(ask) = self.actor.next()? {
            let free = greets(&ask.call);
            let reply = call(mount, self.number, &ask);
            drop(ask);
            self.actor.take(reply)?;
            if !free {
                return Ok(true);
            }
        }
        self.put_ahead()?;
        Ok(false)
    }

    /// Begins its next statement, and answers whether there was one.
    fn begin_next(&mut self) -> Result<bool, NoMemory>
        requires idle { IsIdle (progress_of self.old.actor) }
        requires made { All IsMade (waiting_in self.old) }
        ensures begins { OnOk result (Begins self.old self.new) }
        ensures fewer { IfOk result (λ begun. begun ≡ true → length (waiting_in self.new) < length (waiting_in self.old)) }
        ensures none { IfOk result (λ begun. begun ≡ false → IsDone self.new) }
    {
        let Some(next) = self.queue.pop_front() else {
            return Ok(false);
        };
        let statement = next.copy(self.alloc)?;
        self.actor.begin(next.line(), statement)?;
        Ok(true)
    }

    /// Takes its turn: it finishes its next statements that need no call, and then makes one call. Answers whether it made one: without it no statement is left.
    pub(crate) fn take_turn<S: Store + Drop, C: Clock + Drop>(
        &mut self,
        mount: &mut Mount<S, C>,
    ) -> Result<bool, NoMemory>
        requires { IsFit self.old mount.old }
        ensures turns { OnOk result (Advances Turns self.old mount.old self.new mount.new) }
        ensures done { IfOk result (λ called. called ≡ false → IsDone self.new) }
        ensures broken { OnErr result (TurnBreaks self.old mount.old mount.new) }
    {
        'turn: loop {
            if self.go_on(mount)? {
                return Ok(true);
            }
            if !self.begin_next()? {
                return Ok(false);
            }
        }
    }
}

impl<'a> Player<'a> {
    ghost use Rattle.std.specs.Prelude.{◌≤◌};
    ghost use Rattle.run_core.specs.Broken.{PassBreaks};
    ghost use Rattle.run_core.specs.Players.{IsFit, IsMade, lines_left, waiting_in};
    ghost use Rattle.run_core.specs.Moving.{Begins, Passes};

    /// Begins its next statement where none is in progress. It has one.
    fn begin_due(&mut self) -> Result<(), NoMemory>
        requires made { All IsMade (waiting_in self.old) }
        requires some { 1 ≤ lines_left self.old }
        requires none_ahead { self.old.ahead.items ≡ [] }
        ensures begins { OnOk result (Begins self.old self.new) }
        ensures busy { OnOk result (IsIdle (progress_of self.new.actor) → ⊥) }
    {
        if self.actor.is_idle() {
            self.begin_next()?;
        }
        Ok(())
    }

    /// Carries the statement in progress to its end.
    fn carry<S: Store + Drop, C: Clock + Drop>(
        &mut self,
        mount: &mut Mount<S, C>,
    ) -> Result<Line, NoMemory>
        requires fit { IsFit self.old mount.old }
        requires busy { IsIdle (progress_of self.old.actor) → ⊥ }
        requires none_ahead { self.old.ahead.items ≡ [] }
        ensures passes { IfOk result (λ line. Passes line self.old mount.old self.new mount.new) }
        ensures broken { OnErr result (PassBreaks self.old mount.old mount.new) }
    {
        while let Some(ask) = self.actor.next()? {
            let reply = call(mount, self.number, &ask);
            drop(ask);
            self.actor.take(reply)?;
        }
        match self.actor.line() {
            Some(line) => Ok(line),
            None => unreachable!(),
        }
    }

    /// The line of its next statement in writing, which is carried to its end where it isn't there yet. It has one.
    pub(crate) fn next_line<S: Store + Drop, C: Clock + Drop>(
        &mut self,
        mount: &mut Mount<S, C>,
    ) -> Result<Line, NoMemory>
        requires fit { IsFit self.old mount.old }
        requires some { 1 ≤ lines_left self.old }
        ensures passes { IfOk result (λ line. Passes line self.old mount.old self.new mount.new) }
        ensures broken { OnErr result (PassBreaks self.old mount.old mount.new) }
    {
        if let Some(line) = self.ahead.pop_front() {
            return Ok(line);
        }
        self.begin_due()?;
        let line = self.carry(mount)?;
        Ok(line)
    }
}
