//! How an actor goes on.
ghost use Rattle.std.specs.Prelude.{◌≡◌, ◌<◌, ◌≤◌, ◌↔◌, IfOk, IfSome, OnOk, IsErr, IsTrue};
ghost use Rattle.mount_model.specs.declared.reply.Reply.TheVariants.{NoMemory as WantsMemory};
ghost use Rattle.mount_model.specs.Step.{IsOwed};
ghost use Rattle.script_lang.specs.Ranges.{FitsActor, FitsStatement};
ghost use Rattle.actor_core.specs.declared.actor.State.TheVariants.{Idle};
ghost use Rattle.actor_core.specs.Progress.{idle, fresh, IsIdle, IsReady, IsAsked, begun, ask_of, given, with_reply, waiting_line, line_taken};
ghost use Rattle.actor_core.specs.Standings.{progress_of, calls_left};
ghost use Rattle.actor_core.specs.Machines.{IsOneReady};
ghost use Rattle.actor_core.specs.Taking.{IsWorking};

use crate::actor::{Actor, State};
use crate::kept::Kept;
use crate::machines::is_one_ready;
use crate::taking::is_working;
use mount_model::{Ask, Call, Reply};
use plfs_types::NoMemory;
use script_lang::{ActorDecl, Line, Statement};
use std::alloc::Global;
use std::mem;

impl Actor {
    /// An actor that has done nothing yet. Its capacity is 1 to 4096 entries.
    pub fn new(alloc: Global, declared: ActorDecl) -> Actor
        requires { FitsActor declared }
        ensures { progress_of result ≡ idle (fresh declared.host declared.cap) }
    {
        Actor {
            alloc,
            kept: Kept {
                host: declared.host,
                cap: declared.cap,
                greeted: false,
                writer: None,
                reader: None,
                armed: None,
                gone: false,
            },
            number: 0,
            stop: None,
            state: State::Idle,
        }
    }

    /// Begins a statement, of which the line has this number. An actor that answered `NoMemory` is at its end.
    pub fn begin(&mut self, number: u64, statement: Statement) -> Result<(), NoMemory>
        requires idle { IsIdle (progress_of self.old) }
        requires fits { FitsStatement statement }
        ensures { OnOk result (progress_of self.new ≡ begun (progress_of self.old) number statement) }
    {
        let greeted = self.kept.greeted;
        self.kept.greeted = true;
        let doing = self.start(statement)?;
        self.number = number;
        if greeted {
            self.set(State::Working {
                doing,
                is_out: false,
            });
        } else {
            self.set(State::Greeting(doing));
        }
        Ok(())
    }

    /// Puts the actor in this state.
    pub(crate) fn set(&mut self, state: State)
        ensures state { self.new.state ≡ state }
        ensures kept { self.new.kept ≡ self.old.kept }
        ensures number { self.new.number ≡ self.old.number }
        ensures stop { self.new.stop ≡ self.old.stop }
    {
        drop(mem::replace(&mut self.state, state));
    }

    /// Takes the state out, and leaves the idle one.
    pub(crate) fn state_taken(&mut self) -> State
        ensures state { result ≡ self.old.state }
        ensures kept { self.new.kept ≡ self.old.kept }
        ensures number { self.new.number ≡ self.old.number }
        ensures stop { self.new.stop ≡ self.old.stop }
        ensures idle { self.new.state ≡ Idle }
    {
        mem::replace(&mut self.state, State::Idle)
    }
}

impl Actor {
    /// The next call of its statement, its greeting before the first one; or None exactly where no statement is in progress or
    /// it has no further call. Then its line is ready. Shares that weren't handed out are read by the actor itself.
    pub fn next(&mut self) -> Result<Option<Ask>, NoMemory>
        requires { IsReady (progress_of self.old) }
        ensures ask { IfOk result (λ ask. ask ≡ ask_of (progress_of self.old)) }
        ensures owed { IfOk result (λ ask. IfSome ask IsOwed) }
        ensures goes_on { OnOk result (progress_of self.new ≡ given (progress_of self.old)) }
        ensures left { OnOk result (calls_left self.new ≤ calls_left self.old) }
    {
        if is_one_ready(&self.state) {
            self.next_of()
        } else {
            self.next_other()
        }
    }

    // The same, unless a statement with one machine is to make its next call. What it has on the stack is not to stand in the frame
    // of `next`, which sets its frame to zeros: so it stays out of line.
    #[inline(never)]
    fn next_other(&mut self) -> Result<Option<Ask>, NoMemory>
        requires other { IsOneReady self.old.state → ⊥ }
        requires ready { IsReady (progress_of self.old) }
        ensures ask { IfOk result (λ ask. ask ≡ ask_of (progress_of self.old)) }
        ensures owed { IfOk result (λ ask. IfSome ask IsOwed) }
        ensures goes_on { OnOk result (progress_of self.new ≡ given (progress_of self.old)) }
        ensures left { OnOk result (calls_left self.new ≤ calls_left self.old) }
    {
        match self.state_taken() {
            State::Idle => Ok(None),
            State::Told(line) => {
                self.set(State::Told(line));
                Ok(None)
            }
            State::Working { doing, is_out } => {
                if is_out {
                    // Where a call is out, nobody asks for a further one.
                    self.set(State::Working { doing, is_out });
                    return Ok(None);
                }
                self.next_call(doing)
            }
            State::Greeting(doing) => {
                self.set(State::Greeted(doing));
                Ok(Some(Ask {
                    call: Call::Greet,
                    stop: None,
                }))
            }
            State::Greeted(doing) => {
                self.set(State::Greeted(doing));
                Ok(None)
            }
            // Nor where workers are at work.
            State::HandedOut(listed) => {
                self.set(State::HandedOut(listed));
                Ok(None)
            }
        }
    }

    /// Takes the reply to the call that `next` gave. A reply of `NoMemory` is answered so.
    pub fn take(&mut self, reply: Reply) -> Result<(), NoMemory>
        requires { IsAsked (progress_of self.old) }
        ensures goes_on { OnOk result (progress_of self.new ≡ with_reply (progress_of self.old) reply) }
        ensures left { OnOk result (calls_left self.new < calls_left self.old) }
        ensures no_memory { reply ≡ WantsMemory → IsErr result }
    {
        if let Reply::NoMemory = reply {
            drop(reply);
            return Err(NoMemory);
        }
        if is_working(&self.state) {
            return self.take_reply(reply);
        }
        self.take_greeting(reply)
    }

    // Takes the reply to the actor's greeting.
    #[inline(never)]
    fn take_greeting(&mut self, reply: Reply) -> Result<(), NoMemory>
        requires other { IsWorking self.old.state → ⊥ }
        requires asked { IsAsked (progress_of self.old) }
        ensures goes_on { OnOk result (progress_of self.new ≡ with_reply (progress_of self.old) reply) }
        ensures left { OnOk result (calls_left self.new < calls_left self.old) }
    {
        match self.state_taken() {
            // A call of the statement's machine is out, as it would be behind a greeting.
            State::Greeting(doing) => {
                self.set(State::Working {
                    doing,
                    is_out: false,
                });
                self.take_reply(reply)
            }
            State::Greeted(doing) => {
                drop(reply);
                self.set(State::Working {
                    doing,
                    is_out: false,
                });
                Ok(())
            }
            State::Idle | State::Told(_) | State::HandedOut(_) | State::Working { .. } => {
                unreachable!()
            }
        }
    }

    /// Whether no statement is in progress and no line waits.
    pub fn is_idle(&self) -> bool
        ensures { IsTrue result ↔ IsIdle (progress_of self.now) }
    {
        matches!(self.state, State::Idle)
    }

    /// The line of the statement that came to its end, or None exactly where one is in progress or none was begun.
    pub fn line(&mut self) -> Option<Line>
        ensures line { result ≡ waiting_line (progress_of self.old) }
        ensures taken { progress_of self.new ≡ line_taken (progress_of self.old) }
    {
        match self.state_taken() {
            State::Told(line) => Some(line),
            other => {
                self.set(other);
                None
            }
        }
    }
}
