//! How the statement at work goes on with a reply.
ghost use Rattle.std.specs.Prelude.{◌≡◌, ◌<◌, ◌↔◌, ℕ, true, false, Option, IsTrue, OnOk};
ghost use Rattle.script_lang.specs.declared.line.Outcome.TheVariants.{Stopped};
ghost use Rattle.actor_core.specs.declared.actor.State.TheVariants.{Working};
ghost use Rattle.actor_core.specs.declared.doing.Doing.TheVariants.{Known};
ghost use Rattle.actor_core.specs.declared.kept.Kept.{Kept as AKept};
ghost use Rattle.actor_core.specs.declared.kept.Stop.{Stop as AStop};
ghost use Rattle.actor_core.specs.Stopping.{is_due as due_test, one_nearer as nearer};
ghost use Rattle.mount_model.specs.Standing.{ready, replied, Awaits};
ghost use Rattle.gather_flow.specs.Gathering.{gather_standing, gather_rest, gather_left};
ghost use Rattle.actor_core.specs.Progress.{IsAsked, with_reply};
ghost use Rattle.actor_core.specs.Standings.{AwaitsReply, progress_of, calls_left, busy, doing_ready, doing_asked, doing_left, state_left};
ghost use Rattle.actor_core.specs.Taking.{IsWorking, HasCallOut, GoesOnWith};

use crate::actor::{Actor, State};
use crate::doing::Doing;
use crate::stopping::{is_due, one_nearer};
use gather_flow::Gathering;
use mount_model::{Flow, Reply, Stuck};
use plfs_types::NoMemory;
use script_lang::Outcome;
use std::mem;

/// Whether the statement is at work, and greets no more.
pub(crate) fn is_working(state: &State) -> bool
    ensures { IsTrue result ↔ IsWorking state.now }
{
    matches!(state, State::Working { .. })
}

impl Actor {
    /// Goes on with the reply to the call of the statement at work, or stops.
    pub(crate) fn take_reply(&mut self, reply: Reply) -> Result<(), NoMemory>
        requires working { IsWorking self.old.state }
        requires asked { IsAsked (progress_of self.old) }
        ensures goes_on { OnOk result (progress_of self.new ≡ with_reply (progress_of self.old) reply) }
        ensures left { OnOk result (calls_left self.new < calls_left self.old) }
    {
        if is_due(self.stop) {
            drop(reply);
            self.stop_here();
            return Ok(());
        }
        work_taken(&mut self.state, reply)?;
        self.stop = one_nearer(self.stop);
        Ok(())
    }
}

impl Actor {
    /// The actor stops within the statement at work. It stays out of line, as what it has on the stack is not to stand in the
    /// frame of `take_reply`.
    #[inline(never)]
    fn stop_here(&mut self)
        ensures state { self.new.state ≡ Working (Known Stopped) false }
        ensures kept { self.new.kept ≡ record self.old.kept { gone = true } }
        ensures number { self.new.number ≡ self.old.number }
        ensures stop { self.new.stop ≡ self.old.stop }
    {
        self.kept.gone = true;
        self.set(State::Working {
            doing: Doing::Known(Outcome::Stopped),
            is_out: false,
        });
    }
}

/// The statement at work takes the reply to its call, where it is.
fn work_taken(state: &mut State, reply: Reply) -> Result<(), NoMemory>
    requires { HasCallOut state.old }
    ensures goes_on { OnOk result (GoesOnWith reply state.old state.new) }
    ensures left { OnOk result (state_left state.new < state_left state.old) }
{
    match state {
        State::Working { doing, is_out } => {
            reply_taken(doing, reply)?;
            *is_out = false;
            Ok(())
        }
        _ => unreachable!(),
    }
}

/// The machine takes the reply to its call, where it is.
fn reply_taken(doing: &mut Doing, reply: Reply) -> Result<(), NoMemory>
    requires { AwaitsReply doing.old }
    ensures goes_on { OnOk result ((number : ℕ) (kept : AKept) (stop : Option AStop) → due_test stop ≡ false
        → busy number (doing_ready kept (nearer stop) doing.new) ≡ with_reply (busy number (doing_asked kept stop doing.old)) reply) }
    ensures left { OnOk result (doing_left doing.new < doing_left doing.old) }
{
    match doing {
        Doing::Writing { flow, .. } => flow.take(reply),
        _ => reply_taken_any(doing, reply),
    }
}

/// The same, whichever machine it is. It stays out of line, as what the others have on the stack is not to stand in the frame of `reply_taken`.
#[inline(never)]
fn reply_taken_any(doing: &mut Doing, reply: Reply) -> Result<(), NoMemory>
    requires { AwaitsReply doing.old }
    ensures goes_on { OnOk result ((number : ℕ) (kept : AKept) (stop : Option AStop) → due_test stop ≡ false
        → busy number (doing_ready kept (nearer stop) doing.new) ≡ with_reply (busy number (doing_asked kept stop doing.old)) reply) }
    ensures left { OnOk result (doing_left doing.new < doing_left doing.old) }
{
    match doing {
        Doing::Known(_) => unreachable!(),
        Doing::Opening(flow) => flow.take(reply),
        Doing::Writing { flow, .. } => flow.take(reply),
        Doing::Syncing(flow) => flow.take(reply),
        Doing::Closing(flow) => flow.take(reply),
        Doing::Listing { flow, .. } => flow.take(reply),
        Doing::Gathering { flow, .. } => gathering_taken(flow, reply),
        Doing::Reading { flow, .. } => flow.take(reply),
        Doing::Verifying { flow, .. } => flow.take(reply),
        Doing::Telling(flow) => flow.take(reply),
        Doing::Truncating(flow) => flow.take(reply),
        Doing::Flattening(flow) => flow.take(reply),
        Doing::Renaming(flow) => flow.take(reply),
        Doing::Recovering(flow) => flow.take(reply),
        Doing::Refreshing(flow) => flow.take(reply),
        Doing::Naming(flow) => flow.take(reply),
    }
}

/// The shares and truncates of a container take the reply to their call.
fn gathering_taken(flow: &mut Gathering, reply: Reply) -> Result<(), NoMemory>
    requires { Awaits (gather_rest flow.old) }
    ensures goes_on { OnOk result (gather_standing flow.new ≡ ready (replied (gather_rest flow.old) reply)) }
    ensures left { OnOk result (gather_left flow.new < gather_left flow.old) }
{
    let asking = mem::replace(flow, Gathering::Ended(Err(Stuck::Fault)));
    let taken = asking.take(reply)?;
    drop(mem::replace(flow, taken));
    Ok(())
}
