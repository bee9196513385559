//! The machine of the statement at work.
ghost use Rattle.std.specs.Prelude.{◌≡◌, ◌≤◌, ◌↔◌, ℕ, Option, IfOk, IfSome, IsTrue, OnOk, option_map};
ghost use Rattle.mount_model.specs.Step.{IsOwed, OwedBy};
ghost use Rattle.mount_model.specs.Standing.{next_of, rest_of};
ghost use Rattle.actor_core.specs.declared.kept.Kept.{Kept as AKept};
ghost use Rattle.actor_core.specs.declared.kept.Stop.{Stop as AStop};
ghost use Rattle.actor_core.specs.Stopping.{stoppable as stoppable_of};
ghost use Rattle.actor_core.specs.Progress.{IsReady, ask_of, given, going, line_of, told};
ghost use Rattle.index_reader.specs.Covered.{AreByWriter as AreCoversByWriter};
ghost use Rattle.index_reader.specs.Hosts.{AreByWriter as AreHostsByWriter};
ghost use Rattle.actor_core.specs.Endings.{ending, opened as opening_ends, wrote};
ghost use Rattle.actor_core.specs.Opened.{reader_refreshed};
ghost use Rattle.actor_core.specs.Work.{finishes};
ghost use Rattle.actor_core.specs.Standings.{progress_of, calls_left, busy, goes, doing_ready, doing_left, state_left};
ghost use Rattle.actor_core.specs.Machines.{IsOneMachine, IsAtEnd, GoesOn, IsOneReady, IsOneOver, WorkGoesOn};

use crate::actor::{Actor, State};
use crate::doing::Doing;
use crate::kept::Stop;
use crate::stopping::stoppable;
use index_reader::OpenReader;
use mount_model::{Ask, Call, Flow, Stuck};
use outcomes::{
    close_outcome, flatten_outcome, list_outcome, read_outcome, reader_outcome, recover_outcome,
    rename_outcome, stuck_outcome, sync_outcome, truncate_outcome, verify_outcome, write_outcome,
};
use plfs_types::NoMemory;
use refresh_index::RefreshOut;
use script_lang::{Line, Outcome};
use writer_flow::{WriterHandle, WriterOut};

/// What a write comes to: its place, its length, and what its machine ended with.
#[derive(Clone, Copy)]
struct Written {
    at: u64,
    len: u64,
    out: WriterOut,
}

/// The machine once it was asked for its next call, and that call, broken off where the stop is within it.
pub(crate) fn next_ask<F: Flow + Drop>(
    flow: F,
    stop: Option<Stop>,
) -> Result<(F, Option<Ask>), NoMemory>
    ensures ask { IfOk result (λ asked. asked.1 ≡ option_map (stoppable_of stop) (next_of (F.standing flow))) }
    ensures owed { IfOk result (λ asked. IfSome asked.1 IsOwed) }
    ensures rest { IfOk result (λ asked. rest_of (F.standing asked.0) ≡ rest_of (F.standing flow)) }
    ensures left { IfOk result (λ asked. F.left asked.0 ≡ F.left flow) }
{
    let mut flow = flow;
    match flow.next()? {
        Some(call) => Ok((flow, Some(stoppable(stop, call)))),
        None => Ok((flow, None)),
    }
}

impl Actor {
    /// The next call of a statement that has not one machine, or its end.
    pub(crate) fn next_call(&mut self, doing: Doing) -> Result<Option<Ask>, NoMemory>
        requires other { IsOneMachine doing → ⊥ }
        requires ready { IsReady (busy self.old.number (doing_ready self.old.kept self.old.stop doing)) }
        ensures ask { IfOk result (λ ask. ask ≡ ask_of (busy self.old.number (doing_ready self.old.kept self.old.stop doing))) }
        ensures owed { IfOk result (λ ask. IfSome ask IsOwed) }
        ensures goes_on { OnOk result (progress_of self.new ≡ given (busy self.old.number (doing_ready self.old.kept self.old.stop doing))) }
        ensures left { OnOk result (calls_left self.new ≤ doing_left doing) }
    {
        match doing {
            Doing::Known(outcome) => {
                self.tell(outcome);
                Ok(None)
            }
            Doing::Listing { flow, purpose } => self.next_listing(flow, purpose),
            Doing::Gathering { flow, purpose } => self.next_gathering(flow, purpose),
            Doing::Telling(flow) => self.next_telling(flow),
            _ => unreachable!(),
        }
    }

    /// The statement is at its end.
    pub(crate) fn tell(&mut self, outcome: Outcome)
        ensures told { progress_of self.new ≡ told (line_of self.old.number (ending outcome self.old.kept)) self.old.kept }
        ensures left { calls_left self.new ≡ 0 }
    {
        let number = self.number;
        self.set(State::Told(Line { number, outcome }));
    }

    /// The next call of the one machine of a statement, or the statement's end. Until that end its machine stays where it is.
    pub(crate) fn next_of(&mut self) -> Result<Option<Ask>, NoMemory>
        requires one { IsOneReady self.old.state }
        requires ready { IsReady (progress_of self.old) }
        ensures ask { IfOk result (λ ask. ask ≡ ask_of (progress_of self.old)) }
        ensures owed { IfOk result (λ ask. IfSome ask IsOwed) }
        ensures goes_on { OnOk result (progress_of self.new ≡ given (progress_of self.old)) }
        ensures left { OnOk result (calls_left self.new ≤ calls_left self.old) }
    {
        match one_asked(&mut self.state)? {
            Some(call) => Ok(Some(stoppable(self.stop, call))),
            None => self.end(),
        }
    }

    /// The statement ends as its one machine did. That of a write stays where it is until then.
    fn end(&mut self) -> Result<Option<Ask>, NoMemory>
        requires { IsOneOver self.old.state }
        ensures ask { IfOk result (λ ask. ask ≡ ask_of (progress_of self.old)) }
        ensures owed { IfOk result (λ ask. IfSome ask IsOwed) }
        ensures goes_on { OnOk result (progress_of self.new ≡ given (progress_of self.old)) }
        ensures left { OnOk result (calls_left self.new ≡ 0) }
    {
        if let Some(written) = self.written() {
            self.kept.writer = written.out.handle;
            self.tell(write_outcome(written.at, written.len, written.out.result));
            return Ok(None);
        }
        self.end_other()
    }

    /// What a write comes to, or None where another statement is at its end.
    fn written(&self) -> Option<Written>
        requires { IsOneOver self.now.state }
        ensures { IfSome result (λ written. progress_of self.now ≡ going self.now.number (finishes (wrote self.now.kept written.at written.len written.out))) }
    {
        match &self.state {
            State::Working { doing, .. } => written_by(doing),
            _ => None,
        }
    }

    /// The same, wherever its machine is taken apart.
    #[inline(never)]
    fn end_other(&mut self) -> Result<Option<Ask>, NoMemory>
        requires { IsOneOver self.old.state }
        ensures ask { IfOk result (λ ask. ask ≡ ask_of (progress_of self.old)) }
        ensures owed { IfOk result (λ ask. IfSome ask IsOwed) }
        ensures goes_on { OnOk result (progress_of self.new ≡ given (progress_of self.old)) }
        ensures left { OnOk result (calls_left self.new ≡ 0) }
    {
        match self.state_taken() {
            State::Working { doing, .. } => {
                let outcome = self.finished(doing)?;
                self.tell(outcome);
                Ok(None)
            }
            _ => unreachable!(),
        }
    }
}

/// What a write at its end comes to, or None where this is another statement.
fn written_by(doing: &Doing) -> Option<Written>
    requires { IsAtEnd doing.now }
    ensures { IfSome result (λ written. (number : ℕ) (kept : AKept) (stop : Option AStop)
        → busy number (doing_ready kept stop doing.now) ≡ going number (finishes (wrote kept written.at written.len written.out))) }
{
    match doing {
        Doing::Writing { flow, at, len } => Some(Written {
            at: *at,
            len: *len,
            out: flow.ended(),
        }),
        _ => None,
    }
}

/// Whether a statement with one machine is to make its next call.
pub(crate) fn is_one_ready(state: &State) -> bool
    ensures { IsTrue result ↔ IsOneReady state.now }
{
    match state {
        State::Working { doing, is_out } => !*is_out && is_one_machine(doing),
        _ => false,
    }
}

fn is_one_machine(doing: &Doing) -> bool
    ensures { IsTrue result ↔ IsOneMachine doing.now }
{
    !matches!(
        doing,
        Doing::Known(_) | Doing::Listing { .. } | Doing::Gathering { .. } | Doing::Telling(_)
    )
}

/// Asks the one machine of a statement for its next call, which is out then.
fn one_asked(state: &mut State) -> Result<Option<Call>, NoMemory>
    requires { IsOneReady state.old }
    ensures goes_on { IfOk result (λ call. WorkGoesOn state.old call state.new) }
    ensures owed { IfOk result (λ call. IfSome call OwedBy) }
    ensures left { OnOk result (state_left state.new ≡ state_left state.old) }
{
    match state {
        State::Working { doing, is_out } => {
            let call = asked(doing)?;
            *is_out = call.is_some();
            Ok(call)
        }
        _ => unreachable!(),
    }
}

/// Asks the one machine of a statement for its next call.
fn asked(doing: &mut Doing) -> Result<Option<Call>, NoMemory>
    requires { IsOneMachine doing.old }
    ensures goes_on { IfOk result (λ call. GoesOn doing.old call doing.new) }
    ensures owed { IfOk result (λ call. IfSome call OwedBy) }
    ensures left { OnOk result (doing_left doing.new ≡ doing_left doing.old) }
{
    match doing {
        Doing::Opening(flow) => flow.next(),
        Doing::Writing { flow, .. } => flow.next(),
        Doing::Syncing(flow) => flow.next(),
        Doing::Closing(flow) => flow.next(),
        Doing::Reading { flow, .. } => flow.next(),
        Doing::Verifying { flow, .. } => flow.next(),
        Doing::Truncating(flow) => flow.next(),
        Doing::Flattening(flow) => flow.next(),
        Doing::Renaming(flow) => flow.next(),
        Doing::Recovering(flow) => flow.next(),
        Doing::Refreshing(flow) => flow.next(),
        Doing::Naming(flow) => flow.next(),
        Doing::Known(_) | Doing::Listing { .. } | Doing::Gathering { .. } | Doing::Telling(_) => {
            unreachable!()
        }
    }
}

impl Actor {
    /// What the end of the one machine of a statement comes to. The actor keeps its writer as the machine left it.
    fn finished(&mut self, doing: Doing) -> Result<Outcome, NoMemory>
        requires { IsAtEnd doing }
        ensures comes_to { IfOk result (λ outcome. doing_ready self.old.kept self.old.stop doing ≡ goes (finishes (ending outcome self.new.kept))) }
        ensures number { OnOk result (self.new.number ≡ self.old.number) }
    {
        match doing {
            Doing::Opening(flow) => {
                let made = flow.out();
                Ok(self.opened(made))
            }
            Doing::Writing { flow, at, len } => {
                let out = flow.out();
                self.kept.writer = out.handle;
                Ok(write_outcome(at, len, out.result))
            }
            Doing::Syncing(flow) => {
                let out = flow.out();
                self.kept.writer = out.handle;
                Ok(sync_outcome(out.result))
            }
            Doing::Closing(flow) => {
                let out = flow.out();
                self.kept.writer = out.handle;
                Ok(close_outcome(out.result))
            }
            Doing::Reading { flow, at } => Ok(read_outcome(at, flow.out())),
            Doing::Verifying { flow, at, content } => {
                let outcome = verify_outcome(at, &content, flow.out());
                drop(content);
                Ok(outcome)
            }
            Doing::Truncating(flow) => Ok(truncate_outcome(flow.out())),
            Doing::Flattening(flow) => flatten_outcome(self.alloc, Box::into_inner(flow).out()),
            Doing::Renaming(flow) => Ok(rename_outcome(flow.out())),
            Doing::Recovering(flow) => Ok(recover_outcome(flow.out())),
            Doing::Refreshing(flow) => self.refreshed(Box::into_inner(flow).out()),
            Doing::Naming(flow) => Ok(list_outcome(flow.out())),
            Doing::Known(_) | Doing::Listing { .. } | Doing::Gathering { .. } | Doing::Telling(_) =>
                unreachable!(),
        }
    }

    /// What the refresh of a reader comes to. The actor keeps the reader of the parts that it ended with.
    fn refreshed(&mut self, out: RefreshOut) -> Result<Outcome, NoMemory>
        requires hosts { AreHostsByWriter out.parts.hosts }
        requires covers { AreCoversByWriter out.parts.covers }
        ensures comes_to { IfOk result (λ outcome. ending outcome self.new.kept ≡ reader_refreshed self.old.kept out) }
        ensures number { OnOk result (self.new.number ≡ self.old.number) }
    {
        let RefreshOut { parts, result } = out;
        let reader = OpenReader::of_parts(parts);
        let outcome = match result {
            Ok(()) => reader_outcome(self.alloc, &reader),
            Err(because) => Ok(stuck_outcome(because)),
        };
        drop(self.kept.reader.replace(reader));
        outcome
    }

    /// What the opening of a writer comes to. The actor keeps the writer.
    fn opened(&mut self, made: Result<WriterHandle, Stuck>) -> Outcome
        ensures comes_to { ending result self.new.kept ≡ opening_ends self.old.kept made }
        ensures number { self.new.number ≡ self.old.number }
    {
        match made {
            Ok(handle) => {
                self.kept.writer = Some(handle);
                Outcome::Opened {
                    writer: handle.writer,
                }
            }
            Err(because) => {
                self.kept.writer = None;
                stuck_outcome(because)
            }
        }
    }
}
