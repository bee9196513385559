//! The machines of a container that is gathered.
ghost use Rattle.std.specs.Prelude.{◌≡◌, ◌≤◌, IfOk, IfSome, OnOk, Ok};
ghost use Rattle.mount_model.specs.Step.{IsOwed};
ghost use Rattle.actor_core.specs.Progress.{IsReady, going, ask_of, given};
ghost use Rattle.actor_core.specs.Purposes.{ended_for};
ghost use Rattle.actor_core.specs.Work.{finishes};
ghost use Rattle.actor_core.specs.Standings.{progress_of, calls_left, busy, doing_ready, doing_left};

use crate::actor::{Actor, State};
use crate::doing::Doing;
use crate::machines::next_ask;
use crate::purpose::Purpose;
use crate::stopping::stoppable;
use gather_flow::{AllRead, Called, Gathering, Listed};
use index_reader::OpenRead;
use mount_model::{Ask, Flow};
use outcomes::{reader_outcome, stat_outcome, stuck_outcome};
use plfs_types::NoMemory;
use std::mem;

impl Actor {
    pub(crate) fn next_listing(
        &mut self,
        flow: OpenRead,
        purpose: Purpose,
    ) -> Result<Option<Ask>, NoMemory>
        requires ready { IsReady (busy self.old.number (doing_ready self.old.kept self.old.stop (Doing.Listing flow purpose))) }
        ensures ask { IfOk result (λ ask. ask ≡ ask_of (busy self.old.number (doing_ready self.old.kept self.old.stop (Doing.Listing flow purpose)))) }
        ensures owed { IfOk result (λ ask. IfSome ask IsOwed) }
        ensures goes_on { OnOk result (progress_of self.new ≡ given (busy self.old.number (doing_ready self.old.kept self.old.stop (Doing.Listing flow purpose)))) }
        ensures left { OnOk result (calls_left self.new ≤ doing_left (Doing.Listing flow purpose)) }
    {
        let (next, asked) = next_ask(flow, self.stop)?;
        if let Some(ask) = asked {
            self.set(State::Working {
                doing: Doing::Listing {
                    flow: next,
                    purpose,
                },
                is_out: true,
            });
            return Ok(Some(ask));
        }
        match next.out() {
            Ok(listing) => {
                let gathering = Gathering::new(self.alloc, Listed::of(listing), purpose.workers())?;
                let flow = Box::new(self.alloc, gathering)?;
                self.next_gathering(flow, purpose)
            }
            Err(because) => {
                self.tell(stuck_outcome(because));
                Ok(None)
            }
        }
    }

    pub(crate) fn next_gathering(
        &mut self,
        flow: Box<Gathering>,
        purpose: Purpose,
    ) -> Result<Option<Ask>, NoMemory>
        ensures ask { IfOk result (λ ask. ask ≡ ask_of (busy self.old.number (doing_ready self.old.kept self.old.stop (Doing.Gathering flow purpose)))) }
        ensures owed { IfOk result (λ ask. IfSome ask IsOwed) }
        ensures goes_on { OnOk result (progress_of self.new ≡ given (busy self.old.number (doing_ready self.old.kept self.old.stop (Doing.Gathering flow purpose)))) }
        ensures left { OnOk result (calls_left self.new ≤ doing_left (Doing.Gathering flow purpose)) }
    {
        match Box::into_inner(flow).next(self.alloc)? {
            Called::Asks(call, asking) => {
                let flow = Box::new(self.alloc, asking)?;
                self.set(State::Working {
                    doing: Doing::Gathering { flow, purpose },
                    is_out: true,
                });
                Ok(Some(stoppable(self.stop, call)))
            }
            Called::Over(Ok(all)) => {
                self.conclude(all, purpose)?;
                Ok(None)
            }
            Called::Over(Err(because)) => {
                self.tell(stuck_outcome(because));
                Ok(None)
            }
        }
    }

    /// All is read, and the statement is at its end.
    fn conclude(&mut self, all: AllRead, purpose: Purpose) -> Result<(), NoMemory>
        ensures told { OnOk result (progress_of self.new ≡ given (going self.old.number (finishes (ended_for purpose self.old.kept (Ok all))))) }
        ensures left { OnOk result (calls_left self.new ≡ 0) }
    {
        match purpose {
            Purpose::Opens { .. } => {
                let reader = all.opened(self.alloc)?;
                let outcome = reader_outcome(self.alloc, &reader);
                drop(mem::replace(&mut self.kept.reader, Some(reader)));
                self.tell(outcome?);
            }
            Purpose::Tells => {
                let attr = all.told(self.alloc)?;
                self.tell(stat_outcome(attr));
            }
        }
        Ok(())
    }
}
