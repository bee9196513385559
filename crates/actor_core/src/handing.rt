//! The shares of a reader that workers read.
ghost use Rattle.std.specs.Prelude.{◌≡◌, ◌≤◌, ◌+◌, List, None, Result as AResult, IfOk, OnOk};
ghost use Rattle.mount_model.specs.declared.stuck.Stuck.{Stuck as AStuck};
ghost use Rattle.index_reader.specs.declared.sharing.Share.{Share as AShare};
ghost use Rattle.actor_core.specs.Progress.{IsReady, going};
ghost use Rattle.actor_core.specs.Handing.{IsHandedOut, IsHanded, with_results};
ghost use Rattle.gather_flow.specs.Workers.{IsOutcomeOf};
ghost use Rattle.actor_core.specs.Standings.{progress_of, calls_left, busy, doing_ready, doing_left, with_shares};
ghost use Rattle.gather_flow.specs.Gathering.{shares_bound};

use crate::actor::{Actor, State};
use crate::doing::Doing;
use crate::purpose::Purpose;
use gather_flow::{Gathering, Listed, WorkList, works};
use index_reader::{OpenRead, Share};
use mount_model::{Flow, Stuck};
use outcomes::stuck_outcome;
use plfs_types::NoMemory;

impl Actor {
    /// Hands the shares of the reader that it opens out to workers: a machine for each worker, in their order. Some comes exactly
    /// where the container was listed without a trouble, no stop is armed within the statement, and none of the shares was begun
    /// or handed out; else nothing changes. Who never asks for them leaves them to `next`.
    pub fn shares(&mut self) -> Result<Option<WorkList>, NoMemory>
        requires { IsReady (progress_of self.old) }
        ensures handed { IfOk result (λ works. IsHandedOut (progress_of self.old) works (progress_of self.new)) }
        ensures left { OnOk result (calls_left self.new ≤ calls_left self.old) }
    {
        match self.state_taken() {
            State::Working { doing, is_out } => {
                if is_out {
                    self.set(State::Working { doing, is_out });
                    return Ok(None);
                }
                self.hand_out(doing)
            }
            other => {
                self.set(other);
                Ok(None)
            }
        }
    }

    /// Goes on where the shares were handed out: with one share that was joined of what the workers read, or with the trouble of the
    /// lowest worker that has one. The statement is then as if the actor had taken the workers' replies itself.
    pub fn give(&mut self, outcome: Result<Share, Stuck>) -> Result<(), NoMemory>
        requires { IsHanded (progress_of self.old) }
        ensures goes_on { OnOk result ((results : List (AResult AShare AStuck)) → IsOutcomeOf results outcome → progress_of self.new ≡ with_results (progress_of self.old) results) }
        ensures left { OnOk result (calls_left self.new ≤ calls_left self.old) }
    {
        match self.state_taken() {
            State::HandedOut(listed) => self.go_on_with(listed, outcome),
            _ => unreachable!(),
        }
    }
}

impl Actor {
    fn hand_out(&mut self, doing: Doing) -> Result<Option<WorkList>, NoMemory>
        ensures handed { IfOk result (λ works. IsHandedOut (busy self.old.number (doing_ready self.old.kept self.old.stop doing)) works (progress_of self.new)) }
        ensures left { OnOk result (calls_left self.new ≤ doing_left doing) }
    {
        match doing {
            Doing::Listing { flow, purpose } => self.hand_out_for(flow, purpose),
            other => {
                self.set(State::Working {
                    doing: other,
                    is_out: false,
                });
                Ok(None)
            }
        }
    }

    fn hand_out_for(
        &mut self,
        flow: OpenRead,
        purpose: Purpose,
    ) -> Result<Option<WorkList>, NoMemory>
        ensures handed { IfOk result (λ works. IsHandedOut (busy self.old.number (doing_ready self.old.kept self.old.stop (Doing.Listing flow purpose))) works (progress_of self.new)) }
        ensures left { OnOk result (calls_left self.new ≤ doing_left (Doing.Listing flow purpose)) }
    {
        match purpose {
            Purpose::Opens { workers } => match self.stop {
                None => self.hand_out_shares(flow, workers),
                Some(_) => {
                    self.set(State::Working {
                        doing: Doing::Listing { flow, purpose },
                        is_out: false,
                    });
                    Ok(None)
                }
            },
            Purpose::Tells => {
                self.set(State::Working {
                    doing: Doing::Listing { flow, purpose },
                    is_out: false,
                });
                Ok(None)
            }
        }
    }

    fn hand_out_shares(
        &mut self,
        flow: OpenRead,
        workers: u32,
    ) -> Result<Option<WorkList>, NoMemory>
        requires stop { self.old.stop ≡ None }
        ensures handed { IfOk result (λ works. IsHandedOut (busy self.old.number (doing_ready self.old.kept self.old.stop (Doing.Listing flow (Purpose.Opens workers)))) works (progress_of self.new)) }
        ensures left { OnOk result (calls_left self.new ≤ doing_left (Doing.Listing flow (Purpose.Opens workers))) }
    {
        let mut flow = flow;
        let call = match flow.next() {
            Ok(call) => call,
            Err(why) => {
                drop(flow);
                return Err(why);
            }
        };
        if let Some(call) = call {
            drop(call);
            let purpose = Purpose::Opens { workers };
            self.set(State::Working {
                doing: Doing::Listing { flow, purpose },
                is_out: false,
            });
            return Ok(None);
        }
        match flow.out() {
            Ok(listing) => {
                let listed = Listed::of(listing);
                match works(self.alloc, &listed, workers) {
                    Ok(list) => {
                        self.set(State::HandedOut(listed));
                        Ok(Some(list))
                    }
                    Err(why) => {
                        drop(listed);
                        Err(why)
                    }
                }
            }
            Err(because) => {
                let outcome = stuck_outcome(because);
                self.set(State::Working {
                    doing: Doing::Known(outcome),
                    is_out: false,
                });
                Ok(None)
            }
        }
    }

    fn go_on_with(&mut self, listed: Listed, outcome: Result<Share, Stuck>) -> Result<(), NoMemory>
        ensures goes_on { OnOk result ((results : List (AResult AShare AStuck)) → IsOutcomeOf results outcome
            → progress_of self.new ≡ going self.old.number (with_shares self.old.kept self.old.stop listed results)) }
        ensures left { OnOk result (calls_left self.new ≤ shares_bound 0 + 1) }
    {
        match outcome {
            Ok(share) => {
                let gathering = Gathering::behind(self.alloc, listed, share)?;
                let flow = Box::new(self.alloc, gathering)?;
                let purpose = Purpose::Opens { workers: 1 };
                self.set(State::Working {
                    doing: Doing::Gathering { flow, purpose },
                    is_out: false,
                });
            }
            Err(because) => {
                let outcome = stuck_outcome(because);
                self.set(State::Working {
                    doing: Doing::Known(outcome),
                    is_out: false,
                });
            }
        }
        Ok(())
    }
}
