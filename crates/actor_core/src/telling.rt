//! The machine that tells of a file.
ghost use Rattle.std.specs.Prelude.{◌≡◌, ◌≤◌, IfOk, IfSome, OnOk};
ghost use Rattle.mount_model.specs.Step.{IsOwed};
ghost use Rattle.actor_core.specs.Progress.{IsReady, ask_of, given};
ghost use Rattle.actor_core.specs.Standings.{progress_of, calls_left, busy, doing_ready, doing_left};

use crate::actor::{Actor, State};
use crate::doing::Doing;
use crate::machines::next_ask;
use crate::purpose::Purpose;
use attr_flow::{AttrFlow, AttrOut};
use index_reader::OpenRead;
use mount_model::{Ask, Flow};
use outcomes::{stat_outcome, stuck_outcome};
use plfs_types::NoMemory;

impl Actor {
    pub(crate) fn next_telling(&mut self, flow: AttrFlow) -> Result<Option<Ask>, NoMemory>
        requires ready { IsReady (busy self.old.number (doing_ready self.old.kept self.old.stop (Doing.Telling flow))) }
        ensures ask { IfOk result (λ ask. ask ≡ ask_of (busy self.old.number (doing_ready self.old.kept self.old.stop (Doing.Telling flow)))) }
        ensures owed { IfOk result (λ ask. IfSome ask IsOwed) }
        ensures goes_on { OnOk result (progress_of self.new ≡ given (busy self.old.number (doing_ready self.old.kept self.old.stop (Doing.Telling flow)))) }
        ensures left { OnOk result (calls_left self.new ≤ doing_left (Doing.Telling flow)) }
    {
        let (next, asked) = next_ask(flow, self.stop)?;
        if let Some(ask) = asked {
            self.set(State::Working {
                doing: Doing::Telling(next),
                is_out: true,
            });
            return Ok(Some(ask));
        }
        match next.out() {
            Ok(AttrOut::Cached(attr)) => {
                self.tell(stat_outcome(attr));
                Ok(None)
            }
            Ok(AttrOut::MustMerge { room }) => {
                self.next_listing(OpenRead::at(self.alloc, room), Purpose::Tells)
            }
            Err(because) => {
                self.tell(stuck_outcome(because));
                Ok(None)
            }
        }
    }
}
