//! A call on a writer is broken off within its act.
ghost use Rattle.std.specs.Prelude.{◌≡◌, ◌<◌, length, option_and_then};
ghost use Rattle.mount_model.specs.declared.call.Call.TheVariants.{Write, Flush};
ghost use Rattle.mount_model.specs.Acting.{unless, flush_act};
ghost use Rattle.mount_model.specs.Writing.{write_check as write_refusal, write_step};
ghost use Rattle.mount_model.specs.Stopping.{part_of, part_made};
ghost use Rattle.mount_table.specs.Standing.{AtPlace};
ghost use Rattle.mount_core.specs.Breaking.{BreaksOff, all_or_none};
ghost use Rattle.mount_core.specs.WholeCalls.{call_of, row_act, stages_of};

use crate::mount::Mount;
use crate::parting::{WholeCall, first, row_step};
use edge_io::Clock;
use mount_model::Stage;
use mount_table::{Stages, index_path, log_path, write_check};
use plfs_types::ENTRY_SIZE;
use store_api::{Answer, Step, Store, Trouble};

impl<S: Store + Drop, C: Clock + Drop> Mount<S, C> {
    /// Makes the act of a call on the caller's writer whose stage is one of these, or nothing at 0.
    #[tactic(auto, using(crate::proofs::WholeCalls::part_is))]
    pub(crate) fn break_writer(
        &mut self,
        caller: u64,
        k: u64,
        stages: Stages,
        writer: u64,
        call: WholeCall,
    ) -> Result<Answer, Trouble>
        requires { stages ≡ stages_of call }
        ensures { BreaksOff (part_made k 0 self.old caller (call_of call writer)) self.old result self.new }
    {
        match self.roster.find(caller, stages, writer) {
            Some(place) => self.break_row(place, k, call),
            None => Ok(Answer::Made),
        }
    }

    fn break_row(&mut self, place: usize, k: u64, call: WholeCall) -> Result<Answer, Trouble>
        requires { place < length self.old.table.writers }
        ensures { AtPlace self.old.table place (λ row. BreaksOff (option_and_then (all_or_none k) (row_act call row)) self.old result self.new) }
    {
        match row_step(self.roster.row(place), call) {
            Some(step) => self.make_if(k, &step),
            None => Ok(Answer::Made),
        }
    }

    pub(crate) fn break_flush(
        &mut self,
        caller: u64,
        k: u64,
        writer: u64,
    ) -> Result<Answer, Trouble>
        ensures { BreaksOff (part_made k 0 self.old caller (Flush writer)) self.old result self.new }
    {
        match self.roster.find(caller, Stages::Only(Stage::Open), writer) {
            Some(place) => self.break_flush_at(place, k),
            None => Ok(Answer::Made),
        }
    }

    fn break_flush_at(&mut self, place: usize, k: u64) -> Result<Answer, Trouble>
        requires { place < length self.old.table.writers }
        ensures { AtPlace self.old.table place (λ row. BreaksOff (option_and_then (part_of k) (flush_act row row.pending.entries)) self.old result self.new) }
    {
        let row = self.roster.row(place);
        if row.pending.pending() == 0 {
            return Ok(Answer::Made);
        }
        let at = index_path(row.host, row.id);
        let bytes = first(row.pending.bytes(), k);
        self.store.act(&Step::WriteAt {
            room: row.room,
            folder: at.folder,
            file: at.file,
            at: ENTRY_SIZE as u64 * row.landed,
            bytes,
        })
    }

    pub(crate) fn break_write(
        &mut self,
        caller: u64,
        k: u64,
        writer: u64,
        at: u64,
        bytes: &[u8],
    ) -> Result<Answer, Trouble>
        ensures { BreaksOff (part_made k 0 self.old caller (Write writer at bytes.now)) self.old result self.new }
    {
        match self.roster.find(caller, Stages::Only(Stage::Open), writer) {
            Some(place) => self.break_write_at(place, k, at, bytes),
            None => Ok(Answer::Made),
        }
    }

    fn break_write_at(
        &mut self,
        place: usize,
        k: u64,
        at: u64,
        bytes: &[u8],
    ) -> Result<Answer, Trouble>
        requires { place < length self.old.table.writers }
        ensures { AtPlace self.old.table place (λ row. BreaksOff (option_and_then (part_of k) (unless (write_refusal row at (length bytes.now)) (write_step row bytes.now))) self.old result self.new) }
    {
        let row = self.roster.row(place);
        match write_check(row, at, bytes.len() as u64) {
            Some(_) => Ok(Answer::Made),
            None => {
                let log = log_path(row.host, row.id);
                self.store.act(&Step::WriteAt {
                    room: row.room,
                    folder: log.folder,
                    file: log.file,
                    at: row.stored,
                    bytes: first(bytes, k),
                })
            }
        }
    }
}
