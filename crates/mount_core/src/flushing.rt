//! A writer's pending entries go to its index dropping, and its droppings are synced.
ghost use Rattle.std.specs.Prelude.{◌<◌, length};
ghost use Rattle.mount_model.specs.Making.{MakesAct};
ghost use Rattle.mount_model.specs.Flushing.{Flushes, flush_step, flush_outcome, SyncsLog, SyncsIndex};
ghost use Rattle.mount_table.specs.Standing.{AtPlace};

use crate::mount::Mount;
use edge_io::Clock;
use mount_model::{Refusal, Reply, Stage};
use mount_table::{Stages, index_path, log_path};
use plfs_types::ENTRY_SIZE;
use store_api::{Step, Store};

impl<S: Store + Drop, C: Clock + Drop> Mount<S, C> {
    /// Writes the pending entries of the caller's open writer to its index dropping.
    pub(crate) fn flush(&mut self, caller: u64, writer: u64) -> Reply
        ensures { Flushes caller writer self.old result self.new }
    {
        match self.roster.find(caller, Stages::Only(Stage::Open), writer) {
            Some(place) => {
                let row = self.roster.row(place);
                if row.pending.pending() == 0 {
                    return Reply::Flushed { landed: row.landed };
                }
                self.flush_pending(place)
            }
            None => Reply::Refused(Refusal::NotOpen),
        }
    }

    fn flush_pending(&mut self, place: usize) -> Reply
        requires { place < length self.old.table.writers }
        ensures { AtPlace self.old.table place (λ row. MakesAct (flush_step row) (flush_outcome row self.old.table) self.old result self.new) }
    {
        let row = self.roster.row(place);
        let at = index_path(row.host, row.id);
        let told = self.store.act(&Step::WriteAt {
            room: row.room,
            folder: at.folder,
            file: at.file,
            at: ENTRY_SIZE as u64 * row.landed,
            bytes: row.pending.bytes(),
        });
        self.roster.flushed(place, &at, told)
    }

    /// Syncs the log of the caller's open writer.
    pub(crate) fn sync_log(&mut self, caller: u64, writer: u64) -> Reply
        ensures { SyncsLog caller writer self.old result self.new }
    {
        match self.roster.find(caller, Stages::Only(Stage::Open), writer) {
            Some(place) => {
                let row = self.roster.row(place);
                let at = log_path(row.host, row.id);
                let told = self.store.act(&Step::Sync {
                    room: row.room,
                    folder: at.folder,
                    file: at.file,
                });
                self.roster.synced_log(place, &at, told)
            }
            None => Reply::Refused(Refusal::NotOpen),
        }
    }

    /// Syncs the index dropping of the caller's open writer.
    pub(crate) fn sync_index(&mut self, caller: u64, writer: u64) -> Reply
        ensures { SyncsIndex caller writer self.old result self.new }
    {
        match self.roster.find(caller, Stages::Only(Stage::Open), writer) {
            Some(place) => {
                let row = self.roster.row(place);
                let at = index_path(row.host, row.id);
                let told = self.store.act(&Step::Sync {
                    room: row.room,
                    folder: at.folder,
                    file: at.file,
                });
                self.roster.synced_index(place, &at, told)
            }
            None => Reply::Refused(Refusal::NotOpen),
        }
    }
}
