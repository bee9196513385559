//! What comes of a flush, and of the syncs of a writer's droppings.
ghost use Rattle.std.specs.Prelude.{◌≡◌, ◌<◌, length};
ghost use Rattle.mount_model.specs.Paths.{index_path as index_path_of, log_path as log_path_of};
ghost use Rattle.mount_model.specs.Flushing.{flush_outcome, sync_log_outcome, sync_index_outcome};
ghost use Rattle.mount_table.specs.Settling.{IsSettled};
ghost use Rattle.mount_table.specs.Standing.{AtPlace};

use crate::roster::Roster;
use crate::telling::otherwise;
use mount_model::Reply;
use plfs_types::Path;
use store_api::{Answer, Trouble};

impl Roster {
    /// Settles the write of the pending entries to the index dropping at this path.
    pub fn flushed(&mut self, place: usize, at: &Path, told: Result<Answer, Trouble>) -> Reply
        requires within { place < length self.old.table.writers }
        requires of_writer { AtPlace self.old.table place (λ row. at.now ≡ index_path_of row.host row.id) }
        ensures { AtPlace self.old.table place (λ row. IsSettled (flush_outcome row self.old.table told) self.old result self.new) }
    {
        match told {
            Ok(Answer::Made) => {
                let landed = self.land(place);
                Reply::Flushed { landed }
            }
            Ok(answer) => otherwise(at, Ok(answer)),
            Err(trouble) => otherwise(at, Err(trouble)),
        }
    }

    /// Settles the sync of the log at this path.
    pub fn synced_log(&mut self, place: usize, at: &Path, told: Result<Answer, Trouble>) -> Reply
        requires within { place < length self.old.table.writers }
        requires of_writer { AtPlace self.old.table place (λ row. at.now ≡ log_path_of row.host row.id) }
        ensures { AtPlace self.old.table place (λ row. IsSettled (sync_log_outcome row self.old.table told) self.old result self.new) }
    {
        match told {
            Ok(Answer::Made) => {
                self.set_log_synced(place);
                Reply::Done
            }
            other => otherwise(at, other),
        }
    }

    /// Settles the sync of the index dropping at this path.
    pub fn synced_index(&mut self, place: usize, at: &Path, told: Result<Answer, Trouble>) -> Reply
        requires within { place < length self.old.table.writers }
        requires of_writer { AtPlace self.old.table place (λ row. at.now ≡ index_path_of row.host row.id) }
        ensures { AtPlace self.old.table place (λ row. IsSettled (sync_index_outcome row self.old.table told) self.old result self.new) }
    {
        match told {
            Ok(Answer::Made) => {
                let landed = self.set_index_synced(place);
                Reply::Synced { landed }
            }
            other => otherwise(at, other),
        }
    }
}
