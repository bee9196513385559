//! Whether a writer may leave, and what comes of its leaving.
ghost use Rattle.std.specs.Prelude.{◌≡◌, ◌<◌, length};
ghost use Rattle.mount_model.specs.Paths.{metadata, open_path as open_path_of};
ghost use Rattle.mount_model.specs.Leaving.{put_meta_check as put_meta_refusal, put_meta_outcome, meta_file, exit_check as exit_refusal, exit_outcome};
ghost use Rattle.mount_table.specs.Settling.{IsSettled};
ghost use Rattle.mount_table.specs.Standing.{AtPlace};

use crate::roster::Roster;
use crate::telling::otherwise;
use mount_model::{Refusal, Reply, Row, Stage};
use plfs_types::Path;
use store_api::{Answer, Trouble};

/// Why the writer's metadata dropping is not made.
pub fn put_meta_check(row: &Row) -> Option<Refusal>
    ensures { result ≡ put_meta_refusal row.now }
{
    if row.pending.pending() > 0 || row.log_mark != row.stored || row.index_mark != row.landed {
        Some(Refusal::NotFlushed)
    } else {
        None
    }
}

/// Why the writer may not leave.
pub fn exit_check(row: &Row) -> Option<Refusal>
    ensures { result ≡ exit_refusal row.now }
{
    if row.stored > 0 && !row.has_meta {
        Some(Refusal::NoMeta)
    } else {
        None
    }
}

impl Roster {
    /// Settles the making of the metadata dropping at this path: from then on it may only close, whatever the act
    /// told but want of memory.
    pub fn closed(&mut self, place: usize, at: &Path, told: Result<Answer, Trouble>) -> Reply
        requires within { place < length self.old.table.writers }
        requires of_writer { AtPlace self.old.table place (λ row. at.now ≡ record { folder = metadata; file = meta_file row }) }
        ensures { AtPlace self.old.table place (λ row. IsSettled (put_meta_outcome row self.old.table told) self.old result self.new) }
    {
        match told {
            Ok(Answer::Made | Answer::Old { .. }) => {
                self.set_closed(place);
                Reply::Done
            }
            Ok(answer) => {
                self.set_stage(place, Stage::Closing);
                otherwise(at, Ok(answer))
            }
            Err(Trouble::Fault) => {
                self.set_stage(place, Stage::Closing);
                Reply::Fault
            }
            Err(Trouble::NoMemory) => Reply::NoMemory,
        }
    }

    /// Settles the removal of the writer's entry at this path.
    pub fn left(&mut self, place: usize, at: &Path, told: Result<Answer, Trouble>) -> Reply
        requires within { place < length self.old.table.writers }
        requires of_writer { AtPlace self.old.table place (λ row. at.now ≡ open_path_of row.host row.id) }
        ensures { AtPlace self.old.table place (λ row. IsSettled (exit_outcome row self.old.table told) self.old result self.new) }
    {
        match told {
            Ok(Answer::Made) => {
                self.take_out(place);
                Reply::Done
            }
            Ok(answer) => otherwise(at, Ok(answer)),
            Err(Trouble::Fault) => {
                self.set_stage(place, Stage::Dead);
                Reply::Fault
            }
            Err(Trouble::NoMemory) => Reply::NoMemory,
        }
    }
}
