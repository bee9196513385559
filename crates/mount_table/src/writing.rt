//! Whether a writer may write, its next stamp, and what comes of a write to its log.
ghost use Rattle.std.specs.Prelude.{◌≡◌, ◌<◌, length};
ghost use Rattle.mount_model.specs.Writing.{write_check as write_refusal, stamp_at as stamp_of, write_outcome};
ghost use Rattle.mount_table.specs.Settling.{IsSettled};
ghost use Rattle.mount_table.specs.Writable.{MayTake, IsStampFor};
ghost use Rattle.mount_table.specs.Standing.{AtPlace};

use crate::roster::Roster;
use crate::telling::otherwise;
use mount_model::{Refusal, Reply, Row};
use plfs_types::{MAX_LOG, MAX_SIZE, MAX_STAMP, MAX_TIME};
use store_api::{Answer, Trouble};

/// Why the writer may not write so many bytes from this place on.
pub fn write_check(row: &Row, at: u64, len: u64) -> Option<Refusal>
    ensures { result ≡ write_refusal row.now at len }
{
    if at > MAX_SIZE || len > MAX_SIZE - at || row.stored > MAX_LOG || len > MAX_LOG - row.stored {
        return Some(Refusal::TooFar);
    }
    if row.last >= MAX_STAMP || row.floor >= MAX_STAMP {
        return Some(Refusal::StampsSpent);
    }
    if row.pending.pending() >= u64::from(row.pending.capacity()) {
        return Some(Refusal::Full);
    }
    None
}

/// The clock's time cut to 2^62, but above the writer's last stamp and its floor.
#[tactic(auto, unfolding(mount_model::specs::Writing::stamp_at))]
pub fn stamp_at(time: u64, row: &Row) -> u64
    requires last { row.now.last < MAX_STAMP }
    requires floor { row.now.floor < MAX_STAMP }
    ensures same { result ≡ stamp_of time row.now }
    ensures stamp { IsStampFor row.now result }
{
    time.min(MAX_TIME).max((row.last + 1).max(row.floor + 1))
}

impl Roster {
    /// Settles the write of so many bytes to the writer's log.
    pub fn logged(
        &mut self,
        place: usize,
        stamp: u64,
        at: u64,
        len: u64,
        told: Result<Answer, Trouble>,
    ) -> Reply
        requires within { place < length self.old.table.writers }
        requires fine { AtPlace self.old.table place (λ row. MayTake row at len) }
        requires stamped { AtPlace self.old.table place (λ row. IsStampFor row stamp) }
        ensures { AtPlace self.old.table place (λ row. IsSettled (write_outcome stamp row at len self.old.table told) self.old result self.new) }
    {
        match told {
            Ok(Answer::Made) => {
                self.keep_entry(place, stamp, at, len);
                Reply::Wrote { stamp }
            }
            _ => otherwise(self.log(place), told),
        }
    }
}
