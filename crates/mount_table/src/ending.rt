//! The table of a caller at its end.
ghost use Rattle.std.specs.Prelude.{◌≡◌, map};
ghost use Rattle.mount_model.specs.Stopping.{row_ended, without_caller};
ghost use Rattle.mount_table.specs.Roll.{with_table};

use crate::roster::Roster;
use crate::writer::Writer;

/// Makes the caller's writers dead.
fn end_rows(rows: &mut Vec<Writer>, caller: u64)
    ensures { rows.new.items ≡ map (row_ended caller) rows.old.items }
{
    for row in rows.iter_mut() {
        row.end(caller);
    }
}

impl Roster {
    /// Puts the caller at its end: its writers are dead, and its holders and flattenings gone.
    pub fn end(&mut self, caller: u64)
        ensures { self.new ≡ with_table (without_caller caller self.old.table) self.old }
    {
        end_rows(&mut self.writers, caller);
        self.holders.retain(|holder| holder.owner != caller);
        self.flattenings
            .retain(|flattening| flattening.owner != caller);
    }
}
