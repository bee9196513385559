//! A writer of the table with what is kept beside its row.
ghost use Rattle.std.specs.Prelude.{◌≡◌};
ghost use Rattle.mount_model.specs.Paths.{log_path as log_path_of};
ghost use Rattle.mount_model.specs.Stopping.{row_ended};

use mount_model::{Row, Stage};
use plfs_types::Path;
use std::marker::Model;

/// A writer's row, and the path of its log, which is printed as the writer enters. Contracts see it as the row.
#[derive(Drop)]
pub(crate) struct Writer {
    pub(crate) row: Row,
    pub(crate) log: Path,
}

impl Model for Writer {
    ghost use Rattle.std.specs.Prelude.{◌≡◌};
    ghost use Rattle.mount_model.specs.declared.row.Row.{Row};
    ghost use Rattle.mount_model.specs.Paths.{log_path};

    ghost Value = { Row };

    ghost view = { λ w. w.row };

    ghost invariant = { λ w. w.log ≡ log_path w.row.host w.row.id };
}

impl Writer {
    /// The row.
    pub(crate) fn row(&self) -> &Row
        ensures { result.now ≡ self.now }
    {
        &self.row
    }

    /// Where its log lies.
    pub(crate) fn log(&self) -> &Path
        ensures { result.now ≡ log_path_of self.now.host self.now.id }
    {
        &self.log
    }

    /// Makes it dead, where it is the caller's.
    pub(crate) fn end(&mut self, caller: u64)
        ensures { self.new ≡ row_ended caller self.old }
    {
        if self.row.owner == caller {
            self.row.stage = Stage::Dead;
        }
    }
}
