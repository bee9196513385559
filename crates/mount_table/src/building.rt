//! What comes of the making of a writer's folder, index dropping or log.
ghost use Rattle.std.specs.Prelude.{◌<◌, length};
ghost use Rattle.mount_model.specs.Building.{build_outcome};
ghost use Rattle.mount_table.specs.Settling.{IsSettled};
ghost use Rattle.mount_table.specs.Standing.{AtPlace};

use crate::roster::Roster;
use crate::telling::otherwise;
use mount_model::{Reply, Stage};
use plfs_types::Path;
use store_api::{Answer, Trouble};

impl Roster {
    /// Settles the making of something at this path: the writer comes to the stage where it is there.
    pub fn built(
        &mut self,
        place: usize,
        stage: Stage,
        at: &Path,
        told: Result<Answer, Trouble>,
    ) -> Reply
        requires { place < length self.old.table.writers }
        ensures { AtPlace self.old.table place (λ row. IsSettled (build_outcome stage at.now.folder at.now.file row self.old.table told) self.old result self.new) }
    {
        match told {
            Ok(Answer::Made | Answer::Old { .. }) => {
                self.set_stage(place, stage);
                Reply::Done
            }
            Ok(answer) => otherwise(at, Ok(answer)),
            Err(trouble) => otherwise(at, Err(trouble)),
        }
    }
}
