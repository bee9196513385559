//! What comes of the listing of the truncates.
ghost use Rattle.std.specs.Prelude.{◌≡◌, ◌<◌, length};
ghost use Rattle.mount_model.specs.Flooring.{FloorOutcome};
ghost use Rattle.mount_table.specs.Roll.{with_table};
ghost use Rattle.mount_table.specs.Standing.{AtPlace};

use crate::roster::Roster;
use crate::scanning::{Listing, greatest};
use crate::telling::otherwise;
use container_layout::truncs;
use mount_model::Reply;
use plfs_types::{Name, Path};
use store_api::{Answer, Trouble};

impl Roster {
    /// Settles the listing of the truncates: the writer has its floor.
    pub fn floored(&mut self, place: usize, told: Result<Answer, Trouble>) -> Reply
        requires { place < length self.old.table.writers }
        ensures outcome { AtPlace self.old.table place (λ row. FloorOutcome row self.old.table told result self.new.table) }
        ensures rest { self.new ≡ with_table self.new.table self.old }
    {
        let at = Path {
            folder: truncs(),
            file: Name::empty(),
        };
        match told {
            Ok(Answer::Names(names)) => match greatest(Listing::Truncates, names.as_slice()) {
                Ok(floor) => {
                    self.set_floor(place, floor);
                    Reply::Floored { floor }
                }
                Err(name) => Reply::Damaged {
                    folder: at.folder,
                    file: name,
                },
            },
            Ok(answer) => otherwise(&at, Ok(answer)),
            Err(trouble) => otherwise(&at, Err(trouble)),
        }
    }
}
