//! The folder of a writer's droppings is made, then its index dropping and its log.
ghost use Rattle.mount_model.specs.Building.{MakesHostdir, MakesIndex, MakesLog};

use crate::mount::Mount;
use edge_io::Clock;
use mount_model::{Refusal, Reply, Stage};
use mount_table::{Stages, hostdir_path, index_path, log_path};
use store_api::{Step, Store};

impl<S: Store + Drop, C: Clock + Drop> Mount<S, C> {
    /// Makes the folder of the droppings of the caller's floored writer.
    pub(crate) fn make_hostdir(&mut self, caller: u64, writer: u64) -> Reply
        ensures { MakesHostdir caller writer self.old result self.new }
    {
        match self
            .roster
            .find(caller, Stages::Only(Stage::Floored), writer)
        {
            Some(place) => {
                let row = self.roster.row(place);
                let room = row.room;
                let at = hostdir_path(row.host);
                let told = self.store.act(&Step::MakeFolder {
                    room,
                    folder: at.folder,
                });
                self.roster.built(place, Stage::Housed, &at, told)
            }
            None => Reply::Refused(Refusal::NotOpen),
        }
    }

    /// Makes the index dropping of the caller's housed writer.
    pub(crate) fn make_index(&mut self, caller: u64, writer: u64) -> Reply
        ensures { MakesIndex caller writer self.old result self.new }
    {
        match self
            .roster
            .find(caller, Stages::Only(Stage::Housed), writer)
        {
            Some(place) => {
                let row = self.roster.row(place);
                let room = row.room;
                let at = index_path(row.host, row.id);
                let told = self.store.act(&Step::Create {
                    room,
                    folder: at.folder,
                    file: at.file,
                });
                self.roster.built(place, Stage::Indexed, &at, told)
            }
            None => Reply::Refused(Refusal::NotOpen),
        }
    }

    /// Makes the log of the caller's writer, which may write from then on.
    pub(crate) fn make_log(&mut self, caller: u64, writer: u64) -> Reply
        ensures { MakesLog caller writer self.old result self.new }
    {
        match self
            .roster
            .find(caller, Stages::Only(Stage::Indexed), writer)
        {
            Some(place) => {
                let row = self.roster.row(place);
                let room = row.room;
                let at = log_path(row.host, row.id);
                let told = self.store.act(&Step::Create {
                    room,
                    folder: at.folder,
                    file: at.file,
                });
                self.roster.built(place, Stage::Open, &at, told)
            }
            None => Reply::Refused(Refusal::NotOpen),
        }
    }
}
