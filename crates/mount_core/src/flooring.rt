//! A writer's floor is found: its stamps will be above those of the truncates that are there.
ghost use Rattle.mount_model.specs.Flooring.{Floors};

use crate::mount::Mount;
use container_layout::truncs;
use edge_io::Clock;
use mount_model::{Refusal, Reply, Stage};
use mount_table::Stages;
use store_api::{Step, Store};

impl<S: Store + Drop, C: Clock + Drop> Mount<S, C> {
    /// Finds the floor of the caller's entered writer.
    pub(crate) fn floor(&mut self, caller: u64, writer: u64) -> Reply
        ensures { Floors caller writer self.old result self.new }
    {
        match self
            .roster
            .find(caller, Stages::Only(Stage::Entered), writer)
        {
            Some(place) => {
                let room = self.roster.row(place).room;
                let told = self.store.act(&Step::List {
                    room,
                    folder: truncs(),
                });
                self.roster.floored(place, told)
            }
            None => Reply::Refused(Refusal::NotOpen),
        }
    }
}
