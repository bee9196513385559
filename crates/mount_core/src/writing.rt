//! A writer's bytes go to its log, and their entry to its buffer.
ghost use Rattle.mount_model.specs.Writing.{Writes};

use crate::mount::Mount;
use edge_io::Clock;
use mount_model::{Refusal, Reply, Stage};
use mount_table::{Stages, stamp_at, write_check};
use plfs_types::Block;
use store_api::{Step, Store};

impl<S: Store + Drop, C: Clock + Drop> Mount<S, C> {
    /// Writes the block to the log of the caller's open writer, and keeps its entry. It is one function, since a reply is
    /// large and each function that hands it on copies it.
    pub(crate) fn write(&mut self, caller: u64, writer: u64, at: u64, block: &Block) -> Reply
        ensures { Writes caller writer at block.now self.old result self.new }
    {
        let Some(place) = self.roster.find(caller, Stages::Only(Stage::Open), writer) else {
            return Reply::Refused(Refusal::NotOpen);
        };
        let bytes = block.as_slice();
        let len = bytes.len() as u64;
        let row = self.roster.row(place);
        if let Some(why) = write_check(row, at, len) {
            return Reply::Refused(why);
        }
        let stamp = stamp_at(self.clock.now(), row);
        let log = self.roster.log(place);
        let told = self.store.act(&Step::WriteAt {
            room: row.room,
            folder: log.folder,
            file: log.file,
            at: row.stored,
            bytes,
        });
        self.roster.logged(place, stamp, at, len, told)
    }
}
