//! A writer leaves: its metadata dropping is made, and its entry in the folder of who has the container open goes.
ghost use Rattle.mount_model.specs.Leaving.{PutsMeta, Exits};

use crate::mount::Mount;
use edge_io::Clock;
use mount_model::{Refusal, Reply};
use mount_table::{Stages, exit_check, meta_path, open_path, put_meta_check};
use store_api::{Step, Store};

impl<S: Store + Drop, C: Clock + Drop> Mount<S, C> {
    /// Makes the metadata dropping of the caller's writer, which has nothing pending or unsynced.
    pub(crate) fn put_meta(&mut self, caller: u64, writer: u64) -> Reply
        ensures { PutsMeta caller writer self.old result self.new }
    {
        match self.roster.find(caller, Stages::Closable, writer) {
            Some(place) => {
                let row = self.roster.row(place);
                match put_meta_check(row) {
                    Some(why) => Reply::Refused(why),
                    None => {
                        let at = meta_path(row);
                        let told = self.store.act(&Step::Create {
                            room: row.room,
                            folder: at.folder,
                            file: at.file,
                        });
                        self.roster.closed(place, &at, told)
                    }
                }
            }
            None => Reply::Refused(Refusal::NotOpen),
        }
    }

    /// Takes the caller's writer out of the folder of who has the container open, and out of the table.
    pub(crate) fn exit(&mut self, caller: u64, writer: u64) -> Reply
        ensures { Exits caller writer self.old result self.new }
    {
        match self.roster.find(caller, Stages::Live, writer) {
            Some(place) => {
                let row = self.roster.row(place);
                match exit_check(row) {
                    Some(why) => Reply::Refused(why),
                    None => {
                        let at = open_path(row.host, row.id);
                        let told = self.store.act(&Step::Remove {
                            room: row.room,
                            folder: at.folder,
                            file: at.file,
                        });
                        self.roster.left(place, &at, told)
                    }
                }
            }
            None => Reply::Refused(Refusal::NotOpen),
        }
    }
}
