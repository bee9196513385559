//! What writers left that are gone is synced and mended, and they are buried.
ghost use Rattle.std.specs.Prelude.{◌*◌, ◌^◌, ◌<◌};
ghost use Rattle.plfs_types.specs.declared.limits.TheConstants.{ENTRY_SIZE};
ghost use Rattle.container_layout.specs.Items.{IsMetaRange};
ghost use Rattle.store_api.specs.Step.{create, sync};
ghost use Rattle.mount_model.specs.Making.{MakesAct};
ghost use Rattle.mount_model.specs.Paths.{metadata as metadata_name};
ghost use Rattle.mount_model.specs.Recovering.{done_outcome, mend_meta_outcome, SyncsDropping, Inspects, Mends, MendsMeta, BuriesIt, Buries, MendsHold};

use crate::mount::Mount;
use container_layout::{metadata, openhosts};
use edge_io::Clock;
use mount_model::Reply;
use mount_table::{dropping_path, index_path, metadata_path, open_path, otherwise};
use plfs_types::{Cover, ENTRY_SIZE, Name, Path};
use store_api::{Answer, Step, Store};

impl<S: Store + Drop, C: Clock + Drop> Mount<S, C> {
    /// Syncs a writer's log, or its index dropping.
    pub(crate) fn sync_dropping(&mut self, room: u64, host: u32, writer: u64, log: bool) -> Reply
        ensures { SyncsDropping room host writer log self.old result self.new }
    {
        match self.roster.room_check(room) {
            Some(why) => Reply::Refused(why),
            None => self.sync_file(room, &dropping_path(log, host, writer)),
        }
    }

    fn sync_file(&mut self, room: u64, at: &Path) -> Reply
        ensures { MakesAct (sync room at.now.folder at.now.file) (done_outcome at.now.folder at.now.file self.old.table) self.old result self.new }
    {
        let told = self.store.act(&Step::Sync {
            room,
            folder: at.folder,
            file: at.file,
        });
        match told {
            Ok(Answer::Made) => Reply::Done,
            Ok(answer) => otherwise(at, Ok(answer)),
            Err(trouble) => otherwise(at, Err(trouble)),
        }
    }

    /// Tells whether the writer is live.
    pub(crate) fn inspect(&mut self, writer: u64) -> Reply
        ensures { Inspects writer self.old result self.new }
    {
        match self.roster.alive_check(writer) {
            Some(why) => Reply::Refused(why),
            None => Reply::Done,
        }
    }

    /// Cuts the index dropping of a writer that isn't live to so many whole entries.
    pub(crate) fn mend(&mut self, room: u64, host: u32, writer: u64, whole: u64) -> Reply
        requires { ENTRY_SIZE * whole < 2 ^ 64 }
        ensures { Mends room host writer whole self.old result self.new }
    {
        match self.roster.mend_check(room, writer) {
            Some(why) => Reply::Refused(why),
            None => {
                let at = index_path(host, writer);
                let told = self.store.act(&Step::Cut {
                    room,
                    folder: at.folder,
                    file: at.file,
                    len: ENTRY_SIZE as u64 * whole,
                });
                match told {
                    Ok(Answer::Made) => Reply::Done,
                    Ok(answer) => otherwise(&at, Ok(answer)),
                    Err(trouble) => otherwise(&at, Err(trouble)),
                }
            }
        }
    }

    /// Makes the metadata dropping of a writer that isn't live.
    pub(crate) fn mend_meta(&mut self, room: u64, host: u32, cover: &Cover, last: u64) -> Reply
        requires { IsMetaRange last cover.now.bytes cover.now.stamp }
        ensures { MendsMeta room host cover.now last self.old result self.new }
    {
        match self.roster.mend_check(room, cover.writer) {
            Some(why) => Reply::Refused(why),
            None => {
                let at = metadata_path(last, cover.bytes, cover.stamp, host, cover.writer);
                self.make_mended(room, at.file)
            }
        }
    }

    fn make_mended(&mut self, room: u64, file: Name) -> Reply
        ensures { MakesAct (create room metadata_name file) (mend_meta_outcome file self.old.table) self.old result self.new }
    {
        let at = Path {
            folder: metadata(),
            file,
        };
        let told = self.store.act(&Step::Create {
            room,
            folder: at.folder,
            file: at.file,
        });
        match told {
            Ok(Answer::Made | Answer::Old { .. }) => Reply::Done,
            Ok(answer) => otherwise(&at, Ok(answer)),
            Err(trouble) => otherwise(&at, Err(trouble)),
        }
    }

    /// Takes a writer that isn't live out of the folder of who has the container open.
    pub(crate) fn bury(&mut self, room: u64, host: u32, writer: u64) -> Reply
        ensures { Buries room host writer self.old result self.new }
    {
        match self.roster.mend_check(room, writer) {
            Some(why) => Reply::Refused(why),
            None => self.bury_in(room, host, writer),
        }
    }

    fn bury_in(&mut self, room: u64, host: u32, writer: u64) -> Reply
        ensures { BuriesIt room host writer self.old result self.new }
    {
        let at = open_path(host, writer);
        let told = self.store.act(&Step::Remove {
            room,
            folder: at.folder,
            file: at.file,
        });
        match told {
            Ok(Answer::Made | Answer::Absent | Answer::NoFolder) => Reply::Done,
            Ok(answer) => otherwise(&at, Ok(answer)),
            Err(trouble) => otherwise(&at, Err(trouble)),
        }
    }

    /// Makes the folder of who has the container open, where it is missing and nobody holds the container.
    pub(crate) fn mend_hold(&mut self, room: u64) -> Reply
        ensures { MendsHold room self.old result self.new }
    {
        match self.roster.mend_hold_check(room) {
            Some(why) => Reply::Refused(why),
            None => {
                let at = Path {
                    folder: openhosts(),
                    file: Name::empty(),
                };
                let told = self.store.act(&Step::MakeFolder {
                    room,
                    folder: at.folder,
                });
                match told {
                    Ok(Answer::Made) => Reply::Mended { made: true },
                    Ok(Answer::Old { .. }) => Reply::Mended { made: false },
                    Ok(answer) => otherwise(&at, Ok(answer)),
                    Err(trouble) => otherwise(&at, Err(trouble)),
                }
            }
        }
    }
}
