//! A call that syncs or mends what a writer left is broken off within its act.
ghost use Rattle.std.specs.Prelude.{◌*◌, ◌^◌, ◌<◌, option_and_then};
ghost use Rattle.plfs_types.specs.declared.limits.TheConstants.{ENTRY_SIZE};
ghost use Rattle.container_layout.specs.Items.{IsMetaRange};
ghost use Rattle.mount_model.specs.Acting.{unless};
ghost use Rattle.mount_model.specs.Making.{room_check as room_refusal};
ghost use Rattle.mount_model.specs.Recovering.{sync_dropping_step, mend_check as mend_refusal, mend_step, mend_meta_step, bury_step, mend_hold_check as mend_hold_refusal, mend_hold_step};
ghost use Rattle.mount_model.specs.Stopping.{part_of};
ghost use Rattle.mount_core.specs.Breaking.{BreaksOff};

use crate::mount::Mount;
use container_layout::openhosts;
use edge_io::Clock;
use mount_table::{dropping_path, index_path, metadata_path, open_path};
use plfs_types::{Cover, ENTRY_SIZE};
use store_api::{Answer, Step, Store, Trouble};

impl<S: Store + Drop, C: Clock + Drop> Mount<S, C> {
    pub(crate) fn break_sync_dropping(
        &mut self,
        k: u64,
        room: u64,
        host: u32,
        writer: u64,
        log: bool,
    ) -> Result<Answer, Trouble>
        ensures { BreaksOff (option_and_then (part_of k) (unless (room_refusal self.old room) (sync_dropping_step room host writer log))) self.old result self.new }
    {
        match self.roster.room_check(room) {
            Some(_) => Ok(Answer::Made),
            None => {
                let at = dropping_path(log, host, writer);
                self.make_if(
                    k,
                    &Step::Sync {
                        room,
                        folder: at.folder,
                        file: at.file,
                    },
                )
            }
        }
    }

    pub(crate) fn break_mend(
        &mut self,
        k: u64,
        room: u64,
        host: u32,
        writer: u64,
        whole: u64,
    ) -> Result<Answer, Trouble>
        requires { ENTRY_SIZE * whole < 2 ^ 64 }
        ensures { BreaksOff (option_and_then (part_of k) (unless (mend_refusal self.old room writer) (mend_step room host writer whole))) self.old result self.new }
    {
        match self.roster.mend_check(room, writer) {
            Some(_) => Ok(Answer::Made),
            None => {
                let at = index_path(host, writer);
                self.make_if(
                    k,
                    &Step::Cut {
                        room,
                        folder: at.folder,
                        file: at.file,
                        len: ENTRY_SIZE as u64 * whole,
                    },
                )
            }
        }
    }

    pub(crate) fn break_mend_meta(
        &mut self,
        k: u64,
        room: u64,
        host: u32,
        cover: &Cover,
        last: u64,
    ) -> Result<Answer, Trouble>
        requires { IsMetaRange last cover.now.bytes cover.now.stamp }
        ensures { BreaksOff (option_and_then (part_of k) (unless (mend_refusal self.old room cover.now.writer) (mend_meta_step room host cover.now last))) self.old result self.new }
    {
        match self.roster.mend_check(room, cover.writer) {
            Some(_) => Ok(Answer::Made),
            None => {
                let at = metadata_path(last, cover.bytes, cover.stamp, host, cover.writer);
                self.make_if(
                    k,
                    &Step::Create {
                        room,
                        folder: at.folder,
                        file: at.file,
                    },
                )
            }
        }
    }

    pub(crate) fn break_bury(
        &mut self,
        k: u64,
        room: u64,
        host: u32,
        writer: u64,
    ) -> Result<Answer, Trouble>
        ensures { BreaksOff (option_and_then (part_of k) (unless (mend_refusal self.old room writer) (bury_step room host writer))) self.old result self.new }
    {
        match self.roster.mend_check(room, writer) {
            Some(_) => Ok(Answer::Made),
            None => {
                let at = open_path(host, writer);
                self.make_if(
                    k,
                    &Step::Remove {
                        room,
                        folder: at.folder,
                        file: at.file,
                    },
                )
            }
        }
    }

    pub(crate) fn break_mend_hold(&mut self, k: u64, room: u64) -> Result<Answer, Trouble>
        ensures { BreaksOff (option_and_then (part_of k) (unless (mend_hold_refusal self.old room) (mend_hold_step room))) self.old result self.new }
    {
        match self.roster.mend_hold_check(room) {
            Some(_) => Ok(Answer::Made),
            None => self.make_if(
                k,
                &Step::MakeFolder {
                    room,
                    folder: openhosts(),
                },
            ),
        }
    }
}
