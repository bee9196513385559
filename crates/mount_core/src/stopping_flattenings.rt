//! A call on a flattening is broken off within its act, or the call that begins it is.
ghost use Rattle.std.specs.Prelude.{option_and_then};
ghost use Rattle.mount_model.specs.declared.call.Call.TheVariants.{PutFlat, SyncFlat, InstallFlat};
ghost use Rattle.mount_model.specs.Acting.{unless};
ghost use Rattle.mount_model.specs.Entering.{draw_check as draw_refusal};
ghost use Rattle.mount_model.specs.Flattening.{begun_flat, start_step};
ghost use Rattle.mount_model.specs.Stopping.{part_of, part_made, drawn_unless};
ghost use Rattle.mount_core.specs.Breaking.{BreaksOff};

use crate::mount::Mount;
use crate::parting::first;
use edge_io::Clock;
use mount_model::{FlatStage, Flattening, Making};
use mount_table::{installed_path, temporary_path};
use store_api::{Answer, Step, Store, Trouble};

impl<S: Store + Drop, C: Clock + Drop> Mount<S, C> {
    pub(crate) fn break_start(
        &mut self,
        caller: u64,
        k: u64,
        room: u64,
        makes: Making,
    ) -> Result<Answer, Trouble>
        ensures { BreaksOff (option_and_then (part_of k) (unless (draw_refusal self.old room) (start_step (begun_flat self.old caller room makes)))) (drawn_unless (draw_refusal self.old room) self.old) result self.new }
    {
        match self.roster.draw(room) {
            Ok(id) => {
                let at = temporary_path(&Flattening {
                    id,
                    owner: caller,
                    room,
                    makes,
                    stage: FlatStage::Begun,
                });
                self.make_if(
                    k,
                    &Step::Create {
                        room,
                        folder: at.folder,
                        file: at.file,
                    },
                )
            }
            Err(_) => Ok(Answer::Made),
        }
    }

    pub(crate) fn break_put_flat(
        &mut self,
        caller: u64,
        k: u64,
        flat: u64,
        bytes: &[u8],
    ) -> Result<Answer, Trouble>
        ensures { BreaksOff (part_made k 0 self.old caller (PutFlat flat bytes.now)) self.old result self.new }
    {
        match self.roster.flattening_of(caller, FlatStage::Begun, flat) {
            Some(flattening) => {
                let at = temporary_path(&flattening);
                self.store.act(&Step::WriteAt {
                    room: flattening.room,
                    folder: at.folder,
                    file: at.file,
                    at: 0,
                    bytes: first(bytes, k),
                })
            }
            None => Ok(Answer::Made),
        }
    }

    pub(crate) fn break_sync_flat(
        &mut self,
        caller: u64,
        k: u64,
        flat: u64,
    ) -> Result<Answer, Trouble>
        ensures { BreaksOff (part_made k 0 self.old caller (SyncFlat flat)) self.old result self.new }
    {
        match self.roster.flattening_of(caller, FlatStage::Put, flat) {
            Some(flattening) => {
                let at = temporary_path(&flattening);
                self.make_if(
                    k,
                    &Step::Sync {
                        room: flattening.room,
                        folder: at.folder,
                        file: at.file,
                    },
                )
            }
            None => Ok(Answer::Made),
        }
    }

    pub(crate) fn break_install_flat(
        &mut self,
        caller: u64,
        k: u64,
        flat: u64,
    ) -> Result<Answer, Trouble>
        ensures { BreaksOff (part_made k 0 self.old caller (InstallFlat flat)) self.old result self.new }
    {
        match self.roster.flattening_of(caller, FlatStage::Synced, flat) {
            Some(flattening) => {
                let at = temporary_path(&flattening);
                self.make_if(
                    k,
                    &Step::Replace {
                        room: flattening.room,
                        folder: at.folder,
                        from: at.file,
                        to: installed_path(&flattening).file,
                    },
                )
            }
            None => Ok(Answer::Made),
        }
    }
}
