//! A container is flattened, or a writer's index dropping is packed: a temporary file is made, written and synced, and
//! then gets the name of a flattened index, or of the writer's packed index.
ghost use Rattle.std.specs.Prelude.{◌≡◌, List, [], ◌∷◌, ◌++◌};
ghost use Rattle.mount_model.specs.declared.row.Flattening.{Flattening};
ghost use Rattle.mount_model.specs.Making.{MakesAct, UnlessRefused};
ghost use Rattle.mount_model.specs.Entering.{draw_check as draw_refusal};
ghost use Rattle.mount_model.specs.Flattening.{Starts, StartsPack, start_step, start_outcome, PutsFlat, SyncsFlat, InstallsFlat, install_step, install_outcome};

use crate::mount::Mount;
use edge_io::Clock;
use mount_model::{FlatStage, Flattening, Making, Refusal, Reply};
use mount_table::{installed_path, temporary_path};
use store_api::{Step, Store};

impl<S: Store + Drop, C: Clock + Drop> Mount<S, C> {
    /// Begins a flattening of the container for the caller, under the next id.
    pub(crate) fn start(&mut self, caller: u64, room: u64, makes: Making) -> Reply
        ensures { UnlessRefused (draw_refusal self.old room) self.old result self.new (Starts caller room makes self.old result self.new) }
    {
        match self.roster.admit_flattening(caller, room, makes) {
            Ok(flattening) => self.start_as(flattening),
            Err(reply) => reply,
        }
    }

    /// Makes the temporary file of the flattening that was added last.
    fn start_as(&mut self, flattening: Flattening) -> Reply
        ensures { (flattenings : List Flattening) → self.old.table.flattenings ≡ flattenings ++ flattening ∷ []
            → MakesAct (start_step flattening) (start_outcome flattening (record self.old.table { flattenings = flattenings })) self.old result self.new }
    {
        let at = temporary_path(&flattening);
        let told = self.store.act(&Step::Create {
            room: flattening.room,
            folder: at.folder,
            file: at.file,
        });
        self.roster.flat_started(flattening, &at, told)
    }

    /// Begins to pack the index dropping of this writer of this host for the caller, under the next id.
    #[tactic(auto, using(crate::proofs::Admitted::pack_started))]
    pub(crate) fn start_pack(&mut self, caller: u64, room: u64, host: u32, writer: u64) -> Reply
        ensures { StartsPack caller room host writer self.old result self.new }
    {
        self.start(caller, room, Making::Pack { host, writer })
    }

    /// Writes the bytes to the temporary file of the caller's flattening, which was made and not written before.
    pub(crate) fn put_flat(&mut self, caller: u64, flat: u64, bytes: &[u8]) -> Reply
        ensures { PutsFlat caller flat bytes.now self.old result self.new }
    {
        match self.roster.flattening_of(caller, FlatStage::Begun, flat) {
            Some(flattening) => {
                let at = temporary_path(&flattening);
                let told = self.store.act(&Step::WriteAt {
                    room: flattening.room,
                    folder: at.folder,
                    file: at.file,
                    at: 0,
                    bytes,
                });
                self.roster.flat_put(flattening, &at, told)
            }
            None => Reply::Refused(Refusal::NotOpen),
        }
    }

    /// Syncs the temporary file of the caller's flattening, which was written.
    pub(crate) fn sync_flat(&mut self, caller: u64, flat: u64) -> Reply
        ensures { SyncsFlat caller flat self.old result self.new }
    {
        match self.roster.flattening_of(caller, FlatStage::Put, flat) {
            Some(flattening) => {
                let at = temporary_path(&flattening);
                let told = self.store.act(&Step::Sync {
                    room: flattening.room,
                    folder: at.folder,
                    file: at.file,
                });
                self.roster.flat_synced(flattening, &at, told)
            }
            None => Reply::Refused(Refusal::NotOpen),
        }
    }

    /// Gives the temporary file of the caller's flattening, which was synced, the name of what it was begun for.
    pub(crate) fn install_flat(&mut self, caller: u64, flat: u64) -> Reply
        ensures { InstallsFlat caller flat self.old result self.new }
    {
        match self.roster.flattening_of(caller, FlatStage::Synced, flat) {
            Some(flattening) => self.install_flat_file(flattening),
            None => Reply::Refused(Refusal::NotOpen),
        }
    }

    fn install_flat_file(&mut self, flattening: Flattening) -> Reply
        ensures { MakesAct (install_step flattening) (install_outcome flattening self.old.table) self.old result self.new }
    {
        let at = temporary_path(&flattening);
        let told = self.store.act(&Step::Replace {
            room: flattening.room,
            folder: at.folder,
            from: at.file,
            to: installed_path(&flattening).file,
        });
        self.roster.flat_installed(flattening, &at, told)
    }
}
