//! What comes of the making of a flattening's temporary file, of its writing, its sync and its new name.
ghost use Rattle.std.specs.Prelude.{◌≡◌, List, [], ◌∷◌, ◌++◌, Some, IfOk, IfErr};
ghost use Rattle.mount_model.specs.declared.row.Flattening.{Flattening};
ghost use Rattle.mount_model.specs.Paths.{temporary};
ghost use Rattle.mount_model.specs.Table.{flattening_at};
ghost use Rattle.mount_model.specs.Flattening.{start_outcome, put_flat_outcome, sync_flat_outcome, install_outcome};
ghost use Rattle.mount_table.specs.Admitting.{IsFlatAdmitted, IsTurnedAway};
ghost use Rattle.mount_table.specs.Settling.{IsSettled};

use crate::roster::Roster;
use crate::telling::otherwise;
use mount_model::{FlatStage, Flattening, Making, Reply};
use plfs_types::{NoMemory, Path};
use store_api::{Answer, Trouble};

impl Roster {
    /// Draws the next serial, and adds a flattening of the room that makes this, under its id at the end of the table.
    pub fn admit_flattening(
        &mut self,
        caller: u64,
        room: u64,
        makes: Making,
    ) -> Result<Flattening, Reply>
        ensures ok { IfOk result (λ f. IsFlatAdmitted caller room makes self.old f self.new) }
        ensures err { IfErr result (λ reply. IsTurnedAway room self.old reply self.new) }
    {
        let id = match self.draw(room) {
            Ok(id) => id,
            Err(why) => return Err(Reply::Refused(why)),
        };
        let flattening = Flattening {
            id,
            owner: caller,
            room,
            makes,
            stage: FlatStage::Begun,
        };
        match self.add_flattening(flattening) {
            Ok(()) => Ok(flattening),
            Err(NoMemory) => Err(Reply::NoMemory),
        }
    }

    /// Settles the making of the temporary file at this path: the flattening that was added last stays only where it
    /// was made.
    pub fn flat_started(
        &mut self,
        flattening: Flattening,
        at: &Path,
        told: Result<Answer, Trouble>,
    ) -> Reply
        ensures { (flattenings : List Flattening) → self.old.table.flattenings ≡ flattenings ++ flattening ∷ [] → at.now ≡ temporary flattening
            → IsSettled (start_outcome flattening (record self.old.table { flattenings = flattenings }) told) self.old result self.new }
    {
        match told {
            Ok(Answer::Made) => Reply::Started {
                flat: flattening.id,
            },
            Ok(answer) => {
                self.forget_last_flattening();
                otherwise(at, Ok(answer))
            }
            Err(trouble) => {
                self.forget_last_flattening();
                otherwise(at, Err(trouble))
            }
        }
    }

    /// Settles the writing of the temporary file at this path.
    pub fn flat_put(
        &mut self,
        flattening: Flattening,
        at: &Path,
        told: Result<Answer, Trouble>,
    ) -> Reply
        requires there { flattening_at flattening.id self.old.table.flattenings ≡ Some flattening }
        requires of_flattening { at.now ≡ temporary flattening }
        ensures { IsSettled (put_flat_outcome flattening self.old.table told) self.old result self.new }
    {
        match told {
            Ok(Answer::Made) => {
                self.come_to(FlatStage::Put, flattening);
                Reply::Done
            }
            other => otherwise(at, other),
        }
    }

    /// Settles the sync of the temporary file at this path.
    pub fn flat_synced(
        &mut self,
        flattening: Flattening,
        at: &Path,
        told: Result<Answer, Trouble>,
    ) -> Reply
        requires there { flattening_at flattening.id self.old.table.flattenings ≡ Some flattening }
        requires of_flattening { at.now ≡ temporary flattening }
        ensures { IsSettled (sync_flat_outcome flattening self.old.table told) self.old result self.new }
    {
        match told {
            Ok(Answer::Made) => {
                self.come_to(FlatStage::Synced, flattening);
                Reply::Done
            }
            other => otherwise(at, other),
        }
    }

    /// Settles the new name of the temporary file at this path: the flattening is gone where it got it, and after a
    /// fault too.
    pub fn flat_installed(
        &mut self,
        flattening: Flattening,
        at: &Path,
        told: Result<Answer, Trouble>,
    ) -> Reply
        requires { at.now ≡ temporary flattening }
        ensures { IsSettled (install_outcome flattening self.old.table told) self.old result self.new }
    {
        match told {
            Ok(Answer::Made) => {
                self.drop_flat(flattening.id);
                Reply::Done
            }
            Ok(answer) => otherwise(at, Ok(answer)),
            Err(Trouble::Fault) => {
                self.drop_flat(flattening.id);
                Reply::Fault
            }
            Err(Trouble::NoMemory) => Reply::NoMemory,
        }
    }
}
