//! A caller holds a container, so that no writer enters it: for a truncate, or for another name.
ghost use Rattle.std.specs.Prelude.{◌≡◌, ◌≤◌, ◌<◌, List, [], ◌∷◌, ◌++◌};
ghost use Rattle.plfs_types.specs.declared.limits.TheConstants.{MAX_SIZE, MAX_STAMP};
ghost use Rattle.mount_model.specs.declared.row.Holder.{Holder};
ghost use Rattle.mount_model.specs.Making.{MakesAct};
ghost use Rattle.mount_model.specs.Holding.{HoldsContainer, truncate_stamp as truncate_stamp_of, truncate_step, truncate_outcome, TruncatesAt, Truncates, rename_step, rename_outcome, Renames, release_step, release_outcome, Releases};
ghost use Rattle.mount_core.specs.Holding.{HoldsAs};

use crate::mount::Mount;
use container_layout::openhosts;
use edge_io::Clock;
use mount_model::{Holder, Refusal, Reply};
use mount_table::{nowhere, otherwise, trunc_path, truncate_check, truncate_stamp};
use plfs_types::{LogicalName, Name};
use store_api::{Answer, Step, Store};

impl<S: Store + Drop, C: Clock + Drop> Mount<S, C> {
    /// Holds the container for the caller: the folder of who has it open is taken away, where nobody has.
    pub(crate) fn hold(&mut self, caller: u64, room: u64) -> Reply
        ensures { HoldsContainer caller room self.old result self.new }
    {
        match self.roster.admit_holder(caller, room) {
            Ok(holder) => self.hold_as(holder),
            Err(reply) => reply,
        }
    }

    /// Takes that folder away for the holder that was added last.
    fn hold_as(&mut self, holder: Holder) -> Reply
        ensures { (holders : List Holder) → self.old.table.holders ≡ holders ++ holder ∷ []
            → HoldsAs holder (record self.old.table { holders = holders }) self.old result self.new }
    {
        let told = self.store.act(&Step::RemoveFolder {
            room: holder.room,
            folder: openhosts(),
        });
        self.roster.held(holder, told)
    }

    /// Puts a truncate to `size` bytes into the container that the caller holds, with a stamp above `top`.
    pub(crate) fn truncate(&mut self, caller: u64, holder: u64, size: u64, top: u64) -> Reply
        ensures { Truncates caller holder size top self.old result self.new }
    {
        match self.roster.holder_of(caller, holder) {
            Some(holder) => match truncate_check(size, top) {
                Some(why) => Reply::Refused(why),
                None => self.truncate_now(holder, size, top),
            },
            None => Reply::Refused(Refusal::NotHolder),
        }
    }

    fn truncate_now(&mut self, holder: Holder, size: u64, top: u64) -> Reply
        requires near { size ≤ MAX_SIZE }
        requires unspent { top < MAX_STAMP }
        ensures { TruncatesAt holder size top self.old result self.new }
    {
        let time = self.clock.now();
        self.put_truncate(time, holder, size, top)
    }

    /// Makes the truncate's dropping, stamped by that time.
    fn put_truncate(&mut self, time: u64, holder: Holder, size: u64, top: u64) -> Reply
        requires near { size ≤ MAX_SIZE }
        requires unspent { top < MAX_STAMP }
        ensures { MakesAct (truncate_step holder (truncate_stamp_of time top) size) (truncate_outcome (truncate_stamp_of time top) size self.old.table) self.old result self.new }
    {
        let stamp = truncate_stamp(time, top);
        let at = trunc_path(stamp, size);
        let told = self.store.act(&Step::Create {
            room: holder.room,
            folder: at.folder,
            file: at.file,
        });
        match told {
            Ok(Answer::Made) => Reply::Marked { stamp },
            Ok(answer) => otherwise(&at, Ok(answer)),
            Err(trouble) => otherwise(&at, Err(trouble)),
        }
    }

    /// Gives the container that the caller holds this name.
    pub(crate) fn rename(&mut self, caller: u64, holder: u64, to: &LogicalName) -> Reply
        ensures { Renames caller holder to.now self.old result self.new }
    {
        match self.roster.holder_of(caller, holder) {
            Some(holder) => self.rename_room(holder, to.name()),
            None => Reply::Refused(Refusal::NotHolder),
        }
    }

    fn rename_room(&mut self, holder: Holder, to: Name) -> Reply
        ensures { MakesAct (rename_step holder to) (rename_outcome self.old.table) self.old result self.new }
    {
        let told = self.store.act(&Step::RenameRoom {
            room: holder.room,
            to,
        });
        match told {
            Ok(Answer::Made) => Reply::Done,
            Ok(Answer::TargetThere) => Reply::Refused(Refusal::Exists),
            Ok(answer) => otherwise(&nowhere(), Ok(answer)),
            Err(trouble) => otherwise(&nowhere(), Err(trouble)),
        }
    }

    /// Lets the container go that the caller holds: the folder of who has it open is made again.
    pub(crate) fn release(&mut self, caller: u64, holder: u64) -> Reply
        ensures { Releases caller holder self.old result self.new }
    {
        match self.roster.holder_of(caller, holder) {
            Some(holder) => self.release_held(holder),
            None => Reply::Refused(Refusal::NotHolder),
        }
    }

    fn release_held(&mut self, holder: Holder) -> Reply
        ensures { MakesAct (release_step holder) (release_outcome holder self.old.table) self.old result self.new }
    {
        let told = self.store.act(&Step::MakeFolder {
            room: holder.room,
            folder: openhosts(),
        });
        self.roster.released(holder, told)
    }
}
