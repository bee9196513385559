//! A call on a container that is held is broken off within its act, or the call that holds it is.
ghost use Rattle.std.specs.Prelude.{◌≤◌, ◌<◌, option_and_then};
ghost use Rattle.plfs_types.specs.declared.limits.TheConstants.{MAX_SIZE, MAX_STAMP};
ghost use Rattle.mount_model.specs.declared.call.Call.TheVariants.{Mark, Move, Release};
ghost use Rattle.mount_model.specs.Acting.{unless};
ghost use Rattle.mount_model.specs.Entering.{draw_check as draw_refusal};
ghost use Rattle.mount_model.specs.Holding.{hold_step, truncate_check as truncate_refusal, truncate_stamp as truncate_stamp_of, truncate_step};
ghost use Rattle.mount_model.specs.Stopping.{part_of, part_made, drawn_unless};
ghost use Rattle.mount_core.specs.Breaking.{BreaksOff, BreaksTimed, all_or_none};

use crate::mount::Mount;
use container_layout::openhosts;
use edge_io::Clock;
use mount_model::Holder;
use mount_table::{trunc_path, truncate_check, truncate_stamp};
use plfs_types::Name;
use store_api::{Answer, Step, Store, Trouble};

impl<S: Store + Drop, C: Clock + Drop> Mount<S, C> {
    pub(crate) fn break_hold(&mut self, k: u64, room: u64) -> Result<Answer, Trouble>
        ensures { BreaksOff (option_and_then (part_of k) (unless (draw_refusal self.old room) (hold_step room))) (drawn_unless (draw_refusal self.old room) self.old) result self.new }
    {
        match self.roster.draw(room) {
            Ok(_) => self.make_if(
                k,
                &Step::RemoveFolder {
                    room,
                    folder: openhosts(),
                },
            ),
            Err(_) => Ok(Answer::Made),
        }
    }

    pub(crate) fn break_truncate(
        &mut self,
        caller: u64,
        k: u64,
        holder: u64,
        size: u64,
        top: u64,
    ) -> Result<Answer, Trouble>
        ensures { BreaksTimed (λ time. part_made k time self.old caller (Mark holder size top)) (Mark holder size top) self.old result self.new }
    {
        match self.roster.holder_of(caller, holder) {
            Some(held) => self.break_truncate_held(k, held, size, top),
            None => Ok(Answer::Made),
        }
    }

    fn break_truncate_held(
        &mut self,
        k: u64,
        holder: Holder,
        size: u64,
        top: u64,
    ) -> Result<Answer, Trouble>
        ensures { BreaksTimed (λ time. option_and_then (part_of k) (unless (truncate_refusal size top) (truncate_step holder (truncate_stamp_of time top) size))) (Mark holder.number size top) self.old result self.new }
    {
        match truncate_check(size, top) {
            Some(_) => Ok(Answer::Made),
            None => self.break_truncate_now(k, holder, size, top),
        }
    }

    /// The clock is asked only where the truncate's dropping is made.
    fn break_truncate_now(
        &mut self,
        k: u64,
        holder: Holder,
        size: u64,
        top: u64,
    ) -> Result<Answer, Trouble>
        requires near { size ≤ MAX_SIZE }
        requires unspent { top < MAX_STAMP }
        ensures { BreaksTimed (λ time. all_or_none k (truncate_step holder (truncate_stamp_of time top) size)) (Mark holder.number size top) self.old result self.new }
    {
        if k == 0 {
            return Ok(Answer::Made);
        }
        let time = self.clock.now();
        let at = trunc_path(truncate_stamp(time, top), size);
        self.store.act(&Step::Create {
            room: holder.room,
            folder: at.folder,
            file: at.file,
        })
    }

    pub(crate) fn break_rename(
        &mut self,
        caller: u64,
        k: u64,
        holder: u64,
        to: Name,
    ) -> Result<Answer, Trouble>
        ensures { BreaksOff (part_made k 0 self.old caller (Move holder to)) self.old result self.new }
    {
        match self.roster.holder_of(caller, holder) {
            Some(held) => self.make_if(
                k,
                &Step::RenameRoom {
                    room: held.room,
                    to,
                },
            ),
            None => Ok(Answer::Made),
        }
    }

    pub(crate) fn break_release(
        &mut self,
        caller: u64,
        k: u64,
        holder: u64,
    ) -> Result<Answer, Trouble>
        ensures { BreaksOff (part_made k 0 self.old caller (Release holder)) self.old result self.new }
    {
        match self.roster.holder_of(caller, holder) {
            Some(held) => self.make_if(
                k,
                &Step::MakeFolder {
                    room: held.room,
                    folder: openhosts(),
                },
            ),
            None => Ok(Answer::Made),
        }
    }
}
