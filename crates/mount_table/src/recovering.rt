//! Whether what a writer left may be mended, and whether a container's hold may.
ghost use Rattle.std.specs.Prelude.{◌≡◌};
ghost use Rattle.mount_model.specs.Making.{room_check as room_refusal};
ghost use Rattle.mount_model.specs.Recovering.{alive_check as alive_refusal, mend_check as mend_refusal, mend_hold_check as mend_hold_refusal};
ghost use Rattle.mount_table.specs.Roll.{bare};

use crate::places::place_of;
use crate::roster::Roster;
use crate::stages::Stages;
use mount_model::Refusal;

impl Roster {
    /// Why the room is no container.
    pub fn room_check(&self, room: u64) -> Option<Refusal>
        ensures { result ≡ room_refusal (bare self.now) room }
    {
        if room == self.marks {
            Some(Refusal::NoRoom)
        } else {
            None
        }
    }

    /// Why the writer is not taken as gone.
    pub fn alive_check(&self, writer: u64) -> Option<Refusal>
        ensures { result ≡ alive_refusal (bare self.now) writer }
    {
        let place = place_of(&self.writers, writer)?;
        if Stages::Live.has(self.writers[place].row().stage) {
            Some(Refusal::Alive)
        } else {
            None
        }
    }

    /// Why what the writer left in this room is not mended.
    pub fn mend_check(&self, room: u64, writer: u64) -> Option<Refusal>
        ensures { result ≡ mend_refusal (bare self.now) room writer }
    {
        if let Some(why) = self.room_check(room) {
            return Some(why);
        }
        self.alive_check(writer)
    }

    /// Why the room's hold is not mended.
    pub fn mend_hold_check(&self, room: u64) -> Option<Refusal>
        ensures { result ≡ mend_hold_refusal (bare self.now) room }
    {
        if let Some(why) = self.room_check(room) {
            return Some(why);
        }
        if self.is_held_room(room) {
            return Some(Refusal::Held);
        }
        None
    }
}
