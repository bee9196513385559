//! Serials are drawn, each of them once.
ghost use Rattle.std.specs.Prelude.{◌≡◌, Some, IfOk, IfErr, OnErr};
ghost use Rattle.mount_model.specs.Entering.{draw_check as draw_refusal};
ghost use Rattle.mount_table.specs.Roll.{bare};
ghost use Rattle.mount_table.specs.Admitting.{IsNextId};

use crate::roster::Roster;
use mount_model::Refusal;

/// How many serials a mount has, 0 among them.
const SERIALS: u64 = 1 << 32;

impl Roster {
    /// Draws the next serial, and gives its id.
    pub fn draw(&mut self, room: u64) -> Result<u64, Refusal>
        ensures ok { IfOk result (λ id. IsNextId room self.old id self.new) }
        ensures refused { IfErr result (λ why. draw_refusal (bare self.old) room ≡ Some why) }
        ensures kept { OnErr result (self.new ≡ self.old) }
    {
        if room == self.marks {
            return Err(Refusal::NoRoom);
        }
        if self.serial == u32::MAX {
            return Err(Refusal::IdsSpent);
        }
        self.serial += 1;
        Ok(u64::from(self.mount) * SERIALS + u64::from(self.serial))
    }
}
