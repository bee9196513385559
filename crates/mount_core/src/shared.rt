//! The mount as an object that callers use in turn.
use crate::mount::Mount;
use edge_io::Clock;
use mount_model::{Ask, Reply};
use store_api::Store;
use turn_object::Object;

impl<S: Store + Drop, C: Clock + Drop> Object for Mount<S, C> {
    ghost use Rattle.mount_model.specs.Step.{IsStep};
    ghost use Rattle.mount_sound.specs.Owed.{May};
    ghost use Rattle.mount_sound.specs.Sound.{IsFine};
    ghost use Rattle.mount_sound.proofs.Facts.{step_fine, may_last};

    type Ask = Ask;

    type Reply = Reply;

    ghost step = { IsStep };

    ghost may = { λ state caller ask. IsFine state × May state caller ask };

    ghost may_lasts = { λ old new caller other ask asked reply differ mine theirs step. (step_fine old new other asked reply theirs.1 step mine.0, may_last old new caller other ask asked reply differ mine.0 mine.1 theirs.1 step) };

    fn apply(&mut self, caller: u64, ask: &Ask) -> Reply {
        self.apply(caller, ask)
    }
}
