//! Calls for which nothing is owed.
ghost use Rattle.mount_model.specs.Step.{IsOwed};
ghost use Rattle.mount_sound.specs.Owed.{OwesNothing};
ghost use Rattle.run_core.specs.Leading.{MadeCall};

use edge_io::Clock;
use mount_core::Mount;
use mount_model::{Ask, Reply};
use store_api::Store;

/// Makes a call of actor 0, for which nothing is owed of the mount's state.
#[tactic(auto, using(crate::proofs::Players::UnowedCalls::unowed_called))]
pub(crate) fn call_unowed<S: Store + Drop, C: Clock + Drop>(
    mount: &mut Mount<S, C>,
    ask: &Ask,
) -> Reply
    requires numbers { IsOwed ask.now }
    requires unowed { OwesNothing ask.now.call }
    ensures { MadeCall mount.old 0 ask.now result mount.new }
{
    mount.apply(0, ask)
}
