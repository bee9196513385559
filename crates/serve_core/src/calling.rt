//! Calls of the mount.
ghost use Rattle.mount_sound.specs.Owed.{May};
ghost use Rattle.run_core.specs.Leading.{MadeCall};

use edge_io::Clock;
use mount_core::Mount;
use mount_model::{Ask, Reply};
use store_api::Store;

/// Makes a call that its caller may make.
#[tactic(auto, using(crate::proofs::Steps::called))]
pub(crate) fn call<S: Store + Drop, C: Clock + Drop>(
    mount: &mut Mount<S, C>,
    caller: u64,
    ask: &Ask,
) -> Reply
    requires { May mount.old caller ask.now }
    ensures { MadeCall mount.old caller ask.now result mount.new }
{
    mount.apply(caller, ask)
}
