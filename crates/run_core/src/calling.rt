//! Calls of the mount.
ghost use Rattle.std.specs.Prelude.{◌≡◌};
ghost use Rattle.mount_sound.specs.Owed.{May};
ghost use Rattle.run_core.specs.Leading.{MadeCall};
ghost use Rattle.run_core.specs.Written.{greets as greets_test};

use edge_io::Clock;
use mount_core::Mount;
use mount_model::{Ask, Call, Reply};
use store_api::Store;

/// Whether the call is a greeting.
pub(crate) fn greets(call: &Call) -> bool
    ensures { result ≡ greets_test call.now }
{
    matches!(call, Call::Greet)
}

/// Makes a call that its caller may make.
#[tactic(auto, using(crate::proofs::Players::Leading::called))]
pub(crate) fn call<S: Store + Drop, C: Clock + Drop>(
    mount: &mut Mount<S, C>,
    caller: u64,
    ask: &Ask,
) -> Reply
    requires { May mount.old caller ask.now }
    ensures { MadeCall mount.old caller ask.now result mount.new }
{
    mount.apply(caller, ask)
}
