//! Stops within a call.
ghost use Rattle.std.specs.Prelude.{◌≡◌};
ghost use Rattle.actor_core.specs.Stopping.{is_due as due_test, one_nearer as nearer, stoppable as stoppable_of, due_bytes as bytes_due};

use crate::kept::Stop;
use mount_model::{Ask, Call};

/// Whether the stop is within the next call.
pub(crate) fn is_due(stop: Option<Stop>) -> bool
    ensures { result ≡ due_test stop }
{
    match stop {
        Some(stop) => stop.call == 1,
        None => false,
    }
}

/// The stop after one more call.
pub(crate) fn one_nearer(stop: Option<Stop>) -> Option<Stop>
    ensures { result ≡ nearer stop }
{
    match stop {
        Some(stop) => Some(Stop {
            call: stop.call.saturating_sub(1),
            bytes: stop.bytes,
        }),
        None => None,
    }
}

fn due_bytes(stop: Option<Stop>) -> Option<u64>
    ensures { result ≡ bytes_due stop }
{
    match stop {
        Some(stop) => {
            if stop.call == 1 {
                Some(stop.bytes)
            } else {
                None
            }
        }
        None => None,
    }
}

/// The call, broken off where the stop is within it.
pub(crate) fn stoppable(armed: Option<Stop>, call: Call) -> Ask
    ensures { result ≡ stoppable_of armed call }
{
    let stop = due_bytes(armed);
    Ask { call, stop }
}
