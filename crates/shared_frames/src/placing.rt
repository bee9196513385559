//! The actors of a process.
ghost use Rattle.std.specs.Prelude.{◌≡◌, ◌<◌};
ghost use Rattle.shared_frames.specs.Placing.{actor_at, placed as placed_at};

use frame_format::{ACTORS, Head};

/// How many processes there are at most. Each has a place, from 0.
pub const PLACES: u64 = 16;

/// How many actors each process has. It calls them 0 to 15.
pub const EACH: u64 = 16;

// The actor that the process at this place calls so. One that no process has is none of the engine either.
fn actor_at(place: u64, actor: u64) -> u64
    requires { place < PLACES }
    ensures { result ≡ actor_at place actor }
{
    if actor < EACH {
        EACH * place + actor
    } else {
        ACTORS
    }
}

/// The head of a frame that came from the process at this place, with the actor by the engine's number. All else is kept.
pub fn placed(place: u64, head: &Head) -> Head
    requires { place < PLACES }
    ensures { result ≡ placed_at place head.now }
{
    Head {
        kind: head.kind,
        actor: actor_at(place, head.actor),
        number: head.number,
        place: head.place,
        extent: head.extent,
        len: head.len,
    }
}
