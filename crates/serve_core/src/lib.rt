//! Serving clients on one mount: each has an actor of its own and asks for one statement after the other.
//!
//! The crate owns how a request becomes the calls of its client's actor, and what all that was served comes to: the play of a script
//! that nobody wrote beforehand, in which each request is a phase by itself. It stands on the actors of `actor_core`, the mount, and the
//! plays of `run_core`.
#![tactic(auto)]

mod calling;
mod cast;
mod client;
mod laws;
mod serving;

pub use cast::clients_of;
pub use client::Client;
pub use laws::{
    one_request_more_is_served, served_requests_are_a_play, unfinished_requests_are_a_broken_play,
};
pub use serving::serve;
