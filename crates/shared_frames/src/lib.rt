//! Frames of several processes as one sequence, and each answer back to the process that asked.
//!
//! The crate owns which actors a process has, in which bytes its frames are handed on, and whose an answer is. It stands on the formats of
//! `frame_format`. It reads no stream and starts no thread.
#![tactic(auto)]

mod exchange;
mod incoming;
mod laws;
mod outgoing;
mod placing;

pub use exchange::{Exchange, Told};
pub use incoming::Incoming;
pub use laws::{
    a_placed_request_is_the_same_of_another_actor, answers_are_cut_at_their_ends,
    answers_go_to_those_who_asked, places_share_no_actor,
};
pub use outgoing::Outgoing;
pub use placing::{EACH, PLACES, placed};
