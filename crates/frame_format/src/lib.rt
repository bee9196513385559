//! Frames: the requests that a client writes and the answers that it reads, as bytes.
//!
//! The crate owns which bytes are a request and which are an answer. A request is one statement of an actor, and its answer tells
//! that statement's line. It stands on the statements and lines of `script_lang`, and on the numbers of `index_entry`.
#![tactic(auto)]

mod answering;
mod asking;
mod head;
mod laws;
mod reading;

pub use answering::{ANSWER_HEAD_SIZE, Answer, answer_of};
pub use head::{HEAD_SIZE, Head};
pub use laws::{answers_are_told_apart, requests_are_told_apart};
pub use reading::{ACTORS, request};
