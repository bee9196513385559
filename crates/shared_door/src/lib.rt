//! Several processes that one engine serves, by pairs of named pipes in a folder.
//!
//! The crate owns the threads that read what processes ask and write what they are answered, and the order in which their frames go to the engine.
//! `shared_frames` says whose an answer is, and `frame_streams` where a frame ends. What the system's pipes do is trusted, as is what
//! threads do beside each other: no clause speaks of it.
#![tactic(auto)]

mod ahead;
mod board;
mod door;
mod hearing;
mod input;
mod process;
mod streams;

pub use board::Board;
pub use door::{Door, open_door};
pub use hearing::Hearing;
pub use input::{InputFrames, input_frames};
pub use streams::{Answers, Requests};
