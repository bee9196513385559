//! Frames on streams: requests are read of a source, and answers are written to a sink.
//!
//! The crate owns where one frame ends and the next begins, and what is told where a source ends or fails within one. It stands on
//! the formats of `frame_format`, and on the sources and sinks of `edge_io`.
#![tactic(auto)]

mod arriving;
mod filling;
mod frames;
mod writing;

pub use arriving::{Arrival, next_frame};
pub use frames::{Frames, SourceFrames};
pub use writing::write_answer;
