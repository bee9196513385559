//! The whole of `plfs_serve` over any store, source and sink: it mounts, answers the requests of the source one after the other, and
//! closes what they left open.
//!
//! The crate owns what becomes of each frame, and how a run ends. It stands on `frame_streams`, which cuts the source into frames, and on
//! `serve_core`, which makes the statements.
#![tactic(auto)]

mod answering;
mod closing;
mod exchange;
mod laws;
mod whole;
mod words;

pub use exchange::Stop;
pub use laws::a_served_script_fits;
pub use whole::serve_all;
pub use words::{ServeCommand, USAGE};
