//! Running a script on threads: its actors make their calls on one mount, in each phase each actor on a thread of its own.
//!
//! The crate owns how the actors' passes go through the phases of one turn: each keeps one pass over the whole run, the passes learn from each other between
//! phases, and all are joined where the turn is closed. It stands on the courses of actors and the right lines of `run_core`, the turn of `turn_object`, the workers
//! of `share_workers`, and the histories of `mount_model`.
#![tactic(auto)]

mod apart;
mod collecting;
mod entering;
mod leaving;
mod parts;
mod phase;
mod player;
mod running;
mod told;

pub use running::{RunEnded, run};
