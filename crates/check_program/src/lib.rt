//! The command of `plfs_check` over any store: whether its tree is sound, and what is complained of it, room by room.
//!
//! The crate owns these words, the lines that tell complaints, and the status. It stands on `tree_check`, which looks at one
//! room after the other, and on `plfs_program`, which writes lines out. Nothing is mounted, and nothing changes.
#![tactic(auto)]

mod lines;
mod rooms;
mod saying;
mod top;
mod watching;
mod words;

pub use top::{USAGE, check};
pub use watching::{NoWatcher, Watcher};
pub use words::CheckCommand;
