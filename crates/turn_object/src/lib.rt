//! One object that many threads use in turn.
//!
//! A `Turn` is a lock by tickets whose calls have one order. Each call is one entry of one history, which is legal for the object, and each thread knows a
//! beginning of it: what it has seen, its own entries in it, and those of the threads that it joined. It stands on `atomic_table`, whose steps it uses, and on the
//! `NoMemory` of `plfs_types`.
#![tactic(auto)]

mod front;
mod history;
mod object;
mod rule;
mod slot;
mod turn;

pub use front::{Front, Stage};
pub use history::{Ended, Entry};
pub use object::Object;
pub use slot::Resting;
pub use turn::{Pass, Turn};
