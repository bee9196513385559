//! A backing store in memory, which tells what it holds and fails where it is told to.
//!
//! It owns the plan of faults: at which act the store fails, and what that act leaves; and what a loss of power leaves
//! of it. It makes each step of `store_api` on a `Tree` of that crate. Names, lists and bytes are those of
//! `plfs_types`.
#![tactic(auto)]

mod keeping;
mod listing;
mod losing;
mod perform;
mod room;
mod store;

pub use losing::{Keep, KeepList};
pub use store::{Fail, FailList, MemoryStore};
pub use store_api::{File, FileList, Room, RoomList, Tree};
