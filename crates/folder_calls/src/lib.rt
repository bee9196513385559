//! The calls of the system that a store on a folder makes, and what is done by them to an open file. It owns the log of
//! the calls, which each of them tells itself; which names can stand in a path; the files that are kept open, those that
//! were used last, each with its length, and how many the process may have open; of which files and folders a sync failed; whose bytes a write may change; and why a call failed. Proved are which calls a step on an open file makes, and
//! what it answers. What the system does at a call is tested. It stands on the steps of a store, and on a cache.
#![tactic(auto)]

mod ahead;
mod cache;
mod calls;
mod doubts;
mod failure;
mod held;
mod limits;
mod own;
mod paths;
mod reason;
mod system;

pub use ahead::ReadAhead;
pub use cache::{FileKey, OpenFiles};
pub use calls::{Calls, Removal};
pub use doubts::{Doubts, Item};
pub use failure::Failure;
pub use held::Held;
pub use limits::{limit_in, open_limit, share_of};
pub use own::OwnFiles;
pub use paths::{is_part, is_room_name, join, part};
pub use reason::{Asked, Cause, Doubt, Kind, Place, Reason, doubt_by};
pub use system::{System, SystemCalls};
