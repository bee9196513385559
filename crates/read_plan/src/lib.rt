//! Which bytes of the writers' logs a read of a file takes.
//!
//! The crate owns the plan of a read: the pieces of a file that meet the range, each cut to it and
//! turned into a place in its writer's log, and a hole of zeros for each gap between them. It stands
//! on `plain_file`, which owns the pieces, and on `plfs_types`.
#![tactic(auto)]

mod part;
mod planning;
mod searching;

pub use part::{Part, PartList};
pub use planning::plan;
pub use searching::first_past;
