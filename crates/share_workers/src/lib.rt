//! Workers that read the shares of a container, each on a thread and with a pass of its own.
//!
//! The crate owns how a machine is driven by a pass of a mount's turn, and how the passes of workers are split from their caller's and joined into it again.
//! It stands on the machines of `index_reader` and `gather_flow`, the mount, the turn of `turn_object`, and the histories of `mount_model`.
#![tactic(auto)]

mod outcome;
mod worker;
mod workers;

pub use workers::read_by_workers;
