//! The code of the mount: the calls, each of which is a check and at most one act.
//!
//! Contracts see a mount as a `State` of `mount_model`, and each call is proved to be a step of that crate's relation,
//! which keeps a fine state fine (`mount_sound`). A mount is an object of `turn_object`, so that threads can use it in
//! turn. The crate stands on these, on the mount's table (`mount_table`), on the contracts of stores and clocks, and on
//! the names of what a container holds.
#![tactic(auto)]

mod apply;
mod building;
mod entering;
mod finding;
mod flattening;
mod flooring;
mod flushing;
mod holding;
mod leaving;
mod looking;
mod mount;
mod opening;
mod parting;
mod recovering;
mod shared;
mod stopping;
mod stopping_flattenings;
mod stopping_holders;
mod stopping_recovery;
mod stopping_writers;
mod writing;

pub use mount::Mount;
pub use mount_model::{Ask, Call, Look, MountTrouble, Refusal, Reply};
