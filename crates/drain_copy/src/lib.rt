//! A drain: a container is copied to a second store, the target, beside its writers, and a later drain copies only what came.
//!
//! The crate owns the two-sided program: what is asked of the source's mount and which steps are made at the target, in which
//! order, and what comes of replies and answers. What it reads is `drain_read`'s. It needs neither a mount nor a store.
#![tactic(auto)]

mod copying;
mod drain;
mod gathering;
mod holding;
mod making;
mod outcome;
mod parts;
mod plan;
mod points;
mod stages;
mod telling;
mod work;

pub use drain::Drain;
pub use outcome::{DrainStuck, Drained};
pub use parts::LOG_PART;
pub use points::DrainNext;
