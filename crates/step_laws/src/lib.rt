//! Where the store tells its tree and the clock its times, what a call does follows from the state before it, and from
//! what a fault of the store left.
//!
//! It owns the law that two steps of one state, for one caller and one question, are one step. The store faulted alike
//! in both, and neither was refused memory. The same is said of mountings, whether a mount was made or not. There is no
//! code in it: it stands on the mount's step alone.
#![tactic(auto)]

mod laws;

pub use laws::{broken_mountings_are_one, mountings_are_one, steps_are_one, told_mounts_stay_told};
