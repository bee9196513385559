//! Recovery: what writers left that are gone is mended, and they are taken out of the folder of who has the container
//! open.
//!
//! The crate owns the machine that does so: which calls it makes for each such writer, in which order, and what comes of
//! the replies. It stands on `mount_model`, and needs no mount.
#![tactic(auto)]

mod entries;
mod fates;
mod listing;
mod recovering;
mod runs;
mod steps;
mod writers;

pub use recovering::{RecoverFlow, Recovered};
