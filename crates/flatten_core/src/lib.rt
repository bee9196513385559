//! The machines of a flattening: one begins it, one installs what was gathered in between, and one does all of it.
//!
//! The end lists the droppings again, syncs those that are covered, so that no loss of power takes what the flattened
//! index tells of, and then puts, syncs and installs it. The crate owns which calls each makes, in which order, and what
//! comes of the replies. It stands on `mount_model`, on the listing of `index_reader` and on
//! the gathering of `gather_flow`, and needs no mount.
#![tactic(auto)]

mod covered;
mod flattening;
mod giving;
mod installing;
mod parts;
mod stages;
mod starting;
mod underway;

pub use flattening::{FlattenFlow, Flattened};
pub use installing::InstallFlow;
pub use starting::{StartFlow, Started};
