//! A migration: the index dropping of each writer that closed a container is packed, so that readers need no more than a
//! few runs of it.
//!
//! The crate owns the machine that does so: which calls it makes for each such writer, in which order, and what comes of
//! the replies. It stands on `mount_model`, on the listing of `index_reader` and on the form of `index_pack`, and
//! needs no mount.
#![tactic(auto)]

mod chosen;
mod entries;
mod going;
mod migrated;
mod migrating;
mod packing;
mod shown;
mod stage;
mod steps;
mod writers;

pub use migrated::Migrated;
pub use migrating::MigrateFlow;
