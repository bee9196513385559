//! The mount's table: its writers, those who hold a room, and the flattenings.
//!
//! It owns what lies in memory of them while a store is mounted, the serials that are drawn, the checks that rest on the
//! table, and what each answer of the store makes of reply and table. Contracts see it as a `Roll`. The crate has no
//! store: it stands on `mount_model`, whose outcomes it is proved to give, on the buffer of a writer's entries, and on
//! the names of what a container holds.
#![tactic(auto)]

mod building;
mod drawing;
mod ending;
mod entering;
mod flattening;
mod flattenings;
mod flooring;
mod flushing;
mod holders;
mod holding;
mod leaving;
mod paths;
mod places;
mod recovering;
mod roster;
mod scanning;
mod stages;
mod telling;
mod writer;
mod writing;

pub use holding::{truncate_check, truncate_stamp};
pub use leaving::{exit_check, put_meta_check};
pub use paths::{
    dropping_path, hostdir_path, index_path, installed_path, log_path, meta_path, metadata_path,
    open_path, temporary_path, trunc_path,
};
pub use roster::Roster;
pub use scanning::{Listing, greatest};
pub use stages::Stages;
pub use telling::{nowhere, otherwise};
pub use writing::{stamp_at, write_check};
