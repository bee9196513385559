//! One caller by itself on a mount: it greets, and makes all calls of one machine after the other, while nobody else calls.
//!
//! The crate owns which history that is, what comes of a migration that is made so, and which machines follow which where small files are read
//! or put. To read, a container is opened, all its regions are scanned, and then one file is read, or all are named. To put, a region is scanned
//! where the container is there, a writer is opened, the files are put one behind the other, and the writer is synced and closed.
//!
//! It stands on the machines of `opening_flow`, `pack_files` and `writer_flow`, on the mount, and on the laws of migrations. Actors, whose
//! statements have machines of their own, are driven elsewhere.
#![tactic(auto)]

mod beginning;
mod driving;
mod migrating;
mod naming;
mod pack_core_driving;
mod packing;
mod putting;
mod scanning;
mod settling;
mod unpacking;

pub use driving::drive;
pub use migrating::migrate;
pub use naming::names;
pub use pack_core_driving::drive_freely;
pub use packing::{Packed, pack};
pub use putting::Put;
pub use scanning::scan;
pub use settling::settle;
pub use unpacking::{open_reader, unpack};
