//! A backing store on a real folder of the system. It owns the way from a step of the store to calls of the
//! system: rooms are folders of ROOT, their folders and files lie in them under their own names. It tells no
//! tree. Proved are how acts and faults are counted, the room numbers that it keeps, and for each step that is answered
//! which calls it made, on which paths, in which order: so for the listing that numbers the rooms, for the making of a
//! room and the clearing of what one left, and for a step on a file, which is open or is opened for it. Of a step that
//! fails is proved how far these calls came. It stands on the contract of a store, and on the calls of the system and
//! the files that they keep open.
#![tactic(auto)]

mod building;
mod disk;
mod files;
mod folders;
mod leftovers;
mod rooms;
mod store;
mod syncing;

pub use folder_calls::{
    Asked, Calls, Cause, Failure, Kind, Place, ReadAhead, Reason, Removal, System, SystemCalls,
    open_limit,
};
pub use store::{FolderStore, StoreByCalls};
