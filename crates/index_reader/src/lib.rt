//! The machines of a reader: it lists a container, reads its index droppings in shares, lists its truncates, and reads
//! the bytes of the file from the logs.
//!
//! The crate owns which calls each of these makes, in which order, and what comes of the replies: each machine has its
//! program of calls. It stands on `mount_model` and on the mount's model, and needs no mount.
#![tactic(auto)]

mod bytes;
mod covers;
mod droppings;
mod entries;
mod firsts;
mod flats;
mod flattened;
mod gathered;
mod giving;
mod hosts;
mod listed;
mod listing;
mod newest;
mod opened;
mod opening;
mod owners;
mod packed;
mod packs;
mod parts;
mod placing;
mod reading;
mod replies;
mod scanning;
mod sharing;
mod steps;
mod tail_flow;
mod tails;
mod tops;
mod truncs;

pub use entries::Tail;
pub use gathered::{Gathered, ShareList, gather, join_shares};
pub use giving::look_on;
pub use hosts::found as host_found;
pub use listing::{Dropping, DroppingList, Listing};
pub use opened::OpenReader;
pub use opening::{AfterOpen, OpenRead};
pub use placing::found as dropping_of;
pub use reading::Reading;
pub use replies::log_length_in;
pub use sharing::{Share, ShareRead};
pub use tail_flow::TailFlow;
pub use truncs::TruncRead;
