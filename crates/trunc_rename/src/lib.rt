//! The machines of a truncate and of a rename.
//!
//! Both hold the container, so that no writer has it open or opens it, and let it go again whatever happens. The crate
//! owns which calls each makes, in which order, and what comes of the replies. It stands on `mount_model`, and
//! needs no mount.
#![tactic(auto)]

mod holding;
mod renaming;
mod tops;
mod truncating;

pub use renaming::RenameFlow;
pub use truncating::TruncFlow;
