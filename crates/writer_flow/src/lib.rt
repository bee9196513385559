//! The machines of a writer: it is opened, it writes, and it is synced and closed.
//!
//! The crate owns which calls each of these statements makes, in which order, and what comes of the replies: each
//! machine has its program of calls, and what one keeps of an open writer between two machines is its handle. It
//! stands on `mount_model` and on the mount's model, and needs no mount.
#![tactic(auto)]

mod closing;
mod handle;
mod opening;
mod syncing;
mod writing;

pub use closing::CloseFlow;
pub use handle::{WriterHandle, WriterOut};
pub use opening::OpenWrite;
pub use syncing::SyncFlow;
pub use writing::WriteFlow;
