//! The command that drains a container to a second store, over any two stores: words, mount, drain, line, status.
//!
//! The crate owns how a drain is driven by one caller by itself, the line that tells of it, and the status. It stands on `drain_copy`,
//! whose machine says what is asked, and on `drain_laws`, which says what that leaves. How it ends is the matter of `program_ends`.
#![tactic(auto)]

mod driving;
mod saying;
mod top;
mod words;

pub use top::{DrainEnded, drain};
pub use words::DrainCommand;
