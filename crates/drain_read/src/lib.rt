//! What a drain reads: what the container of a target has, and what that of its source has past it.
//!
//! The crate owns the two machines that read: which calls each makes, in which order, and what comes of the replies. It stands
//! on the machines of `index_reader`, and needs neither a mount nor a store.
#![tactic(auto)]

mod container;
mod held;
mod out;
mod read;
mod settled;
mod waiting;

pub use container::{ContainerRead, ContainerTurn};
pub use held::{Held, HeldRead, HeldTurn, Mirror, MirrorList};
pub use read::{Contained, Known, WriterRead, WriterReadList};
pub use waiting::Waiting;
