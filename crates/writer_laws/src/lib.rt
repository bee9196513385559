//! What the machines of a writer leave of it, in any legal history of the mount in which others call in between.
//!
//! After an opening, a write, a sync and a close, the handle that is left tells how many entries are in the writer's
//! buffer, and goes on so while its caller lets the writer be. The number of a sync is that of the writer's writes that
//! were answered. These ask nothing of the tree: sound or not, they hold. In a sound one, what a sync told survives each
//! later loss of power. There is no code in it: it stands on the mount's steps, on what a loss leaves of a sound mount,
//! and on the programs of `writer_flow`.
#![tactic(auto)]

mod laws;

pub use laws::{
    a_handle_tells_of_its_buffer, a_handle_waits, a_sync_counts_every_write, a_sync_survives,
    an_opened_writer_has_no_entries,
};
