//! What a loss of power leaves of a sound mount.
//!
//! It owns which of a writer's entries are kept with their bytes: whatever is lost, the tree that is left is sound and
//! has them, what was synced is among them, and no call takes one of them out. It has no code beyond its laws.
#![tactic(auto)]

mod laws;

pub use laws::{
    a_lost_mount_is_sound, a_lost_tree_is_sound, installed_indices_survive, kept_entries_survive,
    synced_entries_survive, what_is_kept_stays_kept, what_was_kept_at_mounting_survives,
    what_was_synced_is_kept,
};
