//! Soundness of a mount's state, and that each call keeps it.
//!
//! It owns the shape of a container and of the room of the mounts' marks, whatever the droppings hold: names, folders, files and ids. It owns
//! what a sound tree is, and what a state of the mount has to be for the writes that its writers issued: each
//! index dropping is the first of its writer's entries and less than one more, and its log begins with their bytes. It
//! has no code beyond its laws.
#![tactic(auto)]

mod exclusion;
mod installed;
mod laws;
mod mount_shape_laws;
mod recovery;

pub use exclusion::{a_truncate_comes_after_all, holders_keep_writers_out};
pub use installed::{
    a_left_writer_can_be_packed, a_writer_has_one_packed_index, installed_indices_stay,
    what_is_installed_is_right,
};
pub use laws::{
    a_failed_mounting_leaves_a_sound_tree, a_left_tree_is_sound, an_empty_tree_is_sound,
    fineness_lasts, issues_only_grow, landed_never_falls, lawful_is_legal_and_allowed,
    mounting_is_fine, mounting_is_sound, soundness_lasts, steps_keep_soundness,
    what_is_told_has_landed, what_landed_was_issued, what_stands_stays,
};
pub use mount_shape_laws::{
    a_failed_mounting_leaves_a_shaped_tree, a_left_tree_is_shaped, a_lost_tree_is_shaped,
    an_empty_tree_is_shaped, mounting_has_shape, shape_lasts,
};
pub use recovery::{only_the_dead_are_recovered, what_recovery_leaves};
