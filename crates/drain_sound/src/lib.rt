//! What a drain leaves of its target.
//!
//! It owns what a target of drains is: a sound tree whose container holds, of each writer of one room of the source, the first
//! bytes of what has landed there. Each step of a drain keeps it, whole or in part, so does a loss of power, and so does what
//! goes on at the source. It stands on the soundness of mounts and has no code beyond its laws.
#![tactic(auto)]

mod laws;

pub use laws::{
    a_drain_keeps_its_target, a_front_is_sound, a_loss_keeps_the_target,
    a_mounting_keeps_the_target, a_reader_there_misses_nothing_copied,
    a_reader_there_sees_the_source, a_step_keeps_the_target, a_target_lasts,
    a_target_lasts_to_the_next_mount, a_target_outlasts_a_loss_at_its_source,
    a_tree_without_it_is_a_target, readers_keep_the_target,
};
