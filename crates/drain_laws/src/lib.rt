//! What a drain leaves of its target, whatever is answered, wherever it ends and whatever is called at its source meanwhile.
//!
//! The crate owns the laws that join the program of `drain_copy` to what `drain_sound` says of a target. There is no code in it.
#![tactic(auto)]

mod laws;

pub use laws::{
    a_drain_copies_what_is_kept, a_drain_ends_for_a_reason, a_drain_is_always_allowed,
    a_drain_is_taken_by_one_that_went_on, a_drain_reads_behind_its_target,
    a_drain_that_ends_well_has_copied, a_drain_without_news_copies_nothing,
    a_drained_target_keeps_it, a_drained_target_shows_the_source, a_driven_drain_keeps_its_target,
    a_fault_is_told_of_the_store_that_failed, a_fault_of_a_drain_is_a_stores,
    a_target_shows_no_damage,
};
