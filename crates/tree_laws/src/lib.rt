//! What can be checked of a tree is its soundness.
//!
//! It owns the list of what is checked, which names no ledger, and the complaints, each of which says that one thing of
//! the list isn't so. It has no code beyond its laws: no program makes the checks yet. It stands on what a sound tree is.
#![tactic(auto)]

mod laws;

pub use laws::{
    a_checked_tree_is_sound, a_complaint_denies_soundness, a_sound_tree_is_checked,
    an_unsound_tree_has_a_complaint,
};
