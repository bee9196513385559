//! What the answers of an engine say, proved: the laws of the page `headline` hold of each run of `plfs_serve`.
//!
//! It owns the laws that an engine which ended well has served what it was asked for, and that its lines are orderly and have a story
//! that fits. There is no code in it: it stands on the contract of `serve_program`, and on the laws of `headline_laws`.
#![tactic(auto)]

mod laws;

pub use laws::{
    requests_are_made_in_their_order, what_ended_so_was_served, what_was_served_keeps_its_word,
};
