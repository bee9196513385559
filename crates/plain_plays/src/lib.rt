//! A play's lines are what the plain machine says of its script, where nothing fails.
//!
//! It owns the laws that each statement is a step of the plain machine, and that an open writer is served, or why not. Further laws join the
//! steps to a whole play, and to a packing of small files. There is no code in it.
#![tactic(auto)]

mod laws;
mod lone_laws;
mod pack_steps;
mod plain_laws;

pub use laws::{foreign_names_are_told_first, plays_are_plain, stops_come_in_their_call};
pub use lone_laws::{lone_openings_have_the_machines_file, migrations_change_no_file};
pub use pack_steps::packings_are_plain;
pub use plain_laws::{
    flattenings_are_steps, listings_are_steps, machines_begin_with_mounts, open_writers_are_served,
    openings_are_served, reader_statements_are_steps, recoveries_are_steps, tellings_are_steps,
    truncates_and_renames_are_steps, truncates_take_the_next_stamp, writer_statements_are_steps,
    writers_are_plain,
};
