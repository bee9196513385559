//! What the machines of a reader make of a container, in any lawful history of the mount from a sound state, whatever
//! others call in between.
//!
//! It owns the law of a reader: who makes a reader's calls has a cut that lies between its first call and its listing
//! of truncates, and answers from the plain file of that cut and those truncates. It joins the programs of `index_reader` to that: who runs
//! the programs of an opening has the plain file of a cut, and each later read gives a part of that file. It stands on the mount's model and
//! soundness and on the plain file, and has no code beyond its laws.
#![tactic(auto)]

mod example;
mod histories;
mod laws;
mod readers;

pub use example::{a_packed_index_can_be_gathered, a_reader_opens_beside_a_torn_flush};
pub use histories::{
    call_has_place, caller_sees, flush_lands, history_grows, moments_follow_histories,
    nothing_lands_unflushed, reads_fail_by_store, sync_lands, truncates_come_above, truncates_stay,
};
pub use laws::{
    a_listing_fails_by_store, a_listing_is_a_scan, a_reader_opens, a_reader_opens_by_workers,
    a_share_is_gathered, an_open_reader_reads_its_file, an_opening_shows_no_damage,
    flattening_leaves_readers_the_same, shares_and_truncates_fail_by_store, truncates_are_listed,
};
pub use readers::{
    actor_opens, actor_reads, an_opened_flattened_index_is_right, flattening_changes_nothing,
    flushed_is_gathered, gathered_entries_are_in_order, gathered_entries_are_readable,
    later_truncates_are_above, one_writer, open_readers_fail_by_store, parts_lie_in_logs,
    pieces_give_size, reader_answers, reader_opens, scan_finds, shared_reader_opens,
    synced_is_gathered, view_is_answered, view_stays, without_covers_all_is_gathered,
    workers_gather,
};
