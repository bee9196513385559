//! What a mount is, what each call on it may answer and leave, what a machine is that makes calls, and what several callers do in phases.
//!
//! It owns the table of writers, the calls and replies, and the one step relation, in which a call is a check, an
//! act on the store, and what each answer of the store makes of the table; broken off, it makes a part of its act, and
//! its caller is at its end. It says too how a store is mounted, and why it is not. It has no code of the mount: the
//! mount is proved to make these steps, and laws about histories of steps need nothing but this crate.
//!
//! It owns what a machine is: a program of calls that goes on with each reply, and the trait `Flow`, by which
//! a machine gives the calls of its program and takes the replies. It also owns what a machine makes of a reply to a look
//! at a container: which items the names of a listing are, which entry may come next in an index dropping, and what in a
//! reply is a trouble, a call that was refused or failed, or damage with its place. Machines need no mount: who drives one
//! makes its calls wherever it likes.
//!
//! And it owns the process of an actor in a whole run, and when a history makes the calls of actors: phase by phase, each call determined by
//! the replies before it, each actor's workers between two of its own calls, and nobody else's. Threads that use an object in turn make such a
//! history, and so do actors that take written turns on one thread. That part has no code: it stands on the histories and the passes of `turn_object`.
#![tactic(auto)]

mod call;
mod entries;
mod laws;
mod machine;
mod mount_trouble;
mod names;
mod order;
mod replies;
mod reply;
mod row;
mod story_laws;
mod stuck;

pub use call::{Ask, Call, Look};
pub use entries::{first_entry, is_next, next_read, past_first};
pub use laws::{
    a_refusal_changes_nothing, a_stop_is_a_fault_and_an_end, faults_have_causes,
    mounting_is_regular, mounting_lowers_no_count, place_lasts, regular_lasts, replies_fit,
};
pub use machine::Flow;
pub use mount_trouble::MountTrouble;
pub use names::{Metadata, MetadataList, OpenEntry, OpenEntryList, meta_in, open_in, trunc_in};
pub use order::{entries_by_writer, metadata_by_writer, truncs_by_stamp};
pub use replies::{
    bytes_in, damage, failure, file_in, is_no_folder, length_in, names_in, room_in, trouble,
};
pub use reply::{Refusal, Reply};
pub use row::{FlatStage, Flattening, Holder, Making, Row, Stage};
pub use story_laws::{
    a_pass_goes_on, a_phase_takes_a_player_on, a_safe_pass_may_ask,
    actors_on_one_thread_make_the_calls, players_make_the_calls, programs_follow_each_other,
    workers_take_a_pass_on, written_turns_make_the_calls,
};
pub use stuck::Stuck;
