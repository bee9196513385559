//! Playing a script: its actors make their calls on one mount, by written turns.
//!
//! The crate owns what each actor does in a whole run, in which order the written turns have the actors call, and which lines are right for a script, by the same
//! words for one that is played and, by `thread_runs`, for one that is run on threads. It stands on the actors of `actor_core`, the mount, and the histories of
//! `mount_model`. In a play each actor calls under a number of its own, its place in the declarations.
//! One actor by itself can also be driven statement by statement, each chosen by the lines before: what it made is the play of a script of one actor.
//!
//! It owns the laws of what each statement of an actor may do: each of its calls is allowed, whatever others do meanwhile, and it comes to its line. They carry
//! what the laws of machines say over to all that an actor does: a stop that breaks a call off, the greeting before the first statement, and the workers of a
//! reader.
#![tactic(auto)]

mod calling;
mod ending;
mod laws;
mod lone_reader;
mod phase;
mod player;
mod playing;
mod statement_laws;
mod turns;
mod unowed;

pub use laws::a_play_is_right;
pub use lone_reader::LoneReader;
pub use playing::play;
pub use statement_laws::{statements_are_always_allowed, statements_come_to_a_line};
