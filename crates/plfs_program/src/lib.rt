//! The commands of `plfs` over any store: words, input, script, mount, work, output, status.
//!
//! It owns laws of plays and of runs. A play is a function of its script, of the store and the clock as they were, and of what the acts left that
//! faulted. And two runs of the program on equal stores, with equal clocks and inputs, print the same bytes and leave equal stores, where nothing failed
//! and memory sufficed.
#![tactic(auto)]

mod cat;
mod commands;
mod faults;
mod held;
mod input;
mod laws;
mod migrating;
mod pack_run;
mod packing;
mod plain_run_laws;
mod program_replay_laws;
mod replay_laws;
mod reporting;
mod running;
mod showing;
mod small_files;
mod summary;
mod top;
mod work;

pub use held::HeldInput;
pub use input::{Input, NoInput};
pub use laws::a_run_leaves_a_sound_tree;
pub use plain_run_laws::small_files_are_the_machines;
pub use program_replay_laws::{
    faulted_plays_print_the_same, faulted_runs_print_the_same, plays_print_the_same,
    single_runs_print_the_same,
};
pub use replay_laws::{
    a_mounted_play_is_a_function, a_play_is_a_function, each_play_keeps_to_a_plan,
    faultless_plays_are_one, lone_runs_are_one, plays_are_one_history,
};
pub use running::plfs;
pub use top::single;
