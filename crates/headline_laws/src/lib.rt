//! What the printed lines of a run say, proved: the laws of the page `headline`, field by field.
//!
//! It owns the laws that the lines of each actor are orderly, that what stood in the tree before stands after, and that a story fits the lines.
//! By such a story writers that were opened have their files. Each reader sees what was told before, as one plain file of the writes that lines tell.
//!
//! It owns too what the lines of a play tell in the words of histories, in any lawful one from a sound state, whatever order its actors call in.
//! The lines of each reader, and of each look at a file, are those of one plain file. These laws stand on those of machines: what a reader's make
//! of a container, and what a writer's leave in the mount's table. From them follows that no line tells of damage, and that the number of each sync
//! and each close counts the lines of writes. There is no code in it.
#![tactic(auto)]

mod laws;
mod play_laws;

pub use laws::{lines_are_orderly, lines_have_a_story, what_stood_stands};
pub use play_laws::{no_line_is_damaged, readers_show_one_file, syncs_count_what_was_written};
