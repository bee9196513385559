//! What each step of a store changes of a tree, and what its answer tells of it, path by path and
//! folder by folder. There is no code in it: it stands on the store's contract alone.
#![tactic(auto)]

mod answers;
mod changes;
mod losses;
mod tells;
mod touches;

pub use answers::{
    finding_tells, length_tells, listing_tells, listings_are_one, looks_change_nothing,
    reading_tells, rooms_tell,
};
pub use changes::{
    adds_one_room, creates_one_file, cuts_one_file, makes_one_folder, moves_one_file,
    removes_one_empty_folder, removes_one_file, renames_one_room, syncs_one_file, writes_one_file,
};
pub use losses::{common_is_the_longest_front, kept_bytes_stay, losses_leave_fronts};
pub use tells::{creates_are_made_or_not, told_trees_go_on, writes_are_made_or_in_part};
pub use touches::{files_only_grow, order_is_kept, steps_change_what_they_name};
