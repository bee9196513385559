//! Tests of the command of `plfs_check`: containers in memory beside their room of marks, and what is printed of changes of
//! them. The texts are worked out by hand.
#![tactic(auto)]

#[cfg(test)]
mod rows;
#[cfg(test)]
mod runs;
#[cfg(test)]
mod trees;
