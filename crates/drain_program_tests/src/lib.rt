//! Tests of the command that drains a container to a second store, over stores in memory: what it prints and leaves, and what a fault,
//! a loss of power or a broken sink leaves. The texts and the trees are worked out by hand.
#![tactic(auto)]

#[cfg(test)]
mod breaks;
#[cfg(test)]
mod rows;
#[cfg(test)]
mod runs;
#[cfg(test)]
mod trees;
