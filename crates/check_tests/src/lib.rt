//! Tests of the check of a tree and of the shape of its rooms: one sound container beside its room of marks, and changes that each make
//! one complaint right.
#![tactic(auto)]

#[cfg(test)]
mod rows;
