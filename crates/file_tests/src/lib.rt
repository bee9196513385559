//! Tests of files: what changes make, the pieces of many writers, and the plan of a read. They stand apart, so that
//! no crate is proved twice for them.
#![tactic(auto)]

#[cfg(test)]
mod files;
#[cfg(test)]
mod merges;
#[cfg(test)]
mod plans;
