//! Tests of the texts that a user writes and sees: scripts, reports and the words of the command line. They stand
//! apart, so that no crate is proved twice for them.
#![tactic(auto)]

#[cfg(test)]
mod commands;
#[cfg(test)]
mod generated;
#[cfg(test)]
mod lines;
#[cfg(test)]
mod reports;
#[cfg(test)]
mod scripts;
