//! Tests of the commands of `plfs_copy`, over a store in memory: what they print and leave, words that are none, a source that breaks,
//! and the power that goes off in each act.
#![tactic(auto)]

#[cfg(test)]
mod copies;
#[cfg(test)]
mod deeds;
#[cfg(test)]
mod imports;
