//! Tests of the machines: how one is driven, and the calls of a writer, of a reader, and of who truncates, renames, looks
//! at, recovers or migrates a file. They stand apart, so that no crate is proved twice for them.
//!
//! A test is a text of cases. Each says which machine runs, which calls it makes, what each of them is told, and how it ends.
//! One function takes a machine through the replies, and what comes otherwise than a case says is put into one line, which
//! has to be empty in the end. Beside them stand sets of writes, which a reader's machines read over replies that are made
//! of the set, against the newest write at each byte.
#![tactic(auto)]

#[cfg(test)]
mod cases;
#[cfg(test)]
mod damage;
#[cfg(test)]
mod gathered;
#[cfg(test)]
mod keepers;
#[cfg(test)]
mod listings;
#[cfg(test)]
mod machines;
#[cfg(test)]
mod migrating;
#[cfg(test)]
mod newest;
#[cfg(test)]
mod outcomes;
#[cfg(test)]
mod playing;
#[cfg(test)]
mod readers;
#[cfg(test)]
mod refreshes;
#[cfg(test)]
mod replies;
#[cfg(test)]
mod sets;
#[cfg(test)]
mod shares;
#[cfg(test)]
mod spelling;
#[cfg(test)]
mod worlds;
#[cfg(test)]
mod writers;
