//! Tests that cross crates: whole runs over a store in memory, with their lines worked out by hand. They stand apart, so
//! that no library is proved twice for them. Runs over a real folder are tried from outside, by `tests/run`.
//!
//! A test is a table, which is one text. Behind `## ` begins a session, with what it shows: deeds that are done to one
//! store, which is empty at first, one after the other. Each deed begins with `$ `:
//!
//! - `$ play: 0` runs the words `play`, which end with the status 0. Below it stands the input, line by line, and behind
//!   ` -> ` what is printed of that line, with the line's number before it. Behind `= ` stands a line that is printed and no
//!   input, and behind the status what is printed without a line feed: `$ cat f: 0 hello`. Where `..` stands there, or
//!   several statuses, each of them may come.
//! - `$ play, at 10 11, sink-fault 3: 6` sets the run up: the times of its clock, the calls of the source and of the sink
//!   that fail, how many bytes the sink takes at once, an input whose last line has no line feed, and threads.
//! - `$ usage cat` runs words that are no command.
//! - `$ faults 12 41`, `$ off 5 1`, `$ three` and `$ loss` are about the store, `$ cut 1 truncs/5.0 3` and the like about a
//!   room's folders and files, and `$ acts: 26` and the like about what a run has left.
//!
//! One function each does a deed, and puts what comes otherwise into one line, which has to be empty in the end.
#![tactic(auto)]

#[cfg(test)]
mod actors;
#[cfg(test)]
mod changing;
#[cfg(test)]
mod damage;
#[cfg(test)]
mod edges;
#[cfg(test)]
mod faults;
#[cfg(test)]
mod files;
#[cfg(test)]
mod losses;
#[cfg(test)]
mod marks;
#[cfg(test)]
mod migrations;
#[cfg(test)]
mod playing;
#[cfg(test)]
mod refreshes;
#[cfg(test)]
mod rows;
#[cfg(test)]
mod runs;
#[cfg(test)]
mod sessions;
#[cfg(test)]
mod several;
#[cfg(test)]
mod small_files;
#[cfg(test)]
mod spelling;
#[cfg(test)]
mod stages;
#[cfg(test)]
mod threads;
