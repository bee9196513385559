//! A source of bytes copied into a file, by one caller by itself: the name is found free or its file is cut to nothing, a writer is
//! opened, the source's bytes are written block by block, and the writer is synced and closed.
//!
//! The crate owns which machines follow which, how a source is read as blocks, and what comes of it. It stands on the machines of
//! `writer_flow` and `trunc_rename`, on `lone_flow` and `lone_flow`, which drive a machine, and on `lone_flow`, which syncs and
//! closes a writer.
#![tactic(auto)]

mod clearing;
mod copying;
mod reading;
mod writing;

pub use copying::{Copied, copy};
