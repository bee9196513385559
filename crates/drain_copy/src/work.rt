//! The copying of a writer, and what comes after it.
ghost use Rattle.std.specs.Prelude.{◌≤◌, length};

use crate::outcome::Drained;
use crate::plan::{Copying, Due};
use drain_read::Waiting;
use plfs_types::TruncList;

/// What comes after a writer: those that are left, the truncates, and what is written by all.
#[derive(Drop)]
pub(crate) struct Ahead {
    pub(crate) rest: Waiting<Due>,
    pub(crate) truncs: TruncList,
    pub(crate) drained: Drained,
}

/// A writer that is copied, and what comes after it.
#[derive(Drop)]
pub(crate) struct Work {
    pub(crate) copying: Copying,
    pub(crate) ahead: Ahead,
}

/// Its log is copied. So many bytes are left, by so many parts.
#[derive(Drop)]
pub(crate) struct LogPart {
    pub(crate) work: Work,
    pub(crate) parts: u64,
    pub(crate) left: u64,
    ghost within: { left ≤ work.copying.due.bytes },
}

/// Its entries are written. So many are left, by so many parts.
#[derive(Drop)]
pub(crate) struct EntriesPart {
    pub(crate) work: Work,
    pub(crate) parts: u64,
    pub(crate) left: usize,
    ghost within: { left ≤ length work.copying.due.entries },
}
