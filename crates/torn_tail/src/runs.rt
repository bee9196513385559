//! What is kept of a writer's entries.
ghost use Rattle.std.specs.Prelude.{◌≤◌, ◌*◌, min};
ghost use Rattle.plfs_types.specs.declared.limits.TheConstants.{MAX_LOG, MAX_SIZE, MAX_STAMP};

use plfs_types::Cover;

/// The first entries of an index dropping: the cover counts them, and `last` is their greatest end in the file.
#[derive(Clone, Copy)]
pub(crate) struct Run {
    pub(crate) cover: Cover,
    pub(crate) last: u64,
}

/// Entries whose numbers are in their ranges.
#[derive(Clone, Copy)]
pub(crate) struct Counted {
    pub(crate) run: Run,
    ghost counted: { run.cover.count ≤ run.cover.bytes },
    ghost logged: { run.cover.bytes ≤ MAX_LOG },
    ghost rising: { run.cover.count ≤ run.cover.stamp },
    ghost stamped: { run.cover.stamp ≤ MAX_STAMP },
    ghost reaching: { min 1 run.cover.count ≤ run.last },
    ghost near: { run.last ≤ MAX_SIZE },
}

/// At least one entry.
#[derive(Clone, Copy)]
pub(crate) struct Landed {
    pub(crate) counted: Counted,
    ghost some: { 1 ≤ counted.run.cover.count },
}

/// Entries are read: the index dropping is `told` bytes long and the log `log`. So many whole entries are left, which are
/// not looked at where one before them ended past the log.
#[derive(Clone, Copy)]
pub(crate) struct Reads {
    pub(crate) told: u64,
    pub(crate) log: u64,
    pub(crate) left: u64,
    pub(crate) ended: bool,
    pub(crate) counted: Counted,
    ghost whole: { 40 * left ≤ told },
    ghost more: { 1 ≤ left },
}
