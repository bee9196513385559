//! How far the reading of a file has come.
ghost use Rattle.std.specs.Prelude.{◌<◌, ◌≤◌};

use plfs_types::{Bytes, Path};

/// How far the reading of a file has come: so many of the bytes that were told are left, behind those so far.
#[derive(Drop)]
pub(crate) struct FileRead {
    pub(crate) path: Path,
    pub(crate) told: u64,
    pub(crate) left: u64,
    pub(crate) sofar: Bytes,
    ghost some: { 0 < left },
    ghost within: { left ≤ told },
}
