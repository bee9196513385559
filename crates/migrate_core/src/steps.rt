//! How far the packing of one writer has come.
ghost use Rattle.std.specs.Prelude.{◌+◌, ◌≤◌};
ghost use Rattle.plfs_types.specs.declared.limits.TheConstants.{MAX_PACKED};

use crate::entries::Told;
use crate::migrated::Packed;
use crate::packing::Packing;

/// The call that is to be made next for a writer.
#[derive(Drop)]
pub(crate) enum Step {
    /// The length of the index dropping is asked.
    Measure,
    Read(Reads),
    Start(Packing),
    /// The packed index is written for the flattening of this number.
    Putting(u64, Packing),
    /// The bytes were handed over.
    Put(u64, Packed),
    Sync(u64, Packed),
    Install(u64, Packed),
}

/// Entries are read, of which so many are left.
#[derive(Drop)]
pub(crate) struct Reads {
    pub(crate) left: u64,
    pub(crate) tail: Told,
    ghost more: { 1 ≤ left },
    ghost few: { tail.cover.count + left ≤ MAX_PACKED },
}
