//! The packed index of entries that were read.
ghost use Rattle.std.specs.Prelude.{◌≡◌, ◌≤◌, ◌<◌, ◌^◌, IfOk};
ghost use Rattle.plfs_types.specs.declared.limits.TheConstants.{MAX_PACKED};
ghost use Rattle.migrate_core.specs.Longest.{packing as packing_of};
ghost use Rattle.migrate_core.specs.Writers.{counts_of};

use crate::entries::Told;
use crate::migrated::Packed;
use index_entry::number_at;
use index_pack::pack;
use plfs_types::{Bytes, NoMemory};
use std::alloc::Global;

/// A packed index, and how many entries and runs it has.
#[derive(Drop)]
pub(crate) struct Packing {
    pub(crate) bytes: Bytes,
    pub(crate) packed: Packed,
}

/// The packed index of the entries that were read.
pub(crate) fn pack_read(alloc: Global, tail: Told) -> Result<Packing, NoMemory>
    requires some { 1 ≤ tail.cover.count }
    requires few { tail.cover.count ≤ MAX_PACKED }
    ensures bytes { IfOk result (λ made. made.bytes ≡ packing_of tail.entries) }
    ensures counts { IfOk result (λ made. made.packed ≡ counts_of tail.entries) }
{
    let bytes = pack(alloc, tail.get().entries.as_slice())?;
    let runs = number_at(bytes.as_slice(), 16);
    Ok(Packing {
        bytes,
        packed: Packed {
            entries: tail.count(),
            runs,
        },
    })
}
