//! The size that metadata and truncates tell.
ghost use Rattle.std.specs.Prelude.{◌≡◌};
ghost use Rattle.attr_flow.specs.Sizes.{cached_size as size_of};

use interval_merge::{last_of, wrote_after};
use mount_model::Metadata;
use plfs_types::Trunc;

/// The size that the last truncate gave, or the greatest end that was left after it, whichever is greater.
pub(crate) fn cached_size(metas: &[Metadata], truncs: &[Trunc]) -> u64
    ensures { result ≡ size_of metas.now truncs.now }
{
    let last = last_of(truncs);
    let mut size = match last {
        None => 0,
        Some(trunc) => trunc.size,
    };
    for meta in metas {
        if wrote_after(last, meta.stamp) {
            size = size.max(meta.last);
        }
    }
    size
}
