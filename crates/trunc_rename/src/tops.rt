//! The greatest stamp that the names of a listing tell.
ghost use Rattle.std.specs.Prelude.{◌≡◌};
ghost use Rattle.trunc_rename.specs.Tops.{metadata_top as top_of_metadata, truncs_top as top_of_truncs};
ghost use Rattle.mount_model.specs.FlowListed.{told_by};
ghost use Rattle.mount_model.specs.Paths as paths;

use container_layout::{metadata, truncs};
use mount_model::{Reply, Stuck, damage, file_in, meta_in, names_in, trouble, trunc_in};
use plfs_types::Name;

/// The greatest of this stamp and those of the metadata droppings of these names.
fn metadata_top(names: &[Name]) -> Result<u64, Stuck>
    ensures { result ≡ top_of_metadata names.now 0 }
{
    let mut top = 0;
    for name in names {
        let Some(meta) = meta_in(*name) else {
            return Err(damage(&file_in(metadata(), *name), 0));
        };
        top = top.max(meta.stamp);
    }
    Ok(top)
}

/// The greatest of this stamp and those of the truncates of these names.
fn truncs_top(names: &[Name], above: u64) -> Result<u64, Stuck>
    ensures { result ≡ top_of_truncs names.now above }
{
    let mut top = above;
    for name in names {
        let Some(trunc) = trunc_in(*name) else {
            return Err(damage(&file_in(truncs(), *name), 0));
        };
        top = top.max(trunc.stamp);
    }
    Ok(top)
}

/// The greatest stamp that a listing of the metadata droppings tells.
pub(crate) fn top_of_metadata(reply: Reply) -> Result<u64, Stuck>
    ensures { result ≡ told_by paths.metadata (λ names. top_of_metadata names 0) reply }
{
    let why = trouble(&file_in(metadata(), Name::empty()), &reply);
    let Some(names) = names_in(reply) else {
        return Err(why);
    };
    metadata_top(names.as_slice())
}

/// The greatest of this stamp and those that a listing of the truncates tells.
pub(crate) fn top_of_truncs(reply: Reply, above: u64) -> Result<u64, Stuck>
    ensures { result ≡ told_by paths.truncs (λ names. top_of_truncs names above) reply }
{
    let why = trouble(&file_in(truncs(), Name::empty()), &reply);
    let Some(names) = names_in(reply) else {
        return Err(why);
    };
    truncs_top(names.as_slice(), above)
}
