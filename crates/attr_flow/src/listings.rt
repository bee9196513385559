//! What the names of the listings tell.
ghost use Rattle.std.specs.Prelude.{◌≡◌, [], IfOk, false as no_entry};
ghost use Rattle.mount_model.specs.FlowListed.{told_by};
ghost use Rattle.mount_model.specs.Paths as paths;
ghost use Rattle.attr_flow.specs.Listings.{has_entry as has_entry_in, is_open as is_open_by, metadata_named, truncs_named};

use container_layout::{metadata, openhosts, truncs};
use mount_model::{
    MetadataList, Reply, Stuck, damage, file_in, is_no_folder, meta_in, names_in, open_in, trouble,
    trunc_in,
};
use plfs_types::{Name, NoMemory, TruncList};
use std::alloc::Global;

/// Whether there is an entry of a writer.
fn has_entry(names: &[Name]) -> Result<bool, Stuck>
    ensures { result ≡ has_entry_in names.now no_entry }
{
    let mut has = false;
    for name in names {
        if open_in(*name).is_none() {
            return Err(damage(&file_in(openhosts(), *name), 0));
        }
        has = true;
    }
    Ok(has)
}

/// Whether somebody has the container open, by the listing of who has.
pub(crate) fn is_open(reply: Reply) -> Result<bool, Stuck>
    ensures { result ≡ is_open_by reply }
{
    if is_no_folder(&reply) {
        drop(reply);
        return Ok(false);
    }
    let why = trouble(&file_in(openhosts(), Name::empty()), &reply);
    let Some(names) = names_in(reply) else {
        return Err(why);
    };
    has_entry(names.as_slice())
}

fn metadata_in(alloc: Global, names: &[Name]) -> Result<Result<MetadataList, Stuck>, NoMemory>
    ensures { IfOk result (λ found. found ≡ metadata_named names.now []) }
{
    let mut list = Vec::new(alloc);
    for name in names {
        let Some(meta) = meta_in(*name) else {
            drop(list);
            return Ok(Err(damage(&file_in(metadata(), *name), 0)));
        };
        let Ok(()) = list.push(meta) else {
            drop(list);
            return Err(NoMemory);
        };
    }
    Ok(Ok(MetadataList::from_vec(list)))
}

fn truncs_in(alloc: Global, names: &[Name]) -> Result<Result<TruncList, Stuck>, NoMemory>
    ensures { IfOk result (λ found. found ≡ truncs_named names.now []) }
{
    let mut list = Vec::new(alloc);
    for name in names {
        let Some(trunc) = trunc_in(*name) else {
            drop(list);
            return Ok(Err(damage(&file_in(truncs(), *name), 0)));
        };
        let Ok(()) = list.push(trunc) else {
            drop(list);
            return Err(NoMemory);
        };
    }
    Ok(Ok(TruncList::from_vec(list)))
}

/// The metadata that a listing of them tells.
pub(crate) fn listed_metadata(
    alloc: Global,
    reply: Reply,
) -> Result<Result<MetadataList, Stuck>, NoMemory>
    ensures { IfOk result (λ found. found ≡ told_by paths.metadata (λ names. metadata_named names []) reply) }
{
    let why = trouble(&file_in(metadata(), Name::empty()), &reply);
    let Some(names) = names_in(reply) else {
        return Ok(Err(why));
    };
    metadata_in(alloc, names.as_slice())
}

/// The truncates that a listing of them tells.
pub(crate) fn listed_truncs(
    alloc: Global,
    reply: Reply,
) -> Result<Result<TruncList, Stuck>, NoMemory>
    ensures { IfOk result (λ found. found ≡ told_by paths.truncs (λ names. truncs_named names []) reply) }
{
    let why = trouble(&file_in(truncs(), Name::empty()), &reply);
    let Some(names) = names_in(reply) else {
        return Ok(Err(why));
    };
    truncs_in(alloc, names.as_slice())
}
