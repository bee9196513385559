//! Which writers of a container are packed.
ghost use Rattle.std.specs.Prelude.{◌≡◌, ◌<◌, [], Option, IfOk};
ghost use Rattle.index_reader.specs.Listing.{AreByWriter};
ghost use Rattle.mount_model.specs.FlowListed.{told_by};
ghost use Rattle.mount_model.specs.Paths as paths;
ghost use Rattle.migrate_core.specs.Chosen.{chosen as chosen_of, chosen_behind, is_again as is_again_of, is_open_to as is_open_to_of, metas_named};

use container_layout::metadata;
use index_reader::{Dropping, dropping_of};
use mount_model::{
    Metadata, MetadataList, Reply, Stuck, damage, file_in, meta_in, metadata_by_writer, names_in,
    trouble,
};
use plfs_types::{Name, NoMemory};
use std::alloc::Global;

fn metas_in(alloc: Global, names: &[Name]) -> Result<Result<MetadataList, Stuck>, NoMemory>
    ensures { IfOk result (λ found. found ≡ metas_named names.now []) }
{
    let mut list = Vec::new(alloc);
    for name in names {
        let Some(meta) = meta_in(*name) else {
            drop(list);
            return Ok(Err(damage(&file_in(metadata(), *name), 0)));
        };
        let Ok(()) = list.push(meta) else {
            drop(list);
            return Err(NoMemory);
        };
    }
    Ok(Ok(MetadataList::from_vec(list)))
}

/// What writers left that closed, as a listing of their metadata tells it.
pub(crate) fn listed(alloc: Global, reply: Reply) -> Result<Result<MetadataList, Stuck>, NoMemory>
    ensures { IfOk result (λ found. found ≡ told_by paths.metadata (λ names. metas_named names []) reply) }
{
    let why = trouble(&file_in(metadata(), Name::empty()), &reply);
    let Some(names) = names_in(reply) else {
        return Ok(Err(why));
    };
    metas_in(alloc, names.as_slice())
}

/// Whether it is of the writer before it.
fn is_again(last: Option<u64>, meta: &Metadata) -> bool
    ensures { result ≡ is_again_of last meta.now }
{
    match last {
        Some(writer) => meta.writer == writer,
        None => false,
    }
}

/// Whether the writer has entries, and no packed index.
fn is_open_to(droppings: &[Dropping], meta: &Metadata) -> bool
    requires { AreByWriter droppings.now }
    ensures { result ≡ is_open_to_of droppings.now meta.now }
{
    let is_packed = match dropping_of(droppings, meta.writer) {
        Some(dropping) => dropping.packed,
        None => false,
    };
    meta.stamp > 0 && !is_packed
}

/// Of metadata by ascending writer those that are to be packed.
fn chosen_in(
    alloc: Global,
    droppings: &[Dropping],
    metas: &[Metadata],
) -> Result<MetadataList, NoMemory>
    requires { AreByWriter droppings.now }
    ensures { IfOk result (λ list. list ≡ chosen_behind droppings.now Option.None metas.now []) }
{
    let mut list = Vec::new(alloc);
    let mut last = None;
    for meta in metas {
        if !is_again(last, meta) && is_open_to(droppings, meta) {
            list.push(*meta)?;
        }
        last = Some(meta.writer);
    }
    Ok(MetadataList::from_vec(list))
}

/// The writers that are to be packed, by ascending id.
pub(crate) fn chosen(
    alloc: Global,
    droppings: &[Dropping],
    metas: MetadataList,
) -> Result<MetadataList, NoMemory>
    requires { AreByWriter droppings.now }
    ensures { IfOk result (λ list. list ≡ chosen_of droppings.now metas) }
{
    let metas = metadata_by_writer(metas)?;
    chosen_in(alloc, droppings, metas.as_slice())
}
