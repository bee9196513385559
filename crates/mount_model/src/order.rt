//! Lists in the order of a number.
ghost use Rattle.std.specs.Prelude.{◌≡◌, IfOk, OnOk};
ghost use Rattle.mount_model.specs.Order.{ordered_by, metadata_by_writer as metadata_in_order, entries_by_writer as entries_in_order, truncs_by_stamp as truncs_in_order};
ghost use Rattle.plfs_types.specs.declared.entries.Trunc.{Trunc as Truncate};

use crate::names::{Metadata, MetadataList, OpenEntry, OpenEntryList};
use plfs_types::{NoMemory, Trunc, TruncList};

/// By rising writer, those of one writer in the order that they have.
pub fn metadata_by_writer(metas: MetadataList) -> Result<MetadataList, NoMemory>
    ensures { IfOk result (λ ordered. ordered ≡ metadata_in_order metas) }
{
    let mut items = metas.into_vec();
    items.sort_by_key(|meta| meta.writer)?;
    Ok(MetadataList::from_vec(items))
}

/// By rising writer, those of one writer in the order that they have.
pub fn entries_by_writer(entries: OpenEntryList) -> Result<OpenEntryList, NoMemory>
    ensures { IfOk result (λ ordered. ordered ≡ entries_in_order entries) }
{
    let mut items = entries.into_vec();
    items.sort_by_key(|entry| entry.writer)?;
    Ok(OpenEntryList::from_vec(items))
}

/// By rising stamp, and at one stamp by rising size.
pub fn truncs_by_stamp(truncs: TruncList) -> Result<TruncList, NoMemory>
    ensures { IfOk result (λ ordered. ordered ≡ truncs_in_order truncs) }
{
    let mut items = truncs.into_vec();
    by_size(&mut items)?;
    by_stamp(&mut items)?;
    Ok(TruncList::from_vec(items))
}

fn by_size(items: &mut Vec<Trunc>) -> Result<(), NoMemory>
    ensures { OnOk result (items.new.items ≡ ordered_by (λ (t : Truncate). t.size) items.old.items) }
{
    items.sort_by_key(|trunc| trunc.size)?;
    Ok(())
}

fn by_stamp(items: &mut Vec<Trunc>) -> Result<(), NoMemory>
    ensures { OnOk result (items.new.items ≡ ordered_by (λ (t : Truncate). t.stamp) items.old.items) }
{
    items.sort_by_key(|trunc| trunc.stamp)?;
    Ok(())
}
