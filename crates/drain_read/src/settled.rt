//! The writers of which a container has metadata.
ghost use Rattle.std.specs.Prelude.{◌≡◌, [], IfOk};
ghost use Rattle.mount_model.specs.FlowListed.{told_by};
ghost use Rattle.mount_model.specs.Paths as paths;
ghost use Rattle.drain_read.specs.Holding.{settled_named};

use container_layout::metadata;
use mount_model::{Reply, Stuck, damage, file_in, meta_in, names_in, trouble};
use plfs_types::{IdList, Name, NoMemory};
use std::alloc::Global;

fn settled_in(alloc: Global, names: &[Name]) -> Result<Result<IdList, Stuck>, NoMemory>
    ensures { IfOk result (λ found. found ≡ settled_named names.now []) }
{
    let mut list = Vec::new(alloc);
    for name in names {
        let Some(meta) = meta_in(*name) else {
            drop(list);
            return Ok(Err(damage(&file_in(metadata(), *name), 0)));
        };
        let Ok(()) = list.push(meta.writer) else {
            drop(list);
            return Err(NoMemory);
        };
    }
    Ok(Ok(IdList::from_vec(list)))
}

/// The writers of which a listing of the metadata tells.
pub(crate) fn settled(alloc: Global, reply: Reply) -> Result<Result<IdList, Stuck>, NoMemory>
    ensures { IfOk result (λ found. found ≡ told_by paths.metadata (λ names. settled_named names []) reply) }
{
    let why = trouble(&file_in(metadata(), Name::empty()), &reply);
    let Some(names) = names_in(reply) else {
        return Ok(Err(why));
    };
    settled_in(alloc, names.as_slice())
}
