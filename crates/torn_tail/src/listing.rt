//! Who has a container open.
ghost use Rattle.std.specs.Prelude.{◌≡◌, ◌<◌, [], IfOk};
ghost use Rattle.mount_model.specs.FlowListed.{told_by};
ghost use Rattle.container_layout.specs.Paths.{openhosts as openhosts_name};
ghost use Rattle.torn_tail.specs.Recovering.{entries_named};

use container_layout::openhosts;
use mount_model::{OpenEntryList, Reply, Stuck, damage, file_in, names_in, open_in, trouble};
use plfs_types::{Name, NoMemory};
use std::alloc::Global;

fn entries_in(alloc: Global, names: &[Name]) -> Result<Result<OpenEntryList, Stuck>, NoMemory>
    ensures { IfOk result (λ found. found ≡ entries_named names.now []) }
{
    let mut list = Vec::new(alloc);
    for name in names {
        let Some(entry) = open_in(*name) else {
            drop(list);
            return Ok(Err(damage(&file_in(openhosts(), *name), 0)));
        };
        let Ok(()) = list.push(entry) else {
            drop(list);
            return Err(NoMemory);
        };
    }
    Ok(Ok(OpenEntryList::from_vec(list)))
}

/// The writers that a listing of those that have the container open tells.
pub(crate) fn listed(alloc: Global, reply: Reply) -> Result<Result<OpenEntryList, Stuck>, NoMemory>
    ensures { IfOk result (λ found. found ≡ told_by openhosts_name (λ names. entries_named names []) reply) }
{
    let why = trouble(&file_in(openhosts(), Name::empty()), &reply);
    let Some(names) = names_in(reply) else {
        return Ok(Err(why));
    };
    entries_in(alloc, names.as_slice())
}
