//! How a container's droppings are dealt to workers.
ghost use Rattle.std.specs.Prelude.{◌≡◌, ◌<◌, ◌++◌, IfOk, OnOk};
ghost use Rattle.gather_flow.specs.Dealing.{its_own, dealt_to};

use index_reader::{Dropping, DroppingList};
use plfs_types::NoMemory;
use std::alloc::Global;

fn add_where(share: &mut DroppingList, belongs: bool, d: Dropping) -> Result<(), NoMemory>
    ensures { OnOk result (share.new ≡ share.old ++ its_own belongs d) }
{
    if belongs {
        share.push(d)?;
    }
    Ok(())
}

/// The droppings of one worker: number j, from 0, belongs to worker j mod `workers`.
pub(crate) fn dealt(
    alloc: Global,
    droppings: &[Dropping],
    workers: u32,
    worker: u32,
) -> Result<DroppingList, NoMemory>
    requires { 0 < workers }
    ensures { IfOk result (λ share. share ≡ dealt_to workers worker 0 droppings.now) }
{
    let mut share = DroppingList::new(alloc);
    for (j, dropping) in droppings.iter().enumerate() {
        let belongs = j as u64 % u64::from(workers) == u64::from(worker);
        add_where(&mut share, belongs, *dropping)?;
    }
    Ok(share)
}
