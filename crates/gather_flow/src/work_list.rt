//! Machines for the workers that read a container's shares.
ghost use Rattle.std.specs.Prelude.{◌≡◌, ◌<◌, ◌≤◌, map, IfOk};
ghost use Rattle.mount_model.specs.Standing.{ready};
ghost use Rattle.index_reader.specs.Stages.{share_standing, share_left};
ghost use Rattle.gather_flow.specs.Shares.{worker_program, programs_from};
ghost use Rattle.gather_flow.specs.Gathering.{share_bound};

use crate::copying::copied;
use crate::dealing::dealt;
use crate::listed::Listed;
use index_reader::ShareRead;
use plfs_types::{NoMemory, Sequence};
use std::alloc::Global;

/// Machines of which each reads one worker's share, in the order of the workers.
pub type WorkList = Sequence<ShareRead>;

/// The machine that reads the share of this worker, from 0, of so many.
pub(crate) fn share_read(
    alloc: Global,
    listed: &Listed,
    workers: u32,
    worker: u32,
) -> Result<ShareRead, NoMemory>
    requires { worker < workers }
    ensures standing { IfOk result (λ flow. share_standing flow ≡ ready (worker_program workers listed.now worker)) }
    ensures left { IfOk result (λ flow. share_left flow ≤ share_bound) }
{
    let share = dealt(alloc, listed.get().droppings.as_slice(), workers, worker)?;
    let _count = share.as_slice().len();
    let covers = copied(alloc, listed.get().flat.covers.as_slice())?;
    Ok(ShareRead::new(alloc, listed.get().room, share, covers))
}

/// The machines of so many workers, each before its first call.
pub fn works(alloc: Global, listed: &Listed, workers: u32) -> Result<WorkList, NoMemory>
    ensures { IfOk result (λ works. map (λ flow. share_standing flow) works ≡ map (λ program. ready program) (programs_from workers listed.now 0)) }
{
    let mut works = WorkList::new(alloc);
    for worker in 0..workers {
        let flow = share_read(alloc, listed, workers, worker)?;
        works.push(flow)?;
    }
    Ok(works)
}
