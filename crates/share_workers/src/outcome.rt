//! What workers came to.
ghost use Rattle.std.specs.Prelude.{IfOk};
ghost use Rattle.gather_flow.specs.Workers.{IsOutcomeOf};

use index_reader::{Share, ShareList, join_shares};
use mount_model::Stuck;
use plfs_types::NoMemory;
use std::alloc::Global;
use std::thread::Threads;

/// One share that is joined of theirs, by up to so many threads, or the trouble of the first worker that has one.
pub(crate) fn outcome_of<R: Threads + Sync>(
    rt: &R,
    alloc: Global,
    results: Vec<Result<Share, Stuck>>,
    threads: u32,
) -> Result<Result<Share, Stuck>, NoMemory>
    ensures { IfOk result (λ outcome. IsOutcomeOf results.items outcome) }
{
    let mut shares = ShareList::new(alloc);
    for result in results {
        match result {
            Ok(share) => shares.push(share)?,
            Err(because) => {
                drop(shares);
                return Ok(Err(because));
            }
        }
    }
    let share = join_shares(rt, alloc, shares, threads)?;
    Ok(Ok(share))
}
