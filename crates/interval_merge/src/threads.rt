//! Many lists of pieces as one, by several threads.

ghost use Rattle.std.specs.Prelude.{◌≡◌, ℕ, List, [], IfOk};
ghost use Rattle.std.specs.Thread.{IsSync};
ghost use Rattle.plfs_types.specs.declared.entries.Entry.{Entry};
ghost use Rattle.plain_file.specs.Sources.{source_at};
ghost use Rattle.plain_file.specs.Runs.{AreRuns, ArePieces};
ghost use Rattle.interval_merge.specs.Lists.{newest_source, ArePiecesOfEach, joined};

use crate::sweep::merge_two;
use crate::tournament::{PiecesList, merge_halves};
use plain_file::Pieces;
use plfs_types::NoMemory;
use std::alloc::Global;
use std::thread::{Threads, join};

/// What `merge_all` gives, by up to so many threads, this one among them. Where no thread can be
/// started this one does its work, as it does where `workers` is 0.
pub fn merge_on<R: Threads + Sync>(
    rt: &R,
    alloc: Global,
    lists: PiecesList,
    workers: u32,
) -> Result<Pieces, NoMemory>
    // Each byte comes from the newest of the lists.
    ensures newest { IfOk result (λ merged. (x : ℕ) → source_at merged x ≡ newest_source lists x) }
    // So the pieces are those of the entries of all.
    ensures joined { IfOk result (λ merged. (entries : List (List Entry)) → ArePiecesOfEach entries lists → ArePieces (joined entries) [] merged) }
{
    let merged = merge_halves_on(rt, alloc, lists.into_vec(), workers)?;
    Ok(merged)
}

/// Merges the first half of the lists and the second half in two threads, and then both.
fn merge_halves_on<R: Threads + Sync>(
    rt: &R,
    alloc: Global,
    lists: Vec<Pieces>,
    workers: u32,
) -> Result<Pieces, NoMemory>
    ensures runs { IfOk result (λ merged. AreRuns merged) }
    ensures newest { IfOk result (λ merged. (x : ℕ) → source_at merged x ≡ newest_source lists.items x) }
{
    let mut front = lists;
    if workers < 2 || front.len() < 2 {
        return merge_halves(alloc, front);
    }
    let back = front.split_off(front.len() / 2)?;
    let theirs = workers / 2;
    let ours = workers - theirs;
    let (a, b) = join(
        rt,
        move || -> Result<Pieces, NoMemory>
            requires { IsSync R.row }
            ensures { IfOk result (λ merged. (x : ℕ) → source_at merged x ≡ newest_source front.items x) }
        { merge_halves_on(rt, alloc, front, theirs) },
        move || -> Result<Pieces, NoMemory>
            requires { IsSync R.row }
            ensures { IfOk result (λ merged. (x : ℕ) → source_at merged x ≡ newest_source back.items x) }
        { merge_halves_on(rt, alloc, back, ours) },
    );
    let a = a?;
    let b = b?;
    let merged = merge_two(a, b)?;
    Ok(merged)
}
