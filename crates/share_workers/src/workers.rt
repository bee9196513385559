//! The workers of a reader, each on a thread and with a pass of its own.
ghost use Rattle.std.specs.Prelude.{◌≡◌, ◌<◌, ◌+◌, ℕ, List, [], ◌∷◌, ◌++◌, true, All, length, map, vec_len, IfOk, OnOk, OnErr, Result as AResult};
ghost use Rattle.mount_model.specs.declared.stuck.Stuck.{Stuck as AStuck};
ghost use Rattle.index_reader.specs.declared.sharing.Share.{Share as AShare};
ghost use Rattle.mount_model.specs.Step.{IsStep};
ghost use Rattle.mount_sound.specs.Owed.{Permits};
ghost use Rattle.turn_object.specs.History.{state_after};
ghost use Rattle.turn_object.specs.Front.{IsLegalFront};
ghost use Rattle.turn_object.specs.Pass.{start_of, front, parts_of, mine_of, seen_of, ended_of, IsPassOf};
ghost use Rattle.mount_model.specs.Safe.{AreFree};
ghost use Rattle.gather_flow.specs.Workers.{Reading, AreMachinesOf, IsOutcomeOf};
ghost use Rattle.share_workers.specs.declared.worker.Part.TheVariants.{ToRead, Read as HasRead};
ghost use Rattle.mount_model.specs.Going.{HasJoined};
ghost use Rattle.share_workers.specs.Workers.{IsGiven, CanRead, EachWorks, EachHasWorked, CanJoin, HaveBegun, HaveRead, calls_of_worker};
ghost use Rattle.share_workers.specs.Passes.{IsAfter};

use crate::outcome::outcome_of;
use crate::worker::{Part, Worker, work};
use edge_io::{Clock, Gate};
use gather_flow::WorkList;
use index_reader::Share;
use mount_core::Mount;
use mount_model::Stuck;
use plfs_types::NoMemory;
use std::alloc::{AllocFailed, Global};
use std::sync::Wait;
use std::thread;
use std::thread::Threads;
use store_api::Store;
use turn_object::{Pass, Turn};

/// Gives each machine a worker with a pass that is split from this one. Says whether there was memory for all.
fn split_all<S: Store + Drop, C: Clock + Drop>(
    turn: &Turn<Mount<S, C>>,
    pass: &mut Pass<Mount<S, C>>,
    workers: &mut Vec<Worker<Pass<Mount<S, C>>>>,
    works: WorkList,
) -> bool
    requires pass { IsPassOf turn.now pass.old }
    requires none { workers.old.items ≡ [] }
    requires parts { length works < parts_of pass.old }
    ensures pass { IsPassOf turn.now pass.new }
    ensures same { (seen_of pass.new ≡ seen_of pass.old) × (mine_of pass.new ≡ mine_of pass.old) × (ended_of pass.new ≡ ended_of pass.old) }
    ensures parts { parts_of pass.new + vec_len workers.new ≡ parts_of pass.old }
    ensures given { All (IsGiven turn.now (seen_of pass.old)) workers.new.items }
    ensures all { result ≡ true → map (λ worker. worker.part) workers.new.items ≡ map (λ flow. ToRead flow) works }
{
    for flow in works.into_vec() {
        let number = workers.len() as u64 + 1;
        let worker = Worker {
            pass: turn.split(pass, 1),
            number,
            part: Part::ToRead(flow),
        };
        if let Err(failed) = workers.push(worker) {
            let AllocFailed { value } = failed;
            let (back, part) = value.apart();
            drop(part);
            turn.join(pass, back);
            return false;
        }
    }
    true
}

/// Has each worker read its share, on a thread of its own. Where a thread can't be started, the caller does its work.
fn work_all<
    S: Store + Drop + Send,
    C: Clock + Drop + Send,
    G: Gate + Sync,
    R: Threads + Wait + Sync,
>(rt: &R, turn: &Turn<Mount<S, C>>, gate: &G, actor: u64, workers: &mut [Worker<Pass<Mount<S, C>>>])
    requires { All (CanRead turn.now) workers.old }
    ensures { EachWorks turn.now workers.old workers.new }
{
    let count = workers.len();
    if count > 0 {
        thread::for_each_mut(
            rt,
            workers,
            count,
            &|_, worker| work(rt, turn, gate, actor, worker),
        );
    }
}

/// Puts what a worker read to the rest, and says whether all have read so far.
fn collect_part(results: &mut Vec<Result<Share, Stuck>>, whole: bool, part: Part) -> bool
    ensures { result ≡ true → (whole ≡ true) × ((read : AResult AShare AStuck) × (part ≡ HasRead read) × (results.new.items ≡ results.old.items ++ read ∷ [])) }
{
    match part {
        Part::Read(read) => results.push(read).is_ok() && whole,
        other => {
            drop(other);
            false
        }
    }
}

/// Joins the passes of all workers, and gives what they read, where memory was refused to none.
fn join_all<S: Store + Drop, C: Clock + Drop>(
    alloc: Global,
    turn: &Turn<Mount<S, C>>,
    pass: &mut Pass<Mount<S, C>>,
    workers: Vec<Worker<Pass<Mount<S, C>>>>,
) -> Result<Vec<Result<Share, Stuck>>, NoMemory>
    requires pass { IsPassOf turn.now pass.old }
    requires known { IsLegalFront IsStep Permits (start_of turn.now) (front pass.old) }
    requires can { All (CanJoin turn.now) workers.items }
    ensures pass { IsPassOf turn.now pass.new }
    ensures known { IsLegalFront IsStep Permits (start_of turn.now) (front pass.new) }
    ensures parts { parts_of pass.new ≡ parts_of pass.old + vec_len workers }
    ensures joined { HasJoined (front pass.old) (front pass.new) (map calls_of_worker workers.items) }
    ensures read { IfOk result (λ results. (programs : List Reading) → EachHasWorked turn.now (seen_of pass.old) programs workers.items → HaveRead (front pass.old) programs (front pass.new) results.items) }
{
    let mut results = Vec::new(alloc);
    let mut whole = true;
    for worker in workers {
        let (back, part) = worker.apart();
        turn.join(pass, back);
        whole = collect_part(&mut results, whole, part);
    }
    if whole { Ok(results) } else { Err(NoMemory) }
}

/// Has workers read these shares, each on a thread and with a pass of its own, and joins what they read. After `NoMemory` each has
/// made a front of the calls of its share.
pub fn read_by_workers<
    S: Store + Drop + Send,
    C: Clock + Drop + Send,
    G: Gate + Sync,
    R: Threads + Wait + Sync,
>(
    rt: &R,
    alloc: Global,
    turn: &Turn<Mount<S, C>>,
    gate: &G,
    pass: &mut Pass<Mount<S, C>>,
    actor: u64,
    works: WorkList,
) -> Result<Result<Share, Stuck>, NoMemory>
    requires pass { IsPassOf turn.now pass.old }
    requires known { IsLegalFront IsStep Permits (start_of turn.now) (front pass.old) }
    requires free { (programs : List Reading) × AreMachinesOf programs works × AreFree IsStep Permits programs (state_after (start_of turn.now) (seen_of pass.old)) }
    requires parts { length works < parts_of pass.old }
    ensures after { IsAfter turn.now pass.old pass.new }
    ensures broken { OnErr result ((programs : List Reading) → AreMachinesOf programs works → HaveBegun (front pass.old) programs (front pass.new)) }
    ensures read { IfOk result (λ outcome. (programs : List Reading) → AreMachinesOf programs works
        → (results : List (AResult AShare AStuck)) × HaveRead (front pass.old) programs (front pass.new) results × IsOutcomeOf results outcome) }
{
    let mut workers = Vec::new(alloc);
    let count = works.as_slice().len();
    if !split_all(turn, pass, &mut workers, works) {
        drop(join_all(alloc, turn, pass, workers));
        return Err(NoMemory);
    }
    work_all(rt, turn, gate, actor, workers.as_mut_slice());
    let results = join_all(alloc, turn, pass, workers)?;
    let threads = u32::try_from(count).unwrap_or(u32::MAX);
    outcome_of(rt, alloc, results, threads)
}
