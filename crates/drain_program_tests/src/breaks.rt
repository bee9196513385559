//! Each act of either store fails, or is the last one before a loss of power: what is left is drained to by the next drain.
use crate::rows::{MORE, MORE_THERE, TWO};
use crate::runs::{failing_of, run, sink, store_of};
use crate::trees::is_tree;
use drain_program::DrainEnded;
use std::alloc::Global;
use store_memory::{Fail, KeepList, MemoryStore};
use test_lines::Line;

/// How many bytes a write leaves that breaks off. Another step is made where it is not 0.
const PARTS: [u64; 3] = [0, 1, 20];

// Drains what these rows hold to the target. Gives the status.
fn drained(alloc: Global, rows: &str, target: MemoryStore) -> (u8, MemoryStore) {
    let mut out = sink(alloc, None);
    let DrainEnded {
        store,
        target,
        status,
    } = run(alloc, "drain f", &mut out, store_of(alloc, rows), target);
    drop((store, out));
    (status, target)
}

// Drains once more, unless that ended well before.
fn made_whole(alloc: Global, status: u8, target: MemoryStore) -> (u8, MemoryStore) {
    if status == 0 {
        return (0, target);
    }
    drained(alloc, MORE, target)
}

// Drains twice, with writes between. Then the power goes off at the target, and what a drain left unfinished is drained once more.
// Whether one of both drains ended with status 4, and all that the source holds is there in the end.
fn is_made_up_for(alloc: Global, target: MemoryStore) -> bool {
    let (first, target) = drained(alloc, TWO, target);
    let (second, target) = drained(alloc, MORE, target);
    let target = target.lose(KeepList::new(alloc));
    let (last, target) = made_whole(alloc, second, target);
    let is_whole = is_tree(alloc, target.tree(), MORE_THERE);
    drop(target);
    (first == 4 || second == 4) && last == 0 && is_whole
}

// How many acts both drains make at the target.
fn acts_there(alloc: Global) -> u64 {
    let (_, target) = drained(alloc, TWO, store_of(alloc, ""));
    let (_, target) = drained(alloc, MORE, target);
    let acts = target.acts();
    drop(target);
    acts
}

fn say(wrong: &mut Line, word: &str, fail: Fail) {
    wrong.say(word, fail.act);
    wrong.say(" ", fail.part);
    wrong.push("\n");
}

// Says where what breaks so at the target isn't made up for.
fn judge(alloc: Global, word: &str, target: MemoryStore, fail: Fail, wrong: &mut Line) {
    if !is_made_up_for(alloc, target) {
        say(wrong, word, fail);
    }
}

// The same of a fault in this act, and of the power that goes off in it.
fn break_there(alloc: Global, fail: Fail, wrong: &mut Line) {
    judge(alloc, "fails ", failing_of(alloc, "", fail), fail, wrong);
    match MemoryStore::off(alloc, fail.act, fail.part) {
        Ok(target) => judge(alloc, "goes off ", target, fail, wrong),
        Err(_) => say(wrong, "no memory ", fail),
    }
}

// Says of each of so many acts where a break there isn't made up for.
fn each_act_there(alloc: Global, acts: u64, wrong: &mut Line) {
    for act in 0..acts {
        for part in PARTS {
            break_there(alloc, Fail { act, part }, wrong);
        }
    }
}

#[test]
fn whatever_breaks_at_the_target_of_two_drains_is_made_up_for(rt: HostRuntime) {
    let alloc = rt.alloc();
    let mut wrong = Line::new(alloc);
    let acts = acts_there(alloc);
    each_act_there(alloc, acts, &mut wrong);
    assert!(rt; acts > 50);
    assert!(rt; wrong.as_str().is_empty(), "{}", wrong.as_str());
    drop(wrong);
}

// Drains again from the store that a drain left.
fn drained_again(alloc: Global, source: Option<MemoryStore>, target: MemoryStore) -> bool {
    let Some(source) = source else {
        drop(target);
        return false;
    };
    let mut out = sink(alloc, None);
    let ended = run(alloc, "drain f", &mut out, source, target);
    let is_whole = ended.status == 0 && is_tree(alloc, ended.target.tree(), MORE_THERE);
    drop((ended, out));
    is_whole
}

// Says where a fault in this act of the source isn't told, or isn't made up for by the next drain.
fn fails_here(alloc: Global, fail: Fail, wrong: &mut Line) {
    let mut out = sink(alloc, None);
    let DrainEnded {
        store,
        target,
        status,
    } = run(
        alloc,
        "drain f",
        &mut out,
        failing_of(alloc, MORE, fail),
        store_of(alloc, ""),
    );
    drop(out);
    let is_whole = drained_again(alloc, store, target);
    if status != 4 || !is_whole {
        say(wrong, "fails here ", fail);
    }
}

// How many acts a drain makes at the source.
fn acts_here(alloc: Global) -> u64 {
    let mut out = sink(alloc, None);
    let ended = run(
        alloc,
        "drain f",
        &mut out,
        store_of(alloc, MORE),
        store_of(alloc, ""),
    );
    let acts = match &ended.store {
        Some(store) => store.acts(),
        None => 0,
    };
    drop((ended, out));
    acts
}

#[test]
fn whatever_fails_at_the_source_of_a_drain_is_made_up_for(rt: HostRuntime) {
    let alloc = rt.alloc();
    let mut wrong = Line::new(alloc);
    let acts = acts_here(alloc);
    for act in 0..acts {
        for part in PARTS {
            fails_here(alloc, Fail { act, part }, &mut wrong);
        }
    }
    assert!(rt; acts > 20);
    assert!(rt; wrong.as_str().is_empty(), "{}", wrong.as_str());
    drop(wrong);
}
