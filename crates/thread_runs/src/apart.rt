//! Work on many items, some of them on threads.
ghost use Rattle.std.specs.Prelude.{◌<◌, length};
ghost use denote.Param.Send.{IsSync, IsSend};
ghost use Rattle.thread_runs.specs.Apart.{Takes, Leaves, TakesEach, LeavesEach};

use std::thread::{Threads, join_mut};

fn at_one<T, F: Fn(&mut T)>(f: &F, item: &mut T)
    requires { Takes F.Fn f.now item.old }
    ensures { Leaves F.Fn f.now item.old item.new }
{
    f(item);
}

/// Calls f at each item, one after the other. It stays out of line: `each_apart` is in progress once for each halving, and what an item needs of the stack is needed once.
#[inline(never)]
fn in_turn<T, F: Fn(&mut T)>(f: &F, items: &mut [T])
    requires { TakesEach F.Fn f.now items.old }
    ensures { LeavesEach F.Fn f.now items.old items.new }
{
    for index in 0..items.len() {
        let item = &mut items[index];
        at_one(f, item);
    }
}

/// Calls f at each item. Those at these places, which rise, are each in a thread of its own where one can be made, and the others beside them. The first item has
/// the place `base`. It is the last parameter, since the borrow checker doesn't cover a closure that reads what it borrows behind a slice that it is lent.
#[cycle(halves)]
pub(crate) fn each_apart<R: Threads + Sync, T: Send, F: Fn(&mut T) + Sync>(
    rt: &R,
    f: &F,
    places: &[usize],
    base: usize,
    items: &mut [T],
)
    requires { TakesEach F.Fn f.now items.old }
    ensures { LeavesEach F.Fn f.now items.old items.new }
{
    let half = places.len() / 2;
    if half == 0 {
        in_turn(f, items);
        return;
    }
    let (near, far) = places.split_at(half);
    let next = far[0];
    let count = next.saturating_sub(base).min(items.len());
    let (front, back) = items.split_at_mut(count);
    both_apart(rt, f, near, base, front, far, next, back);
}

#[cycle(halves)]
fn both_apart<R: Threads + Sync, T: Send, F: Fn(&mut T) + Sync>(
    rt: &R,
    f: &F,
    near: &[usize],
    base: usize,
    front: &mut [T],
    far: &[usize],
    next: usize,
    back: &mut [T],
)
    requires some { (0 < length near.now) × (0 < length far.now) }
    requires front { TakesEach F.Fn f.now front.old }
    requires back { TakesEach F.Fn f.now back.old }
    ensures front { LeavesEach F.Fn f.now front.old front.new }
    ensures back { LeavesEach F.Fn f.now back.old back.new }
{
    let mut first = ||
        requires { IsSync R.row × IsSync F.row × IsSend T.row × TakesEach F.Fn f.now front.now }
        ensures { LeavesEach F.Fn f.entry.now front.entry.now front.exit.now }
    { each_apart(rt, f, near, base, front) };
    let mut second = ||
        requires { IsSync R.row × IsSync F.row × IsSend T.row × TakesEach F.Fn f.now back.now }
        ensures { LeavesEach F.Fn f.entry.now back.entry.now back.exit.now }
    { each_apart(rt, f, far, next, back) };
    join_mut(rt, &mut first, &mut second);
}
