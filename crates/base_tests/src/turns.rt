//! Objects that threads use in turn.
ghost use Rattle.std.specs.Prelude.{◌≡◌, ◌+◌, ◌<◌, length};
ghost use Rattle.turn_object.specs.Pass.{mine_of, parts_of, IsPassOf};

use crate::counter::Counter;
use crate::kept::{Mount, Silent};
use std::sync::Wait;
use std::thread::join;
use turn_object::{Pass, Turn};

// Calls so often, and hands the pass back with as many more entries of its own.
fn call_often<W: Wait>(
    rt: &W,
    turn: &Turn<Counter>,
    mut pass: Pass<Counter>,
    times: u64,
) -> Pass<Counter>
    requires { IsPassOf turn.now pass }
    ensures pass { IsPassOf turn.now result × (parts_of result ≡ parts_of pass) }
    ensures entries { length (mine_of result) ≡ length (mine_of pass) + times }
{
    for made in 0..times {
        turn.call(rt, &mut pass, &1);
    }
    pass
}

#[test]
fn two_threads_of_1000_calls_count_to_2000(rt: HostRuntime) {
    let Ok((turn, mut main)) = Turn::new(rt.alloc(), Counter { count: 0 }) else {
        panic!(rt; "no memory")
    };
    let one = turn.split(&mut main, 1);
    let two = turn.split(&mut main, 1);
    let (one, two) = join(
        &rt,
        || call_often(&rt, &turn, one, 1000),
        || call_often(&rt, &turn, two, 1000),
    );
    turn.join(&mut main, one);
    turn.join(&mut main, two);
    let Ok(counter) = turn.close(main) else {
        unreachable!()
    };
    assert_eq!(rt; counter.count, 2000);
}

#[test]
fn passes_of_one_thread_call_in_one_order(rt: HostRuntime) {
    let Ok((turn, mut main)) = Turn::new(rt.alloc(), Counter { count: 100 }) else {
        panic!(rt; "no memory")
    };
    let first = turn.call(&rt, &mut main, &5);
    let mut other = turn.split(&mut main, 1 << 39);
    let second = turn.call(&rt, &mut other, &7);
    let third = turn.call(&rt, &mut main, &1);
    let fourth = turn.call(&rt, &mut other, &2);
    turn.join(&mut main, other);
    let fifth = turn.call(&rt, &mut main, &10);
    assert!(rt; [first, second, third, fourth, fifth] == [100, 105, 112, 113, 115]);
    let Ok(counter) = turn.close(main) else {
        unreachable!()
    };
    assert_eq!(rt; counter.count, 125);
}

#[test]
fn a_mount_whose_store_tells_nothing_lies_in_a_turn(rt: HostRuntime) {
    let Ok((turn, mut main)) = Turn::new(rt.alloc(), Mount::open(Silent { puts: 0 })) else {
        panic!(rt; "no memory")
    };
    let mut other = turn.split(&mut main, 1);
    assert!(rt; turn.call(&rt, &mut main, &3));
    assert!(rt; turn.call(&rt, &mut other, &4));
    turn.join(&mut main, other);
    let Ok(mount) = turn.close(main) else {
        unreachable!()
    };
    assert_eq!(rt; mount.into_store().puts, 2);
}
