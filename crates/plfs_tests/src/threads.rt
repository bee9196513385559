//! Scripts that `run` has made on threads, in phases that leave one order of the calls.
use crate::playing::all_hold;

const RUN: &str = "\
## What was written in one phase is read in the next; a reader that was opened before doesn't see it.
$ run, threads: 0
actor a
actor b
a open f -> open 4294967297
phase
b ropen f -> reader 0 cut - trunc -
phase
a write 0 text:hello -> wrote 0 5 10
a close -> closed 1
phase
b read 0 9 -> read 0 -
b rclose -> rclosed
b ropen f -> reader 5 cut 4294967297:1 trunc -
b read 0 9 -> read 0 68656c6c6f
## Turns are passed over.
$ run, threads: 1
actor a
turn a 1
a sync -> refused not-open
## A script with a fault is not run.
$ run, threads: 2
actor a
a fly
= script 2 word
## Words that are no command.
$ usage run play, threads
actor a
a sync
## Other commands go as they go without threads.
$ play, threads: 1
actor a
a sync -> refused not-open
";

#[test]
fn scripts_are_run_on_threads(rt: HostRuntime) {
    all_hold(&rt, rt.alloc(), &[("", RUN)])
}
