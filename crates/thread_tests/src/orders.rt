//! Scripts with a phase between any two statements: the calls have one order alone, so a run has the lines of a play.
use crate::runs::on_threads;
use report_text::print;
use std::test::Fail;

/// A script, the clock's times, and the lines that are printed.
type Row = (&'static str, &'static [u64], &'static str);

const ONE_AT_A_TIME: &[Row] = &[
    // Two writers overlap, and one of them reads.
    (
        "actor a\nactor b\na open f\nphase\nb open f\nphase\na write 0 text:AAAA\nphase\nb write 1 text:BB\nphase\na close\nphase\nb close\nphase\na ropen f 2\nphase\na read 0 4\nphase\na map\n",
        &[10, 11],
        "3 open 4294967297\n5 open 4294967298\n7 wrote 0 4 10\n9 wrote 1 2 11\n11 closed 1\n13 closed 1\n15 reader 4 cut 4294967297:1,4294967298:1 trunc -\n17 read 0 41424241\n19 map 0+1=10.4294967297@0 1+2=11.4294967298@0 3+1=10.4294967297@3\n",
    ),
    // What waits is not seen, and what was synced in an earlier phase is; a refusal ends nothing.
    (
        "actor a\nactor b\na open f\nphase\na write 0 text:A\nphase\nb ropen f\nphase\nb read 0 9\nphase\na sync\nphase\nb rclose\nphase\nb ropen f\nphase\nb read 0 9\nphase\nb sync\n",
        &[10],
        "3 open 4294967297\n5 wrote 0 1 10\n7 reader 0 cut - trunc -\n9 read 0 -\n11 synced 1\n13 rclosed\n15 reader 1 cut 4294967297:1 trunc -\n17 read 0 41\n19 refused not-open\n",
    ),
    // A closed writer is read, and what waits is not.
    (
        "actor a\na open f\nphase\na write 0 text:hello\nphase\na sync\nphase\na close\nphase\na ropen f\nphase\na read 0 5\n",
        &[10],
        "2 open 4294967297\n4 wrote 0 5 10\n6 synced 1\n8 closed 1\n10 reader 5 cut 4294967297:1 trunc -\n12 read 0 68656c6c6f\n",
    ),
    (
        "actor a\na open f\nphase\na write 0 text:hello\nphase\na ropen f\nphase\na read 0 5\n",
        &[10],
        "2 open 4294967297\n4 wrote 0 5 10\n6 reader 0 cut - trunc -\n8 read 0 -\n",
    ),
    // A truncate hides what was written before it, and a later write comes after it.
    (
        "actor a\na open f\nphase\na write 0 text:ABCDEF\nphase\na close\nphase\na trunc f 2\nphase\na trunc f 4\nphase\na ropen f\nphase\na read 0 9\nphase\na rclose\nphase\na open f\nphase\na write 3 text:Z\nphase\na close\nphase\na ropen f\nphase\na read 0 9\n",
        &[100, 1],
        "2 open 4294967297\n4 wrote 0 6 100\n6 closed 1\n8 truncated 101\n10 truncated 102\n12 reader 4 cut 4294967297:1 trunc 101:2,102:4\n14 read 0 41420000\n16 rclosed\n18 open 4294967300\n20 wrote 3 1 103\n22 closed 1\n24 reader 4 cut 4294967297:1,4294967300:1 trunc 101:2,102:4\n26 read 0 4142005a\n",
    ),
    // What a flattening covers and what landed after it are one file.
    (
        "actor a\nactor b\na open f\nphase\na write 0 text:AAAA\nphase\na sync\nphase\nb flatten f\nphase\na write 1 text:BB\nphase\na sync\nphase\nb ropen f\nphase\nb read 0 9\nphase\nb map\n",
        &[10],
        "3 open 4294967297\n5 wrote 0 4 10\n7 synced 1\n9 flattened 4294967298 1 cut 4294967297:1\n11 wrote 1 2 11\n13 synced 2\n15 reader 4 cut 4294967297:2 trunc -\n17 read 0 41424241\n19 map 0+1=10.4294967297@0 1+2=11.4294967297@4 3+1=10.4294967297@3\n",
    ),
];

#[test]
fn one_statement_a_phase_is_run_as_it_is_written(rt: HostRuntime) -> Result<(), Fail> {
    for (script, times, output) in ONE_AT_A_TIME {
        let lines = on_threads(&rt, rt.alloc(), script, times)?;
        let text = print(rt.alloc(), &lines)?;
        assert_eq!(rt; text.as_slice(), output.as_bytes());
    }
    Ok(())
}
