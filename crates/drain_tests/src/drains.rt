//! Drains that are run.
ghost use Rattle.std.specs.Prelude.{OnOk};
ghost use Rattle.drain_copy.specs.Machine.{drain_standing};
ghost use Rattle.drain_copy.specs.Standing.{HasEnded, IsReady};

use crate::stores::{act, empty_store, make_container, name, put, put_entries, reply_to};
use drain_copy::{Drain, DrainNext, DrainStuck, Drained};
use plfs_types::{LogicalName, NoMemory};
use std::alloc::Global;
use std::test::Fail;
use store_api::{OwnedStep, Step, Store};
use store_memory::MemoryStore;
use test_lines::Line;

const FIRST: u64 = 4_294_967_297;

const SECOND: u64 = 4_294_967_298;

const THIRD: u64 = 8_589_934_593;

const TWICE: &str = "read index.1.4294967297 0 40
read index.1.4294967298 0 40
sync here log.1.4294967297
sync here index.1.4294967297
sync here log.1.4294967298
sync here index.1.4294967298
make room .plfs
create mounts/1
make room f
create openhosts/1.4294967297
make folder hostdir.1
create hostdir.1/index.1.4294967297
create hostdir.1/log.1.4294967297
read log.1.4294967297 0 4
write log.1.4294967297 0 4
sync log.1.4294967297
write index.1.4294967297 0 40
sync index.1.4294967297
create openhosts/1.4294967298
make folder hostdir.1
create hostdir.1/index.1.4294967298
create hostdir.1/log.1.4294967298
read log.1.4294967298 0 2
write log.1.4294967298 0 2
sync log.1.4294967298
write index.1.4294967298 0 40
sync index.1.4294967298
create truncs/12.9
drained 2 2 6
again
make room .plfs
create mounts/1
make room f
create openhosts/1.4294967297
make folder hostdir.1
create hostdir.1/index.1.4294967297
create hostdir.1/log.1.4294967297
sync log.1.4294967297
sync index.1.4294967297
create openhosts/1.4294967298
make folder hostdir.1
create hostdir.1/index.1.4294967298
create hostdir.1/log.1.4294967298
sync log.1.4294967298
sync index.1.4294967298
create truncs/12.9
drained 0 0 0
";

const SETTLED: &str = "read index.1.8589934593 0 40
sync here log.1.8589934593
sync here index.1.8589934593
make room .plfs
create mounts/1
create mounts/2
make room f
create openhosts/1.8589934593
make folder hostdir.1
create hostdir.1/index.1.8589934593
create hostdir.1/log.1.8589934593
read log.1.8589934593 0 1
write log.1.8589934593 0 1
sync log.1.8589934593
write index.1.8589934593 0 40
sync index.1.8589934593
create truncs/12.9
drained 1 1 1
read index.1.4294967297 40 40
taken 4294967297 1 2
";

fn show_step(step: &OwnedStep, shown: &mut Line) {
    match step {
        OwnedStep::MakeRoom { name, .. } => {
            shown.letters("make room ", name.bytes());
            shown.push("\n");
        }
        OwnedStep::MakeFolder { folder, .. } => {
            shown.letters("make folder ", folder.bytes());
            shown.push("\n");
        }
        OwnedStep::Create { folder, file, .. } => {
            shown.letters("create ", folder.bytes());
            shown.letters("/", file.bytes());
            shown.push("\n");
        }
        OwnedStep::WriteAt {
            file,
            at,
            bytes,
            ..
        } => {
            shown.letters("write ", file.bytes());
            shown.say(" ", *at);
            shown.say(" ", bytes.as_slice().len() as u64);
            shown.push("\n");
        }
        OwnedStep::Sync { file, .. } => {
            shown.letters("sync ", file.bytes());
            shown.push("\n");
        }
        _ => {}
    }
}

fn show_stuck(why: &DrainStuck, shown: &mut Line) {
    match why {
        DrainStuck::Taken {
            writer,
            there,
            here,
        } => {
            shown.say("taken ", *writer);
            shown.say(" ", *there);
            shown.say(" ", *here);
            shown.push("\n");
        }
        DrainStuck::Source(_) => shown.push("source\n"),
        DrainStuck::TargetFault => shown.push("target fault\n"),
        DrainStuck::TargetDamaged {
            folder,
            file,
            place,
        } => {
            shown.letters("target damaged ", folder.bytes());
            shown.letters("/", file.bytes());
            shown.say(" ", *place);
            shown.push("\n");
        }
    }
}

fn show_outcome(outcome: &Result<Drained, DrainStuck>, shown: &mut Line) {
    match outcome {
        Ok(drained) => {
            shown.say("drained ", drained.writers);
            shown.say(" ", u64::try_from(drained.entries).unwrap_or(u64::MAX));
            shown.say(" ", u64::try_from(drained.bytes).unwrap_or(u64::MAX));
            shown.push("\n");
        }
        Err(why) => show_stuck(why, shown),
    }
}

/// Makes what the drain asks for until it has ended, and shows it.
#[tactic(auto, using(drain_copy::proofs::DriveLemmas::given_call, drain_copy::proofs::DriveLemmas::given_step, drain_copy::proofs::DriveLemmas::given_end, drain_copy::proofs::DriveLemmas::ready_after, drain_copy::proofs::DriveLemmas::ready_told))]
fn drive(
    drain: &mut Drain,
    source: &mut MemoryStore,
    target: &mut MemoryStore,
    shown: &mut Line,
) -> Result<(), NoMemory>
    requires { IsReady (drain_standing drain.old) }
    ensures { OnOk result (HasEnded (drain_standing drain.new)) }
{
    loop {
        match drain.next()? {
            DrainNext::Source(call) => {
                let reply = reply_to(source, &call, shown);
                drop(call);
                drain.take_source(reply)?;
            }
            DrainNext::Target(step) => {
                show_step(&step, shown);
                let answer = target.act(&step.as_step());
                drop(step);
                drain.take_target(answer)?;
            }
            DrainNext::End => return Ok(()),
        }
    }
}

/// Drains the source's `f` to the target, and shows what is asked and what comes of it.
fn drain(alloc: Global, source: &mut MemoryStore, target: &mut MemoryStore, shown: &mut Line) {
    let Some(f) = LogicalName::read(b"f") else {
        return;
    };
    let mut drain = Drain::new(alloc, f);
    match drive(&mut drain, source, target, shown) {
        Ok(()) => {
            let outcome = drain.out();
            show_outcome(&outcome, shown);
            drop(outcome);
        }
        Err(NoMemory) => {
            drop(drain);
            shown.push("no memory\n");
        }
    }
}

/// Two writers: `AAAA` at 0, and behind that `BB` at 1.
fn put_two_writers(alloc: Global, source: &mut MemoryStore) {
    make_container(source);
    put(source, "hostdir.1", "log.1.4294967297", 0, b"AAAA");
    let first = [0, 4, 0, 10, FIRST];
    put_entries(alloc, source, "index.1.4294967297", 0, &first);
    put(source, "hostdir.1", "log.1.4294967298", 0, b"BB");
    let second = [1, 2, 0, 11, SECOND];
    put_entries(alloc, source, "index.1.4294967298", 0, &second);
    put(source, "truncs", "12.9", 0, b"");
}

/// The writer of this entry is settled in the target, whose container has the number 1.
fn settle(target: &mut MemoryStore, entry: &str, meta: &str) {
    act(
        target,
        &Step::Remove {
            room: 1,
            folder: name("openhosts"),
            file: name(entry),
        },
    );
    act(
        target,
        &Step::Create {
            room: 1,
            folder: name("metadata"),
            file: name(meta),
        },
    );
}

/// Drains two writers, and once more.
fn drain_twice(
    alloc: Global,
    source: &mut MemoryStore,
    target: &mut MemoryStore,
    shown: &mut Line,
) {
    put_two_writers(alloc, source);
    drain(alloc, source, target, shown);
    shown.push("again\n");
    drain(alloc, source, target, shown);
}

/// Drains two writers, which are settled then, and a third one; and once more where the first one has written again.
fn drain_settled(
    alloc: Global,
    source: &mut MemoryStore,
    target: &mut MemoryStore,
    shown: &mut Line,
) {
    put_two_writers(alloc, source);
    drain(alloc, source, target, &mut Line::new(alloc));
    settle(target, "1.4294967297", "4.4.10.1.4294967297");
    settle(target, "1.4294967298", "3.2.11.1.4294967298");
    put(source, "hostdir.1", "log.1.8589934593", 0, b"C");
    let third = [5, 1, 0, 12, THIRD];
    put_entries(alloc, source, "index.1.8589934593", 0, &third);
    drain(alloc, source, target, shown);
    put(source, "hostdir.1", "log.1.4294967297", 4, b"D");
    let more = [9, 1, 4, 20, FIRST];
    put_entries(alloc, source, "index.1.4294967297", 40, &more);
    drain(alloc, source, target, shown);
}

#[test]
fn a_second_drain_copies_only_what_came(rt: HostRuntime) -> Result<(), Fail> {
    let mut source = empty_store(rt.alloc())?;
    let mut target = empty_store(rt.alloc())?;
    let mut shown = Line::new(rt.alloc());
    drain_twice(rt.alloc(), &mut source, &mut target, &mut shown);
    assert!(rt; shown.as_str() == TWICE);
    Ok(())
}

#[test]
fn a_settled_writer_is_passed_by_or_taken(rt: HostRuntime) -> Result<(), Fail> {
    let mut source = empty_store(rt.alloc())?;
    let mut target = empty_store(rt.alloc())?;
    let mut shown = Line::new(rt.alloc());
    drain_settled(rt.alloc(), &mut source, &mut target, &mut shown);
    assert!(rt; shown.as_str() == SETTLED);
    Ok(())
}
