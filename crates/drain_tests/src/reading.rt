//! Both machines, each once.
use crate::stores::{empty_store, make_container, put, put_entries, reply_to};
use drain_read::{Contained, ContainerRead, ContainerTurn, Held, HeldRead, HeldTurn, Known};
use mount_model::Stuck;
use plfs_types::{Cover, CoverList, NoMemory};
use std::alloc::Global;
use std::test::Fail;
use store_memory::MemoryStore;
use test_lines::Line;

const FIRST: u64 = 4_294_967_297;

const SECOND: u64 = 4_294_967_298;

const CONTAINED: &str = "read index.1.4294967297 40 40
read index.1.4294967298 0 40
4294967297 2 5 1
4294967298 1 2 1
trunc 12 9
";

const HELD: &str = "read index.1.4294967297 0 80
read index.1.4294967298 0 40
4294967297 2 5 6
4294967298 1 2 2
settled 4294967297
";

// What is read of the container, in no more than a thousand calls.
fn contained(
    alloc: Global,
    store: &mut MemoryStore,
    known: Known,
    shown: &mut Line,
) -> Result<Result<Contained, Stuck>, NoMemory> {
    let mut turn = ContainerRead::begin(alloc, known)?;
    for _ in 0..1000u32 {
        match turn {
            ContainerTurn::Asks(call, read) => {
                let reply = reply_to(store, &call, shown);
                drop(call);
                turn = read.take(reply)?;
            }
            ContainerTurn::Over(result) => return Ok(result),
        }
    }
    drop(turn);
    Ok(Err(Stuck::Fault))
}

// What the target has, in no more than a thousand calls.
fn held(
    alloc: Global,
    store: &mut MemoryStore,
    shown: &mut Line,
) -> Result<Result<Held, Stuck>, NoMemory> {
    let mut turn = HeldRead::begin(alloc, 0)?;
    for _ in 0..1000u32 {
        match turn {
            HeldTurn::Asks(call, read) => {
                let reply = reply_to(store, &call, shown);
                drop(call);
                turn = read.take(reply)?;
            }
            HeldTurn::Over(result) => return Ok(result),
        }
    }
    drop(turn);
    Ok(Err(Stuck::Fault))
}

fn show_contained(contained: &Contained, shown: &mut Line) {
    for read in contained.writers.as_slice() {
        shown.say("", read.writer);
        shown.say(" ", read.cover.count);
        shown.say(" ", read.cover.bytes);
        shown.say(" ", read.entries.as_slice().len() as u64);
        shown.push("\n");
    }
    for trunc in contained.truncs.as_slice() {
        shown.say("trunc ", trunc.stamp);
        shown.say(" ", trunc.size);
        shown.push("\n");
    }
}

fn show_held(held: &Held, shown: &mut Line) {
    for mirror in held.mirrors.as_slice() {
        shown.say("", mirror.cover.writer);
        shown.say(" ", mirror.cover.count);
        shown.say(" ", mirror.cover.bytes);
        shown.say(" ", mirror.log);
        shown.push("\n");
    }
    for writer in held.settled.as_slice() {
        shown.say("settled ", *writer);
        shown.push("\n");
    }
}

// One entry of the first writer is known.
fn known(alloc: Global) -> Result<Known, NoMemory> {
    let mut covers = CoverList::new(alloc);
    covers.push(Cover {
        writer: FIRST,
        count: 1,
        bytes: 4,
        stamp: 10,
    })?;
    Ok(Known {
        room: 0,
        keeps: true,
        covers,
    })
}

// A container of two writers, of which the first has left, and of one truncate. Behind the second one's entry stand seven bytes of another.
fn put_container(alloc: Global, store: &mut MemoryStore) {
    make_container(store);
    let first = [0, 4, 0, 10, FIRST, 4, 1, 4, 12, FIRST];
    put_entries(alloc, store, "index.1.4294967297", 0, &first);
    put(store, "hostdir.1", "log.1.4294967297", 0, b"AAAADx");
    let second = [1, 2, 0, 11, SECOND];
    put_entries(alloc, store, "index.1.4294967298", 0, &second);
    put(
        store,
        "hostdir.1",
        "index.1.4294967298",
        40,
        b"\x05\0\0\0\0\0\0",
    );
    put(store, "hostdir.1", "log.1.4294967298", 0, b"BB");
    put(store, "metadata", "5.5.12.1.4294967297", 0, b"");
    put(store, "truncs", "12.9", 0, b"");
}

// Reads the container, and shows what is read of it.
fn read_container(alloc: Global, store: &mut MemoryStore, shown: &mut Line) {
    put_container(alloc, store);
    let Ok(known) = known(alloc) else {
        return;
    };
    match contained(alloc, store, known, shown) {
        Ok(Ok(read)) => {
            show_contained(&read, shown);
            drop(read);
        }
        _ => shown.push("stuck\n"),
    }
}

// Reads what the target has, and shows it.
fn read_target(alloc: Global, store: &mut MemoryStore, shown: &mut Line) {
    put_container(alloc, store);
    match held(alloc, store, shown) {
        Ok(Ok(held)) => {
            show_held(&held, shown);
            drop(held);
        }
        _ => shown.push("stuck\n"),
    }
}

#[test]
fn a_container_is_read_from_behind_what_is_known(rt: HostRuntime) -> Result<(), Fail> {
    let mut store = empty_store(rt.alloc())?;
    let mut shown = Line::new(rt.alloc());
    read_container(rt.alloc(), &mut store, &mut shown);
    assert!(rt; shown.as_str() == CONTAINED);
    Ok(())
}

#[test]
fn a_target_tells_what_it_has(rt: HostRuntime) -> Result<(), Fail> {
    let mut store = empty_store(rt.alloc())?;
    let mut shown = Line::new(rt.alloc());
    read_target(rt.alloc(), &mut store, &mut shown);
    assert!(rt; shown.as_str() == HELD);
    Ok(())
}
