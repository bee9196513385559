//! A request that comes, and its answer.
use edge_io::{CallList, MemorySink, MemorySource};
use frame_format::{Answer, Head, request};
use frame_streams::{Arrival, next_frame, write_answer};
use plfs_types::Bytes;
use script_lang::{Data, Statement};
use std::alloc::Global;
use std::test::Fail;

// Actor 3 writes "hi" at place 5, and its number is 9.
const WRITE: [u8; 50] = [
    2, 0, 0, 0, 0, 0, 0, 0, 3, 0, 0, 0, 0, 0, 0, 0, 9, 0, 0, 0, 0, 0, 0, 0, 5, 0, 0, 0, 0, 0, 0, 0,
    0, 0, 0, 0, 0, 0, 0, 0, 2, 0, 0, 0, 0, 0, 0, 0, b'h', b'i',
];

// It was made, with the stamp 1000.
const MADE: [u8; 32] = [
    9, 0, 0, 0, 0, 0, 0, 0, 0, 0, 0, 0, 0, 0, 0, 0, 232, 3, 0, 0, 0, 0, 0, 0, 0, 0, 0, 0, 0, 0, 0,
    0,
];

fn source(alloc: Global, bytes: &[u8]) -> Result<MemorySource, Fail> {
    Ok(MemorySource::new(Bytes::copy(alloc, bytes)?, 7, CallList::new(alloc)))
}

fn is_end(arrival: &Arrival) -> bool {
    matches!(arrival, Arrival::End)
}

fn is_cut(arrival: &Arrival) -> bool {
    matches!(arrival, Arrival::Cut)
}

#[test]
fn a_write_comes_whole(rt: HostRuntime) -> Result<(), Fail> {
    let mut source = source(rt.alloc(), &WRITE)?;
    let first = next_frame(rt.alloc(), &mut source)?;
    let Arrival::Frame { head, payload } = first else {
        return Err(Fail::from("it is a frame"));
    };
    let Some(asked) = request(&head, payload) else {
        return Err(Fail::from("it is a request"));
    };
    assert!(rt; (asked.line, asked.actor) == (9, 3));
    let Statement::Write { at, content } = asked.statement else {
        return Err(Fail::from("it is a write"));
    };
    let Data::Hex(bytes) = content else {
        return Err(Fail::from("it has its bytes"));
    };
    assert!(rt; at == 5);
    assert!(rt; bytes.as_slice() == b"hi".as_slice());
    let last = next_frame(rt.alloc(), &mut source)?;
    assert!(rt; is_end(&last));
    drop(last);
    Ok(())
}

#[test]
fn a_cut_frame_is_told(rt: HostRuntime) -> Result<(), Fail> {
    let mut short = source(rt.alloc(), &WRITE[..49])?;
    let arrival = next_frame(rt.alloc(), &mut short)?;
    assert!(rt; is_cut(&arrival));
    drop(arrival);
    let mut none = source(rt.alloc(), &[])?;
    let arrival = next_frame(rt.alloc(), &mut none)?;
    assert!(rt; is_end(&arrival));
    drop(arrival);
    Ok(())
}

#[test]
fn a_kind_that_is_none_is_no_request(rt: HostRuntime) -> Result<(), Fail> {
    let head = Head {
        kind: 16,
        actor: 0,
        number: 1,
        place: 0,
        extent: 0,
        len: 0,
    };
    assert!(rt; request(&head, Bytes::new(rt.alloc())).is_none());
    Ok(())
}

#[test]
fn an_answer_is_written(rt: HostRuntime) -> Result<(), Fail> {
    let answer = Answer {
        number: 9,
        status: 0,
        value: 1000,
        payload: Bytes::new(rt.alloc()),
    };
    let mut sink = MemorySink::new(rt.alloc(), 5, CallList::new(rt.alloc()));
    assert!(rt; write_answer(&mut sink, &answer) == Ok(()));
    assert!(rt; sink.taken() == MADE.as_slice());
    Ok(())
}
