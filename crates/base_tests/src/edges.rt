//! The edge to the world: sources, sinks and clocks in memory, over the standard library, and the gate that lets all through.
use edge_io::{
    CallList, Clock, Failed, Gate, ListClock, MemorySink, MemorySource, NoGate, Sink, Source,
    StdSink, StdSource, SystemClock,
};
use plfs_types::Bytes;
use std::alloc::{AllocError, Global};
use std::io::Read;
use std::test::Fail;
use std::time::Duration;
use std::{io, time};

fn numbers(alloc: Global, of: &[u64]) -> Result<CallList, AllocError> {
    Ok(CallList::from_vec(Vec::from_slice(alloc, of)?))
}

#[test]
fn a_source_hands_over_pieces_and_fails_where_it_is_told(rt: HostRuntime) -> Result<(), Fail> {
    let bytes = Bytes::copy(rt.alloc(), b"hello")?;
    let mut source = MemorySource::new(bytes, 2, numbers(rt.alloc(), &[1])?);
    let mut into = [0; 4];
    let told = source.read(&mut into);
    assert!(rt; (told, into) == (Ok(2), [b'h', b'e', 0, 0]));
    let told = [
        source.read(&mut into),
        source.read(&mut into),
        source.read(&mut into),
    ];
    assert!(rt; (told, into) == ([Err(Failed), Ok(2), Ok(1)], [b'o', b'l', 0, 0]));
    let told = source.read(&mut into);
    assert!(rt; (told, source.faults()) == (Ok(0), 1));
    Ok(())
}

#[test]
fn a_sink_takes_pieces_and_fails_where_it_is_told(rt: HostRuntime) -> Result<(), Fail> {
    let mut sink = MemorySink::new(rt.alloc(), 3, numbers(rt.alloc(), &[0])?);
    let told = [
        sink.write(b"hello"),
        sink.write(b"hello"),
        sink.write(b"lo"),
    ];
    assert!(rt; told == [Err(Failed), Ok(3), Ok(2)]);
    assert!(rt; sink.taken() == b"hello".as_slice());
    let mut full = MemorySink::new(rt.alloc(), 0, numbers(rt.alloc(), &[])?);
    let told = full.write(b"hello");
    let counted = [sink.faults(), sink.stalls(), full.faults(), full.stalls()];
    assert!(rt; (told, counted) == (Ok(0), [1, 0, 0, 1]));
    Ok(())
}

#[test]
fn a_clock_keeps_its_last_time(rt: HostRuntime) -> Result<(), Fail> {
    let mut clock = ListClock::new(numbers(rt.alloc(), &[5, 9])?);
    let mut none = ListClock::new(numbers(rt.alloc(), &[])?);
    let times = [clock.now(), clock.now(), clock.now(), none.now()];
    assert!(rt; times == [5, 9, 9, 0]);
    Ok(())
}

#[derive(Drop)]
struct Broken;

impl Read for Broken {
    fn read(&mut self, _buf: &mut [u8]) -> io::Result<usize> {
        Err(io::Error::from(io::ErrorKind::Other))
    }
}

impl io::Write for Broken {
    fn write(&mut self, _buf: &[u8]) -> io::Result<usize> {
        Err(io::Error::from(io::ErrorKind::Other))
    }

    fn flush(&mut self) -> io::Result<()> {
        Ok(())
    }
}

#[test]
fn readers_and_writers_are_sources_and_sinks(rt: HostRuntime) -> Result<(), Fail> {
    let mut source = StdSource::new(b"abc".as_slice());
    let mut into = [0; 2];
    let told = source.read(&mut into);
    assert!(rt; (told, into, source.faults()) == (Ok(2), [b'a', b'b'], 0));
    let mut held = Vec::new(rt.alloc());
    let mut sink = StdSink::new(&mut held);
    let told = sink.write(b"abc");
    assert!(rt; (told, sink.faults(), sink.stalls()) == (Ok(3), 0, 0));
    assert!(rt; held.as_slice() == b"abc".as_slice());
    Ok(())
}

#[test]
fn an_error_of_a_reader_or_writer_is_counted(rt: HostRuntime) {
    let mut source = StdSource::new(Broken);
    let mut sink = StdSink::new(Broken);
    let told = [source.read(&mut [0; 2]), sink.write(b"abc")];
    assert!(rt; told == [Err(Failed), Err(Failed)]);
    assert!(rt; [source.faults(), sink.faults()] == [1, 1]);
}

// A runtime whose clock stands still, or gives no time.
#[derive(Drop)]
struct Still(Option<u64>);

impl time::Clock for Still {
    fn monotonic(&self) -> io::Result<Duration> {
        self.since_1970()
    }

    fn since_1970(&self) -> io::Result<Duration> {
        match self.0 {
            Some(nanos) => Ok(Duration::from_nanos(nanos)),
            None => Err(io::Error::from(io::ErrorKind::Other)),
        }
    }
}

#[test]
fn the_system_clock_gives_nanoseconds(rt: HostRuntime) {
    let still = SystemClock::new(Still(Some(1700))).now();
    let none = SystemClock::new(Still(None)).now();
    assert!(rt; (still, none) == (1700, 0));
    assert!(rt; SystemClock::new(&rt).now() > 0);
    NoGate.before(0, 0, 1);
}
