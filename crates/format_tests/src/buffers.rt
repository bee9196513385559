//! The entries of a writer that have not landed yet.
use index_buffer::Buffer;
use plfs_types::Entry;
use std::test::Fail;

const SECOND_WRITE: Entry = Entry {
    at: 1,
    len: 2,
    physical: 0,
    stamp: 11,
    writer: 4294967298,
};

const ITS_BYTES: [u8; 40] = [
    1, 0, 0, 0, 0, 0, 0, 0, 2, 0, 0, 0, 0, 0, 0, 0, 0, 0, 0, 0, 0, 0, 0, 0, 11, 0, 0, 0, 0, 0, 0,
    0, 2, 0, 0, 0, 1, 0, 0, 0,
];

#[test]
fn a_buffer_of_one_entry_is_filled_and_cleared(rt: HostRuntime) -> Result<(), Fail> {
    let mut buffer = Buffer::new(rt.alloc(), 1)?;
    let before = buffer.pending();
    buffer.push(&SECOND_WRITE);
    assert!(rt; buffer.bytes() == ITS_BYTES.as_slice());
    let full = buffer.pending();
    buffer.clear();
    let after = [buffer.pending(), buffer.bytes().len() as u64];
    assert!(rt; (buffer.capacity(), before, full, after) == (1, 0, 1, [0, 0]));
    Ok(())
}

#[test]
fn the_greatest_buffer_holds_4096_entries(rt: HostRuntime) -> Result<(), Fail> {
    let mut buffer = Buffer::new(rt.alloc(), 4096)?;
    for at in 0..4096u64 {
        assert!(rt; buffer.pending() < u64::from(buffer.capacity()));
        buffer.push(&Entry { at, ..SECOND_WRITE });
    }
    let bytes = buffer.bytes();
    assert!(rt; (buffer.pending(), bytes.len()) == (4096, 163840));
    assert!(rt; bytes.get(163800..163802) == Some([255, 15].as_slice()));
    Ok(())
}

fn crosses<T: Send + Sync + Drop>(_value: T) {}

#[test]
fn a_buffer_crosses_threads(rt: HostRuntime) -> Result<(), Fail> {
    crosses(Buffer::new(rt.alloc(), 64)?);
    Ok(())
}
