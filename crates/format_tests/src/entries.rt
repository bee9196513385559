//! An index entry is 40 bytes.
use index_entry::{BadEntry, decode, encode};
use plfs_types::Entry;

const SECOND_WRITE: Entry = Entry {
    at: 1,
    len: 2,
    physical: 0,
    stamp: 11,
    writer: 4294967298,
};

const ITS_BYTES: [u8; 40] = [
    1, 0, 0, 0, 0, 0, 0, 0, 2, 0, 0, 0, 0, 0, 0, 0, 0, 0, 0, 0, 0, 0, 0, 0, 11, 0, 0, 0, 0, 0, 0,
    0, 2, 0, 0, 0, 1, 0, 0, 0,
];

#[test]
fn an_entry_is_five_little_endian_numbers(rt: HostRuntime) {
    assert!(rt; encode(&SECOND_WRITE) == ITS_BYTES);
    assert!(rt; decode(&ITS_BYTES) == Ok(SECOND_WRITE));
}

#[test]
fn the_first_broken_rule_is_told(rt: HostRuntime) {
    let mut bytes = ITS_BYTES;
    bytes[31] = 128;
    let stamp = decode(&bytes);
    bytes[5] = 1;
    let far = decode(&bytes);
    bytes[8] = 0;
    let length = decode(&bytes);
    let wanted = [
        Err(BadEntry::StampRange),
        Err(BadEntry::TooFar),
        Err(BadEntry::ZeroLength),
    ];
    assert!(rt; [stamp, far, length] == wanted);
}

#[test]
fn the_end_of_the_greatest_file_is_valid(rt: HostRuntime) {
    let last = Entry {
        at: (1 << 40) - 2,
        stamp: (1 << 63) - 1,
        ..SECOND_WRITE
    };
    assert!(rt; decode(&encode(&last)) == Ok(last));
}
