use index_pack::{PackTrouble, pack, unpack};
use plfs_types::{Entry, EntryList, NoMemory};
use std::alloc::Global;
use std::test::Fail;

const WRITER: u64 = 4294967297;

/// The packed index of 32 writes of 47008 bytes, each 94016 further on, with stamps 10 to 41.
const STRIDED: [u8; 88] = [
    80, 76, 70, 83, 73, 68, 88, 50, 32, 0, 0, 0, 0, 0, 0, 0, 1, 0, 0, 0, 0, 0, 0, 0, // head
    0, 0, 0, 0, 0, 0, 0, 0, 64, 111, 1, 0, 0, 0, 0, 0, // start, stride
    160, 183, 0, 0, 0, 0, 0, 0, 32, 0, 0, 0, 0, 0, 0, 0, // length, count
    0, 0, 0, 0, 0, 0, 0, 0, 10, 0, 0, 0, 0, 0, 0, 0, // physical, stamp
    1, 0, 0, 0, 0, 0, 0, 0, 1, 0, 0, 0, 1, 0, 0, 0, // step, writer
];

fn entry(at: u64, len: u64, physical: u64, stamp: u64) -> Entry {
    Entry {
        at,
        len,
        physical,
        stamp,
        writer: WRITER,
    }
}

fn strided(alloc: Global) -> Result<EntryList, NoMemory> {
    let mut entries = EntryList::new(alloc);
    for k in 0..32u64 {
        entries.push(entry(k * 94016, 47008, k * 47008, 10 + k))?;
    }
    Ok(entries)
}

/// How many entries the bytes pack, or the place at which they are bad.
fn unpacked(alloc: Global, bytes: &[u8]) -> Result<Result<usize, u64>, NoMemory> {
    match unpack(alloc, bytes) {
        Ok(entries) => Ok(Ok(entries.as_slice().len())),
        Err(PackTrouble::Bad { place }) => Ok(Err(place)),
        Err(PackTrouble::NoMemory) => Err(NoMemory),
    }
}

/// A packed index of these runs, valid or not: each is start, stride, length, count, physical, stamp and step.
fn spelled(alloc: Global, count: u64, runs: &[[u64; 7]]) -> Result<Vec<u8>, NoMemory> {
    let mut bytes = Vec::new(alloc);
    bytes.extend_from_slice(b"PLFSIDX2".as_slice())?;
    for number in [count, runs.len() as u64] {
        bytes.extend_from_slice(&number.to_le_bytes())?;
    }
    for run in runs {
        for number in *run {
            bytes.extend_from_slice(&number.to_le_bytes())?;
        }
        bytes.extend_from_slice(&WRITER.to_le_bytes())?;
    }
    Ok(bytes)
}

/// Whether the bytes are the packed index of these entries: they are read from it, and packed as it.
fn is_packed(alloc: Global, bytes: &[u8], entries: &[Entry]) -> Result<bool, NoMemory> {
    match unpack(alloc, bytes) {
        Ok(read) => {
            let again = pack(alloc, read.as_slice())?;
            Ok(read.as_slice() == entries && again.as_slice() == bytes)
        }
        Err(PackTrouble::Bad { .. }) => Ok(false),
        Err(PackTrouble::NoMemory) => Err(NoMemory),
    }
}

#[test]
fn entries_at_one_stride_are_one_run(rt: HostRuntime) -> Result<(), Fail> {
    let entries = strided(rt.alloc())?;
    let is = is_packed(rt.alloc(), &STRIDED, entries.as_slice())?;
    assert!(rt; is);
    Ok(())
}

#[test]
fn a_run_ends_where_it_cannot_go_on(rt: HostRuntime) -> Result<(), Fail> {
    let runs = [
        [9, 0, 2, 1, 0, 1, 0],
        [5, 0, 2, 3, 2, 2, 5],
        [5, 3, 2, 2, 8, 18, 1],
        [8, 0, 3, 1, 12, 20, 0],
    ];
    let entries = [
        entry(9, 2, 0, 1),
        entry(5, 2, 2, 2),
        entry(5, 2, 4, 7),
        entry(5, 2, 6, 12),
        entry(5, 2, 8, 18),
        entry(8, 2, 10, 19),
        entry(8, 3, 12, 20),
    ];
    let bytes = spelled(rt.alloc(), 7, &runs)?;
    let is = is_packed(rt.alloc(), bytes.as_slice(), &entries)?;
    assert!(rt; is);
    Ok(())
}

/// Bytes that differ from the strided index in one byte, and what is told of them.
const ONE_BYTE_CHANGED: [(usize, u8, Result<usize, u64>); 20] = [
    (7, 49, Err(0)),
    (8, 0, Err(8)),
    (10, 17, Err(8)),
    (16, 0, Err(16)),
    (23, 255, Err(16)),
    (8, 31, Err(8)),
    (48, 31, Err(8)),
    (53, 1, Err(24)),
    (55, 1, Err(24)),
    (29, 1, Err(24)),
    (32, 0, Ok(32)),
    (37, 1, Err(24)),
    (40, 0, Ok(32)),
    (48, 0, Err(24)),
    (48, 1, Err(24)),
    (56, 1, Err(24)),
    (64, 0, Err(24)),
    (71, 128, Err(24)),
    (72, 0, Err(24)),
    (80, 2, Ok(32)),
];

#[test]
fn the_place_of_the_first_fault_is_told(rt: HostRuntime) -> Result<(), Fail> {
    for (index, byte, wanted) in ONE_BYTE_CHANGED {
        let mut bytes = STRIDED;
        *bytes.get_mut(index).expect(&rt, "a byte of the index") = byte;
        let told = unpacked(rt.alloc(), &bytes)?;
        assert!(rt; told == wanted, "byte {} as {}", index, byte);
    }
    Ok(())
}

#[test]
fn other_lengths_are_bad(rt: HostRuntime) -> Result<(), Fail> {
    for (length, wanted) in [(0, 0), (23, 0), (24, 16), (87, 16)] {
        let told = unpacked(rt.alloc(), &STRIDED[..length])?;
        assert!(rt; told == Err(wanted), "length {}", length);
    }
    Ok(())
}

/// The number of entries that is told, two runs, and what is told of them.
const PAIRS: [(u64, [u64; 7], [u64; 7], Result<usize, u64>); 9] = [
    (3, [0, 4, 2, 2, 0, 5, 3], [8, 0, 2, 1, 4, 12, 0], Ok(3)),
    (3, [0, 4, 2, 2, 0, 5, 3], [8, 0, 2, 1, 4, 11, 0], Err(24)),
    (3, [0, 4, 2, 2, 0, 5, 3], [8, 0, 2, 0, 4, 11, 0], Err(24)),
    (3, [0, 4, 2, 2, 0, 5, 3], [8, 0, 2, 1, 5, 12, 0], Err(88)),
    (3, [0, 4, 2, 2, 0, 5, 3], [8, 0, 2, 1, 4, 8, 0], Err(88)),
    (4, [0, 4, 2, 2, 0, 5, 3], [8, 0, 2, 1, 4, 12, 0], Err(8)),
    (2, [7, 0, 2, 1, 0, 5, 0], [6, 0, 2, 1, 2, 6, 0], Ok(2)),
    (2, [7, 0, 2, 1, 0, 5, 0], [7, 0, 2, 1, 2, 6, 0], Err(24)),
    (2, [7, 1, 2, 1, 0, 5, 0], [6, 0, 2, 1, 2, 6, 0], Err(24)),
];

#[test]
fn runs_are_as_long_as_they_can_be(rt: HostRuntime) -> Result<(), Fail> {
    for (count, first, second, wanted) in PAIRS {
        let bytes = spelled(rt.alloc(), count, &[first, second])?;
        let told = unpacked(rt.alloc(), bytes.as_slice())?;
        assert!(rt; told == wanted, "{} {}", count, second[5]);
    }
    Ok(())
}

#[test]
fn a_packed_index_has_at_most_2_to_20_entries(rt: HostRuntime) -> Result<(), Fail> {
    for (count, wanted) in [(1048576, Ok(1048576)), (1048577, Err(8))] {
        let bytes = spelled(rt.alloc(), count, &[[0, 1, 1, count, 0, 1, 1]])?;
        let told = unpacked(rt.alloc(), bytes.as_slice())?;
        assert!(rt; told == wanted, "{}", count);
    }
    Ok(())
}
