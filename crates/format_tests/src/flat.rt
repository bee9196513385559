use flat_format::{Flat, FlatTrouble, decode, encode};
use plain_file::{Piece, PieceList, Pieces};
use plfs_types::{Cover, CoverList, NoMemory};
use std::alloc::Global;
use std::test::Fail;

/// One writer's one entry of four bytes: one cover and one piece.
const ONE_PIECE: [u8; 96] = [
    80, 76, 70, 83, 70, 76, 84, 49, 1, 0, 0, 0, 0, 0, 0, 0, 1, 0, 0, 0, 0, 0, 0, 0, // head
    1, 0, 0, 0, 1, 0, 0, 0, 1, 0, 0, 0, 0, 0, 0, 0, // cover: writer, count
    4, 0, 0, 0, 0, 0, 0, 0, 10, 0, 0, 0, 0, 0, 0, 0, // bytes, stamp
    0, 0, 0, 0, 0, 0, 0, 0, 4, 0, 0, 0, 0, 0, 0, 0, // piece: at, length
    0, 0, 0, 0, 0, 0, 0, 0, 10, 0, 0, 0, 0, 0, 0, 0, // physical, stamp
    1, 0, 0, 0, 1, 0, 0, 0, // writer
];

const NOTHING: [u8; 24] = [
    80, 76, 70, 83, 70, 76, 84, 49, 0, 0, 0, 0, 0, 0, 0, 0, 0, 0, 0, 0, 0, 0, 0, 0,
];

const WRITER: u64 = 4294967297;

/// The place at which the bytes are bad, or None where they are a flattened index.
fn bad_place(alloc: Global, bytes: &[u8]) -> Result<Option<u64>, NoMemory> {
    match decode(alloc, bytes) {
        Ok(_) => Ok(None),
        Err(FlatTrouble::Bad { place }) => Ok(Some(place)),
        Err(FlatTrouble::NoMemory) => Err(NoMemory),
    }
}

#[test]
fn one_cover_and_one_piece_are_96_bytes(rt: HostRuntime) -> Result<(), Fail> {
    let flat = match decode(rt.alloc(), &ONE_PIECE) {
        Ok(flat) => flat,
        Err(trouble) => {
            assert_eq!(rt; trouble, FlatTrouble::NoMemory);
            return Ok(());
        }
    };
    assert_eq!(rt;
        flat.covers.as_slice(),
        [Cover {
            writer: WRITER,
            count: 1,
            bytes: 4,
            stamp: 10
        }]
        .as_slice()
    );
    let one = [piece(0, 4, 0, 10, WRITER)];
    assert!(rt; flat.pieces.as_slice() == one.as_slice(), "the one piece");
    let bytes = encode(rt.alloc(), &flat)?;
    assert_eq!(rt; bytes.as_slice(), ONE_PIECE.as_slice());
    Ok(())
}

#[test]
fn nothing_is_the_letters_and_two_counts_of_0(rt: HostRuntime) -> Result<(), Fail> {
    let place = bad_place(rt.alloc(), &NOTHING)?;
    assert_eq!(rt; place, None);
    let Ok(pieces) = Pieces::read(PieceList::new(rt.alloc())) else {
        assert!(rt; false, "no pieces were refused");
        return Ok(());
    };
    let bytes = encode(
        rt.alloc(),
        &Flat {
            covers: CoverList::new(rt.alloc()),
            pieces,
        },
    )?;
    assert_eq!(rt; bytes.as_slice(), NOTHING.as_slice());
    Ok(())
}

/// Bytes that differ from the index of one piece in one byte, and the place that is told.
const ONE_BYTE_CHANGED: [(usize, u8, Option<u64>); 16] = [
    (7, 50, Some(0)),
    (8, 2, Some(8)),
    (16, 0, Some(8)),
    (15, 255, Some(8)),
    (32, 0, Some(24)),
    (32, 5, Some(24)),
    (47, 1, Some(24)),
    (48, 0, Some(24)),
    (55, 128, Some(24)),
    (40, 3, Some(56)),
    (48, 9, Some(56)),
    (64, 0, Some(56)),
    (61, 1, Some(56)),
    (72, 1, Some(56)),
    (88, 2, Some(56)),
    (56, 9, None),
];

#[test]
fn the_first_record_that_breaks_a_rule_is_told(rt: HostRuntime) -> Result<(), Fail> {
    for (index, byte, wanted) in ONE_BYTE_CHANGED {
        let mut bytes = ONE_PIECE;
        *bytes.get_mut(index).expect(&rt, "a byte of the index") = byte;
        let place = bad_place(rt.alloc(), &bytes)?;
        assert_eq!(rt; place, wanted, "byte {}", index);
    }
    Ok(())
}

#[test]
fn other_lengths_are_bad(rt: HostRuntime) -> Result<(), Fail> {
    for (length, wanted) in [(0, 0), (23, 0), (24, 8), (56, 8), (95, 8)] {
        let place = bad_place(rt.alloc(), &ONE_PIECE[..length])?;
        assert_eq!(rt; place, Some(wanted), "length {}", length);
    }
    Ok(())
}

fn piece(at: u64, len: u64, physical: u64, stamp: u64, writer: u64) -> Piece {
    Piece {
        at,
        len,
        physical,
        stamp,
        writer,
    }
}

/// An index of two covers and these two pieces, valid or not.
fn two_pieces(alloc: Global, writers: [u64; 2], pieces: [Piece; 2]) -> Result<Vec<u8>, NoMemory> {
    let mut bytes = Vec::new(alloc);
    bytes.extend_from_slice(b"PLFSFLT1".as_slice())?;
    for number in [2, 2, writers[0], 2, 8, 10, writers[1], 2, 8, 10] {
        bytes.extend_from_slice(&number.to_le_bytes())?;
    }
    for p in pieces {
        for number in [p.at, p.len, p.physical, p.stamp, p.writer] {
            bytes.extend_from_slice(&number.to_le_bytes())?;
        }
    }
    Ok(bytes)
}

#[test]
fn covers_and_pieces_stand_in_order(rt: HostRuntime) -> Result<(), Fail> {
    let first = piece(0, 4, 0, 9, 1);
    for (writers, second, wanted) in [
        ([1, 2], piece(4, 4, 4, 9, 2), None),
        ([1, 2], piece(4, 4, 3, 9, 1), None),
        ([1, 1], piece(4, 4, 4, 9, 1), Some(56)),
        ([2, 1], piece(4, 4, 4, 9, 2), Some(56)),
        ([1, 2], piece(4, 4, 4, 9, 1), Some(128)),
        ([1, 2], piece(3, 4, 4, 9, 2), Some(128)),
        ([1, 2], piece(4, 4, 5, 9, 2), Some(128)),
        ([1, 2], piece(4, 4, 4, 9, 3), Some(128)),
        ([1, 2], piece(4, 4, u64::MAX, 9, 2), Some(128)),
        ([2, 3], piece(4, 4, 4, 9, 2), Some(88)),
    ] {
        let bytes = two_pieces(rt.alloc(), writers, [first, second])?;
        let place = bad_place(rt.alloc(), bytes.as_slice())?;
        assert_eq!(rt;
            place,
            wanted,
            "{} {} {}",
            writers[1], second.at, second.physical
        );
    }
    Ok(())
}
