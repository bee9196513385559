//! The plan of a read: pieces cut to the range, and holes between them.
use plain_file::{Piece, PieceList, Pieces};
use plfs_types::NoMemory;
use read_plan::{Part, PartList, plan};
use std::alloc::Global;
use std::test::Fail;

fn hole(len: u64) -> Part {
    Part::Hole { len }
}

fn from(writer: u64, physical: u64, len: u64) -> Part {
    Part::From {
        writer,
        physical,
        len,
    }
}

fn piece(at: u64, len: u64, physical: u64, writer: u64) -> Piece {
    Piece {
        at,
        len,
        physical,
        stamp: 7,
        writer,
    }
}

/// The parts of a read of a file of 50 bytes, that writer 1 wrote from 10 to 20 and from 30 to 40,
/// and writer 2 from 20 to 25.
fn planned(alloc: Global, at: u64, len: u64) -> Result<PartList, NoMemory> {
    let mut list = PieceList::new(alloc);
    list.push(piece(10, 10, 100, 1))?;
    list.push(piece(20, 5, 300, 2))?;
    list.push(piece(30, 10, 0, 1))?;
    match Pieces::read(list) {
        Ok(pieces) => plan(alloc, &pieces, 50, at, len),
        Err(_) => Err(NoMemory),
    }
}

#[test]
fn gaps_before_between_and_behind_pieces_are_holes(rt: HostRuntime) -> Result<(), Fail> {
    let whole = planned(rt.alloc(), 0, 100)?;
    assert!(rt;
        whole.as_slice()
            == [
                hole(10),
                from(1, 100, 10),
                from(2, 300, 5),
                hole(5),
                from(1, 0, 10),
                hole(10),
            ]
            .as_slice()
    );
    let gap = planned(rt.alloc(), 26, 3)?;
    assert!(rt; gap.as_slice() == [hole(3)].as_slice());
    Ok(())
}

#[test]
fn a_piece_is_cut_to_the_range(rt: HostRuntime) -> Result<(), Fail> {
    let inside = planned(rt.alloc(), 13, 4)?;
    assert!(rt; inside.as_slice() == [from(1, 103, 4)].as_slice());
    let across = planned(rt.alloc(), 18, 14)?;
    assert!(rt;
        across.as_slice() == [from(1, 108, 2), from(2, 300, 5), hole(5), from(1, 0, 2),].as_slice()
    );
    Ok(())
}

#[test]
fn a_range_without_bytes_has_no_parts(rt: HostRuntime) -> Result<(), Fail> {
    for (at, len) in [(15, 0), (20, 0), (50, 8), (51, 8), (u64::MAX, 1 << 24)] {
        let parts = planned(rt.alloc(), at, len)?;
        assert!(rt; parts.as_slice().is_empty(), "{at} {len}");
    }
    Ok(())
}
