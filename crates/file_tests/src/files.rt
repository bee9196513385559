//! What changes make of an empty file, and which lists are pieces.
ghost use Rattle.std.specs.Prelude.{◌≡◌, ◌^◌, length, All, IfOk};
ghost use Rattle.plain_file.specs.File.{HasItsBytes, EndsWithin};
ghost use Rattle.plain_file.specs.Keys.{KeysDiffer};
ghost use Rattle.plain_file.specs.Shows.{entries_of};

use plain_file::{Change, ChangeList, Piece, PieceList, Pieces, replay};
use plfs_types::{Bytes, Entry, NoMemory, Trunc};
use std::alloc::Global;
use std::test::Fail;

/// A write of this text.
fn write(alloc: Global, at: u64, stamp: u64, writer: u64, text: &[u8]) -> Result<Change, NoMemory>
    ensures { IfOk result (λ change. change ≡ Change.Write (record { at = at; len = length text.now; physical = 0; stamp = stamp; writer = writer }) text.now) }
{
    Ok(Change::Write {
        entry: Entry {
            at,
            len: text.len() as u64,
            physical: 0,
            stamp,
            writer,
        },
        bytes: Bytes::copy(alloc, text)?,
    })
}

/// Two writes at one stamp that overlap, an older one handed in last, and an empty one far behind.
fn tied(alloc: Global) -> Result<ChangeList, NoMemory>
    ensures bytes { IfOk result (λ changes. All HasItsBytes changes) }
    ensures within { IfOk result (λ changes. All (EndsWithin (2 ^ 24)) changes) }
    ensures keys { IfOk result (λ changes. KeysDiffer (entries_of changes)) }
{
    let mut changes = ChangeList::new(alloc);
    changes.push(write(alloc, 2, 7, 9, b"BBB")?)?;
    changes.push(write(alloc, 0, 7, 4, b"AAAA")?)?;
    changes.push(write(alloc, 4, 3, 9, b"CCCC")?)?;
    changes.push(write(alloc, 90, 8, 9, b"")?)?;
    Ok(changes)
}

#[test]
fn the_greater_writer_wins_at_one_stamp(rt: HostRuntime) -> Result<(), Fail> {
    let file = replay(rt.alloc(), &tied(rt.alloc())?)?;
    assert!(rt; file.as_slice() == b"AABBBCCC".as_slice());
    Ok(())
}

/// Truncates down and up, one of them at the stamp of a write, and two at one stamp.
fn resized(alloc: Global) -> Result<ChangeList, NoMemory>
    ensures bytes { IfOk result (λ changes. All HasItsBytes changes) }
    ensures within { IfOk result (λ changes. All (EndsWithin (2 ^ 24)) changes) }
    ensures keys { IfOk result (λ changes. KeysDiffer (entries_of changes)) }
{
    let mut changes = ChangeList::new(alloc);
    changes.push(Change::Truncate(Trunc { stamp: 4, size: 8 }))?;
    changes.push(Change::Truncate(Trunc { stamp: 4, size: 5 }))?;
    changes.push(write(alloc, 6, 4, 2, b"Z")?)?;
    changes.push(Change::Truncate(Trunc { stamp: 2, size: 3 }))?;
    changes.push(write(alloc, 0, 1, 1, b"abcdef")?)?;
    Ok(changes)
}

#[test]
fn a_truncate_comes_after_the_writes_of_its_stamp(rt: HostRuntime) -> Result<(), Fail> {
    let file = replay(rt.alloc(), &resized(rt.alloc())?)?;
    // abcdef, cut to abc, Z at 6, cut to 5 bytes, padded to 8.
    assert!(rt; file.as_slice() == b"abc\0\0\0\0\0".as_slice());
    Ok(())
}

/// Whether the two pieces, each given as `at`, `len` and `physical` of one write, are taken.
fn takes(alloc: Global, first: (u64, u64, u64), second: (u64, u64, u64)) -> Result<bool, NoMemory> {
    let mut list = PieceList::new(alloc);
    for (at, len, physical) in [first, second] {
        list.push(Piece {
            at,
            len,
            physical,
            stamp: 3,
            writer: 1,
        })?;
    }
    Ok(Pieces::read(list).is_ok())
}

#[test]
fn only_runs_are_pieces(rt: HostRuntime) -> Result<(), Fail> {
    let end = 1 << 40;
    let fine = (8, 4, 20);
    for (first, second, taken) in [
        (fine, (12, 4, 25), true),
        (fine, (13, 4, 24), true),
        (fine, (end - 1, 1, u64::MAX - 1), true),
        (fine, (12, 4, 24), false),
        (fine, (11, 4, 40), false),
        (fine, (4, 4, 40), false),
        (fine, (12, 0, 40), false),
        (fine, (end - 1, 2, 40), false),
        (fine, (12, 4, u64::MAX - 3), false),
    ] {
        let answer = takes(rt.alloc(), first, second)?;
        assert!(rt; answer == taken, "{} {} {}", second.0, second.1, second.2);
    }
    Ok(())
}

#[test]
fn a_list_that_breaks_a_rule_comes_back(rt: HostRuntime) -> Result<(), Fail> {
    let mut list = PieceList::new(rt.alloc());
    list.push(Piece {
        at: 0,
        len: 0,
        physical: 0,
        stamp: 1,
        writer: 1,
    })?;
    match Pieces::read(list) {
        Ok(_) => assert!(rt; false, "an empty piece was taken"),
        Err(back) => assert!(rt; back.as_slice().len() == 1),
    }
    match Pieces::read(PieceList::new(rt.alloc())) {
        Ok(pieces) => assert!(rt; pieces.as_slice().is_empty()),
        Err(_) => assert!(rt; false, "no pieces were handed back"),
    }
    Ok(())
}
