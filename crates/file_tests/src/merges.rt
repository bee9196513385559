//! The pieces of many writers, against the newest write asked byte by byte.
ghost use Rattle.std.specs.Prelude.{◌↔◌, All, IsTrue};
ghost use Rattle.interval_merge.specs.Writer.{HasPiece};

use interval_merge::{PiecesList, clip, merge, merge_all, merge_on, of_writer, size};
use plain_file::{Piece, PieceList, Pieces};
use plfs_types::{Entry, NoMemory, Trunc};
use std::alloc::Global;
use std::test::Fail;

/// A write: where it begins, its length and its stamp.
type Write = (u64, u64, u64);

/// Where a byte comes from: the stamp, the writer, and the place in the writer's log.
type Origin = (u64, u64, u64);

/// The entries of a writer that made these writes, one behind the other in its log.
fn entries_of(alloc: Global, writer: u64, writes: &[Write]) -> Result<Vec<Entry>, NoMemory> {
    let mut entries = Vec::new(alloc);
    let mut physical = 0u64;
    for (at, len, stamp) in writes {
        entries.push(Entry {
            at: *at,
            len: *len,
            physical,
            stamp: *stamp,
            writer,
        })?;
        physical = physical.wrapping_add(*len);
    }
    Ok(entries)
}

fn are_valid(entries: &[Entry]) -> bool
    ensures { IsTrue result ↔ All HasPiece entries.now }
{
    entries.iter().all(has_piece)
}

fn has_piece(entry: &Entry) -> bool
    ensures { IsTrue result ↔ HasPiece entry.now }
{
    let piece = Piece {
        at: entry.at,
        len: entry.len,
        physical: entry.physical,
        stamp: entry.stamp,
        writer: entry.writer,
    };
    piece.is_valid()
}

/// The newest write at byte x that no truncate takes away, asked entry by entry.
fn newest(all: &[Entry], truncs: &[Trunc], x: u64) -> Option<Origin> {
    let mut best: Option<Origin> = None;
    for entry in all {
        if entry.at <= x && x - entry.at < entry.len && survives(truncs, x, entry.stamp) {
            let here = (
                entry.stamp,
                entry.writer,
                entry.physical.wrapping_add(x - entry.at),
            );
            best = match best {
                Some(other) if (other.0, other.1) > (here.0, here.1) => Some(other),
                _ => Some(here),
            };
        }
    }
    best
}

fn survives(truncs: &[Trunc], x: u64, stamp: u64) -> bool {
    truncs
        .iter()
        .all(|trunc| x < trunc.size || trunc.stamp < stamp)
}

/// What the pieces say of byte x.
fn shown(pieces: &[Piece], x: u64) -> Option<Origin> {
    for piece in pieces {
        if piece.at <= x && x - piece.at < piece.len {
            return Some((
                piece.stamp,
                piece.writer,
                piece.physical.wrapping_add(x - piece.at),
            ));
        }
    }
    None
}

/// The size after all changes, stamp by stamp: first the writes, then the truncates by size.
fn size_after(all: &[Entry], truncs: &[Trunc]) -> u64 {
    let mut size = 0;
    for stamp in 0..64 {
        size = size_at(all, truncs, stamp, size);
    }
    size
}

fn size_at(all: &[Entry], truncs: &[Trunc], stamp: u64, before: u64) -> u64 {
    let mut size = before;
    for entry in all {
        if entry.stamp == stamp {
            size = size.max(entry.at.wrapping_add(entry.len));
        }
    }
    let mut given: Option<u64> = None;
    for trunc in truncs {
        if trunc.stamp == stamp {
            given = Some(trunc.size.max(given.unwrap_or(0)));
        }
    }
    given.unwrap_or(size)
}

/// The first byte at which the pieces of these writers under these truncates don't say what the
/// newest write is, 64 where only the size is wrong, and 65 where an entry isn't valid.
fn first_difference(
    alloc: Global,
    writers: &[&[Write]],
    truncs: &[Trunc],
) -> Result<Option<u64>, NoMemory> {
    let mut all = Vec::new(alloc);
    let mut lists = PiecesList::new(alloc);
    for (i, writes) in writers.iter().enumerate() {
        let own = entries_of(alloc, i as u64 + 1, writes)?;
        if !are_valid(own.as_slice()) {
            return Ok(Some(65));
        }
        lists.push(of_writer(alloc, own.as_slice())?)?;
        all.extend_from_slice(own.as_slice())?;
    }
    let whole = merge_all(alloc, lists)?;
    let clipped = clip(alloc, &whole, truncs)?;
    for x in 0..64 {
        if shown(clipped.as_slice(), x) != newest(all.as_slice(), truncs, x) {
            return Ok(Some(x));
        }
    }
    if size(&whole, truncs) != size_after(all.as_slice(), truncs) {
        return Ok(Some(64));
    }
    Ok(None)
}

#[test]
fn the_greater_writer_shows_at_one_stamp(rt: HostRuntime) -> Result<(), Fail> {
    let writers: [&[Write]; 2] = [&[(0, 8, 5), (6, 4, 7)], &[(4, 8, 5), (2, 6, 7)]];
    assert!(rt; first_difference(rt.alloc(), &writers, &[])? == None);
    Ok(())
}

#[test]
fn writes_that_touch_stay_apart(rt: HostRuntime) -> Result<(), Fail> {
    let writers: [&[Write]; 3] = [
        &[(0, 4, 1), (4, 4, 2)],
        &[(8, 4, 3)],
        &[(12, 4, 4), (16, 4, 5)],
    ];
    assert!(rt; first_difference(rt.alloc(), &writers, &[])? == None);
    Ok(())
}

#[test]
fn the_newest_of_three_writes_of_the_same_bytes_shows(rt: HostRuntime) -> Result<(), Fail> {
    let writers: [&[Write]; 3] = [&[(3, 5, 9)], &[(3, 5, 8)], &[(3, 5, 10)]];
    assert!(rt; first_difference(rt.alloc(), &writers, &[])? == None);
    Ok(())
}

#[test]
fn a_writer_may_go_back(rt: HostRuntime) -> Result<(), Fail> {
    let writers: [&[Write]; 1] = [&[(30, 10, 1), (20, 15, 2), (10, 15, 3), (0, 40, 4), (5, 1, 5)]];
    assert!(rt; first_difference(rt.alloc(), &writers, &[])? == None);
    Ok(())
}

#[test]
fn truncates_cut_what_is_older(rt: HostRuntime) -> Result<(), Fail> {
    let writers: [&[Write]; 2] = [&[(0, 10, 2), (20, 5, 6)], &[(5, 10, 4), (8, 4, 9)]];
    for stamp in [1, 2, 5, 6, 9, 12] {
        for edge in [0, 1, 4, 5, 8, 10, 15, 20, 25, 30] {
            let down = [Trunc { stamp, size: edge }];
            assert!(rt;
                first_difference(rt.alloc(), &writers, &down)? == None,
                "{stamp} {edge}"
            );
            let down_and_up = [
                Trunc { stamp, size: 40 },
                Trunc {
                    stamp: 5,
                    size: edge,
                },
                Trunc { stamp: 5, size: 12 },
            ];
            assert!(rt;
                first_difference(rt.alloc(), &writers, &down_and_up)? == None,
                "{stamp} {edge} up"
            );
        }
    }
    Ok(())
}

/// The next of a fixed row of numbers that look like chance.
fn next_of(seed: &mut u64) -> u64 {
    *seed = seed
        .wrapping_mul(6364136223846793005)
        .wrapping_add(1442695040888963407);
    *seed >> 33
}

/// Six writes of up to 12 bytes below byte 52, with rising stamps below 26.
fn some_writes(seed: &mut u64) -> [Write; 6] {
    let mut writes = [(0, 1, 1); 6];
    let mut stamp = 1;
    for write in writes.iter_mut() {
        *write = (next_of(seed) % 40, 1 + next_of(seed) % 12, stamp % 64);
        stamp = stamp % 64 + 1 + next_of(seed) % 4;
    }
    writes
}

/// A truncate to a size below 60 at a stamp below 26.
fn some_trunc(seed: &mut u64) -> Trunc {
    Trunc {
        stamp: next_of(seed) % 26,
        size: next_of(seed) % 60,
    }
}

#[test]
fn many_sets_of_writes_are_told_right(rt: HostRuntime) -> Result<(), Fail> {
    let mut seed = 2009;
    for round in 0..200 {
        let (a, b, c) = (
            some_writes(&mut seed),
            some_writes(&mut seed),
            some_writes(&mut seed),
        );
        let writers: [&[Write]; 3] = [&a, &b, &c];
        let truncs = [some_trunc(&mut seed), some_trunc(&mut seed)];
        for count in 0..3 {
            assert!(rt;
                first_difference(rt.alloc(), &writers, &truncs[..count])? == None,
                "{round} {count}"
            );
        }
    }
    Ok(())
}

/// A piece of a writer whose log begins with the piece's first byte in the file.
fn piece(at: u64, len: u64, stamp: u64, writer: u64) -> Piece {
    Piece {
        at,
        len,
        physical: at,
        stamp,
        writer,
    }
}

/// The pieces of one write.
fn pieces_of(alloc: Global, of: Piece) -> Result<Pieces, NoMemory> {
    let mut list = PieceList::new(alloc);
    if of.is_valid() {
        list.push(of)?;
    }
    match Pieces::read(list) {
        Ok(pieces) => Ok(pieces),
        Err(_) => Ok(merge_all(alloc, PiecesList::new(alloc))?),
    }
}

/// Whether the pieces of two writes are merged into these.
fn merges_to(alloc: Global, first: Piece, second: Piece, want: &[Piece]) -> Result<bool, NoMemory> {
    let whole = merge(alloc, &pieces_of(alloc, first)?, &pieces_of(alloc, second)?)?;
    Ok(whole.as_slice() == want)
}

#[test]
fn a_write_within_another_cuts_it_only_where_it_is_newer(rt: HostRuntime) -> Result<(), Fail> {
    let (outer, older, newer) = (piece(0, 4, 5, 1), piece(1, 2, 4, 2), piece(1, 2, 5, 2));
    let cut = [piece(0, 1, 5, 1), newer, piece(3, 1, 5, 1)];
    let told = [
        merges_to(rt.alloc(), outer, older, &[outer])?,
        merges_to(rt.alloc(), outer, newer, &cut)?,
        merges_to(rt.alloc(), newer, outer, &cut)?,
    ];
    assert!(rt; told == [true; 3]);
    Ok(())
}

/// One piece for each of seven writers, each of three bytes, two bytes behind the last one's.
fn seven_lists(alloc: Global) -> Result<PiecesList, NoMemory> {
    let mut lists = PiecesList::new(alloc);
    for writer in 0..7u64 {
        lists.push(pieces_of(alloc, piece(2 * writer, 3, 8 + writer, writer))?)?;
    }
    Ok(lists)
}

/// The stairs that these pieces make: two bytes of each, and three of the last.
fn stairs(alloc: Global) -> Result<PieceList, NoMemory> {
    let mut list = PieceList::new(alloc);
    for writer in 0..6u64 {
        list.push(piece(2 * writer, 2, 8 + writer, writer))?;
    }
    list.push(piece(12, 3, 14, 6))?;
    Ok(list)
}

#[test]
fn any_number_of_workers_gives_the_same_pieces(rt: HostRuntime) -> Result<(), Fail> {
    let stairs = stairs(rt.alloc())?;
    for workers in [1, 2, 3, 16] {
        let merged = merge_on(&rt, rt.alloc(), seven_lists(rt.alloc())?, workers)?;
        assert!(rt; merged.as_slice() == stairs.as_slice(), "{workers}");
    }
    let merged = merge_all(rt.alloc(), seven_lists(rt.alloc())?)?;
    assert!(rt; merged.as_slice() == stairs.as_slice());
    Ok(())
}
