//! How machines of a reader are made.
ghost use Rattle.std.specs.Prelude.{IfSome};
ghost use Rattle.mount_model.specs.Standing.{IsFresh};
ghost use Rattle.index_reader.specs.Covered as covered;
ghost use Rattle.index_reader.specs.ReadingStages.{read_standing};
ghost use Rattle.index_reader.specs.Stages.{share_standing};
ghost use Rattle.refresh_index.specs.RefreshStages.{refresh_standing};

use crate::newest::opened;
use crate::sets::read;
use index_reader::{Dropping, DroppingList, OpenReader, Reading, ShareRead};
use plfs_types::{Cover, CoverList, MAX_LOG};
use refresh_index::Refresh;
use std::alloc::Global;
use std::thread::Threads;

// A cover of the first entry of the writer 9, of 5 bytes, or of two entries of 2^56 - 2 bytes, or of no entry.
fn covers(alloc: Global, count: u64) -> Option<CoverList>
    ensures { IfSome result covered.AreByWriter }
{
    if count == 0 {
        return Some(CoverList::new(alloc));
    }
    let cover = Cover {
        writer: 9,
        count,
        bytes: if count == 1 { 5 } else { MAX_LOG - 2 },
        stamp: 11,
    };
    Some(CoverList::from_vec(vec![in alloc; cover].ok()?))
}

/// Who reads the index dropping of writer 9 of host 7, with a packed index or without one.
pub(crate) fn sharing(alloc: Global, packed: bool, covered: u64) -> Option<ShareRead>
    ensures { IfSome result (λ flow. IsFresh (share_standing flow)) }
{
    let dropping = Dropping {
        host: 7,
        writer: 9,
        packed,
    };
    let covers = covers(alloc, covered)?;
    let droppings = DroppingList::from_vec(vec![in alloc; dropping].ok()?);
    Some(ShareRead::new(alloc, 1, droppings, covers))
}

// A reader of the two entries of that writer: of 5 bytes, and of 3 that overlap them in the file.
fn reader<R: Threads + Sync>(rt: &R, alloc: Global) -> Option<OpenReader> {
    let set = read(alloc, "b@11:0+5 b@12:4+3", 0)?;
    let reader = opened(rt, alloc, &set);
    drop(set);
    reader
}

/// Who reads its file.
pub(crate) fn reading<R: Threads + Sync>(rt: &R, alloc: Global) -> Option<Reading>
    ensures { IfSome result (λ flow. IsFresh (read_standing flow)) }
{
    let reader = reader(rt, alloc)?;
    let flow = Reading::new(alloc, &reader, 0, 100);
    drop(reader);
    flow.ok()
}

/// Who refreshes it.
pub(crate) fn refreshing<R: Threads + Sync>(rt: &R, alloc: Global) -> Option<Refresh>
    ensures { IfSome result (λ flow. IsFresh (refresh_standing flow)) }
{
    let reader = reader(rt, alloc)?;
    Some(Refresh::new(alloc, reader.into_parts()))
}
