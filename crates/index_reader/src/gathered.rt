//! What comes of a listing and the shares of its droppings.
ghost use Rattle.std.specs.Prelude.{◌≡◌, ◌++◌, ◌∷◌, ℕ, IfOk, OnOk};
ghost use Rattle.index_reader.specs.Gathered.{covers_of, pieces_of_each, AreFirstOf, ArePiecesOfAll, IsGatheredOf, IsJoinedOf};

use crate::firsts::first_covers;
use crate::listing::{DroppingList, Listing};
use crate::sharing::Share;
use flat_format::Flat;
use interval_merge::{PiecesList, merge_all, merge_on};
use plfs_types::{Cover, NoMemory, Sequence, TruncList};
use std::alloc::Global;
use std::thread::Threads;

/// What was gathered of a container.
#[derive(Drop)]
pub struct Gathered {
    /// The container's room.
    pub room: u64,
    /// How many entries of each writer were read, and the pieces of them all.
    pub flat: Flat,
    /// The index droppings, by ascending writer.
    pub droppings: DroppingList,
    /// The truncates.
    pub truncs: TruncList,
}

/// A list of shares.
pub type ShareList = Sequence<Share>;

/// Puts the covers of the shares behind these covers, and their pieces behind these lists of pieces.
fn add_parts(
    covers: &mut Vec<Cover>,
    lists: &mut PiecesList,
    shares: ShareList,
) -> Result<(), NoMemory>
    ensures covers { OnOk result (covers.new.items ≡ covers.old.items ++ covers_of shares) }
    ensures lists { OnOk result (lists.new ≡ lists.old ++ pieces_of_each shares) }
{
    for share in shares.into_vec() {
        let Share {
            covers: more,
            pieces,
        } = share;
        covers.extend_from_slice(more.as_slice())?;
        lists.push(pieces)?;
    }
    Ok(())
}

/// The index of these shares and a flattened one: of each writer the cover of its share, or else the flattened index's,
/// and the pieces of all.
fn one_index(alloc: Global, flat: Flat, shares: ShareList) -> Result<Flat, NoMemory>
    ensures covers { IfOk result (λ made. AreFirstOf (covers_of shares ++ flat.covers) made.covers) }
    ensures pieces { IfOk result (λ made. ArePiecesOfAll (flat.pieces ∷ pieces_of_each shares) made.pieces) }
{
    let Flat {
        covers: covered,
        pieces,
    } = flat;
    let mut covers = Vec::new(alloc);
    let mut lists = PiecesList::new(alloc);
    if let Err(why) = lists.push(pieces) {
        drop((covered, covers, lists, shares));
        return Err(why);
    }
    if let Err(why) = add_parts(&mut covers, &mut lists, shares) {
        drop((covered, covers, lists));
        return Err(why);
    }
    let added = covers.extend_from_slice(covered.as_slice());
    drop(covered);
    let Ok(()) = added else {
        drop((covers, lists));
        return Err(NoMemory);
    };
    let first = first_covers(alloc, covers.as_slice());
    drop(covers);
    let Ok(covers) = first else {
        drop(lists);
        return Err(NoMemory);
    };
    let pieces = merge_all(alloc, lists)?;
    Ok(Flat { covers, pieces })
}

/// What was gathered by these shares of a listing's droppings, and these truncates: of each writer the cover of its share,
/// or else the listing's, and the pieces of all. Of two covers of one writer the first counts. A share in which several
/// were joined may stand for them.
pub fn gather(
    alloc: Global,
    listing: Listing,
    shares: ShareList,
    truncs: TruncList,
) -> Result<Gathered, NoMemory>
    ensures { IfOk result (IsGatheredOf listing shares truncs) }
{
    let Listing {
        room,
        droppings,
        flat,
    } = listing;
    match one_index(alloc, flat, shares) {
        Ok(flat) => Ok(Gathered {
            room,
            flat,
            droppings,
            truncs,
        }),
        Err(why) => {
            drop((droppings, truncs));
            Err(why)
        }
    }
}

/// One share of these shares, whose pieces are merged by up to so many threads: a cover of each writer that one of them
/// covers, by ascending writer, and the pieces of all. Of two covers of one writer the first counts.
pub fn join_shares<R: Threads + Sync>(
    rt: &R,
    alloc: Global,
    shares: ShareList,
    workers: u32,
) -> Result<Share, NoMemory>
    ensures { IfOk result (IsJoinedOf shares) }
{
    let mut covers = Vec::new(alloc);
    let mut lists = PiecesList::new(alloc);
    if let Err(why) = add_parts(&mut covers, &mut lists, shares) {
        drop((covers, lists));
        return Err(why);
    }
    let first = first_covers(alloc, covers.as_slice());
    drop(covers);
    let Ok(covers) = first else {
        drop(lists);
        return Err(NoMemory);
    };
    let pieces = merge_on(rt, alloc, lists, workers)?;
    Ok(Share { covers, pieces })
}
