//! What is read of a writer that a flattened index covers, and an index that covers one writer alone.
ghost use Rattle.std.specs.Prelude.{◌≡◌, ◌∷◌, [], IsTrue, Some, map, IfOk, IfErr};
ghost use Rattle.store_api.specs.declared.tree.Tree.{Tree};
ghost use Rattle.plain_file.specs.Runs.{AreRuns};
ghost use Rattle.interval_merge.specs.Writer.{piece_of};
ghost use Rattle.shape_check.specs.Rightness.{Fails, IsFoundIn};
ghost use Rattle.shape_check.specs.Seeing.{IsSeen, IsLookedAt};
ghost use Rattle.tree_check.specs.Concerning.{IsOfCover, IsOfWriter};
ghost use Rattle.tree_check.specs.Droppings.{IsKept, IsReadFor};
ghost use Rattle.tree_check.specs.Entries.{AreInOrder};
ghost use Rattle.tree_check.specs.Indices.{IsOwned, AreOfCovers, TellsCover, TellsRead, IsCoverOf};

use crate::droppings::{Kept, Read, index_of, take_dropping};
use crate::entries::sum_of;
use crate::owners::{Owners, owner_of};
use crate::whole::has_file;
use plain_file::Piece;
use plfs_types::{Cover, Entry};
use shape_check::{Finding, Place};
use std::alloc::Global;
use store_api::Store;

/// The index dropping of the writer that the cover tells of, if it is there.
#[tactic(auto, using(shape_check::proofs::Facts::unbroken_found, crate::proofs::DroppingLemmas::kept_on, crate::proofs::DroppingLemmas::kept_none))]
pub(crate) fn read_covered<S: Store>(
    alloc: Global,
    store: &mut S,
    place: &Place,
    owners: &Owners,
    cover: &Cover,
    kept: &mut Kept,
) -> Result<Option<Read>, Finding>
    requires kept { IsKept place.now kept.old (S.stored store.old) }
    ensures kept { IsKept place.now kept.new (S.stored store.new) }
    ensures looked { IsLookedAt (S.stored store.old) (S.stored store.new) }
    ensures read { IfOk result (λ found. IsReadFor place.now cover.now.writer found (S.stored store.new)) }
    ensures ok { IfOk result (λ found. (tree : Tree) → IsSeen (S.stored store.old) tree → (at : IsOwned place.now owners.now tree) → TellsRead at.placed.room cover.now found) }
    ensures err { IfErr result (Fails (IsOwned place.now owners.now) (S.stored store.old) (S.stored store.new)) }
    ensures named { IfErr result (IsFoundIn place.now.name (IsOfWriter cover.now.writer)) }
{
    let Some(owner) = owner_of(owners, cover.writer) else {
        return Ok(None);
    };
    let has = has_file(store, place, &index_of(owner.host, cover.writer))?;
    if !has {
        return Ok(None);
    }
    let dropping = take_dropping(alloc, store, place, owner.host, cover.writer, kept)?;
    Ok(Some(Read {
        host: owner.host,
        writer: cover.writer,
        dropping,
    }))
}

/// Whether there is one cover, and the pieces are the entries that it tells of, one by one. Otherwise the pieces may be right all the same.
pub(crate) fn is_of_one<S: Store>(
    alloc: Global,
    store: &mut S,
    place: &Place,
    owners: &Owners,
    covers: &[Cover],
    pieces: &[Piece],
    kept: &mut Kept,
) -> Result<bool, Finding>
    requires runs { AreRuns pieces.now }
    requires kept { IsKept place.now kept.old (S.stored store.old) }
    ensures kept { IsKept place.now kept.new (S.stored store.new) }
    ensures looked { IsLookedAt (S.stored store.old) (S.stored store.new) }
    ensures ok { IfOk result (λ is. IsTrue is → (tree : Tree) → IsSeen (S.stored store.old) tree → (at : IsOwned place.now owners.now tree) → AreOfCovers at.placed.room covers.now (pieces.now ∷ [])) }
    ensures err { IfErr result (Fails (IsOwned place.now owners.now) (S.stored store.old) (S.stored store.new)) }
    ensures named { IfErr result (IsFoundIn place.now.name (IsOfCover covers.now)) }
{
    match covers {
        [cover] => is_alone(alloc, store, place, owners, cover, pieces, kept),
        _ => Ok(false),
    }
}

/// Whether the pieces are the entries that the cover tells of, one by one.
#[tactic(auto, using(shape_check::proofs::Facts::memory_found))]
fn is_alone<S: Store>(
    alloc: Global,
    store: &mut S,
    place: &Place,
    owners: &Owners,
    cover: &Cover,
    pieces: &[Piece],
    kept: &mut Kept,
) -> Result<bool, Finding>
    requires runs { AreRuns pieces.now }
    requires kept { IsKept place.now kept.old (S.stored store.old) }
    ensures kept { IsKept place.now kept.new (S.stored store.new) }
    ensures looked { IsLookedAt (S.stored store.old) (S.stored store.new) }
    ensures ok { IfOk result (λ is. IsTrue is → (tree : Tree) → IsSeen (S.stored store.old) tree → (at : IsOwned place.now owners.now tree) → TellsCover at.placed.room cover.now (Some pieces.now)) }
    ensures err { IfErr result (Fails (IsOwned place.now owners.now) (S.stored store.old) (S.stored store.new)) }
    ensures named { IfErr result (IsFoundIn place.now.name (IsOfWriter cover.now.writer)) }
{
    let found = read_covered(alloc, store, place, owners, cover, kept)?;
    let Some(read) = found else {
        return Ok(false);
    };
    let is = are_first(cover, read.dropping.landed(), pieces);
    *kept = Some(read);
    Ok(is)
}

/// Whether the cover tells of the first of these entries, and the pieces are these, one by one.
#[tactic(auto, using(crate::proofs::EntryLemmas::ordered_front))]
fn are_first(cover: &Cover, landed: &[Entry], pieces: &[Piece]) -> bool
    requires runs { AreRuns pieces.now }
    requires ordered { AreInOrder cover.now.writer landed.now }
    ensures { IsTrue result → IsCoverOf cover.now landed.now (Some pieces.now) }
{
    if cover.count > landed.len() as u64 {
        return false;
    }
    let first = &landed[..cover.count as usize];
    let sum = sum_of(first);
    if sum.bytes != cover.bytes || sum.stamp != cover.stamp {
        return false;
    }
    are_entries(first, pieces)
}

/// Whether the pieces are these entries, one by one.
fn are_entries(entries: &[Entry], pieces: &[Piece]) -> bool
    ensures { IsTrue result → map piece_of entries.now ≡ pieces.now }
{
    if entries.len() != pieces.len() {
        return false;
    }
    for (place, entry) in entries.iter().enumerate() {
        if !is_entry(entry, &pieces[place]) {
            return false;
        }
    }
    true
}

/// Whether the piece is the whole entry.
fn is_entry(entry: &Entry, piece: &Piece) -> bool
    ensures { IsTrue result → piece_of entry.now ≡ piece.now }
{
    piece.at == entry.at
        && piece.len == entry.len
        && piece.physical == entry.physical
        && piece.stamp == entry.stamp
        && piece.writer == entry.writer
}
