//! The flattened and packed indices of a container.
ghost use Rattle.std.specs.Prelude.{◌≡◌, ◌↔◌, ◌<◌, ◌^◌, length, List, [], IsTrue, IfOk, IfErr, OnOk};
ghost use Rattle.store_api.specs.declared.tree.Tree.{Tree};
ghost use Rattle.container_layout.specs.declared.items.Item.TheVariants.{Packed, Flat as FlatItem};
ghost use Rattle.container_layout.specs.Paths.{IsAt};
ghost use Rattle.mount_model.specs.Paths.{index_path};
ghost use Rattle.index_pack.specs.Spelling.{Packs};
ghost use Rattle.plfs_types.specs.declared.entries.Entry.{Entry as Covered};
ghost use Rattle.plain_file.specs.Runs.{AreRuns, ArePieces};
ghost use Rattle.flat_format.specs.Valid.{IsFlat};
ghost use Rattle.interval_merge.specs.Lists.{joined, ArePiecesOfEach};
ghost use Rattle.mount_sound.specs.Flats.{IsRightFlat, IsRightPack};
ghost use Rattle.shape_check.specs.declared.finding.Finding.TheVariants.{NoMemory as NoMemoryLeft};
ghost use Rattle.shape_check.specs.Rightness.{Fails, IsFoundIn};
ghost use Rattle.shape_check.specs.Seeing.{IsSeen, IsLookedAt};
ghost use Rattle.tree_check.specs.Droppings.{IsKept};
ghost use Rattle.tree_check.specs.Concerning.{IsOfCover, IsOfCovered, IsOfEntries, IsOfFlat, IsOfPack, IsOfWriter};
ghost use Rattle.tree_check.specs.Entries.{AreInOrder};
ghost use Rattle.tree_check.specs.Indices.{FindsOwned, IsOwned, IsOwnedAt, OfOwnedAt, IsLeftOf, IsDecoded, IsUnpacked, AreTheirs, TellsCover, TellsCovers, IsCoverOf};
ghost use Rattle.tree_check.specs.Known.{IsRightItem};

use crate::alone::{is_of_one, read_covered};
use crate::droppings::{Kept, index_of, take_dropping};
use crate::entries::sum_of;
use crate::owners::{Owners, owner_of};
use crate::whole::{bytes_or_none, has_file};
use flat_format::{Flat, FlatTrouble, decode};
use index_pack::{PackTrouble, unpack};
use interval_merge::{PiecesList, merge_all, of_writer};
use plain_file::{Piece, Pieces};
use plfs_types::{Cover, Entry, EntryList, NoMemory, Path};
use shape_check::{Complaint, Finding, Place};
use std::alloc::Global;
use store_api::Store;

/// Whether the file at this path is the packed index of all entries of a writer that left.
pub(crate) fn check_pack<S: Store>(
    alloc: Global,
    store: &mut S,
    place: &Place,
    owners: &Owners,
    path: &Path,
    host: u32,
    writer: u64,
    kept: &mut Kept,
) -> Result<(), Finding>
    requires at { IsAt path.now (Packed host writer) }
    requires kept { IsKept place.now kept.old (S.stored store.old) }
    ensures kept { IsKept place.now kept.new (S.stored store.new) }
    ensures looked { IsLookedAt (S.stored store.old) (S.stored store.new) }
    ensures ok { OnOk result (OfOwnedAt (IsRightItem (Packed host writer)) place.now owners.now path.now (S.stored store.old)) }
    ensures err { IfErr result (Fails (IsOwnedAt place.now owners.now path.now) (S.stored store.old) (S.stored store.new)) }
    ensures named { IfErr result (IsFoundIn place.now.name (IsOfPack path.now host writer)) }
{
    let holds = is_right_pack(alloc, store, place, owners, path, host, writer, kept)?;
    if holds {
        return Ok(());
    }
    Err(Finding::Broken {
        complaint: Complaint::WrongIndex {
            room: place.name,
            path: *path,
        },
    })
}

#[tactic(auto, using(shape_check::proofs::Facts::unbroken_found, shape_check::proofs::Facts::memory_found, crate::proofs::DroppingLemmas::kept_on, crate::proofs::DroppingLemmas::kept_none))]
fn is_right_pack<S: Store>(
    alloc: Global,
    store: &mut S,
    place: &Place,
    owners: &Owners,
    path: &Path,
    host: u32,
    writer: u64,
    kept: &mut Kept,
) -> Result<bool, Finding>
    requires kept { IsKept place.now kept.old (S.stored store.old) }
    ensures kept { IsKept place.now kept.new (S.stored store.new) }
    ensures looked { IsLookedAt (S.stored store.old) (S.stored store.new) }
    ensures ok { IfOk result (λ is. (tree : Tree) → IsSeen (S.stored store.old) tree → (at : IsOwnedAt place.now owners.now path.now tree) → IsTrue is ↔ IsRightPack at.owned.placed.room host writer at.bytes) }
    ensures err { IfErr result (Fails (IsOwnedAt place.now owners.now path.now) (S.stored store.old) (S.stored store.new)) }
    ensures named { IfErr result (IsFoundIn place.now.name (IsOfEntries (index_path host writer))) }
{
    if !is_left_of(owners, host, writer) {
        return Ok(false);
    }
    let has = has_file(store, place, &index_of(host, writer))?;
    if !has {
        return Ok(false);
    }
    let bytes = bytes_or_none(alloc, store, place, path)?;
    let dropping = take_dropping(alloc, store, place, host, writer, kept)?;
    let holds = packs(alloc, bytes.as_slice(), dropping.landed())?;
    Ok(holds)
}

/// Whether the writer, of this host, has left.
fn is_left_of(owners: &Owners, host: u32, writer: u64) -> bool
    ensures { IsTrue result ↔ IsLeftOf owners.now host writer }
{
    match owner_of(owners, writer) {
        Some(owner) => owner.has_left && owner.host == host,
        None => false,
    }
}

/// The entries whose packed index the bytes are, if they are one.
fn unpacked(alloc: Global, bytes: &[u8]) -> Result<Option<EntryList>, NoMemory>
    ensures { IfOk result (IsUnpacked bytes.now) }
{
    match unpack(alloc, bytes) {
        Ok(packed) => Ok(Some(packed)),
        Err(PackTrouble::NoMemory) => Err(NoMemory),
        Err(PackTrouble::Bad { .. }) => Ok(None),
    }
}

/// Whether the bytes are the packed index of the entries.
fn packs(alloc: Global, bytes: &[u8], entries: &[Entry]) -> Result<bool, NoMemory>
    ensures { IfOk result (λ is. IsTrue is ↔ Packs bytes.now entries.now) }
{
    let found = unpacked(alloc, bytes)?;
    match found {
        Some(packed) => Ok(packed.as_slice() == entries),
        None => Ok(false),
    }
}

/// Whether the file at this path is a flattened index that is right for the container.
pub(crate) fn check_flat<S: Store>(
    alloc: Global,
    store: &mut S,
    place: &Place,
    owners: &Owners,
    path: &Path,
    id: u64,
    kept: &mut Kept,
) -> Result<(), Finding>
    requires at { IsAt path.now (FlatItem id) }
    requires kept { IsKept place.now kept.old (S.stored store.old) }
    ensures kept { IsKept place.now kept.new (S.stored store.new) }
    ensures looked { IsLookedAt (S.stored store.old) (S.stored store.new) }
    ensures ok { OnOk result (OfOwnedAt (IsRightItem (FlatItem id)) place.now owners.now path.now (S.stored store.old)) }
    ensures err { IfErr result (Fails (IsOwnedAt place.now owners.now path.now) (S.stored store.old) (S.stored store.new)) }
    ensures named { IfErr result (FindsOwned (IsOfFlat path.now) place.now owners.now path.now (S.stored store.old)) }
{
    let holds = is_right_flat(alloc, store, place, owners, path, kept)?;
    if holds {
        return Ok(());
    }
    Err(Finding::Broken {
        complaint: Complaint::WrongIndex {
            room: place.name,
            path: *path,
        },
    })
}

#[tactic(auto, using(shape_check::proofs::Facts::unbroken_found, shape_check::proofs::Facts::memory_found, crate::proofs::DroppingLemmas::kept_on, crate::proofs::DroppingLemmas::kept_none))]
fn is_right_flat<S: Store>(
    alloc: Global,
    store: &mut S,
    place: &Place,
    owners: &Owners,
    path: &Path,
    kept: &mut Kept,
) -> Result<bool, Finding>
    requires kept { IsKept place.now kept.old (S.stored store.old) }
    ensures kept { IsKept place.now kept.new (S.stored store.new) }
    ensures looked { IsLookedAt (S.stored store.old) (S.stored store.new) }
    ensures ok { IfOk result (λ is. (tree : Tree) → IsSeen (S.stored store.old) tree → (at : IsOwnedAt place.now owners.now path.now tree) → IsTrue is ↔ IsRightFlat at.owned.placed.room at.bytes) }
    ensures err { IfErr result (Fails (IsOwnedAt place.now owners.now path.now) (S.stored store.old) (S.stored store.new)) }
    ensures named { IfErr result (FindsOwned (IsOfCovered path.now) place.now owners.now path.now (S.stored store.old)) }
{
    let bytes = bytes_or_none(alloc, store, place, path)?;
    let found = decoded(alloc, bytes.as_slice())?;
    drop(bytes);
    match found {
        Some(flat) => are_covered(alloc, store, place, owners, &flat, kept),
        None => Ok(false),
    }
}

/// The flattened index that the bytes are, if they are one.
fn decoded(alloc: Global, bytes: &[u8]) -> Result<Option<Flat>, NoMemory>
    ensures decoded { IfOk result (IsDecoded bytes.now) }
    ensures short { length bytes.now < 2 ^ 64 }
{
    match decode(alloc, bytes) {
        Ok(flat) => Ok(Some(flat)),
        Err(FlatTrouble::NoMemory) => Err(NoMemory),
        Err(FlatTrouble::Bad { .. }) => Ok(None),
    }
}

/// Whether its covers tell of the first entries of their writers, and its pieces are theirs.
#[tactic(auto, using(shape_check::proofs::Facts::memory_found))]
fn are_covered<S: Store>(
    alloc: Global,
    store: &mut S,
    place: &Place,
    owners: &Owners,
    flat: &Flat,
    kept: &mut Kept,
) -> Result<bool, Finding>
    requires valid { IsFlat flat.now }
    requires kept { IsKept place.now kept.old (S.stored store.old) }
    ensures kept { IsKept place.now kept.new (S.stored store.new) }
    ensures looked { IsLookedAt (S.stored store.old) (S.stored store.new) }
    ensures ok { IfOk result (λ is. (tree : Tree) → IsSeen (S.stored store.old) tree → (at : IsOwned place.now owners.now tree) → IsTrue is ↔ AreTheirs at.placed.room flat.now) }
    ensures err { IfErr result (Fails (IsOwned place.now owners.now) (S.stored store.old) (S.stored store.new)) }
    ensures named { IfErr result (IsFoundIn place.now.name (IsOfCover flat.now.covers)) }
{
    let covers = flat.covers.as_slice();
    let pieces = flat.pieces.as_slice();
    let alone = is_of_one(alloc, store, place, owners, covers, pieces, kept)?;
    if alone {
        return Ok(true);
    }
    let found = pieces_of(alloc, store, place, owners, covers, kept)?;
    match found {
        Some(lists) => are_merged(alloc, lists, pieces),
        None => Ok(false),
    }
}

/// Whether these are the pieces of all lists.
fn are_merged(alloc: Global, lists: PiecesList, pieces: &[Piece]) -> Result<bool, Finding>
    requires { AreRuns pieces.now }
    ensures ok { IfOk result (λ is. (entries : List (List Covered)) → ArePiecesOfEach entries lists → IsTrue is ↔ ArePieces (joined entries) [] pieces.now) }
    ensures err { IfErr result (λ finding. finding ≡ NoMemoryLeft) }
{
    let merged = merge_all(alloc, lists)?;
    Ok(merged.as_slice() == pieces)
}

/// The pieces of the entries that each cover tells of, where all covers tell of the first entries of their writers.
#[tactic(auto, using(shape_check::proofs::Facts::memory_found))]
fn pieces_of<S: Store>(
    alloc: Global,
    store: &mut S,
    place: &Place,
    owners: &Owners,
    covers: &[Cover],
    kept: &mut Kept,
) -> Result<Option<PiecesList>, Finding>
    requires kept { IsKept place.now kept.old (S.stored store.old) }
    ensures kept { IsKept place.now kept.new (S.stored store.new) }
    ensures looked { IsLookedAt (S.stored store.old) (S.stored store.new) }
    ensures ok { IfOk result (λ found. (tree : Tree) → IsSeen (S.stored store.old) tree → (at : IsOwned place.now owners.now tree) → TellsCovers at.placed.room covers.now found) }
    ensures err { IfErr result (Fails (IsOwned place.now owners.now) (S.stored store.old) (S.stored store.new)) }
    ensures named { IfErr result (IsFoundIn place.now.name (IsOfCover covers.now)) }
{
    let mut lists = PiecesList::new(alloc);
    for cover in covers {
        let found = covered(alloc, store, place, owners, cover, kept)?;
        match found {
            Some(pieces) => lists.push(pieces)?,
            None => return Ok(None),
        }
    }
    Ok(Some(lists))
}

/// The pieces of the entries that are covered, where so many have landed and the cover tells of them.
#[tactic(auto, using(shape_check::proofs::Facts::unbroken_found, shape_check::proofs::Facts::memory_found, crate::proofs::DroppingLemmas::kept_on, crate::proofs::DroppingLemmas::kept_none))]
fn covered<S: Store>(
    alloc: Global,
    store: &mut S,
    place: &Place,
    owners: &Owners,
    cover: &Cover,
    kept: &mut Kept,
) -> Result<Option<Pieces>, Finding>
    requires kept { IsKept place.now kept.old (S.stored store.old) }
    ensures kept { IsKept place.now kept.new (S.stored store.new) }
    ensures looked { IsLookedAt (S.stored store.old) (S.stored store.new) }
    ensures ok { IfOk result (λ found. (tree : Tree) → IsSeen (S.stored store.old) tree → (at : IsOwned place.now owners.now tree) → TellsCover at.placed.room cover.now found) }
    ensures err { IfErr result (Fails (IsOwned place.now owners.now) (S.stored store.old) (S.stored store.new)) }
    ensures named { IfErr result (IsFoundIn place.now.name (IsOfWriter cover.now.writer)) }
{
    let found = read_covered(alloc, store, place, owners, cover, kept)?;
    let Some(read) = found else {
        return Ok(None);
    };
    let pieces = first_pieces(alloc, cover, read.dropping.landed())?;
    *kept = Some(read);
    Ok(pieces)
}

/// The pieces of the first of these entries, if the cover tells of so many.
#[tactic(auto, using(crate::proofs::EntryLemmas::ordered_front))]
fn first_pieces(alloc: Global, cover: &Cover, landed: &[Entry]) -> Result<Option<Pieces>, NoMemory>
    requires { AreInOrder cover.now.writer landed.now }
    ensures { IfOk result (IsCoverOf cover.now landed.now) }
{
    if cover.count > landed.len() as u64 {
        return Ok(None);
    }
    let first = &landed[..cover.count as usize];
    let sum = sum_of(first);
    if sum.bytes != cover.bytes || sum.stamp != cover.stamp {
        return Ok(None);
    }
    let pieces = of_writer(alloc, first)?;
    Ok(Some(pieces))
}
