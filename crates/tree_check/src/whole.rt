//! The bytes of one file.
ghost use Rattle.std.specs.Prelude.{◌≡◌, ◌<◌, ◌-◌, ◌≤◌, length, min, take, drop, is_some, IfOk, IfErr};
ghost use Rattle.store_api.specs.declared.tree.Tree.{Tree};
ghost use Rattle.store_laws.specs.Files.{file_at};
ghost use Rattle.mount_sound.specs.Dropping.{bytes_of};
ghost use Rattle.shape_check.specs.Files.{IsPlaced, OfPlace};
ghost use Rattle.shape_check.specs.Rightness.{Fails, IsNoComplaint};
ghost use Rattle.shape_check.specs.Seeing.{IsSeen, IsLookedAt};
ghost use Rattle.tree_check.specs.Whole.{HasFileOf};

use plfs_types::{Bytes, MAX_PIECE, Path};
use shape_check::{Finding, Place, length, read};
use std::alloc::Global;
use store_api::Store;

/// The length of a file, 0 where it isn't there.
#[tactic(auto, using(crate::proofs::WholeLemmas::no_place, crate::proofs::WholeLemmas::length_some, crate::proofs::WholeLemmas::length_none))]
pub(crate) fn length_or_none<S: Store>(
    store: &mut S,
    place: &Place,
    path: &Path,
) -> Result<u64, Finding>
    ensures looked { IsLookedAt (S.stored store.old) (S.stored store.new) }
    ensures ok { IfOk result (λ len. OfPlace (λ tree room. length (bytes_of (file_at room path.now)) ≡ len) place.now (S.stored store.old)) }
    ensures err { IfErr result (Fails (IsPlaced place.now) (S.stored store.old) (S.stored store.new)) }
    ensures unbroken { IfErr result IsNoComplaint }
{
    match length(store, place.number, path)? {
        Some(len) => Ok(len),
        None => Ok(0),
    }
}

/// Whether the file is there.
#[tactic(auto, using(crate::proofs::WholeLemmas::no_place, crate::proofs::WholeLemmas::is_there, crate::proofs::WholeLemmas::is_gone))]
pub(crate) fn has_file<S: Store>(store: &mut S, place: &Place, path: &Path) -> Result<bool, Finding>
    ensures looked { IsLookedAt (S.stored store.old) (S.stored store.new) }
    ensures ok { IfOk result (λ has. OfPlace (λ tree room. is_some (file_at room path.now) ≡ has) place.now (S.stored store.old)) }
    ensures err { IfErr result (Fails (IsPlaced place.now) (S.stored store.old) (S.stored store.new)) }
    ensures unbroken { IfErr result IsNoComplaint }
{
    match length(store, place.number, path)? {
        Some(_len) => Ok(true),
        None => Ok(false),
    }
}

/// The bytes of a file, none where it isn't there.
#[tactic(auto, using(crate::proofs::WholeLemmas::no_place))]
pub(crate) fn bytes_or_none<S: Store>(
    alloc: Global,
    store: &mut S,
    place: &Place,
    path: &Path,
) -> Result<Bytes, Finding>
    ensures looked { IsLookedAt (S.stored store.old) (S.stored store.new) }
    ensures ok { IfOk result (λ bytes. OfPlace (λ tree room. bytes_of (file_at room path.now) ≡ bytes) place.now (S.stored store.old)) }
    ensures err { IfErr result (Fails (IsPlaced place.now) (S.stored store.old) (S.stored store.new)) }
    ensures unbroken { IfErr result IsNoComplaint }
{
    match length(store, place.number, path)? {
        Some(size) => whole(alloc, store, place, path, size),
        None => Ok(Bytes::new(alloc)),
    }
}

/// All bytes of a file of this length.
#[tactic(auto, using(crate::proofs::WholeLemmas::fails_on, crate::proofs::WholeLemmas::no_memory, crate::proofs::WholeLemmas::looked_same, crate::proofs::WholeLemmas::looked_on, shape_check::proofs::Facts::memory_unbroken))]
fn whole<S: Store>(
    alloc: Global,
    store: &mut S,
    place: &Place,
    path: &Path,
    size: u64,
) -> Result<Bytes, Finding>
    ensures looked { IsLookedAt (S.stored store.old) (S.stored store.new) }
    ensures ok { IfOk result (λ bytes. (tree : Tree) → IsSeen (S.stored store.old) tree → (has : HasFileOf place.now path.now size tree) → has.bytes ≡ bytes) }
    ensures err { IfErr result (Fails (HasFileOf place.now path.now size) (S.stored store.old) (S.stored store.new)) }
    ensures unbroken { IfErr result IsNoComplaint }
{
    let mut all = Vec::with_capacity(alloc, size as usize)?;
    let mut at = 0;
    while at < size {
        let bytes = piece(store, place, path, size, at, MAX_PIECE)?;
        all.extend_from_slice(bytes.as_slice())?;
        at += (size - at).min(MAX_PIECE);
    }
    Ok(Bytes::from_vec(all))
}

/// The next bytes of a file of this length, at most so many.
#[tactic(auto, using(crate::proofs::WholeLemmas::file_orderly, crate::proofs::WholeLemmas::piece_read, crate::proofs::WholeLemmas::piece_short))]
pub(crate) fn piece<S: Store>(
    store: &mut S,
    place: &Place,
    path: &Path,
    size: u64,
    at: u64,
    most: u64,
) -> Result<Bytes, Finding>
    requires { at < size }
    ensures looked { IsLookedAt (S.stored store.old) (S.stored store.new) }
    ensures some { IfOk result (λ bytes. length bytes ≡ min (size - at) most) }
    ensures ok { IfOk result (λ bytes. (tree : Tree) → IsSeen (S.stored store.old) tree → (has : HasFileOf place.now path.now size tree) → bytes ≡ take (min (size - at) most) (drop at has.bytes)) }
    ensures err { IfErr result (Fails (HasFileOf place.now path.now size) (S.stored store.old) (S.stored store.new)) }
    ensures unbroken { IfErr result IsNoComplaint }
{
    let some = (size - at).min(most);
    let bytes = read(store, place.number, path, at, some)?;
    if bytes.as_slice().len() as u64 != some {
        return Err(Finding::Untold);
    }
    Ok(bytes)
}
