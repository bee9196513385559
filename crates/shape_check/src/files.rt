//! The files of a container, each by itself.
ghost use Rattle.std.specs.Prelude.{◌≡◌, Some, IfErr, IfOk, OnOk};
ghost use Rattle.store_api.specs.declared.tree.Tree.{Tree};
ghost use Rattle.shape_check.specs.Files.{IsPlaced, OfPlace, IsFineItem, IsItemOf, IsNoItem, IsDrawn, HasItemFile, holds_bytes, id_in};
ghost use Rattle.shape_check.specs.Rightness.{Fails, IsOfShape};
ghost use Rattle.shape_check.specs.Seeing.{IsSeen, IsLookedAt};

use crate::finding::{Complaint, Finding};
use crate::looks::length;
use crate::marks::is_marked;
use container_layout::{Item, read};
use plfs_types::{Name, Path};
use store_api::Store;

/// A container that is checked.
#[derive(Clone, Copy)]
pub struct Place {
    pub name: Name,
    pub number: u64,
    /// The number of the room of marks, where it is there.
    pub marks: Option<u64>,
}

/// Whether the file at this path, if it is there, is an item's, with bytes only where it may have some, and with an id
/// that a mount with a mark may have drawn.
#[tactic(auto, using(crate::proofs::FileLemmas::no_place, crate::proofs::FileLemmas::file_gone, crate::proofs::FileLemmas::item_wrong, crate::proofs::FileLemmas::item_fails, crate::proofs::FileLemmas::item_fine, crate::proofs::Seen::looked_on, crate::proofs::Unbroken::unbroken_shape))]
pub fn check_file<S: Store>(store: &mut S, place: &Place, path: Path) -> Result<(), Finding>
    ensures looked { IsLookedAt (S.stored store.old) (S.stored store.new) }
    ensures ok { OnOk result (OfPlace (IsFineItem path) place.now (S.stored store.old)) }
    ensures err { IfErr result (Fails (IsPlaced place.now) (S.stored store.old) (S.stored store.new)) }
    ensures shape { IfErr result (IsOfShape place.now.name) }
{
    let Some(len) = length(store, place.number, &path)? else {
        return Ok(());
    };
    let id = judge_file(place.name, &path, len)?;
    check_id(store, place, path, id)
}

/// Whether the id, if there is one, is one that a mount with a mark may have drawn.
fn check_id<S: Store>(
    store: &mut S,
    place: &Place,
    path: Path,
    id: Option<u64>,
) -> Result<(), Finding>
    ensures looked { IsLookedAt (S.stored store.old) (S.stored store.new) }
    ensures ok { OnOk result ((tree : Tree) → IsSeen (S.stored store.old) tree → IsPlaced place.now tree → IsDrawn id tree) }
    ensures err { IfErr result (Fails (HasItemFile place.now path id) (S.stored store.old) (S.stored store.new)) }
    ensures shape { IfErr result (IsOfShape place.now.name) }
{
    match id {
        Some(id) => check_drawn(store, place, path, id),
        None => Ok(()),
    }
}

/// Whether a mount with a mark may have drawn the id.
#[tactic(auto, using(crate::proofs::FileLemmas::marked_fails, crate::proofs::FileLemmas::marked_fine, crate::proofs::FileLemmas::marked_wrong, crate::proofs::Unbroken::unbroken_shape))]
fn check_drawn<S: Store>(store: &mut S, place: &Place, path: Path, id: u64) -> Result<(), Finding>
    ensures looked { IsLookedAt (S.stored store.old) (S.stored store.new) }
    ensures ok { OnOk result ((tree : Tree) → IsSeen (S.stored store.old) tree → IsPlaced place.now tree → IsDrawn (Some id) tree) }
    ensures err { IfErr result (Fails (HasItemFile place.now path (Some id)) (S.stored store.old) (S.stored store.new)) }
    ensures shape { IfErr result (IsOfShape place.now.name) }
{
    let is = is_marked(store, place.marks, id)?;
    if is {
        return Ok(());
    }
    Err(Finding::Broken {
        complaint: Complaint::Unmarked {
            room: place.name,
            path,
        },
    })
}

/// The id of the item that a file of this length there is, where it has one.
fn judge_file(room: Name, path: &Path, len: u64) -> Result<Option<u64>, Finding>
    ensures ok { IfOk result (IsItemOf path.now len) }
    ensures err { IfErr result (IsNoItem room path.now len) }
    ensures shape { IfErr result (IsOfShape room) }
{
    let Some(item) = read(path) else {
        return Err(Finding::Broken {
            complaint: Complaint::Foreign { room, path: *path },
        });
    };
    if len != 0 && !may_hold(&item) {
        return Err(Finding::Broken {
            complaint: Complaint::Filled { room, path: *path },
        });
    }
    Ok(id_of(&item))
}

/// Whether the item may have bytes.
fn may_hold(item: &Item) -> bool
    ensures { result ≡ holds_bytes item.now }
{
    match *item {
        Item::Access => false,
        Item::OpenHost { .. } => false,
        Item::Meta { .. } => false,
        Item::Trunc { .. } => false,
        _ => true,
    }
}

/// The id in the item's name.
fn id_of(item: &Item) -> Option<u64>
    ensures { result ≡ id_in item.now }
{
    match *item {
        Item::Access => None,
        Item::Trunc { .. } => None,
        Item::OpenHost { writer, .. } => Some(writer),
        Item::Meta { writer, .. } => Some(writer),
        Item::Index { writer, .. } => Some(writer),
        Item::Log { writer, .. } => Some(writer),
        Item::Packed { writer, .. } => Some(writer),
        Item::Flat { id } => Some(id),
        Item::TmpFlat { id } => Some(id),
        Item::TmpPacked { id, .. } => Some(id),
    }
}
