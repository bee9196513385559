//! The check of a tree.
ghost use Rattle.std.specs.Prelude.{◌≡◌, [], Some, IfErr, IfOk, OnOk};
ghost use Rattle.plfs_types.specs.Counts.{HasRisen};
ghost use Rattle.store_api.specs.declared.tree.Tree.{Tree};
ghost use Rattle.store_api.specs.AllKept.{all_kept};
ghost use Rattle.store_api.specs.Names.{marks_name as marks_room_name};
ghost use Rattle.mount_sound.specs.Marks.{IsMarksRoom};
ghost use Rattle.mount_sound.specs.Sound.{IsSoundTree};
ghost use Rattle.tree_laws.specs.Checked.{HoldsBytes};
ghost use Rattle.tree_laws.specs.Listable.{IsListable};
ghost use Rattle.shape_check.specs.declared.finding.Finding.TheVariants.{Fault};
ghost use Rattle.shape_check.specs.Files.{IsPlaced, OfPlace};
ghost use Rattle.shape_check.specs.Places.{IsMarksPlace, OfMarks};
ghost use Rattle.shape_check.specs.Rightness.{Fails, IsOfShape, IsRight};
ghost use Rattle.shape_check.specs.Seeing.{IsSeen, IsLookedAt};
ghost use Rattle.tree_check.specs.Complaining.{InNamed, IsToldOf, TellsOfContainer, TellsOfRoom};
ghost use Rattle.tree_check.specs.Halting.{Halts};
ghost use Rattle.tree_check.specs.Rooms.{IsNamed, OfNamed, HasRooms, AreRight, OfTree};

use crate::gathered::{ComplaintList, first_of, one_of};
use crate::halting::Halt;
use crate::owners::owners_of;
use crate::truncates::truncs_of;
use crate::writers::check_items;
use plfs_types::Name;
use shape_check::{Finding, Place, check_marks, check_shape, find_room, rooms};
use std::alloc::Global;
use store_api::{Store, marks_name};
use tree_laws::a_checked_tree_is_sound;

/// Whether the tree of the store is sound, where all its bytes are kept. It makes looks alone.
pub fn check_tree<S: Store>(alloc: Global, store: &mut S) -> Result<(), Finding>
    // Nothing changes.
    ensures unchanged { (S.stored store.new).tree ≡ (S.stored store.old).tree }
    // A tree that is found sound is sound, once all its bytes are kept.
    ensures sound { (tree : Tree) → (S.stored store.old).tree ≡ Some tree → IsListable tree → HoldsBytes tree → OnOk result (IsSoundTree (all_kept tree)) }
    // What is found wrong of a tree is so, and a store that tells its tree answers.
    ensures right { (tree : Tree) → (S.stored store.old).tree ≡ Some tree → IsListable tree → IfErr result (IsRight (all_kept tree)) }
    // A fault comes only where the store's count of faults rose.
    ensures fault { IfErr result (λ finding. finding ≡ Fault → HasRisen (S.stored store.old).faults (S.stored store.new).faults) }
{
    a_checked_tree_is_sound();
    check_all(alloc, store)
}

/// Whether all holds of the tree that is checked.
fn check_all<S: Store>(alloc: Global, store: &mut S) -> Result<(), Finding>
    ensures looked { IsLookedAt (S.stored store.old) (S.stored store.new) }
    ensures ok { OnOk result (OfTree (S.stored store.old)) }
    ensures err { IfErr result (Fails IsListable (S.stored store.old) (S.stored store.new)) }
{
    let names = rooms(store)?;
    let marks = find_room(store, marks_name())?;
    check_rooms(alloc, store, marks, names.as_slice())
}

/// Whether each room of these names is as in a sound tree.
fn check_rooms<S: Store>(
    alloc: Global,
    store: &mut S,
    marks: Option<u64>,
    names: &[Name],
) -> Result<(), Finding>
    ensures looked { IsLookedAt (S.stored store.old) (S.stored store.new) }
    ensures ok { OnOk result (AreRight marks names.now (S.stored store.old)) }
    ensures err { IfErr result (Fails (HasRooms marks names.now) (S.stored store.old) (S.stored store.new)) }
{
    for name in names {
        check_first(alloc, store, marks, *name)?;
    }
    Ok(())
}

/// Whether the room of this name is as in a sound tree.
fn check_first<S: Store>(
    alloc: Global,
    store: &mut S,
    marks: Option<u64>,
    name: Name,
) -> Result<(), Finding>
    ensures looked { IsLookedAt (S.stored store.old) (S.stored store.new) }
    ensures ok { OnOk result (OfNamed marks name (S.stored store.old)) }
    ensures err { IfErr result (Fails (IsNamed marks name) (S.stored store.old) (S.stored store.new)) }
{
    let found = check_named(alloc, store, marks, name)?;
    first_of(found.as_slice())
}

/// What is complained of the room of this name.
///
/// A room with another shape than those of a sound tree, or where a writer has two hosts or two truncates have one stamp, has one
/// complaint. Another container has one for each item that isn't as in a sound tree, in the order of their paths. It is of that item, or
/// of an index dropping that the item tells of.
pub fn check_room<S: Store>(
    alloc: Global,
    store: &mut S,
    marks: Option<u64>,
    name: Name,
) -> Result<ComplaintList, Halt>
    // Nothing changes.
    ensures looked { IsLookedAt (S.stored store.old) (S.stored store.new) }
    // What is complained of the room is right, and it is all that is wrong with its items: each complaint is of its item.
    ensures ok { IfOk result (λ found. (tree : Tree) → IsSeen (S.stored store.old) tree → IsNamed marks name tree → IsToldOf found name tree) }
    // A fault comes only where the count rose.
    ensures err { IfErr result (Halts (IsNamed marks name) (S.stored store.old) (S.stored store.new)) }
{
    match check_named(alloc, store, marks, name) {
        Ok(found) => Ok(found),
        Err(finding) => one_of(alloc, finding),
    }
}

/// What is complained of the room of this name, unless one thing ends the check of it.
#[tactic(auto, using(shape_check::proofs::Facts::unbroken_shape))]
fn check_named<S: Store>(
    alloc: Global,
    store: &mut S,
    marks: Option<u64>,
    name: Name,
) -> Result<ComplaintList, Finding>
    ensures looked { IsLookedAt (S.stored store.old) (S.stored store.new) }
    ensures ok { IfOk result (λ found. InNamed (TellsOfRoom found) marks name (S.stored store.old)) }
    ensures err { IfErr result (Fails (IsNamed marks name) (S.stored store.old) (S.stored store.new)) }
    ensures shape { IfErr result (IsOfShape name) }
{
    let Some(number) = find_room(store, name)? else {
        return Err(Finding::Untold);
    };
    if name == marks_name() {
        check_marks_room(alloc, store, number)
    } else {
        check_container(
            alloc,
            store,
            &Place {
                name,
                number,
                marks,
            },
        )
    }
}

/// What is complained of the room of marks: nothing, once its shape is as in a sound tree.
fn check_marks_room<S: Store>(
    alloc: Global,
    store: &mut S,
    number: u64,
) -> Result<ComplaintList, Finding>
    ensures looked { IsLookedAt (S.stored store.old) (S.stored store.new) }
    ensures ok { IfOk result (λ found. (found ≡ []) × OfMarks IsMarksRoom number (S.stored store.old)) }
    ensures err { IfErr result (Fails (IsMarksPlace number) (S.stored store.old) (S.stored store.new)) }
    ensures shape { IfErr result (IsOfShape marks_room_name) }
{
    check_marks(store, number)?;
    Ok(ComplaintList::new(alloc))
}

/// What is complained of the items of the container, once its shape is as in a sound tree.
fn check_container<S: Store>(
    alloc: Global,
    store: &mut S,
    place: &Place,
) -> Result<ComplaintList, Finding>
    ensures looked { IsLookedAt (S.stored store.old) (S.stored store.new) }
    ensures ok { IfOk result (λ found. OfPlace (TellsOfContainer found) place.now (S.stored store.old)) }
    ensures err { IfErr result (Fails (IsPlaced place.now) (S.stored store.old) (S.stored store.new)) }
    ensures shape { IfErr result (IsOfShape place.now.name) }
{
    let paths = check_shape(alloc, store, place)?;
    let owners = owners_of(alloc, place.name, paths.as_slice())?;
    let truncs = truncs_of(alloc, place.name, paths.as_slice())?;
    check_items(
        alloc,
        store,
        place,
        &owners,
        truncs.as_slice(),
        paths.as_slice(),
    )
}
