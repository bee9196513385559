//! The shape of a container: its folders, and the files that they have.
ghost use Rattle.std.specs.Prelude.{◌≡◌, ◌≢◌, ◌⊎◌, ◌++◌, [], map, true, IfOk, IfErr, OnOk};
ghost use Rattle.plfs_types.specs.Names.{IsLogicalName};
ghost use Rattle.store_api.specs.Room.{has_folder};
ghost use Rattle.mount_sound.specs.Container.{IsContainerFolder};
ghost use Rattle.mount_model.specs.Paths.{metadata as metadata_name, truncs as truncs_name, flats as flats_name};
ghost use Rattle.shape_check.specs.declared.finding.Complaint.TheVariants.{RoomName};
ghost use Rattle.shape_check.specs.declared.finding.Finding.TheVariants.{Broken};
ghost use Rattle.shape_check.specs.Files.{IsPlaced, OfPlace, IsFineItem, IsForeignFolder};
ghost use Rattle.shape_check.specs.Rightness.{Fails, IsOfShape};
ghost use Rattle.shape_check.specs.Seeing.{IsLookedAt};
ghost use Rattle.shape_check.specs.Shape.{in_folder, Adds, IsTopOf, HasWalked, AreWalked, EachAt, HasAccess, HasNeeded, HasShape};

use crate::files::{Place, check_file};
use crate::finding::{Complaint, Finding};
use crate::folders::is_container_folder;
use crate::looks::{length, list};
use crate::marks::{at_top, tops_of};
use container_layout::{Item, flats, metadata, print, truncs};
use plfs_types::{Name, NoMemory, Path, Sequence};
use std::alloc::Global;
use store_api::Store;

/// A list of paths.
pub type PathList = Sequence<Path>;

/// Whether the container has what every one has and nothing that none may have: the paths of its files, but those at
/// its top.
#[tactic(auto, using(crate::proofs::FileLemmas::no_place, crate::proofs::LoopLemmas::later_fails, crate::proofs::Seen::looked_on))]
pub fn check_shape<S: Store>(
    alloc: Global,
    store: &mut S,
    place: &Place,
) -> Result<PathList, Finding>
    ensures looked { IsLookedAt (S.stored store.old) (S.stored store.new) }
    ensures ok { IfOk result (λ paths. OfPlace (HasShape paths) place.now (S.stored store.old)) }
    ensures err { IfErr result (Fails (IsPlaced place.now) (S.stored store.old) (S.stored store.new)) }
    ensures shape { IfErr result (IsOfShape place.now.name) }
{
    check_name(place.name)?;
    let paths = paths_of(alloc, store, place)?;
    check_paths(store, place, paths.as_slice())?;
    check_needed(store, place)?;
    Ok(paths)
}

/// Whether a room may have the name.
fn check_name(name: Name) -> Result<(), Finding>
    ensures ok { OnOk result (IsLogicalName name) }
    ensures err { IfErr result (λ finding. (finding ≡ Broken (RoomName name)) × (IsLogicalName name → ⊥)) }
    ensures shape { IfErr result (IsOfShape name) }
{
    if name.is_logical() {
        return Ok(());
    }
    Err(Finding::Broken {
        complaint: Complaint::RoomName { room: name },
    })
}

/// The paths of the files in its folders, once the folders and the files at its top have been judged.
#[tactic(auto, using(crate::proofs::Unbroken::unbroken_shape))]
fn paths_of<S: Store>(alloc: Global, store: &mut S, place: &Place) -> Result<PathList, Finding>
    ensures looked { IsLookedAt (S.stored store.old) (S.stored store.new) }
    ensures ok { IfOk result (λ paths. OfPlace (AreWalked paths) place.now (S.stored store.old)) }
    ensures err { IfErr result (Fails (IsPlaced place.now) (S.stored store.old) (S.stored store.new)) }
    ensures shape { IfErr result (IsOfShape place.now.name) }
{
    let tops = tops_of(store, place.number)?;
    walk(alloc, store, place, tops.as_slice())
}

/// The same, for these entries of its top.
fn walk<S: Store>(
    alloc: Global,
    store: &mut S,
    place: &Place,
    tops: &[Name],
) -> Result<PathList, Finding>
    ensures looked { IsLookedAt (S.stored store.old) (S.stored store.new) }
    ensures ok { IfOk result (λ paths. OfPlace (HasWalked tops.now paths) place.now (S.stored store.old)) }
    ensures err { IfErr result (Fails (IsPlaced place.now) (S.stored store.old) (S.stored store.new)) }
    ensures shape { IfErr result (IsOfShape place.now.name) }
{
    let mut paths = PathList::new(alloc);
    for top in tops {
        add_top(store, place, *top, &mut paths)?;
    }
    Ok(paths)
}

/// Adds the paths of the folder's files, where the entry of the top is a folder that a container may have. Else its file is
/// judged. A folder's name is asked for no file, which a store on real folders would take for a fault.
#[tactic(auto, using(crate::proofs::FileLemmas::no_place, crate::proofs::LoopLemmas::later_fails, crate::proofs::Seen::looked_on, crate::proofs::Unbroken::unbroken_shape))]
fn add_top<S: Store>(
    store: &mut S,
    place: &Place,
    top: Name,
    paths: &mut PathList,
) -> Result<(), Finding>
    ensures looked { IsLookedAt (S.stored store.old) (S.stored store.new) }
    ensures ok { OnOk result (Adds (IsTopOf top) paths.old paths.new place.now (S.stored store.old)) }
    ensures err { IfErr result (Fails (IsPlaced place.now) (S.stored store.old) (S.stored store.new)) }
    ensures shape { IfErr result (IsOfShape place.now.name) }
{
    if top == Name::empty() {
        return check_file(store, place, at_top(top));
    }
    match list(store, place.number, top)? {
        Some(names) => add_folder(place.name, top, names.as_slice(), paths),
        None => check_file(store, place, at_top(top)),
    }
}

/// Adds the paths of files of these names in the folder, unless no container may have it.
#[tactic(auto, using(crate::proofs::Unbroken::memory_shape))]
fn add_folder(room: Name, folder: Name, names: &[Name], paths: &mut PathList) -> Result<(), Finding>
    ensures ok { OnOk result (IsContainerFolder folder × (paths.new ≡ paths.old ++ map (in_folder folder) names.now)) }
    ensures err { IfErr result (IsForeignFolder room folder) }
    ensures shape { IfErr result (IsOfShape room) }
{
    if !is_container_folder(folder) {
        return Err(Finding::Broken {
            complaint: Complaint::ForeignFolder { room, folder },
        });
    }
    push_names(folder, names, paths)?;
    Ok(())
}

/// Adds the paths of files of these names in the folder.
fn push_names(folder: Name, names: &[Name], paths: &mut PathList) -> Result<(), NoMemory>
    ensures { OnOk result (paths.new ≡ paths.old ++ map (in_folder folder) names.now) }
{
    for name in names {
        paths.push(Path {
            folder,
            file: *name,
        })?;
    }
    Ok(())
}

/// Whether each of these files is an item's.
#[tactic(auto, using(crate::proofs::LoopLemmas::fails_on, crate::proofs::LoopLemmas::looked_same, crate::proofs::Seen::looked_on))]
fn check_paths<S: Store>(store: &mut S, place: &Place, paths: &[Path]) -> Result<(), Finding>
    ensures looked { IsLookedAt (S.stored store.old) (S.stored store.new) }
    ensures ok { OnOk result (OfPlace (EachAt IsFineItem paths.now) place.now (S.stored store.old)) }
    ensures err { IfErr result (Fails (IsPlaced place.now) (S.stored store.old) (S.stored store.new)) }
    ensures shape { IfErr result (IsOfShape place.now.name) }
{
    for path in paths {
        check_file(store, place, *path)?;
    }
    Ok(())
}

/// Whether it has the folders and the file that every container has.
#[tactic(auto, using(crate::proofs::FileLemmas::no_place, crate::proofs::LoopLemmas::later_fails, crate::proofs::Seen::looked_on))]
fn check_needed<S: Store>(store: &mut S, place: &Place) -> Result<(), Finding>
    ensures looked { IsLookedAt (S.stored store.old) (S.stored store.new) }
    ensures ok { OnOk result (OfPlace HasNeeded place.now (S.stored store.old)) }
    ensures err { IfErr result (Fails (IsPlaced place.now) (S.stored store.old) (S.stored store.new)) }
    ensures shape { IfErr result (IsOfShape place.now.name) }
{
    check_has(store, place, metadata())?;
    check_has(store, place, truncs())?;
    check_has(store, place, flats())?;
    check_access(store, place)
}

/// Whether it has the folder.
#[tactic(auto, using(crate::proofs::FileLemmas::no_place, crate::proofs::ShapeLemmas::folder_there, crate::proofs::ShapeLemmas::folder_missing, crate::proofs::Unbroken::unbroken_shape))]
fn check_has<S: Store>(store: &mut S, place: &Place, folder: Name) -> Result<(), Finding>
    requires { (folder ≡ metadata_name) ⊎ (folder ≡ truncs_name) ⊎ (folder ≡ flats_name) }
    ensures looked { IsLookedAt (S.stored store.old) (S.stored store.new) }
    ensures ok { OnOk result (OfPlace (λ tree room. has_folder room folder ≡ true) place.now (S.stored store.old)) }
    ensures err { IfErr result (Fails (IsPlaced place.now) (S.stored store.old) (S.stored store.new)) }
    ensures shape { IfErr result (IsOfShape place.now.name) }
{
    match list(store, place.number, folder)? {
        Some(_names) => Ok(()),
        None => Err(Finding::Broken {
            complaint: Complaint::NoFolder {
                room: place.name,
                folder,
            },
        }),
    }
}

/// Whether it has the file `access`.
#[tactic(auto, using(crate::proofs::FileLemmas::no_place, crate::proofs::ShapeLemmas::access_there, crate::proofs::ShapeLemmas::access_missing, crate::proofs::Unbroken::unbroken_shape))]
fn check_access<S: Store>(store: &mut S, place: &Place) -> Result<(), Finding>
    ensures looked { IsLookedAt (S.stored store.old) (S.stored store.new) }
    ensures ok { OnOk result (OfPlace HasAccess place.now (S.stored store.old)) }
    ensures err { IfErr result (Fails (IsPlaced place.now) (S.stored store.old) (S.stored store.new)) }
    ensures shape { IfErr result (IsOfShape place.now.name) }
{
    match length(store, place.number, &print(&Item::Access))? {
        Some(_len) => Ok(()),
        None => Err(Finding::Broken {
            complaint: Complaint::NoAccess { room: place.name },
        }),
    }
}
