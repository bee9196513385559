//! The truncates of a container.
ghost use Rattle.std.specs.Prelude.{◌≡◌, ◌++◌, ◌∷◌, [], Some, IfOk, IfErr, IfSome, OnOk, IsTrue, ◌↔◌};
ghost use Rattle.tree_check.specs.Truncates.{trunc_in_item, IsTruncAt, IsOtherSize, HasOtherSize, AddsTruncAt, IsTwice, IsTwiceAt, AreTruncsAt, IsTwoTruncs};

use container_layout::{Item, read};
use plfs_types::{Name, Path, Trunc, TruncList};
use shape_check::{Complaint, Finding};
use std::alloc::Global;

/// The truncate that the file at this path is.
fn trunc_in(path: &Path) -> Option<Trunc>
    ensures found { IfSome result (IsTruncAt path.now) }
    ensures only { (trunc : Trunc) → IsTruncAt path.now trunc → result ≡ Some trunc }
{
    match read(path) {
        Some(item) => trunc_of(&item),
        None => None,
    }
}

/// The truncate that the item is.
fn trunc_of(item: &Item) -> Option<Trunc>
    ensures { result ≡ trunc_in_item item.now }
{
    match *item {
        Item::Trunc { stamp, size } => Some(Trunc { stamp, size }),
        _ => None,
    }
}

/// Whether the other truncate has its stamp and another size.
fn is_other(other: &Trunc, trunc: &Trunc) -> bool
    ensures { IsTrue result ↔ IsOtherSize other.now trunc.now }
{
    other.stamp == trunc.stamp && other.size != trunc.size
}

/// Whether one of the truncates has its stamp and another size.
fn has_other(truncs: &[Trunc], trunc: &Trunc) -> bool
    ensures { IsTrue result ↔ HasOtherSize truncs.now trunc.now }
{
    for other in truncs {
        if is_other(other, trunc) {
            return true;
        }
    }
    false
}

/// Adds a truncate, unless one of the others has its stamp and another size.
fn add(room: Name, truncs: &mut TruncList, trunc: &Trunc) -> Result<(), Finding>
    ensures ok { OnOk result ((truncs.new ≡ truncs.old ++ trunc.now ∷ []) × (HasOtherSize truncs.old trunc.now → ⊥)) }
    ensures err { IfErr result (IsTwice room truncs.old trunc.now) }
{
    if has_other(truncs.as_slice(), trunc) {
        return Err(Finding::Broken {
            complaint: Complaint::TwoTruncates {
                room,
                stamp: trunc.stamp,
            },
        });
    }
    truncs.push(*trunc)?;
    Ok(())
}

/// Adds the truncate at this path, if it is one.
fn add_at(room: Name, truncs: &mut TruncList, path: &Path) -> Result<(), Finding>
    ensures ok { OnOk result (AddsTruncAt path.now truncs.old truncs.new) }
    ensures err { IfErr result (IsTwiceAt room path.now truncs.old) }
{
    match trunc_in(path) {
        Some(trunc) => add(room, truncs, &trunc),
        None => Ok(()),
    }
}

/// The truncates at these paths, of which no two may have one stamp.
pub(crate) fn truncs_of(alloc: Global, room: Name, paths: &[Path]) -> Result<TruncList, Finding>
    ensures ok { IfOk result (AreTruncsAt paths.now) }
    ensures err { IfErr result (IsTwoTruncs room paths.now) }
{
    let mut truncs = TruncList::new(alloc);
    for path in paths {
        add_at(room, &mut truncs, path)?;
    }
    Ok(truncs)
}
