//! What the making of a room leaves where it is broken off: folders of ROOT that are no rooms, which are used again.
ghost use Rattle.std.specs.Prelude.{◌≡◌, ◌∷◌, [], Ok, IfOk, IfErr, OnOk, OnErr, string_bytes};
ghost use Rattle.folder_calls.specs.Calls.{Log, Makes, looked_at};
ghost use Rattle.store_folder.specs.FailedClearing.{FailsToRemoveLeftover, FailsToClearItem, FailsToEmpty, FailsToClear, FailsToTry, FailsToTakePlace};
ghost use Rattle.store_folder.specs.ForEach.{ForEach, FailsAtOne};
ghost use Rattle.store_folder.specs.Leftovers.{RemovesLeftover, ClearsItem, Empties, Clears, Tries};
ghost use Rattle.store_folder.specs.NewRooms.{TakesPlace};

use crate::folders::item_path;
use folder_calls::{Calls, Failure, Kind, Removal};
use plfs_types::Name;
use std::alloc::Global;

/// A new folder of ROOT, `.new.<k>` with the least k that is free or can be cleared.
pub fn new_folder<C: Calls<File = F>, F: Drop>(
    calls: &mut C,
    alloc: Global,
    root: &str,
) -> Result<String, Failure>
    ensures taken { IfOk result (λ new. TakesPlace root.now (string_bytes new) (C.log calls.old) (C.log calls.new)) }
    ensures fails { IfErr result (FailsToTakePlace root.now (C.log calls.old) (C.log calls.new)) }
{
    for k in 0..u64::MAX {
        let path = format!(in alloc; "{}/.new.{k}", root)?;
        if make_new(calls, alloc, path.as_str())? {
            return Ok(path);
        }
    }
    Err(Failure::Failed)
}

// Whether the folder was made, or made again once it was cleared.
fn make_new<C: Calls<File = F>, F: Drop>(
    calls: &mut C,
    alloc: Global,
    path: &str,
) -> Result<bool, Failure>
    ensures tried { IfOk result (Tries path.now (C.log calls.old) (C.log calls.new)) }
    ensures fails { IfErr result (FailsToTry path.now (C.log calls.old) (C.log calls.new)) }
{
    if calls.make_folder(path)? {
        return Ok(true);
    }
    if !clear(calls, alloc, path)? {
        return Ok(false);
    }
    calls.make_folder(path)
}

/// Removes what the making of a room left where it was broken off: a folder that holds nothing but empty folders
/// and empty files. False where anything else is there, and of that all stays.
pub fn clear<C: Calls<File = F>, F: Drop>(
    calls: &mut C,
    alloc: Global,
    path: &str,
) -> Result<bool, Failure>
    ensures cleared { IfOk result (Clears path.now (C.log calls.old) (C.log calls.new)) }
    ensures fails { IfErr result (FailsToClear path.now (C.log calls.old) (C.log calls.new)) }
{
    match calls.look(path)? {
        Kind::Folder => empty(calls, alloc, path),
        Kind::Absent => Ok(false),
        Kind::File { .. } => Ok(false),
        Kind::Other => Ok(false),
    }
}

// Clears what the folder has, and removes it if it is empty then.
fn empty<C: Calls<File = F>, F: Drop>(
    calls: &mut C,
    alloc: Global,
    path: &str,
) -> Result<bool, Failure>
    ensures emptied { IfOk result (Empties path.now (C.log calls.old) (C.log calls.new)) }
    ensures fails { IfErr result (FailsToEmpty path.now (C.log calls.old) (C.log calls.new)) }
{
    let names = calls.list(alloc, path)?;
    let cleared = clear_items(calls, alloc, path, names.as_slice());
    drop(names);
    cleared?;
    let end = calls.remove_folder(path)?;
    Ok(matches!(end, Removal::Removed))
}

fn clear_items<C: Calls<File = F>, F: Drop>(
    calls: &mut C,
    alloc: Global,
    folder: &str,
    names: &[Name],
) -> Result<(), Failure>
    ensures cleared { OnOk result (ForEach (ClearsItem folder.now) names.now (C.log calls.old) (C.log calls.new)) }
    ensures fails { IfErr result (λ failure. FailsAtOne (ClearsItem folder.now) (FailsToClearItem folder.now failure) names.now (C.log calls.old) (C.log calls.new)) }
{
    for name in names {
        clear_item(calls, alloc, folder, name)?;
    }
    Ok(())
}

fn clear_item<C: Calls<File = F>, F: Drop>(
    calls: &mut C,
    alloc: Global,
    folder: &str,
    name: &Name,
) -> Result<(), Failure>
    ensures cleared { OnOk result (ClearsItem folder.now name.now (C.log calls.old) (C.log calls.new)) }
    ensures fails { IfErr result (λ failure. FailsToClearItem folder.now failure name.now (C.log calls.old) (C.log calls.new)) }
{
    let path = item_path(alloc, folder, name)?;
    let cleared = remove_leftover(calls, path.as_str());
    drop(path);
    cleared
}

fn remove_leftover<C: Calls<File = F>, F: Drop>(calls: &mut C, path: &str) -> Result<(), Failure>
    ensures removed { OnOk result ((kind : Kind) × (between : Log F) × Makes (looked_at path.now (Ok kind) ∷ []) (C.log calls.old) between × RemovesLeftover path.now kind between (C.log calls.new)) }
    ensures failed { IfErr result (λ failure. failure ≡ Failure.Failed) }
    ensures fails { OnErr result (FailsToRemoveLeftover path.now (C.log calls.old) (C.log calls.new)) }
{
    match calls.look(path)? {
        Kind::Folder => {
            calls.remove_folder(path)?;
            Ok(())
        }
        Kind::File { len: 0 } => {
            calls.remove_file(path)?;
            Ok(())
        }
        Kind::File { .. } => Ok(()),
        Kind::Absent | Kind::Other => Ok(()),
    }
}
