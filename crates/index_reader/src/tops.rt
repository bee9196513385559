//! The top of a container.
ghost use Rattle.std.specs.Prelude.{◌≡◌, ◌≤◌, ◌++◌, ◌∷◌, List, ℕ, [], length, Result, Ok, IfOk, OnOk};
ghost use Rattle.mount_model.specs.declared.stuck.Stuck.{Stuck as Trouble};
ghost use Rattle.index_reader.specs.Replies.{on_trouble};
ghost use Rattle.index_reader.specs.Searching.{has_name as has};
ghost use Rattle.index_reader.specs.Tops.{access as access_name, top_names as names_of_top, foreign_at_top as foreign, required, shown as shown_of, top_shows};
ghost use Rattle.container_layout.specs.Paths.{hostdirs};

use crate::scanning::file_in;
use container_layout::{flats, hostdir, metadata, openhosts, truncs};
use mount_model::{Stuck, damage};
use plfs_types::{Name, NameList, NoMemory, Path, Sequence};
use std::alloc::Global;

/// Whether one of the names is this one.
fn has_name(name: &Name, names: &[Name]) -> bool
    ensures { result ≡ has name.now names.now }
{
    for other in names {
        if *name == *other {
            return true;
        }
    }
    false
}

fn access() -> Name
    ensures { result ≡ access_name }
{
    Name::from_bytes(b"access").unwrap()
}

/// The names that the top may have.
fn top_names(alloc: Global) -> Result<NameList, NoMemory>
    ensures { IfOk result (λ names. names ≡ names_of_top) }
{
    let mut names = NameList::new(alloc);
    names.push(access())?;
    names.push(openhosts())?;
    names.push(metadata())?;
    names.push(truncs())?;
    names.push(flats())?;
    for host in 0..32 {
        names.push(hostdir(host))?;
    }
    Ok(names)
}

/// The first name that the top may not have.
fn foreign_at_top(top: &[Name], names: &[Name]) -> Option<Name>
    requires { top.now ≡ names_of_top }
    ensures { result ≡ foreign names.now }
{
    for name in names {
        if !has_name(name, top) {
            return Some(*name);
        }
    }
    None
}

/// The damage that the file or folder of this path is, where its name isn't there.
fn missing(name: &Name, path: &Path, names: &[Name]) -> Option<Stuck>
    ensures { (next : Result (List ℕ) Trouble) → required name.now path.now names.now next ≡ on_trouble result next }
{
    if has_name(name, names) {
        None
    } else {
        Some(damage(path, 0))
    }
}

/// Adds the number of this folder of droppings, where it is there.
fn add_shown(list: &mut Vec<u32>, folder: u32, names: &[Name]) -> Result<(), NoMemory>
    ensures { OnOk result (list.new.items ≡ list.old.items ++ shown_of names.now (folder ∷ [])) }
{
    if has_name(&hostdir(folder), names) {
        list.push(folder)?;
    }
    Ok(())
}

/// Those of the folders of droppings that are there.
fn shown(alloc: Global, names: &[Name]) -> Result<Sequence<u32>, NoMemory>
    ensures value { IfOk result (λ ks. ks ≡ shown_of names.now hostdirs) }
    ensures few { IfOk result (λ ks. length ks ≤ 32) }
{
    let mut list = Vec::new(alloc);
    for folder in 0..32 {
        add_shown(&mut list, folder, names)?;
    }
    Ok(Sequence::from_vec(list))
}

/// What is damage at the top: a foreign name, or else what is missing.
fn fault(top: &[Name], names: &[Name]) -> Option<Stuck>
    requires { top.now ≡ names_of_top }
    ensures { top_shows names.now ≡ on_trouble result (Ok (shown_of names.now hostdirs)) }
{
    if let Some(name) = foreign_at_top(top, names) {
        return Some(damage(&file_in(Name::empty(), name), 0));
    }
    if let Some(why) = missing(&access(), &file_in(Name::empty(), access()), names) {
        return Some(why);
    }
    if let Some(why) = missing(&flats(), &file_in(flats(), Name::empty()), names) {
        return Some(why);
    }
    if let Some(why) = missing(&metadata(), &file_in(metadata(), Name::empty()), names) {
        return Some(why);
    }
    missing(&truncs(), &file_in(truncs(), Name::empty()), names)
}

/// The folders of droppings that the top shows, in order, unless there is damage.
pub(crate) fn folders(
    alloc: Global,
    names: &[Name],
) -> Result<Result<Sequence<u32>, Stuck>, NoMemory>
    ensures value { IfOk result (λ ks. ks ≡ top_shows names.now) }
    ensures few { IfOk result (λ ks. IfOk ks (λ ks. length ks ≤ 32)) }
{
    let top = top_names(alloc)?;
    if let Some(why) = fault(top.as_slice(), names) {
        return Ok(Err(why));
    }
    let shown = shown(alloc, names)?;
    Ok(Ok(shown))
}
