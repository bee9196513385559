//! What the listings of a container's folders of droppings show.
ghost use Rattle.std.specs.Prelude.{◌≡◌, ◌≤◌, [], length, Result, Ok, IfOk, IfSome};
ghost use Rattle.mount_model.specs.declared.stuck.Stuck.{Stuck as Trouble};
ghost use Rattle.mount_model.specs.FlowListed.{file_in as path_in};
ghost use Rattle.index_reader.specs.declared.scanning.Scan.{Scan as Scanned};
ghost use Rattle.index_reader.specs.Replies.{on_trouble};
ghost use Rattle.index_reader.specs.Items.{hostdir_item as item_of_hostdir, is_of_hostdir as of_hostdir};
ghost use Rattle.index_reader.specs.Scanning.{nothing_found, foreign_in as foreign, taken, taken_all, scanned as scanning};

use crate::owners::Owners;
use container_layout::{Item, read};
use mount_model::{Stuck, damage};
use plfs_types::{Name, NoMemory, Path};
use std::alloc::Global;

/// Whose index droppings and packed indices were found.
#[derive(Drop)]
pub(crate) struct Scan {
    pub(crate) indices: Owners,
    pub(crate) packs: Owners,
}

pub(crate) fn file_in(folder: Name, file: Name) -> Path
    ensures { result ≡ path_in folder file }
{
    Path { folder, file }
}

fn is_of_hostdir(item: &Item) -> bool
    ensures { result ≡ of_hostdir item.now }
{
    matches!(
        item,
        Item::Index { .. } | Item::Log { .. } | Item::Packed { .. } | Item::TmpPacked { .. }
    )
}

/// The item of a folder of droppings whose path this is.
fn hostdir_item(path: &Path) -> Option<Item>
    ensures { result ≡ item_of_hostdir path.now }
{
    let item = read(path)?;
    if is_of_hostdir(&item) {
        Some(item)
    } else {
        None
    }
}

/// The first name that is no item of this folder.
fn foreign_in(folder: Name, names: &[Name]) -> Option<Name>
    ensures { result ≡ foreign folder names.now }
{
    for name in names {
        if hostdir_item(&file_in(folder, *name)).is_none() {
            return Some(*name);
        }
    }
    None
}

impl Scan {
    /// Nothing was found.
    pub(crate) fn new(alloc: Global) -> Self
        ensures { result ≡ nothing_found }
    {
        Scan {
            indices: Owners::new(alloc),
            packs: Owners::new(alloc),
        }
    }

    /// Takes one file in, or says that its writer has one of its kind already.
    fn take(&mut self, path: &Path, item: Option<Item>) -> Result<Option<Stuck>, NoMemory>
        ensures { IfOk result (λ why. (next : Scanned → Result Scanned Trouble) → taken path.now item self.old next ≡ on_trouble why (next self.new)) }
    {
        match item {
            Some(Item::Index { host, writer }) => {
                if self.indices.has(writer) {
                    return Ok(Some(damage(path, 0)));
                }
                self.indices.add(host, writer)?;
                Ok(None)
            }
            Some(Item::Packed { host, writer }) => {
                if self.packs.has(writer) {
                    return Ok(Some(damage(path, 0)));
                }
                self.packs.add(host, writer)?;
                Ok(None)
            }
            _ => Ok(None),
        }
    }

    fn take_all(&mut self, folder: Name, names: &[Name]) -> Result<Option<Stuck>, NoMemory>
        ensures { IfOk result (λ why. taken_all folder names.now self.old ≡ on_trouble why (Ok self.new)) }
    {
        for name in names {
            let path = file_in(folder, *name);
            let item = hostdir_item(&path);
            if let Some(why) = self.take(&path, item)? {
                return Ok(Some(why));
            }
        }
        Ok(None)
    }

    /// Takes in what the names of one folder show, or says what is damage.
    pub(crate) fn scan(&mut self, folder: Name, names: &[Name]) -> Result<Option<Stuck>, NoMemory>
        ensures { IfOk result (λ why. scanning folder names.now self.old ≡ on_trouble why (Ok self.new)) }
    {
        if let Some(name) = foreign_in(folder, names) {
            return Ok(Some(damage(&file_in(folder, name), 0)));
        }
        self.take_all(folder, names)
    }
}
