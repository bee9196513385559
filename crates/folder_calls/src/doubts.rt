//! What is in doubt, since a sync of it failed.
//!
//! Read: fsync(2) of Linux, "error reporting": after a failed sync the pages may count as written though no disk has
//! them, and the next sync answers that all is well. So a sync that failed is never made again.
ghost use Rattle.std.specs.Prelude.{◌≡◌, ◌⊎◌, None, Some, unwrap_or};
ghost use Rattle.folder_calls.specs.Doubts.{doubt_of};

use crate::cache::FileKey;
use crate::reason::Doubt;
use std::alloc::Global;
use std::collections::HashMap;

/// What a step syncs: nothing, ROOT itself, or a file or a folder.
#[derive(Clone, Copy)]
pub enum Item {
    Nothing,
    Root,
    /// A file by its key, or a folder, in whose key the file has no name.
    Under { key: FileKey },
}

/// The items of which a sync failed, each with why the first one did.
#[derive(Drop)]
pub struct Doubts {
    keys: HashMap<FileKey, Doubt>,
    root: Option<Doubt>,
    // Memory was refused for one, so that all are in doubt.
    all: Option<Doubt>,
}

impl Doubts {
    /// Nothing is in doubt.
    pub fn new(alloc: Global) -> Doubts
        ensures none { (item : Item) → doubt_of result item ≡ None }
    {
        Doubts {
            keys: HashMap::new(alloc),
            root: None,
            all: None,
        }
    }

    /// Why the item is in doubt, where it is.
    pub fn of(&self, item: &Item) -> Option<Doubt>
        ensures { result ≡ doubt_of self.now item.now }
    {
        match *item {
            Item::Nothing => None,
            Item::Root => self.root.or(self.all),
            Item::Under { key } => self.keys.get(&key).copied().or(self.all),
        }
    }

    /// From now on the item is in doubt, for this cause. One that was so keeps its first. Where memory is refused for it, all are.
    pub fn add(&mut self, item: &Item, doubt: Doubt)
        ensures added { (item.now ≡ Item.Nothing) ⊎ (doubt_of self.new item.now ≡ Some (unwrap_or (doubt_of self.old item.now) doubt)) }
        ensures lasts { (other : Item) → (first : Doubt) → doubt_of self.old other ≡ Some first → doubt_of self.new other ≡ Some first }
    {
        if self.of(item).is_some() {
            return;
        }
        match *item {
            Item::Nothing => {}
            Item::Root => self.root = Some(doubt),
            Item::Under { key } => self.add_key(key, doubt),
        }
    }

    // The key of an item that is not in doubt.
    fn add_key(&mut self, key: FileKey, doubt: Doubt)
        requires new { doubt_of self.now (Item.Under key) ≡ None }
        ensures added { doubt_of self.new (Item.Under key) ≡ Some doubt }
        ensures lasts { (other : Item) → (first : Doubt) → doubt_of self.old other ≡ Some first → doubt_of self.new other ≡ Some first }
    {
        if self.keys.insert(key, doubt).is_err() {
            self.all = Some(doubt);
        }
    }
}
