//! Which files are this run's own: those that had no bytes as it met them.
ghost use Rattle.std.specs.Prelude.{◌≡◌, ◌⊎◌, false, true};
ghost use Rattle.folder_calls.specs.Keys.{same_file};
ghost use Rattle.folder_calls.specs.Own.{is_own};

use crate::cache::FileKey;
use crate::held::Held;
use std::alloc::Global;
use std::collections::HashSet;

/// The files of which all bytes are this run's.
#[derive(Drop)]
pub struct OwnFiles {
    keys: HashSet<FileKey>,
}

impl OwnFiles {
    /// None.
    pub fn new(alloc: Global) -> OwnFiles
        ensures none { (key : FileKey) → is_own result key ≡ false }
    {
        OwnFiles {
            keys: HashSet::new(alloc),
        }
    }

    /// Whether the file is one.
    pub fn has(&self, key: &FileKey) -> bool
        ensures { result ≡ is_own self.now key.now }
    {
        self.keys.contains(key)
    }

    /// Adds the file. Where memory is refused for it, its bytes count as an earlier run's once it is opened anew.
    pub fn add(&mut self, key: FileKey)
        ensures lasts { (other : FileKey) → is_own self.old other ≡ true → is_own self.new other ≡ true }
        ensures only { (other : FileKey) → is_own self.new other ≡ true → (is_own self.old other ≡ true) ⊎ (same_file key other ≡ true) }
    {
        match self.keys.insert(key) {
            Ok(_) => {}
            Err(_) => {}
        }
    }

    /// Adds the file where it has no bytes yet.
    pub fn add_if_empty<F: Drop>(&mut self, key: &FileKey, held: &Held<F>)
        ensures only { (other : FileKey) → is_own self.new other ≡ true → (is_own self.old other ≡ true) ⊎ ((same_file key.now other ≡ true) × (held.now.len ≡ 0)) }
        ensures lasts { (other : FileKey) → is_own self.old other ≡ true → is_own self.new other ≡ true }
    {
        if held.is_empty() {
            self.add(*key);
        }
    }

    /// Takes the file out: what has its name from now on may be an earlier run's.
    pub fn remove(&mut self, key: &FileKey)
        ensures gone { (other : FileKey) → same_file key.now other ≡ true → is_own self.new other ≡ false }
        ensures others { (other : FileKey) → same_file key.now other ≡ false → is_own self.new other ≡ is_own self.old other }
        ensures only { (other : FileKey) → is_own self.new other ≡ true → is_own self.old other ≡ true }
    {
        self.keys.remove(key);
    }
}
