//! The files that are open: those that were used last, each with its length.
ghost use Rattle.std.specs.Prelude.{◌≡◌, ◌⊎◌, [], length, max, nat_eq, true, None, Some, is_some, IfSome, IfOk, IfErr, if◌then◌else◌};
ghost use Rattle.std.specs.List.{IsDistinct};
ghost use Rattle.std.specs.Map.{keys_of, remove_entry};
ghost use Rattle.std.specs.Cmp.Lexicographic.{pointwise};
ghost use Rattle.lru.specs.LruCache.{lru_cache, put_entries};
ghost use Rattle.store_api.specs.Step.{step_of};
ghost use Rattle.folder_calls.specs.Acted.{ActsHeld};
ghost use Rattle.folder_calls.specs.Keys.{name_digest, same_file};
ghost use Rattle.folder_calls.specs.Opened.{held_at};
ghost use Rattle.folder_calls.specs.Own.{is_own};

use crate::calls::Calls;
use crate::failure::Failure;
use crate::held::Held;
use crate::own::OwnFiles;
use lru::LruCache;
use plfs_types::Name;
use std::alloc::Global;
use std::hash::{Hash, Hasher};
use std::num::NonZeroUsize;
use store_api::{Answer, Step};

/// A file by the number of its room, its folder, which is empty at the top, and its name.
/// A room's number stays as it is renamed, and so does the key.
#[derive(Clone, Copy)]
pub struct FileKey {
    pub room: u64,
    pub folder: Name,
    pub file: Name,
}

// Whether both have the same bytes. They are few, so that a comparison of slices by many bytes at a time takes longer.
fn are_same_few(a: &[u8], b: &[u8]) -> bool
    ensures { result ≡ pointwise nat_eq a.now b.now }
{
    if a.len() != b.len() {
        return false;
    }
    for j in 0..a.len() {
        if a[j] != b[j] {
            return false;
        }
    }
    true
}

// Whether both are the same, compared as one number.
fn are_same_eight(a: &[u8; 8], b: &[u8; 8]) -> bool
    ensures { result ≡ pointwise nat_eq a.now b.now }
{
    u64::from_le_bytes(*a) == u64::from_le_bytes(*b)
}

// Whether both names have the same bytes, compared eight at a time.
fn is_same_name(a: &Name, b: &Name) -> bool
    ensures { result ≡ pointwise nat_eq a.now b.now }
{
    let mut rest = a.bytes();
    let mut other = b.bytes();
    while let Some((front, behind)) = rest.split_first_chunk::<8>() {
        let Some((its_front, its_behind)) = other.split_first_chunk::<8>() else {
            return false;
        };
        if !are_same_eight(front, its_front) {
            return false;
        }
        rest = behind;
        other = its_behind;
    }
    are_same_few(rest, other)
}

// What tells most names of files apart: their lengths, and their last eight bytes, which end in the writer's number.
fn name_digest(name: &Name) -> u64
    ensures { result ≡ name_digest name.now }
{
    let bytes = name.bytes();
    match bytes.last_chunk::<8>() {
        Some(last) => u64::from_le_bytes(*last) ^ (bytes.len() as u64 * 0x1_0000),
        None => bytes.len() as u64,
    }
}

impl PartialEq for FileKey {
    ghost use Rattle.std.proofs.Common.{rules};
    ghost use Rattle.std.specs.Cmp.Rules.{comparing};
    ghost use Rattle.folder_calls.specs.Keys.{same_file};

    ghost eq = { same_file };

    ghost laws = { Prim.search (comparing, rules) };

    fn eq(&self, other: &FileKey) -> bool {
        self.room == other.room
            && is_same_name(&self.folder, &other.folder)
            && is_same_name(&self.file, &other.file)
    }
}

impl Eq for FileKey {
    ghost use Rattle.std.proofs.Common.{rules};
    ghost use Rattle.std.specs.Cmp.Rules.{comparing};

    ghost laws = { Prim.search (comparing, rules) };
}

impl Hash for FileKey {
    ghost use Rattle.std.proofs.Common.{rules};
    ghost use Rattle.std.specs.Cmp.Rules.{hashing};
    ghost use Rattle.std.specs.Hash as fed;
    ghost use Rattle.folder_calls.specs.Keys.{key_digest};

    // Files of one name in several folders of a room are rare: a dropping's name has its writer's id.
    ghost hash_input = { λ key. fed.u64 (key_digest key) };

    ghost respects_eq = { Prim.search (hashing, rules) };

    fn hash<H: Hasher>(&self, state: &mut H) {
        name_digest(&self.file).wrapping_add(self.room).hash(state);
    }
}

/// The open files by their keys.
#[derive(Drop)]
pub struct OpenFiles<F> {
    files: LruCache<FileKey, Held<F>>,
}

impl<F: Drop> OpenFiles<F> {
    /// No open file, and place for so many of them between two acts, for one at least.
    pub fn new(alloc: Global, most: u64) -> Result<Self, Failure>
        ensures empty { IfOk result (λ none. none.files ≡ lru_cache [] (max most 1)) }
        ensures memory { IfErr result (λ failure. failure ≡ Failure.NoMemory) }
    {
        let most = NonZeroUsize::new(most as usize).unwrap_or(NonZeroUsize::MIN);
        Ok(OpenFiles {
            files: LruCache::sparse(alloc, most)?,
        })
    }

    // How many files are open. No two of them have one key.
    fn count(&self) -> usize
        ensures count { result ≡ length self.now.files.entries }
        ensures distinct { IsDistinct same_file (keys_of self.now.files.entries) }
    {
        self.files.len()
    }

    /// Takes the file out, if it is open. The others stay open.
    pub fn take(&mut self, key: &FileKey) -> Option<Held<F>>
        ensures held { result ≡ held_at self.old key.now }
        ensures rest { self.new.files.entries ≡ remove_entry (same_file key.now) self.old.files.entries }
        ensures others { (other : FileKey) → held_at self.new other ≡ (if same_file key.now other then None else held_at self.old other) }
        ensures gone { held_at self.new key.now ≡ None }
    {
        if self.count() == 0 {
            return None;
        }
        self.files.pop(key)
    }

    /// Keeps the file open, and closes the one that was not used for longest where there are too many. All others that
    /// are open stay as they were.
    /// Where memory is refused the file is closed.
    pub fn keep(&mut self, key: FileKey, held: Held<F>)
        ensures opened { (other : FileKey) (one : Held F) → held_at self.new other ≡ Some one → (held_at self.old other ≡ Some one) ⊎ ((same_file key other ≡ true) × (one ≡ held)) }
        ensures kept { (self.new.files ≡ lru_cache (put_entries same_file self.old.files key held) self.old.files.cap) ⊎ (self.new.files ≡ self.old.files) }
    {
        match self.files.put(key, held) {
            Ok(_) => {}
            Err(_) => {}
        }
    }

    /// Makes a step on the file, where it is open. It is then the one that was used last. After a failure it is closed, so
    /// that its length is asked again. Where it has no bytes yet it is this run's own. None where it isn't open.
    pub fn act<C: Calls<File = F>>(
        &mut self,
        own: &mut OwnFiles,
        calls: &mut C,
        alloc: Global,
        key: &FileKey,
        step: &Step<'_>,
    ) -> Option<Result<Answer, Failure>>
        ensures open { is_some result ≡ is_some (held_at self.old key.now) }
        ensures untouched { result ≡ None → (self.new ≡ self.old) × (calls.new ≡ calls.old) × (own.new ≡ own.old) }
        ensures acts { IfSome result (ActsHeld self.old self.new key.now (C.log calls.old) (C.log calls.new) (step_of step.now)) }
        ensures only { (other : FileKey) → is_own own.new other ≡ true → (is_own own.old other ≡ true) ⊎ ((same_file key.now other ≡ true) × IfSome (held_at self.old key.now) (λ held. held.len ≡ 0)) }
        ensures lasts { (other : FileKey) → is_own own.old other ≡ true → is_own own.new other ≡ true }
    {
        let Some(held) = self.files.get_mut(key) else {
            return None;
        };
        own.add_if_empty(key, held);
        match held.act(calls, alloc, step) {
            Ok(answer) => Some(Ok(answer)),
            Err(failure) => {
                drop(self.take(key));
                Some(Err(failure))
            }
        }
    }
}
