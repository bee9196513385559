//! The calls of the system, as far as a store makes them.
ghost use Rattle.std.specs.Prelude.{◌≡◌, ℕ, ◌∷◌, [], length, Option, None, Ok, IfOk, IfErr, IfSome};
ghost use Rattle.folder_calls.specs.Calls.{Log, Makes, looked_at, listed_folder, opened_file, created_file, measured_file, read_bytes, wrote_bytes, resized_file, synced_file, made_folder, synced_folder, removed_file, removed_folder, renamed_item, giving, failed_calls};
ghost use Rattle.folder_calls.specs.Syncs.{IsCountOf, counting};
ghost use Rattle.folder_calls.specs.Noted.{noted, Tells, TellsLook, TellsList, TellsOpening};

use crate::failure::Failure;
use crate::reason::{Asked, Kind, Reason};
use plfs_types::NameList;
use std::alloc::Global;

/// What became of a folder that was to be removed.
#[derive(Clone, Copy)]
pub enum Removal {
    Removed,
    Absent,
    NotEmpty,
}

/// The system, as far as a store calls it. A call that fails is `Failed`, but for want of memory in a listing, which
/// changes nothing. Each call tells itself, and that where it succeeded no failed one came to the log. One that failed
/// tells why. The syncs that failed are counted, so that none of them is forgotten by what makes the calls.
pub trait Calls {
    ghost use Rattle.folder_calls.specs.declared.reason.Reason.{Reason};

    /// An open file.
    type File: Drop;

    /// The calls made so far, where it tells them.
    ghost log: { Self → Log Self.File };

    /// Why the step fails, as far as its calls told.
    ghost told: { Self → Option Reason };

    /// How many syncs failed so far, up to 2^64 - 1.
    ghost unsynced: { Self → ℕ };

    /// Where the calls are told, that is how many of them are syncs that failed.
    ghost counted: { (calls : Self) → IsCountOf (log calls) (unsynced calls) };

    /// How many syncs failed so far, up to 2^64 - 1.
    fn failed_syncs(&self) -> u64
        ensures { result ≡ unsynced self.now };

    /// Forgets what the calls told, before another step.
    fn forget(&mut self)
        ensures uncalled { log self.new ≡ log self.old }
        ensures forgotten { told self.new ≡ None }
        ensures syncs { unsynced self.new ≡ unsynced self.old };

    /// Tells why a step fails that asks nothing more of the system.
    fn tell(&mut self, reason: Reason)
        ensures uncalled { log self.new ≡ log self.old }
        ensures noted { told self.new ≡ noted (told self.old) reason }
        ensures syncs { unsynced self.new ≡ unsynced self.old };

    /// Why the last call failed, or what the last look found.
    fn reason(&self) -> Option<Reason>
        ensures { result ≡ told self.now };

    /// What stands at a path. It follows no link.
    fn look(&mut self, path: &str) -> Result<Kind, Failure>
        ensures call { Makes (looked_at path.now result ∷ []) (log self.old) (log self.new) }
        ensures failed { IfErr result (λ failure. failure ≡ Failure.Failed) }
        ensures syncs { unsynced self.new ≡ unsynced self.old }
        ensures tells { TellsLook (told self.old) (told self.new) result }
        ensures well { IfOk result (λ _. failed_calls (log self.new) ≡ failed_calls (log self.old)) };

    /// The names in a folder, in no order. It fails where one is no text in UTF-8 or longer than 96 bytes.
    fn list(&mut self, alloc: Global, path: &str) -> Result<NameList, Failure>
        ensures call { Makes (listed_folder path.now result ∷ []) (log self.old) (log self.new) }
        ensures syncs { unsynced self.new ≡ unsynced self.old }
        ensures tells { TellsList (told self.old) (told self.new) result }
        ensures well { IfOk result (λ _. failed_calls (log self.new) ≡ failed_calls (log self.old)) };

    /// Opens a plain file for reading and writing, and follows no link. None where nothing is at the path.
    fn open(&mut self, path: &str) -> Result<Option<Self::File>, Failure>
        ensures call { Makes (opened_file path.now result ∷ []) (log self.old) (log self.new) }
        ensures failed { IfErr result (λ failure. failure ≡ Failure.Failed) }
        ensures syncs { unsynced self.new ≡ unsynced self.old }
        ensures tells { TellsOpening (told self.old) (told self.new) result }
        ensures well { IfOk result (λ _. failed_calls (log self.new) ≡ failed_calls (log self.old)) };

    /// Makes an empty file, and opens it for reading and writing. None where something is at the path.
    fn create(&mut self, path: &str) -> Result<Option<Self::File>, Failure>
        ensures call { Makes (created_file path.now result ∷ []) (log self.old) (log self.new) }
        ensures failed { IfErr result (λ failure. failure ≡ Failure.Failed) }
        ensures syncs { unsynced self.new ≡ unsynced self.old }
        ensures tells { Tells Asked.Create (told self.old) (told self.new) result }
        ensures well { IfOk result (λ _. failed_calls (log self.new) ≡ failed_calls (log self.old)) };

    /// The length of a file, in bytes.
    fn length(&mut self, file: &Self::File) -> Result<u64, Failure>
        ensures call { Makes (measured_file file.now result ∷ []) (log self.old) (log self.new) }
        ensures failed { IfErr result (λ failure. failure ≡ Failure.Failed) }
        ensures syncs { unsynced self.new ≡ unsynced self.old }
        ensures tells { Tells Asked.Open (told self.old) (told self.new) result }
        ensures well { IfOk result (λ _. failed_calls (log self.new) ≡ failed_calls (log self.old)) };

    /// Fills `into` with the bytes from `at` on.
    fn read_exact_at(&mut self, file: &Self::File, into: &mut [u8], at: u64) -> Result<(), Failure>
        ensures call { Makes (read_bytes file.now at (length into.old) (giving into.new result) ∷ []) (log self.old) (log self.new) }
        ensures failed { IfErr result (λ failure. failure ≡ Failure.Failed) }
        ensures syncs { unsynced self.new ≡ unsynced self.old }
        ensures tells { Tells Asked.Read (told self.old) (told self.new) result }
        ensures well { IfOk result (λ _. failed_calls (log self.new) ≡ failed_calls (log self.old)) };

    /// The `len` bytes from `at` on, where the system gave them already, behind which the file has `left` others. It isn't asked for
    /// them again then.
    fn read_ahead(&mut self, file: &Self::File, at: u64, len: u64, left: u64) -> Option<Vec<u8>>
        ensures call { IfSome result (λ bytes. (length bytes.items ≡ len) × Makes (read_bytes file.now at len (Ok bytes.items) ∷ []) (log self.old) (log self.new)) }
        ensures uncalled { result ≡ None → log self.new ≡ log self.old }
        ensures syncs { unsynced self.new ≡ unsynced self.old }
        ensures untold { told self.new ≡ told self.old }
        ensures well { failed_calls (log self.new) ≡ failed_calls (log self.old) };

    /// Writes the bytes from `at` on, in one call of the system where that takes them all.
    fn write_all_at(&mut self, file: &Self::File, bytes: &[u8], at: u64) -> Result<(), Failure>
        ensures call { Makes (wrote_bytes file.now at bytes.now result ∷ []) (log self.old) (log self.new) }
        ensures failed { IfErr result (λ failure. failure ≡ Failure.Failed) }
        ensures syncs { unsynced self.new ≡ unsynced self.old }
        ensures tells { Tells Asked.Write (told self.old) (told self.new) result }
        ensures well { IfOk result (λ _. failed_calls (log self.new) ≡ failed_calls (log self.old)) };

    /// Gives a file this length.
    fn set_length(&mut self, file: &Self::File, len: u64) -> Result<(), Failure>
        ensures call { Makes (resized_file file.now len result ∷ []) (log self.old) (log self.new) }
        ensures failed { IfErr result (λ failure. failure ≡ Failure.Failed) }
        ensures syncs { unsynced self.new ≡ unsynced self.old }
        ensures tells { Tells Asked.Cut (told self.old) (told self.new) result }
        ensures well { IfOk result (λ _. failed_calls (log self.new) ≡ failed_calls (log self.old)) };

    /// Syncs a file's bytes and its length.
    fn sync(&mut self, file: &Self::File) -> Result<(), Failure>
        ensures call { Makes (synced_file file.now result ∷ []) (log self.old) (log self.new) }
        ensures failed { IfErr result (λ failure. failure ≡ Failure.Failed) }
        ensures syncs { unsynced self.new ≡ counting result (unsynced self.old) }
        ensures tells { Tells Asked.Sync (told self.old) (told self.new) result }
        ensures well { IfOk result (λ _. failed_calls (log self.new) ≡ failed_calls (log self.old)) };

    /// Makes a folder. False where something is at the path.
    fn make_folder(&mut self, path: &str) -> Result<bool, Failure>
        ensures call { Makes (made_folder path.now result ∷ []) (log self.old) (log self.new) }
        ensures failed { IfErr result (λ failure. failure ≡ Failure.Failed) }
        ensures syncs { unsynced self.new ≡ unsynced self.old }
        ensures tells { Tells Asked.MakeFolder (told self.old) (told self.new) result }
        ensures well { IfOk result (λ _. failed_calls (log self.new) ≡ failed_calls (log self.old)) };

    /// Syncs the names in a folder.
    fn sync_folder(&mut self, path: &str) -> Result<(), Failure>
        ensures call { Makes (synced_folder path.now result ∷ []) (log self.old) (log self.new) }
        ensures failed { IfErr result (λ failure. failure ≡ Failure.Failed) }
        ensures syncs { unsynced self.new ≡ counting result (unsynced self.old) }
        ensures tells { Tells Asked.Sync (told self.old) (told self.new) result }
        ensures well { IfOk result (λ _. failed_calls (log self.new) ≡ failed_calls (log self.old)) };

    /// Removes a file. False where nothing is at the path.
    fn remove_file(&mut self, path: &str) -> Result<bool, Failure>
        ensures call { Makes (removed_file path.now result ∷ []) (log self.old) (log self.new) }
        ensures failed { IfErr result (λ failure. failure ≡ Failure.Failed) }
        ensures syncs { unsynced self.new ≡ unsynced self.old }
        ensures tells { Tells Asked.RemoveFile (told self.old) (told self.new) result }
        ensures well { IfOk result (λ _. failed_calls (log self.new) ≡ failed_calls (log self.old)) };

    /// Removes an empty folder.
    fn remove_folder(&mut self, path: &str) -> Result<Removal, Failure>
        ensures call { Makes (removed_folder path.now result ∷ []) (log self.old) (log self.new) }
        ensures failed { IfErr result (λ failure. failure ≡ Failure.Failed) }
        ensures syncs { unsynced self.new ≡ unsynced self.old }
        ensures tells { Tells Asked.RemoveFolder (told self.old) (told self.new) result }
        ensures well { IfOk result (λ _. failed_calls (log self.new) ≡ failed_calls (log self.old)) };

    /// Gives what is at `from` the path `to`, and replaces a file that is there.
    fn rename(&mut self, from: &str, to: &str) -> Result<(), Failure>
        ensures call { Makes (renamed_item from.now to.now result ∷ []) (log self.old) (log self.new) }
        ensures failed { IfErr result (λ failure. failure ≡ Failure.Failed) }
        ensures syncs { unsynced self.new ≡ unsynced self.old }
        ensures tells { Tells Asked.Rename (told self.old) (told self.new) result }
        ensures well { IfOk result (λ _. failed_calls (log self.new) ≡ failed_calls (log self.old)) };
}
