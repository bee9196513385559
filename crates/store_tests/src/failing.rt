//! The calls of the system, but that each sync fails while a file of this name stands where the tests run.
ghost use Rattle.std.specs.Prelude.{◌≡◌, None, IfErr};
ghost use Rattle.folder_calls.specs.Noted.{Tells};
ghost use Rattle.folder_calls.specs.Syncs.{counting};

use folder_calls::{Asked, Calls, Failure, Kind, Reason, Removal, System, SystemCalls};
use plfs_types::NameList;
use std::alloc::Global;
use std::fs::{self, File};
use std::io;

/// No sync succeeds while it is there.
pub(crate) const NO_SYNC: &str = "store_tests_no_sync";

#[derive(Drop)]
pub(crate) struct FailingCalls<R> {
    pub(crate) rt: R,
    pub(crate) calls: SystemCalls<R>,
    // How many syncs failed, up to 2^64 - 1.
    pub(crate) unsynced: u64,
}

impl<R: System> FailingCalls<R> {
    fn may_sync(&mut self) -> Result<(), Failure>
        ensures failed { IfErr result (λ failure. failure ≡ Failure.Failed) }
        ensures tells { Tells Asked.Sync self.old.calls.last self.new.calls.last result }
        ensures syncs { self.new.unsynced ≡ self.old.unsynced }
    {
        if let Ok(false) = fs::exists(&self.rt, NO_SYNC) {
            return Ok(());
        }
        self.calls.tell(Reason::System {
            asked: Asked::Sync,
            error: io::Error::other("no sync"),
        });
        Err(Failure::Failed)
    }

    // Counts a sync that ended so, where it failed.
    fn count(&mut self, end: Result<(), Failure>) -> Result<(), Failure>
        ensures same { result ≡ end }
        ensures calls { self.new.calls ≡ self.old.calls }
        ensures syncs { self.new.unsynced ≡ counting end self.old.unsynced }
    {
        if end.is_err() {
            self.unsynced = self.unsynced.saturating_add(1);
        }
        end
    }
}

#[tactic(auto, unfolding(folder_calls::specs::Calls::with_call))]
impl<R: System> Calls for FailingCalls<R> {
    type File = File;

    ghost log = { λ _. None };

    ghost told = { λ failing. failing.calls.last };

    ghost unsynced = { λ failing. failing.unsynced };

    ghost counted = { λ _. tt };

    fn failed_syncs(&self) -> u64 {
        self.unsynced
    }

    fn forget(&mut self) {
        self.calls.forget();
    }

    fn tell(&mut self, reason: Reason) {
        self.calls.tell(reason);
    }

    fn reason(&self) -> Option<Reason> {
        self.calls.reason()
    }

    fn look(&mut self, path: &str) -> Result<Kind, Failure> {
        self.calls.look(path)
    }

    fn list(&mut self, alloc: Global, path: &str) -> Result<NameList, Failure> {
        self.calls.list(alloc, path)
    }

    fn open(&mut self, path: &str) -> Result<Option<File>, Failure> {
        self.calls.open(path)
    }

    fn create(&mut self, path: &str) -> Result<Option<File>, Failure> {
        self.calls.create(path)
    }

    fn length(&mut self, file: &File) -> Result<u64, Failure> {
        self.calls.length(file)
    }

    fn read_exact_at(&mut self, file: &File, into: &mut [u8], at: u64) -> Result<(), Failure> {
        self.calls.read_exact_at(file, into, at)
    }

    fn read_ahead(&mut self, file: &File, at: u64, len: u64, left: u64) -> Option<Vec<u8>> {
        self.calls.read_ahead(file, at, len, left)
    }

    fn write_all_at(&mut self, file: &File, bytes: &[u8], at: u64) -> Result<(), Failure> {
        self.calls.write_all_at(file, bytes, at)
    }

    fn set_length(&mut self, file: &File, len: u64) -> Result<(), Failure> {
        self.calls.set_length(file, len)
    }

    fn sync(&mut self, file: &File) -> Result<(), Failure> {
        let end = match self.may_sync() {
            Ok(()) => self.calls.sync(file),
            Err(failure) => Err(failure),
        };
        self.count(end)
    }

    fn make_folder(&mut self, path: &str) -> Result<bool, Failure> {
        self.calls.make_folder(path)
    }

    fn sync_folder(&mut self, path: &str) -> Result<(), Failure> {
        let end = match self.may_sync() {
            Ok(()) => self.calls.sync_folder(path),
            Err(failure) => Err(failure),
        };
        self.count(end)
    }

    fn remove_file(&mut self, path: &str) -> Result<bool, Failure> {
        self.calls.remove_file(path)
    }

    fn remove_folder(&mut self, path: &str) -> Result<Removal, Failure> {
        self.calls.remove_folder(path)
    }

    fn rename(&mut self, from: &str, to: &str) -> Result<(), Failure> {
        self.calls.rename(from, to)
    }
}
