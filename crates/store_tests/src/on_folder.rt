//! A store on a folder of the system, and what is made beside it there.
use crate::acts::{Act, act_on};
use crate::failing::FailingCalls;
use crate::playing::{Row, Site, holds};
use crate::telling::{count, note};
use folder_calls::SystemCalls;
use plfs_types::{NoMemory, Word};
use std::fs::File;
use std::os::unix::fs::symlink;
use std::process::Abort;
use std::test::Fail;
use std::{fs, mem};
use store_folder::{FolderStore, StoreByCalls};
use test_lines::Line;

type FailingStore = StoreByCalls<FailingCalls<HostRuntime>, File>;

#[derive(Drop)]
struct OnFolder {
    rt: HostRuntime,
    store: FailingStore,
}

/// A store on this folder, which need not be there.
pub(crate) fn open(rt: HostRuntime, root: &str) -> Result<FolderStore<HostRuntime>, NoMemory> {
    FolderStore::open(rt, rt.alloc(), &Word::copy(rt.alloc(), root)?)
}

// The same, whose syncs can fail.
fn open_failing(rt: HostRuntime, root: &str) -> Result<FailingStore, NoMemory> {
    let calls = FailingCalls {
        rt,
        calls: SystemCalls::new(rt),
        unsynced: 0,
    };
    StoreByCalls::by(calls, rt.alloc(), &Word::copy(rt.alloc(), root)?)
}

// What stands at the path, where links are followed.
fn kind_of(rt: HostRuntime, path: &str) -> &'static str {
    match (fs::exists(&rt, path), fs::metadata(&rt, path)) {
        (Ok(false), _) => "nothing",
        (_, Ok(found)) => if found.is_dir() { "folder" } else { "file" },
        _ => "not told",
    }
}

impl OnFolder {
    fn open(&mut self, root: &str, line: &mut Line) {
        match open_failing(self.rt, root) {
            Ok(store) => drop(mem::replace(&mut self.store, store)),
            Err(NoMemory) => note(line, false),
        }
    }

    fn cause(&self, line: &mut Line) {
        if let Some(cause) = self.store.cause() {
            match format!(in self.rt.alloc(); "{cause}") {
                Ok(text) => line.push(text.as_str()),
                Err(_) => note(line, false),
            }
        }
    }

    fn read(&self, path: &str, line: &mut Line) {
        match fs::read(&self.rt, path) {
            Ok(bytes) => line.letters("", bytes.as_slice()),
            Err(_) => note(line, false),
        }
    }
}

impl Site for OnFolder {
    fn play(&mut self, act: Act, line: &mut Line) {
        match act {
            Act::MakeDir(path) => note(line, fs::create_dir(&self.rt, path).is_ok()),
            Act::RemoveDir(path) => note(line, fs::remove_dir_all(&self.rt, path).is_ok()),
            Act::WriteFile(path, text) => {
                note(line, fs::write(&self.rt, path, text.as_bytes()).is_ok())
            }
            Act::RemoveFile(path) => note(line, fs::remove_file(&self.rt, path).is_ok()),
            Act::ReadFile(path) => self.read(path, line),
            Act::Link(to, at) => note(line, symlink(&self.rt, to, at).is_ok()),
            Act::Kind(path) => line.push(kind_of(self.rt, path)),
            Act::Open(root) => self.open(root, line),
            Act::Cause => self.cause(line),
            Act::Counts => {
                count(line, "", self.store.acts(), " acts, ");
                count(line, "", self.store.faults(), " faults");
            }
            _ => act_on(&mut self.store, act, line),
        }
    }
}

/// The rows of each of the tables hold of a store on the folder that is named with them, which is empty, and is gone at
/// the end.
pub(crate) fn on_folders<R: Abort>(
    abort: &R,
    rt: HostRuntime,
    tables: &[(&str, &[Row])],
) -> Result<(), Fail> {
    for (root, rows) in tables {
        let _ = fs::remove_dir_all(&rt, root);
        fs::create_dir(&rt, root)?;
        let store = open_failing(rt, root)?;
        let mut site = OnFolder { rt, store };
        holds(abort, rt.alloc(), &mut site, rows);
        drop(site);
        fs::remove_dir_all(&rt, root)?;
    }
    Ok(())
}
