//! ROOT as several folders, whose containers are seen as those of one.
ghost use Rattle.std.specs.Prelude.{◌≡◌, ◌==◌, length, map, slice_get, position, is_some, IfOk};
ghost use Rattle.std.specs.List.{slice_split, list_all};
ghost use Rattle.system_edge.specs.Folders.{has_name, has_failed, failed_place};
ghost use Rattle.store_folder.specs.Stored.{root_of, stored_of};

use plfs_types::{NoMemory, Word};
use spread_store::StoreList;
use std::alloc::{AllocError, Global};
use std::sync::Wait;
use std::thread::Threads;
use store_folder::{FolderStore, ReadAhead, open_limit};

/// What stands between the folders in ROOT.
const BETWEEN: char = ':';

/// The most folders that ROOT can have.
pub const MOST_FOLDERS: usize = 8;

/// The stores on several folders.
pub type Stores = StoreList<FolderStore<HostRuntime>>;

/// The folders of ROOT, in order.
pub fn folders_of(alloc: Global, root: &Word) -> Result<Vec<&str>, AllocError>
    ensures { IfOk result (λ folders. map (λ folder. folder.now) folders.items ≡ slice_split (λ b. b == 58) root.now) }
{
    root.as_str().split(BETWEEN).collect(alloc)
}

/// Whether each folder has a name.
pub fn are_named(folders: &[&str]) -> bool
    ensures { result ≡ list_all (λ folder. has_name folder.now) folders.now }
{
    folders.iter().all(|folder| !folder.is_empty())
}

/// A store on each of the folders, in their order. No folder is touched. With a handle a thread reads ahead of each, where one is had.
pub fn stores_of<H: Threads + Wait + Copy + Send + 'static>(
    rt: HostRuntime,
    folders: &[&str],
    ahead: Option<H>,
) -> Result<Stores, NoMemory>
    ensures each { IfOk result (λ stores. map (λ store. root_of store) stores ≡ map (λ folder. folder.now) folders.now) }
    ensures count { IfOk result (λ stores. length stores ≡ length folders.now) }
{
    let limit = open_limit(&rt);
    let mut stores = StoreList::new(rt.alloc());
    for folder in folders {
        let mut store = store_on(rt, folder, limit, folders.len() as u64)?;
        read_ahead(rt, &mut store, ahead);
        stores.push(store)?;
    }
    Ok(stores)
}

fn store_on(
    rt: HostRuntime,
    folder: &str,
    limit: u64,
    stores: u64,
) -> Result<FolderStore<HostRuntime>, NoMemory>
    ensures root { IfOk result (λ store. root_of store ≡ folder.now) }
{
    let folder = Word::copy(rt.alloc(), folder)?;
    FolderStore::one_of(rt, rt.alloc(), &folder, limit, stores)
}

/// With a handle, a thread reads ahead of the store from now on, where one is had. That counts for time alone.
pub fn read_ahead<H: Threads + Wait + Copy + Send + 'static>(
    rt: HostRuntime,
    store: &mut FolderStore<HostRuntime>,
    ahead: Option<H>,
)
    ensures root { root_of store.new ≡ root_of store.old }
    ensures counts { stored_of store.new ≡ stored_of store.old }
{
    let Some(handle) = ahead else {
        return;
    };
    if let Ok(shared) = ReadAhead::start(handle, rt.alloc()) {
        store.read_ahead_by(shared);
    }
}

// Whether the store at this place has failed.
fn has_failed(stores: &Stores, place: usize) -> bool
    ensures { result ≡ has_failed (slice_get stores.now place) }
{
    match stores.as_slice().get(place) {
        Some(store) => store.cause().is_some(),
        None => false,
    }
}

// The place of the first store that has failed.
fn first_failed(stores: &Stores) -> Option<usize>
    ensures { result ≡ position (λ store. is_some store.cause) stores.now }
{
    stores
        .as_slice()
        .iter()
        .position(|store| store.cause().is_some())
}

/// The place of the store that failed: that of the last step where it did, else the first that did.
pub fn failed(stores: &Stores, last: usize) -> usize
    ensures { result ≡ failed_place stores.now last }
{
    if has_failed(stores, last) {
        return last;
    }
    match first_failed(stores) {
        None => 0,
        Some(place) => place,
    }
}
