//! Folders that are no ROOT, though they can be locked: a container, what lies in one, and the folder of a ROOT's marks.
//!
//! A run over such a folder would leave marks there, and readers of the container would be told damage from then on.
ghost use Rattle.std.specs.Prelude.{◌≡◌, ◌<◌, ◌⊎◌, ◌++◌, ◌↔◌, List, ℕ, Option, Ok, Err, IsTrue, IfErr, IfOk, IfSome, IfNone, OnOk, codes, get_or, length, map, not, string_bytes, take};
ghost use Rattle.std.specs.Fs.{file_type, metadata_len};
ghost use Rattle.std.specs.IoError.{error_kind};
ghost use Rattle.system_edge.specs.Roots.{AreFreeBefore, AreMarks, AreMarkedOnce, EndsInMarks, HasNoPath, IsAbsence, IsAccess, IsAloneDenial, folder_at, IsContainer, IsDeniedFolder, IsFree, IsFreeFolder, IsNoContainer, IsOfMarks, IsRightDenial, IsUnseenItem, Named, Seen, Sees, SeesNone, Shows};

use crate::lock::{Denial, Denied};
use std::alloc::Global;
use std::fs::{self, Metadata};
use std::io::{self, ErrorKind};

/// Who looks at what stands at a path.
pub(crate) trait Looks {
    /// What is seen at each path, where it tells that.
    ghost told: { Self → List ℕ → Option Seen };

    /// The path from the top of each folder, where it tells that.
    ghost named: { Self → List ℕ → Option Named };

    /// Looks at what stands at this path, and follows no link that stands there.
    fn look(&self, path: &str) -> io::Result<Metadata>
        ensures { IfSome (told self.now path.now) (λ seen. result ≡ seen) };

    /// The path of this folder from the top. There may always be none for want of memory.
    fn path_of(&self, folder: &str) -> io::Result<String>
        ensures path { IfOk result (λ path. IfSome (named self.now folder.now) (λ seen. seen ≡ Ok (string_bytes path))) }
        ensures none { IfErr result (λ error. IfSome (named self.now folder.now) (HasNoPath error)) };
}

/// The system itself. It tells nothing, and what it says is trusted.
#[derive(Clone, Copy)]
pub(crate) struct SystemLooks {
    pub(crate) rt: HostRuntime,
}

impl Looks for SystemLooks {
    ghost use Rattle.std.specs.Prelude.{None};

    ghost told = { λ _ _. None };

    ghost named = { λ _ _. None };

    fn look(&self, path: &str) -> io::Result<Metadata> {
        fs::symlink_metadata(&self.rt, path)
    }

    fn path_of(&self, folder: &str) -> io::Result<String> {
        let path = fs::canonicalize(&self.rt, folder)?;
        Ok(String::from_str(self.rt.alloc(), path.as_str())?)
    }
}

// Whether nothing is taken to stand at a path, since a look at it failed so.
fn is_absence(kind: ErrorKind) -> bool
    ensures { IsTrue result ↔ IsAbsence kind }
{
    matches!(
        kind,
        ErrorKind::NotFound
            | ErrorKind::NotADirectory
            | ErrorKind::PermissionDenied
            | ErrorKind::InvalidFilename
    )
}

// Whether what stands under the name `access` makes its folder a container: a plain file without bytes.
fn is_access(found: &Metadata) -> bool
    ensures { IsTrue result ↔ IsAccess found.now }
{
    found.is_file() && found.len() == 0
}

// Whether what stands under the name of the folder of marks is a folder.
fn are_marks(found: &Metadata) -> bool
    ensures { IsTrue result ↔ AreMarks found.now }
{
    found.is_dir()
}

// Whether the path's last part is the name of the folder of marks.
fn ends_in_marks(path: &str) -> bool
    ensures { IsTrue result ↔ EndsInMarks path.now }
{
    path.ends_with("/.plfs")
}

// Whether the folder of marks stands there, or what stands there lies in it.
fn is_of_marks(path: &str) -> bool
    ensures { IsTrue result ↔ IsOfMarks path.now }
{
    if ends_in_marks(path) {
        return true;
    }
    for place in 0..path.len() {
        if path.as_bytes()[place] == b'/' && ends_in_marks(&path[..place]) {
            return true;
        }
    }
    false
}

// What can't be looked at, for this reason.
fn unseen(error: io::Error) -> Denial
    ensures { (result ≡ Denial.NoMemory) ⊎ (result ≡ Denial.Unseen error) }
{
    if error.kind() == ErrorKind::OutOfMemory {
        return Denial::NoMemory;
    }
    Denial::Unseen { error }
}

// What stands in the folder under this name, a slash before it; None where nothing is there, or nobody may look.
fn item_of<L: Looks>(
    alloc: Global,
    looks: &L,
    folder: &str,
    name: &str,
) -> Result<Option<Metadata>, Denial>
    ensures found { IfOk result (λ item. IfSome (L.told looks.now (folder.now ++ name.now)) (Shows item)) }
    ensures unseen { IfErr result (IsUnseenItem (L.told looks.now (folder.now ++ name.now))) }
{
    let Ok(mut path) = String::from_str(alloc, folder) else {
        return Err(Denial::NoMemory);
    };
    if path.push_str(name).is_err() {
        return Err(Denial::NoMemory);
    }
    match looks.look(path.as_str()) {
        Ok(found) => Ok(Some(found)),
        Err(error) if is_absence(error.kind()) => Ok(None),
        Err(error) => Err(unseen(error)),
    }
}

fn is_container<L: Looks>(alloc: Global, looks: &L, folder: &str) -> Result<bool, Denial>
    ensures container { IfOk result (λ is. IsTrue is → IsContainer (L.told looks.now) folder.now) }
    ensures none { IfOk result (λ is. IsTrue (not is) → IsNoContainer (L.told looks.now) folder.now) }
    ensures unseen { IfErr result (IsUnseenItem (L.told looks.now (folder.now ++ codes "/access"))) }
{
    Ok(match item_of(alloc, looks, folder, "/access")? {
        Some(found) => is_access(&found),
        None => false,
    })
}

fn has_marks<L: Looks>(alloc: Global, looks: &L, folder: &str) -> Result<bool, Denial>
    ensures marks { IfOk result (λ has. IsTrue has → IfSome (L.told looks.now (folder.now ++ codes "/.plfs")) (Sees AreMarks)) }
    ensures none { IfOk result (λ has. IsTrue (not has) → IfSome (L.told looks.now (folder.now ++ codes "/.plfs")) (SeesNone AreMarks)) }
    ensures unseen { IfErr result (IsUnseenItem (L.told looks.now (folder.now ++ codes "/.plfs"))) }
{
    Ok(match item_of(alloc, looks, folder, "/.plfs")? {
        Some(found) => are_marks(&found),
        None => false,
    })
}

// Whether the path has a slash at this place, and what stands before that is a container.
fn is_held_at<L: Looks>(alloc: Global, looks: &L, path: &str, place: usize) -> Result<bool, Denial>
    requires { place < length path.now }
    ensures held { IfOk result (λ is. IsTrue is → (get_or path.now place 0 ≡ 47) × IsContainer (L.told looks.now) (take place path.now)) }
    ensures apart { IfOk result (λ is. IsTrue (not is) → get_or path.now place 0 ≡ 47 → IsNoContainer (L.told looks.now) (take place path.now)) }
    ensures unseen { IfErr result (λ why. (get_or path.now place 0 ≡ 47) × IsUnseenItem (L.told looks.now (take place path.now ++ codes "/access")) why) }
{
    if path.as_bytes()[place] != b'/' {
        return Ok(false);
    }
    is_container(alloc, looks, &path[..place])
}

// Refuses a container, a folder of marks, and what lies in one, by its path from the top.
fn check_path<L: Looks>(alloc: Global, looks: &L, path: &str) -> Result<(), Denial>
    ensures free { OnOk result (IsFree (L.told looks.now) path.now) }
    ensures denied { IfErr result (IsRightDenial (L.told looks.now) path.now) }
{
    if is_of_marks(path) {
        return Err(Denial::Marks);
    }
    match is_container(alloc, looks, path) {
        Ok(false) => {}
        Ok(true) => return Err(Denial::Container),
        Err(why) => return Err(why),
    }
    for place in 0..path.len() {
        match is_held_at(alloc, looks, path, place) {
            Ok(false) => {}
            Ok(true) => return Err(Denial::InContainer),
            Err(why) => return Err(why),
        }
    }
    Ok(())
}

// Refuses such a folder. One that has no path from the top passes: it can't be opened either.
#[tactic(auto, using(crate::proofs::FolderPaths::free_so, crate::proofs::FolderPaths::pathless_so, crate::proofs::FolderPaths::denied_named, crate::proofs::FolderPaths::starved_named))]
fn check_folder<L: Looks>(alloc: Global, looks: &L, folder: &str) -> Result<(), Denial>
    ensures free { OnOk result (IsFreeFolder (L.named looks.now) (L.told looks.now) folder.now) }
    ensures denied { IfErr result (IsDeniedFolder (L.named looks.now) (L.told looks.now) folder.now) }
{
    match looks.path_of(folder) {
        Ok(path) => check_path(alloc, looks, path.as_str()),
        Err(error) if error.kind() == ErrorKind::OutOfMemory => Err(Denial::NoMemory),
        Err(_) => Ok(()),
    }
}

// The folder at this place.
fn folder_in<'a>(folders: &[&'a str], place: usize) -> &'a str
    requires { place < length folders.now }
    ensures { result.now ≡ folder_at (map (λ folder. folder.now) folders.now) place }
{
    folders[place]
}

/// The first of these folders that is a container, lies in one, or has the marks of a ROOT. No folder is touched.
#[tactic(auto, using(crate::proofs::FolderPaths::free_on))]
pub(crate) fn first_unfit<L: Looks>(alloc: Global, looks: &L, folders: &[&str]) -> Option<Denied>
    ensures place { IfSome result (λ denied. denied.place < length folders.now) }
    ensures why { IfSome result (λ denied. IsDeniedFolder (L.named looks.now) (L.told looks.now) (folder_at (map (λ folder. folder.now) folders.now) denied.place) denied.why) }
    ensures before { IfSome result (λ denied. AreFreeBefore (L.named looks.now) (L.told looks.now) (map (λ folder. folder.now) folders.now) denied.place) }
    ensures none { IfNone result (AreFreeBefore (L.named looks.now) (L.told looks.now) (map (λ folder. folder.now) folders.now) (length folders.now)) }
{
    for place in 0..folders.len() {
        if let Err(why) = check_folder(alloc, looks, folder_in(folders, place)) {
            return Some(Denied { place, why });
        }
    }
    None
}

/// The first of these folders that has marks of its own behind one that has some. All marks of several folders lie in the first one.
#[tactic(auto, using(crate::proofs::FolderPaths::first_marked, crate::proofs::FolderPaths::another_unmarked, crate::proofs::FolderPaths::alone_unseen))]
pub(crate) fn first_marked_alone<L: Looks>(
    alloc: Global,
    looks: &L,
    folders: &[&str],
) -> Option<Denied>
    ensures place { IfSome result (λ denied. denied.place < length folders.now) }
    ensures why { IfSome result (λ denied. IsAloneDenial (L.told looks.now) (map (λ folder. folder.now) folders.now) denied.place denied.why) }
    ensures none { IfNone result (AreMarkedOnce (L.told looks.now) (map (λ folder. folder.now) folders.now) (length folders.now)) }
{
    let mut is_marked = false;
    for place in 0..folders.len() {
        match has_marks(alloc, looks, folder_in(folders, place)) {
            Ok(false) => {}
            Ok(true) if is_marked => {
                let why = Denial::UsedAlone;
                return Some(Denied { place, why });
            }
            Ok(true) => is_marked = true,
            Err(why) => return Some(Denied { place, why }),
        }
    }
    None
}
