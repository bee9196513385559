//! Laws: a step that changes a tree changes one thing in it, or leaves it and says why.
ghost use Rattle.std.specs.Prelude.{ℕ, List, length};
ghost use Rattle.plfs_types.specs.declared.names.Path.{Path};
ghost use Rattle.store_api.specs.declared.tree.Tree.{Tree};
ghost use Rattle.store_api.specs.declared.step.Answer.TheVariants.{Made, Number};
ghost use Rattle.store_api.specs.Step.{Name, make_room, rename_room, make_folder, remove_folder, create, remove, replace, write_at, cut, sync};
ghost use Rattle.store_api.specs.Effect.{effect};
ghost use Rattle.store_laws.specs.Outcomes.{ChangesOrStays};
ghost use Rattle.store_laws.specs.Changes.{Created, Wrote, WasCut, WasSynced, Removed, Replaced, FolderMade, FolderRemoved, RoomMade, RoomRenamed};
ghost use Rattle.store_laws.specs.Says.{WhyNoRoomMade, WhyNotRenamed, WhyNoFolderMade, WhyNoFolderRemoved, WhyNotCreated, WhyNoFile, WhyNotWritten};

/// A law: a room is added behind the others, with its folders and empty top files, or one has the name.
pub fn adds_one_room()
    ensures { (tree : Tree) (name : Name) (folders files : List Name) → ChangesOrStays tree (Number (length tree.rooms)) (RoomMade tree name folders files) (WhyNoRoomMade tree name) (effect tree (make_room name folders files)) }
{}

/// A law: a room gets a name that none had, or there is no such room, or one has the name.
pub fn renames_one_room()
    ensures { (tree : Tree) (n : ℕ) (to : Name) → ChangesOrStays tree Made (RoomRenamed tree n to) (WhyNotRenamed tree n to) (effect tree (rename_room n to)) }
{}

/// A law: a folder is made and nothing else changes, or there is no such room, or the folder is there.
pub fn makes_one_folder()
    ensures { (tree : Tree) (n : ℕ) (folder : Name) → ChangesOrStays tree Made (FolderMade tree n folder) (WhyNoFolderMade tree n folder) (effect tree (make_folder n folder)) }
{}

/// A law: a folder that had no entries is removed and nothing else changes, or it isn't there, or it
/// has entries, of which the answer gives the least.
pub fn removes_one_empty_folder()
    ensures { (tree : Tree) (n : ℕ) (folder : Name) → ChangesOrStays tree Made (FolderRemoved tree n folder) (WhyNoFolderRemoved tree n folder) (effect tree (remove_folder n folder)) }
{}

/// A law: an empty file is made in a folder that is there and nothing else changes, or there is no
/// such room or folder, or the file is there.
pub fn creates_one_file()
    ensures { (tree : Tree) (n : ℕ) (path : Path) → ChangesOrStays tree Made (Created tree n path) (WhyNotCreated tree n path) (effect tree (create n path.folder path.file)) }
{}

/// A law: a file is removed and nothing else changes, or it isn't there.
pub fn removes_one_file()
    ensures { (tree : Tree) (n : ℕ) (path : Path) → ChangesOrStays tree Made (Removed tree n path) (WhyNoFile tree n path) (effect tree (remove n path.folder path.file)) }
{}

/// A law: a file gets another name, the file that had it is gone, and nothing else changes, or the
/// file isn't there.
pub fn moves_one_file()
    ensures { (tree : Tree) (n : ℕ) (path : Path) (to : Name) → ChangesOrStays tree Made (Replaced tree n path to) (WhyNoFile tree n path) (effect tree (replace n path.folder path.file to)) }
{}

/// A law: bytes are written over those of a file and nothing else changes, or the file isn't there,
/// or ends before the place.
pub fn writes_one_file()
    ensures { (tree : Tree) (n : ℕ) (path : Path) (at : ℕ) (bytes : List ℕ) → ChangesOrStays tree Made (Wrote tree n path at bytes) (WhyNotWritten tree n path at) (effect tree (write_at n path.folder path.file at bytes)) }
{}

/// A law: a file is cut and nothing else changes, or it isn't there, or is shorter.
pub fn cuts_one_file()
    ensures { (tree : Tree) (n : ℕ) (path : Path) (len : ℕ) → ChangesOrStays tree Made (WasCut tree n path len) (WhyNotWritten tree n path len) (effect tree (cut n path.folder path.file len)) }
{}

/// A law: all bytes of a file are kept from then on and nothing else changes, or the file isn't there.
pub fn syncs_one_file()
    ensures { (tree : Tree) (n : ℕ) (path : Path) → ChangesOrStays tree Made (WasSynced tree n path) (WhyNoFile tree n path) (effect tree (sync n path.folder path.file)) }
{}
