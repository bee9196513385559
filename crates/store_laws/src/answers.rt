//! Laws: what the answer of a step tells of the tree, where the step changes nothing.
ghost use Rattle.std.specs.Prelude.{◌≡◌, ℕ, List, Result};
ghost use Rattle.plfs_types.specs.declared.names.Path.{Path};
ghost use Rattle.store_api.specs.declared.tree.Room.{Room};
ghost use Rattle.store_api.specs.declared.tree.Tree.{Tree};
ghost use Rattle.store_api.specs.declared.step.Answer.{Answer};
ghost use Rattle.store_api.specs.declared.store.Trouble.{Trouble};
ghost use Rattle.store_api.specs.Step.{Step, Name, rooms, find_room, list_folder, length_of, read_at};
ghost use Rattle.store_api.specs.Effect.{effect};
ghost use Rattle.store_laws.specs.There.{AreNamesOf};
ghost use Rattle.store_laws.specs.Tells.{Tells};
ghost use Rattle.store_laws.specs.Outcomes.{IsLook, Looks};
ghost use Rattle.store_laws.specs.Says.{RoomsTell, FindTells, ListTells, LengthTells, ReadTells};

/// A law: whatever is told of a step that only looks, also at a fault, the tree is as before.
pub fn looks_change_nothing()
    ensures { (step : Step) (tree : Tree) (told : Result Answer Trouble) (after : Tree) → IsLook step → Tells step tree told after → after ≡ tree }
{}

/// A law: the names of the rooms are told, each once and in byte order.
pub fn rooms_tell()
    ensures { (tree : Tree) → Looks tree (RoomsTell tree) (effect tree rooms) }
{}

/// A law: the number of the first room of the name is told, or that no room has it.
pub fn finding_tells()
    ensures { (tree : Tree) (name : Name) → Looks tree (FindTells tree name) (effect tree (find_room name)) }
{}

/// A law: the names of the folder's entries are told, each once and in byte order, or that there is
/// no such room or folder.
pub fn listing_tells()
    ensures { (tree : Tree) (n : ℕ) (folder : Name) → Looks tree (ListTells tree n folder) (effect tree (list_folder n folder)) }
{}

/// A law: the number of a file's bytes is told, or that there is no such room, folder or file.
pub fn length_tells()
    ensures { (tree : Tree) (n : ℕ) (path : Path) → Looks tree (LengthTells tree n path) (effect tree (length_of n path.folder path.file)) }
{}

/// A law: a file's bytes from the place on are told, at most `len`, or that there is no such room,
/// folder or file.
pub fn reading_tells()
    ensures { (tree : Tree) (n : ℕ) (path : Path) (at len : ℕ) → Looks tree (ReadTells tree n path at len) (effect tree (read_at n path.folder path.file at len)) }
{}

/// A law: the entries of a folder determine the names that are told of it.
pub fn listings_are_one()
    ensures { (room : Room) (folder : Name) (names others : List Name) → AreNamesOf room folder names → AreNamesOf room folder others → names ≡ others }
{}
