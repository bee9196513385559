//! Laws of the table of items.
ghost use Rattle.std.specs.Prelude.{◌≡◌, ◌≤◌, length};
ghost use Rattle.plfs_types.specs.declared.names.Path.{Path};
ghost use Rattle.container_layout.specs.declared.items.Item.{Item};
ghost use Rattle.container_layout.specs.Items.{IsItem};
ghost use Rattle.container_layout.specs.Paths.{path_of, IsAt};

/// A path is the printed form of at most one item: two items with one path are one item.
pub fn one_path()
    ensures { (path : Path) (a b : Item) → IsAt path a → IsAt path b → a ≡ b }
{}

/// Folders and file names of items are at most 96 bytes.
pub fn short_names()
    ensures { (item : Item) → IsItem item → (length (path_of item).folder ≤ 96) × (length (path_of item).file ≤ 96) }
{}
