//! Laws of flattened indices, and of packed ones.
ghost use Rattle.std.specs.Prelude.{◌≡◌, ◌≤◌, ℕ, List, Some, slice_get};
ghost use Rattle.plfs_types.specs.declared.limits.TheConstants.{MAX_PACKED};
ghost use Rattle.container_layout.specs.declared.items.Item.TheVariants.{Index, Packed};
ghost use Rattle.store_api.specs.declared.tree.Room.{Room};
ghost use Rattle.store_api.specs.declared.tree.Tree.{Tree};
ghost use Rattle.mount_model.specs.declared.call.Ask.{Ask};
ghost use Rattle.mount_model.specs.declared.call.Call.TheVariants.{InstallFlat};
ghost use Rattle.mount_model.specs.declared.reply.Reply.TheVariants.{Done};
ghost use Rattle.mount_model.specs.History.{Event, told_tree_after};
ghost use Rattle.mount_model.specs.State.{State};
ghost use Rattle.mount_model.specs.declared.row.Making.{Making};
ghost use Rattle.mount_model.specs.Paths.{installed_item};
ghost use Rattle.mount_model.specs.Step.{IsStep};
ghost use Rattle.mount_sound.specs.Installed.{HasInstalled, IsInstalled};
ghost use Rattle.mount_sound.specs.Flats.{IsRightPack};
ghost use Rattle.mount_sound.specs.Items.{HasItem, HasMeta};
ghost use Rattle.mount_sound.specs.Ledger.{Ledger};
ghost use Rattle.mount_sound.specs.Owed.{IsLawful};
ghost use Rattle.mount_sound.specs.Sound.{IsSoundFor};
ghost use Rattle.mount_sound.specs.There.{landed_in};

/// What a sound mount installs is a flattened index that is right for its room, whatever landed since it was gathered, or a
/// packed index of all that its writer landed, and no loss of power takes a byte of it.
pub fn what_is_installed_is_right()
    ensures { (before : Ledger) (old new : State) (caller flat : ℕ) (ask : Ask) → IsSoundFor before old → ask.call ≡ InstallFlat flat → IsStep old caller ask Done new → HasInstalled old caller flat new }
{}

/// Along a lawful history of a sound mount a flattened index stays as it is, byte for byte, and so does a packed one, also
/// where it is installed again. It stays right for its room, and no loss of power takes a byte of it.
pub fn installed_indices_stay()
    ensures { (before : Ledger) (start : State) (events : List Event) → IsLawful start events → IsSoundFor before start
        → (tree after : Tree) → start.store.tree ≡ Some tree → told_tree_after start events ≡ Some after
        → (makes : Making) (number id : ℕ) (room : Room) (bytes : List ℕ) → slice_get tree.rooms number ≡ Some room → HasItem room (installed_item makes id) bytes → IsInstalled after number makes id bytes }
{}

/// A writer has at most one packed index in a room of a sound mount.
pub fn a_writer_has_one_packed_index()
    ensures { (before : Ledger) (state : State) (s : IsSoundFor before state) (number : ℕ) (room : Room) → slice_get s.shape.tree.rooms number ≡ Some room
        → (host other writer : ℕ) (some more : List ℕ) → HasItem room (Packed host writer) some → HasItem room (Packed other writer) more → (host ≡ other) × (some ≡ more) }
{}

/// What is owed where a packed index is put can be met: a writer that has left, with its index dropping and its metadata
/// dropping, and 1 to `MAX_PACKED` entries that landed, has a packed index that is right for its room.
pub fn a_left_writer_can_be_packed()
    ensures { (before : Ledger) (state : State) (s : IsSoundFor before state) (number : ℕ) (room : Room) → slice_get s.shape.tree.rooms number ≡ Some room
        → (host writer : ℕ) (content : List ℕ) → HasItem room (Index host writer) content → HasMeta room host writer → 1 ≤ landed_in room host writer → landed_in room host writer ≤ MAX_PACKED
        → (bytes : List ℕ) × IsRightPack room host writer bytes }
{}
