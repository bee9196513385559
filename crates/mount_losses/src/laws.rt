//! Laws of losses of power.
ghost use Rattle.std.specs.Prelude.{◌≡◌, ◌≤◌, ℕ, List, ◌∷◌, length, take, Option, Some, slice_get};
ghost use Rattle.container_layout.specs.declared.items.Item.TheVariants.{Index};
ghost use Rattle.store_api.specs.declared.tree.Room.{Room};
ghost use Rattle.store_api.specs.declared.tree.Tree.{Tree};
ghost use Rattle.store_api.specs.Acts.{Stored};
ghost use Rattle.store_api.specs.Loss.{Loses};
ghost use Rattle.mount_model.specs.declared.call.Ask.{Ask};
ghost use Rattle.mount_model.specs.declared.call.Call.TheVariants.{SyncIndex};
ghost use Rattle.mount_model.specs.declared.reply.Reply.TheVariants.{Synced};
ghost use Rattle.mount_model.specs.declared.row.Making.{Making};
ghost use Rattle.mount_model.specs.declared.row.Row.{Row};
ghost use Rattle.mount_model.specs.Paths.{installed_item};
ghost use Rattle.mount_model.specs.State.{State};
ghost use Rattle.mount_model.specs.Step.{IsStep};
ghost use Rattle.mount_model.specs.History.{Event, told_tree_after};
ghost use Rattle.mount_model.specs.Mounting.{IsMounted};
ghost use Rattle.mount_model.specs.Table.{row_of};
ghost use Rattle.mount_sound.specs.Entries.{logged};
ghost use Rattle.mount_sound.specs.Ledger.{Ledger, entries_in};
ghost use Rattle.mount_sound.specs.Installed.{IsInstalled};
ghost use Rattle.mount_sound.specs.Items.{HasItem};
ghost use Rattle.mount_sound.specs.There.{landed_in};
ghost use Rattle.mount_sound.specs.Owed.{May, IsLawful};
ghost use Rattle.mount_sound.specs.Sound.{IsSoundFor, IsSoundTree};
ghost use Rattle.mount_sound.specs.Keeping.{kept_in, safe_of};
ghost use Rattle.mount_losses.specs.Losing.{HasKept, LosesUnkept};

/// What a loss of power leaves of a sound tree is sound, for the first of its entries, and has those that were kept
/// with their bytes.
pub fn a_lost_tree_is_sound()
    ensures { (tree lost : Tree) → Loses tree lost → (sound : IsSoundTree tree) → LosesUnkept sound.issued tree lost }
{}

/// So it is with the tree that a sound mount's store tells, at every moment: after a call, a fault or a stop.
pub fn a_lost_mount_is_sound()
    ensures { (issued : Ledger) (state : State) → IsSoundFor issued state → (tree lost : Tree) → state.store.tree ≡ Some tree → Loses tree lost → LosesUnkept issued tree lost }
{}

/// What the marks of a writer of the table tell is kept: the entries that it synced, as far as it had synced their bytes.
pub fn what_was_synced_is_kept()
    ensures { (issued : Ledger) (state : State) → IsSoundFor issued state → (tree : Tree) → state.store.tree ≡ Some tree
        → (writer : ℕ) (row : Row) (room : Room) → row_of writer state.table.writers ≡ Some row → slice_get tree.rooms row.room ≡ Some room
        → safe_of row (issued row.room writer) ≤ kept_in room row.host writer }
{}

/// Along a lawful history of a sound mount no index dropping keeps fewer entries with their bytes, whatever the store answers
/// and whoever breaks off.
pub fn what_is_kept_stays_kept()
    ensures { (before : Ledger) (start : State) (events : List Event) → IsLawful start events → IsSoundFor before start
        → (tree after : Tree) → start.store.tree ≡ Some tree → told_tree_after start events ≡ Some after
        → (number : ℕ) (room new : Room) → slice_get tree.rooms number ≡ Some room → slice_get after.rooms number ≡ Some new
        → (host writer : ℕ) (bytes : List ℕ) → HasItem room (Index host writer) bytes → kept_in room host writer ≤ kept_in new host writer }
{}

/// So a loss of power at whatever later moment leaves the entries that were kept with their bytes at an earlier one.
pub fn kept_entries_survive()
    ensures { (before : Ledger) (start : State) (events : List Event) → IsLawful start events → IsSoundFor before start
        → (tree after lost : Tree) → start.store.tree ≡ Some tree → told_tree_after start events ≡ Some after → Loses after lost
        → HasKept tree lost }
{}

/// A loss of power at whatever moment of a mount leaves the entries that were kept with their bytes in the tree that it
/// was opened over.
pub fn what_was_kept_at_mounting_survives()
    ensures { (serial : ℕ) (times : Option (List ℕ)) (opened : Stored) (start : State) (tree : Tree) → IsMounted serial times opened start → opened.tree ≡ Some tree → IsSoundTree tree
        → (events : List Event) → IsLawful start events
        → (after lost : Tree) → told_tree_after start events ≡ Some after → Loses after lost
        → HasKept tree lost }
{}

/// Where the bytes of a writer's landed entries were synced, a sync of its index dropping tells a number of entries that
/// every loss of power leaves, at whatever later moment.
pub fn synced_entries_survive()
    ensures { (before : Ledger) (start next : State) (caller writer n : ℕ) (ask : Ask) (row : Row) → IsSoundFor before start
        → row_of writer start.table.writers ≡ Some row
        → logged (take row.landed (entries_in (before row.room writer))) ≤ row.log_mark
        → ask.call ≡ SyncIndex writer → May start caller ask → IsStep start caller ask (Synced n) next
        → (later : List Event) → IsLawful next later
        → (after lost : Tree) → told_tree_after next later ≡ Some after → Loses after lost
        → (left : Room) → slice_get lost.rooms row.room ≡ Some left → n ≤ landed_in left row.host writer }
{}

/// A loss of power at whatever moment of a sound mount leaves each flattened index, and each packed one, as it is, byte for
/// byte, and right for what is left of its room.
pub fn installed_indices_survive()
    ensures { (issued : Ledger) (state : State) → IsSoundFor issued state → (tree lost : Tree) → state.store.tree ≡ Some tree → Loses tree lost
        → (makes : Making) (number id : ℕ) (room : Room) (bytes : List ℕ) → slice_get tree.rooms number ≡ Some room → HasItem room (installed_item makes id) bytes → IsInstalled lost number makes id bytes }
{}
