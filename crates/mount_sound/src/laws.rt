//! Laws of soundness.
ghost use Rattle.std.specs.Prelude.{◌≡◌, ◌≤◌, ℕ, List, [], length, min, take, Option, Some, slice_get};
ghost use Rattle.container_layout.specs.declared.items.Item.TheVariants.{Index};
ghost use Rattle.store_api.specs.declared.tree.Room.{Room};
ghost use Rattle.store_api.specs.declared.tree.Tree.{Tree};
ghost use Rattle.store_api.specs.Acts.{Stored};
ghost use Rattle.mount_model.specs.declared.call.Ask.{Ask};
ghost use Rattle.mount_model.specs.declared.reply.Reply.{Reply};
ghost use Rattle.mount_model.specs.State.{State};
ghost use Rattle.mount_model.specs.Step.{IsStep};
ghost use Rattle.mount_model.specs.declared.mount_trouble.MountTrouble.{MountTrouble};
ghost use Rattle.mount_model.specs.Failing.{FailsToMount};
ghost use Rattle.mount_model.specs.Mounting.{IsMounted};
ghost use Rattle.mount_model.specs.History.{Event, IsLegal, state_after, told_tree_after};
ghost use Rattle.mount_sound.specs.Ledger.{Ledger, entries_in};
ghost use Rattle.mount_sound.specs.Items.{HasItem};
ghost use Rattle.mount_sound.specs.Sound.{IsSoundFor, IsSoundTree, IsFine};
ghost use Rattle.mount_sound.specs.Landed.{HasLanded, whole};
ghost use Rattle.mount_sound.specs.There.{landed_entries, landed_in};
ghost use Rattle.mount_sound.specs.Growing.{IssuesMore, ItemsStay};
ghost use Rattle.mount_sound.specs.Issued.{issued, issued_after};
ghost use Rattle.mount_sound.specs.Owed.{May, AreAllowed, IsLawful};

/// A tree with no rooms is sound.
pub fn an_empty_tree_is_sound()
    ensures { (tree : Tree) → tree.rooms ≡ [] → IsSoundTree tree }
{}

/// A mount over a store that told a sound tree is sound for the writes that have landed in it.
pub fn mounting_is_sound()
    ensures { (serial : ℕ) (times : Option (List ℕ)) (opened : Stored) (new : State) (tree : Tree) → IsMounted serial times opened new → opened.tree ≡ Some tree → (sound : IsSoundTree tree) → IsSoundFor sound.issued new }
{}

/// What the acts of a mounting that broke off left of a sound tree is sound for the next mount, whatever the store told.
pub fn a_failed_mounting_leaves_a_sound_tree()
    ensures { (opened left : Stored) (trouble : MountTrouble) (tree : Tree) → FailsToMount opened trouble left → opened.tree ≡ Some tree → IsSoundTree tree
        → (after : Tree) × (left.tree ≡ Some after) × IsSoundTree after }
{}

/// A history is lawful where it is legal and no caller owes more than it met.
pub fn lawful_is_legal_and_allowed()
    ensures to { (start : State) (events : List Event) → IsLawful start events → IsLegal start events × AreAllowed start events }
    ensures from { (start : State) (events : List Event) → IsLegal start events → AreAllowed start events → IsLawful start events }
{}

/// A step of the mount whose caller owed no more than it met keeps soundness, for what was issued by then.
pub fn steps_keep_soundness()
    ensures { (before : Ledger) (old new : State) (caller : ℕ) (ask : Ask) (reply : Reply) → May old caller ask → IsStep old caller ask reply new → IsSoundFor before old → IsSoundFor (issued_after before old ask.call reply) new }
{}

/// Soundness lasts along each lawful history, for what was issued in it.
pub fn soundness_lasts()
    ensures { (before : Ledger) (start : State) (events : List Event) → IsLawful start events → IsSoundFor before start → IsSoundFor (issued before start events) (state_after start events) }
{}

/// The tree that a sound mount leaves is sound for the next one.
pub fn a_left_tree_is_sound()
    ensures { (issued : Ledger) (state : State) (sound : IsSoundFor issued state) → IsSoundTree sound.shape.tree }
{}

/// A mount begins fine: regular, and sound where the store told a sound tree.
pub fn mounting_is_fine()
    ensures { (serial : ℕ) (times : Option (List ℕ)) (opened : Stored) (new : State) → IsMounted serial times opened new → IsFine new }
{}

/// A step of the mount whose caller owed no more than it met keeps a fine state fine.
pub fn fineness_lasts()
    ensures { (old new : State) (caller : ℕ) (ask : Ask) (reply : Reply) → May old caller ask → IsStep old caller ask reply new → IsFine old → IsFine new }
{}

/// The whole entries of each index dropping of a sound mount are the first that its writer issued, and its log begins
/// with the bytes of their writes.
pub fn what_landed_was_issued()
    ensures { (issued : Ledger) (state : State) (sound : IsSoundFor issued state) (number : ℕ) (room : Room) → slice_get sound.shape.tree.rooms number ≡ Some room → (host writer : ℕ) (bytes : List ℕ) → HasItem room (Index host writer) bytes → HasLanded room host writer (issued number writer) bytes }
{}

/// Of an index dropping of a sound mount, the entries that its bytes and those of its log tell are the ones that have
/// landed: the first that its writer issued.
pub fn what_is_told_has_landed()
    ensures { (issued : Ledger) (state : State) (sound : IsSoundFor issued state) (number : ℕ) (room : Room) → slice_get sound.shape.tree.rooms number ≡ Some room → (host writer : ℕ) (bytes : List ℕ) → HasItem room (Index host writer) bytes
        → landed_entries room host writer ≡ take (min (whole bytes) (length (issued number writer))) (entries_in (issued number writer)) }
{}

/// Along a lawful history of a sound mount the entries that have landed in an index dropping stay, and more come or none.
pub fn landed_never_falls()
    ensures { (before : Ledger) (start : State) (events : List Event) → IsLawful start events → IsSoundFor before start
        → (tree after : Tree) → start.store.tree ≡ Some tree → told_tree_after start events ≡ Some after
        → (number : ℕ) (room new : Room) → slice_get tree.rooms number ≡ Some room → slice_get after.rooms number ≡ Some new
        → (host writer : ℕ) (bytes : List ℕ) → HasItem room (Index host writer) bytes
        → (landed_in room host writer ≤ landed_in new host writer) × (take (landed_in room host writer) (landed_entries new host writer) ≡ landed_entries room host writer) }
{}

/// Along a lawful history of a sound mount each item but an entry of an open writer, and an index that is being written,
/// stays; no log gets shorter, and no index dropping loses an entry that has landed in it.
pub fn what_stands_stays()
    ensures { (before : Ledger) (start : State) (events : List Event) → IsLawful start events → IsSoundFor before start
        → (tree after : Tree) → start.store.tree ≡ Some tree → told_tree_after start events ≡ Some after → ItemsStay tree after }
{}

/// Along a history more is issued, or nothing.
pub fn issues_only_grow()
    ensures { (before : Ledger) (start : State) (events : List Event) → IssuesMore before (issued before start events) }
{}
