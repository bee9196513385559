//! Laws of what a run says of its mounting.
ghost use Rattle.std.specs.Prelude.{◌≡◌, ℕ, List, Option, Some};
ghost use Rattle.store_api.specs.declared.tree.Tree.{Tree};
ghost use Rattle.store_api.specs.Acts.{Stored};
ghost use Rattle.store_api.specs.Step.{Name};
ghost use Rattle.mount_model.specs.Mounting.{IsMounted};
ghost use Rattle.mount_model.specs.State.{State};
ghost use Rattle.mount_model.specs.declared.mount_trouble.MountTrouble.{MountTrouble};
ghost use Rattle.mount_model.specs.Failing.{FailsToMount};
ghost use Rattle.program_ends.specs.Mounting.{AreSpent, AreDamagedAt, AreWhy, HaveNext, listed_marks};

/// A law: the listed marks of a told tree decide what its mounting says: no two of its answers fit one listing, and no
/// two names of damage.
pub fn marks_decide()
    ensures spent_or_next { (marks : Option (List Name)) → AreSpent marks → HaveNext marks → ⊥ }
    ensures spent_or_damaged { (marks : Option (List Name)) (name : Name) → AreSpent marks → AreDamagedAt name marks → ⊥ }
    ensures next_or_damaged { (marks : Option (List Name)) (name : Name) → HaveNext marks → AreDamagedAt name marks → ⊥ }
    ensures one_name { (marks : Option (List Name)) (a b : Name) → AreDamagedAt a marks → AreDamagedAt b marks → a ≡ b }
{}

/// A law: over a store that told its tree, a mounting breaks off for its marks, unless the store failed or memory was
/// refused: it is refused where all names listed in `mounts` are marks and the greatest is 2^32 - 1, and finds damage
/// at the first that is no mark, or at no name where the room of the marks lacks that folder. A mount is made only
/// where all are marks and a number is left.
pub fn marks_are_why()
    ensures broke_off { (before after : Stored) (trouble : MountTrouble) (tree : Tree) → FailsToMount before trouble after → before.tree ≡ Some tree → AreWhy (listed_marks tree) trouble }
    ensures mounted { (serial : ℕ) (times : Option (List ℕ)) (before : Stored) (start : State) (tree : Tree) → IsMounted serial times before start → before.tree ≡ Some tree → HaveNext (listed_marks tree) }
{}
