//! Laws of what can be checked of a tree.
ghost use Rattle.store_api.specs.declared.tree.Tree.{Tree};
ghost use Rattle.mount_sound.specs.Sound.{IsSoundTree};
ghost use Rattle.tree_laws.specs.Checked.{IsCheckedTree, HoldsBytes};
ghost use Rattle.tree_laws.specs.Complaints.{Complaint, IsBroken};
ghost use Rattle.tree_laws.specs.Listable.{IsListable};

/// A tree of which all holds that is checked is sound, for the writes that have landed in it.
pub fn a_checked_tree_is_sound()
    ensures { (tree : Tree) → HoldsBytes tree → IsCheckedTree tree → IsSoundTree tree }
{}

/// Of a sound tree all holds that is checked.
pub fn a_sound_tree_is_checked()
    ensures { (tree : Tree) → IsSoundTree tree → IsCheckedTree tree }
{}

/// Of a sound tree no complaint is right.
pub fn a_complaint_denies_soundness()
    ensures { (tree : Tree) (complaint : Complaint) → IsBroken tree complaint → IsSoundTree tree → ⊥ }
{}

/// It can't be that no complaint is right of a tree that isn't sound, where listings show it whole.
pub fn an_unsound_tree_has_a_complaint()
    ensures { (tree : Tree) → HoldsBytes tree → IsListable tree → (IsSoundTree tree → ⊥) → ((complaint : Complaint) → IsBroken tree complaint → ⊥) → ⊥ }
{}
