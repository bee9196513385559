//! Laws of the shape of a sound tree.
ghost use Rattle.std.specs.Prelude.{◌≡◌, ℕ, List, [], Option, Some};
ghost use Rattle.store_api.specs.declared.tree.Tree.{Tree};
ghost use Rattle.store_api.specs.Acts.{Stored};
ghost use Rattle.store_api.specs.Loss.{Loses};
ghost use Rattle.mount_model.specs.declared.call.Ask.{Ask};
ghost use Rattle.mount_model.specs.declared.reply.Reply.{Reply};
ghost use Rattle.mount_model.specs.State.{State};
ghost use Rattle.mount_model.specs.Step.{IsOwed, IsStep};
ghost use Rattle.mount_model.specs.Regular.{IsRegular};
ghost use Rattle.mount_model.specs.declared.mount_trouble.MountTrouble.{MountTrouble};
ghost use Rattle.mount_model.specs.Failing.{FailsToMount};
ghost use Rattle.mount_model.specs.Mounting.{IsMounted};
ghost use Rattle.mount_sound.specs.Marks.{IsOfMark};
ghost use Rattle.mount_sound.specs.Shape.{IsShapedTree, IsShaped};
ghost use Rattle.mount_sound.specs.Named.{NamesDrawnWriter};

/// A tree with no rooms has the right shape.
pub fn an_empty_tree_is_shaped()
    ensures { (tree : Tree) → tree.rooms ≡ [] → IsShapedTree (IsOfMark tree) tree }
{}

/// A mount over a store that told a tree of the right shape has it: its mark is above all others, so
/// that no id in the tree is above its last one.
pub fn mounting_has_shape()
    ensures { (serial : ℕ) (times : Option (List ℕ)) (opened : Stored) (new : State) (tree : Tree) → IsMounted serial times opened new → opened.tree ≡ Some tree → IsShapedTree (IsOfMark tree) tree → IsShaped new }
{}

/// What the acts of a mounting that broke off left of a tree of the right shape has it.
pub fn a_failed_mounting_leaves_a_shaped_tree()
    ensures { (opened left : Stored) (trouble : MountTrouble) (tree : Tree) → FailsToMount opened trouble left → opened.tree ≡ Some tree → IsShapedTree (IsOfMark tree) tree
        → (after : Tree) × (left.tree ≡ Some after) × IsShapedTree (IsOfMark after) after }
{}

/// Each step of the mount whose caller owes no more, and names no writer but one whose id was drawn, keeps the shape of what
/// its store tells, whatever fault the store answers.
pub fn shape_lasts()
    ensures { (old new : State) (caller : ℕ) (ask : Ask) (reply : Reply) → IsOwed ask → NamesDrawnWriter old ask.call → IsRegular old → IsStep old caller ask reply new → IsShaped old → IsShaped new }
{}

/// The tree that a mount leaves has the right shape for the next one.
pub fn a_left_tree_is_shaped()
    ensures { (state : State) (shape : IsShaped state) → IsShapedTree (IsOfMark shape.tree) shape.tree }
{}

/// A tree of the right shape has it after a loss of power.
pub fn a_lost_tree_is_shaped()
    ensures { (tree new : Tree) → Loses tree new → IsShapedTree (IsOfMark tree) tree → IsShapedTree (IsOfMark new) new }
{}
