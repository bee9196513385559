//! Law: what a loss of power leaves of several stores.
ghost use Rattle.std.specs.Prelude.{◌≡◌, List, Option, Some};
ghost use Rattle.store_api.specs.declared.tree.Tree.{Tree};
ghost use Rattle.store_api.specs.Acts.{Stored};
ghost use Rattle.store_api.specs.Loss.{Loses};
ghost use Rattle.spread_store.specs.declared.places.Doubt.{Doubt};
ghost use Rattle.spread_store.specs.declared.places.Place.{Place};
ghost use Rattle.spread_store.specs.Fits.{IsFit};
ghost use Rattle.spread_store.specs.Joined.{held_by, spreading, tree_of};
ghost use Rattle.spread_store.specs.Losing.{LoseEach};

/// A law: a loss of power of all stores is a loss of the tree that they hold as one, and each room keeps its number.
pub fn losses_join()
    ensures loses { (old new : List Stored) (places : List Place) (doubt : Option Doubt) (tree : Tree) → LoseEach (held_by old) (held_by new) → tree_of (spreading old places doubt) ≡ Some tree → (after : Tree) × (tree_of (spreading new places doubt) ≡ Some after) × Loses tree after }
    ensures fit { (old new : List Stored) (places : List Place) (doubt : Option Doubt) → LoseEach (held_by old) (held_by new) → IsFit (spreading old places doubt) → IsFit (spreading new places doubt) }
{}
