//! Laws: what an act tells of its step, and what it leaves of the tree, also at a fault.
ghost use Rattle.std.specs.Prelude.{◌≡◌, ℕ, List, Some, Result};
ghost use Rattle.plfs_types.specs.declared.names.Path.{Path};
ghost use Rattle.store_api.specs.declared.tree.Tree.{Tree};
ghost use Rattle.store_api.specs.declared.step.Answer.{Answer};
ghost use Rattle.store_api.specs.declared.step.Answer.TheVariants.{Made};
ghost use Rattle.store_api.specs.declared.store.Trouble.{Trouble};
ghost use Rattle.store_api.specs.Step.{Step, create, write_at};
ghost use Rattle.store_api.specs.Acts.{Stored, Acts};
ghost use Rattle.store_laws.specs.Tells.{Tells};
ghost use Rattle.store_laws.specs.Changes.{Created};
ghost use Rattle.store_laws.specs.Says.{WhyNotCreated};
ghost use Rattle.store_laws.specs.Outcomes.{MadeOrNot, WriteTold};

/// A law: a store that tells its tree tells one after each act, and the act tells what became of it.
pub fn told_trees_go_on()
    ensures { (step : Step) (old new : Stored) (tree : Tree) (told : Result Answer Trouble) → old.tree ≡ Some tree → Acts step old new told → (after : Tree) × (new.tree ≡ Some after) × Tells step tree told after }
{}

/// A law: whatever a create tells, its file was made, or the tree is as before; and where it answers,
/// the answer says which.
pub fn creates_are_made_or_not()
    ensures { (n : ℕ) (path : Path) (tree : Tree) (told : Result Answer Trouble) (after : Tree) → Tells (create n path.folder path.file) tree told after → MadeOrNot tree Made (Created tree n path) (WhyNotCreated tree n path) told after }
{}

/// A law: where a write tells so, it was made; else its first bytes were written, or nothing.
pub fn writes_are_made_or_in_part()
    ensures { (n : ℕ) (path : Path) (at : ℕ) (bytes : List ℕ) (tree : Tree) (told : Result Answer Trouble) (after : Tree) → Tells (write_at n path.folder path.file at bytes) tree told after → WriteTold n path at bytes tree told after }
{}
