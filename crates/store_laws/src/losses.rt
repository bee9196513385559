//! Laws: what a loss of power leaves, and what keeps bytes from it.
ghost use Rattle.std.specs.Prelude.{◌≡◌, ◌≤◌, ℕ, List, length, take, min, Result};
ghost use Rattle.plfs_types.specs.declared.names.Path.{Path};
ghost use Rattle.store_api.specs.declared.tree.Tree.{Tree};
ghost use Rattle.store_api.specs.declared.step.Answer.{Answer};
ghost use Rattle.store_api.specs.declared.store.Trouble.{Trouble};
ghost use Rattle.store_api.specs.Step.{Step};
ghost use Rattle.store_api.specs.Kept.{common, kept_after};
ghost use Rattle.store_api.specs.Loss.{Loses};
ghost use Rattle.store_laws.specs.Prefix.{IsPrefix};
ghost use Rattle.store_laws.specs.Tells.{Tells};
ghost use Rattle.store_laws.specs.Losing.{HaveLost, Spares, StaysKept};

/// A law: a loss leaves each file its first bytes, no fewer than were kept, and nothing else changes.
pub fn losses_leave_fronts()
    ensures { (tree new : Tree) → Loses tree new → HaveLost tree new }
{}

/// A law: what is common to two files is the longest front of both.
pub fn common_is_the_longest_front()
    ensures within { (old new : List ℕ) → common old new ≤ min (length old) (length new) }
    ensures same { (old new : List ℕ) → take (common old new) old ≡ take (common old new) new }
    ensures longest { (front old new : List ℕ) → IsPrefix front old → IsPrefix front new → length front ≤ common old new }
{}

/// A law: whatever is told of a step that spares the first bytes of a file, those that were kept stay the same, and kept.
pub fn kept_bytes_stay()
    ensures { (step : Step) (tree : Tree) (told : Result Answer Trouble) (after : Tree) (n : ℕ) (path : Path) (front : ℕ) → Spares tree step n path front → Tells step tree told after → StaysKept tree n path front after }
{}
