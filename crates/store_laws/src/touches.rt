//! Laws: what stays of a tree, whatever is told of a step.
ghost use Rattle.std.specs.Prelude.{Result};
ghost use Rattle.store_api.specs.declared.tree.Tree.{Tree};
ghost use Rattle.store_api.specs.declared.step.Answer.{Answer};
ghost use Rattle.store_api.specs.declared.store.Trouble.{Trouble};
ghost use Rattle.store_api.specs.Step.{Step};
ghost use Rattle.store_laws.specs.Tells.{Tells};
ghost use Rattle.store_laws.specs.Naming.{KeepsRooms, Lengthens, OnlyAdds};
ghost use Rattle.store_laws.specs.Orderly.{IsOrderly, MakesOrderly};

/// A law: whatever is told of a step, also a fault, each room stays, and of it all that the step
/// doesn't name.
pub fn steps_change_what_they_name()
    ensures { (step : Step) (tree : Tree) (told : Result Answer Trouble) (after : Tree) → Tells step tree told after → KeepsRooms step tree after }
{}

/// A law: whatever is told of a step that removes no file and cuts none, each file stays, and none is
/// shorter.
pub fn files_only_grow()
    ensures { (step : Step) (tree : Tree) (told : Result Answer Trouble) (after : Tree) → OnlyAdds step → Tells step tree told after → Lengthens tree after }
{}

/// A law: whatever is told of a step, nothing stands twice after it where nothing did before it, and
/// no file without its folder.
pub fn order_is_kept()
    ensures { (step : Step) (tree : Tree) (told : Result Answer Trouble) (after : Tree) → MakesOrderly step → Tells step tree told after → IsOrderly tree → IsOrderly after }
{}
