//! A law of what a run leaves.
ghost use Rattle.std.specs.Prelude.{◌≡◌, ℕ, List, Option, Some};
ghost use Rattle.store_api.specs.declared.tree.Tree.{Tree};
ghost use Rattle.store_api.specs.Acts.{Stored};
ghost use Rattle.mount_sound.specs.Sound.{IsSoundTree};
ghost use Rattle.script_lang.specs.declared.line.Line.{Line};
ghost use Rattle.script_lang.specs.declared.script.Script.{Script};
ghost use Rattle.run_core.specs.Leading.{GoesOn};
ghost use Rattle.plfs_program.specs.Calling.{IsPlayedOn};
ghost use Rattle.program_ends.specs.Leaving.{IsRun};
ghost use Rattle.plfs_program.specs.Ways.{Way};

/// A law: where the store told a sound tree and a mount was made of it, the tree that the calls left is sound. The calls of a
/// play are such calls, by turns and on threads.
pub fn a_run_leaves_a_sound_tree()
    ensures play { (way : Way) (times : Option (List ℕ)) (before after : Stored) (script : Script) (lines : List Line) → IsPlayedOn way times before script lines after → IsRun GoesOn times before after }
    ensures sound { (times : Option (List ℕ)) (before after : Stored) (tree : Tree) → IsRun GoesOn times before after → before.tree ≡ Some tree → IsSoundTree tree → (left : Tree) × (after.tree ≡ Some left) × IsSoundTree left }
{}
