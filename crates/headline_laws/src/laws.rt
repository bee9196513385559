//! The laws of the page.
ghost use Rattle.std.specs.Prelude.{◌≡◌, ◌≤◌, ℕ, false, List, Option, Some};
ghost use Rattle.store_api.specs.Acts.{Stored};
ghost use Rattle.mount_model.specs.History.{Event};
ghost use Rattle.mount_model.specs.Mounting.{IsMounted};
ghost use Rattle.mount_model.specs.State.{State};
ghost use Rattle.mount_sound.specs.Sound.{IsClean, IsFine, IsSoundTree};
ghost use Rattle.script_lang.specs.Ranges.{FitsScript};
ghost use Rattle.run_core.specs.Leading.{Leads};
ghost use Rattle.run_core.specs.Play.{IsPlay, IsRight};
ghost use Rattle.headline.specs.Run.{Run};
ghost use Rattle.headline.specs.Headline.{IsOrderly};
ghost use Rattle.headline.specs.Names.{Story};
ghost use Rattle.headline.specs.Stories.{Fits};
ghost use Rattle.headline.specs.Still.{HasStill};

/// A law: where the lines of a script are right, from a state on that is fine and clean, they are orderly. There is one for each statement, of its kind, and none
/// tells of damage. A write has the script's bytes at the script's place, and a sync and a close count the writes that the lines tell of. All answers of a reader
/// are of one file of its size, and a refresh tells of no less than before. A statement is made only where its actor has what it uses. A stop is told where one was armed, and after it no more statement is
/// made. A fault is told only where the store's count of faults rose. So it is of the lines of a play, and on threads.
pub fn lines_are_orderly()
    ensures right { (run : Run) (start end : State) → FitsScript run.script → IsFine start → IsClean start → IsRight run.script start run.lines end → run.faults ≤ start.store.faults → end.store.faults ≡ run.faults_after → IsOrderly run }
    ensures played { (run : Run) (start end : State) → FitsScript run.script → IsFine start → IsClean start → IsPlay run.script start run.lines end → run.faults ≤ start.store.faults → end.store.faults ≡ run.faults_after → IsOrderly run }
{}

/// A law: whatever calls lead from a mount over a sound tree to the tree after, each truncate of the tree before stands there still, and the metadata of each
/// writer that had left. Of each writer that had an index, just the writes that had landed stand, with all their bytes.
pub fn what_stood_stands()
    ensures { (run : Run) (times : Option (List ℕ)) (opened : Stored) (start : State) (events : List Event) (end : State) → IsMounted 0 times opened start → opened.tree ≡ Some run.before → IsSoundTree run.before → Leads start events end
        → end.store.tree ≡ Some run.after → HasStill run }
{}

/// A law: there is a story, which says of which container each line speaks, and it fits. The container of `open ID` has the index and the log of this writer,
/// under the host of the line's actor. A reader's line counts of each writer of its container all writes that a sync or a close told before, and has all
/// truncates that were told before. It shows one plain file: of the first writes of each writer, as the lines tell them, and of its truncates. The tree after
/// has the first writes of each writer, as many as the lines allow, and of one that was closed metadata of all of them. Each truncate, each index and each entry of an open writer
/// that it has is of the tree before or of a line. Each stamp is one of the clock's times, or the next above what came before. What is told of a file is that of one such plain file. Where no statement renames, all names are listed. What is
/// refused as `already-open` opens what its actor has, and as `not-open` it uses what its actor hasn't. What is refused as `busy` is open by the writer that it tells, and what is refused as `held` may have been held. Where one is refused for want of a stamp, the last of all is its writer's, or stands in the container. A writer that a recovery took out is open no more, and is none that its actor has at the end. No loss of
/// power after the run takes a write that a sync or a close told. So it is where the lines are right, from a mount over a sound tree on, and so it is of a play; the counts of faults are those at first and at last.
/// Where no line tells that all numbers of the mount were spent, the lines meet the whole page.
pub fn lines_have_a_story()
    ensures right { (run : Run) (opened : Stored) (start end : State) → FitsScript run.script → IsMounted 0 run.times opened start → opened.tree ≡ Some run.before → IsSoundTree run.before → IsRight run.script start run.lines end
        → end.store.tree ≡ Some run.after → run.in_order ≡ false → run.faults ≤ start.store.faults → end.store.faults ≡ run.faults_after → (story : Story) × Fits run story }
    ensures played { (run : Run) (opened : Stored) (start end : State) → FitsScript run.script → IsMounted 0 run.times opened start → opened.tree ≡ Some run.before → IsSoundTree run.before → IsPlay run.script start run.lines end
        → end.store.tree ≡ Some run.after → run.in_order ≡ false → run.faults ≤ start.store.faults → end.store.faults ≡ run.faults_after → (story : Story) × Fits run story }
{}
