//! The law of plays beside the plain machine.
ghost use Rattle.std.specs.Prelude.{◌≡◌, ◌≤◌, ◌∷◌, ◌++◌, ℕ, Err, List, Option, Some, false, map};
ghost use Rattle.std.specs.List.{AllByRecursion};
ghost use Rattle.actor_core.specs.declared.kept.Kept.{Kept};
ghost use Rattle.actor_core.specs.declared.kept.Stop.{Stop};
ghost use Rattle.actor_core.specs.Statements.{greeted_work};
ghost use Rattle.store_api.specs.declared.tree.Tree.{Tree};
ghost use Rattle.store_api.specs.Acts.{Stored};
ghost use Rattle.script_lang.specs.declared.line.Line.{Line};
ghost use Rattle.script_lang.specs.declared.script.Script.{Script};
ghost use Rattle.script_lang.specs.declared.script.Statement.{Statement};
ghost use Rattle.script_lang.specs.Ranges.{FitsScript};
ghost use Rattle.index_reader.specs.declared.scanning.Scan.{Scan};
ghost use Rattle.index_reader.specs.Scanning.{scanned};
ghost use Rattle.mount_model.specs.FlowListed.{file_in};
ghost use Rattle.mount_model.specs.FlowReplies.{damage};
ghost use Rattle.mount_model.specs.History.{Event};
ghost use Rattle.mount_model.specs.Paths.{Name};
ghost use Rattle.mount_model.specs.State.{State};
ghost use Rattle.mount_model.specs.Turns.{Finishes};
ghost use Rattle.mount_model.specs.Mounting.{IsMounted};
ghost use Rattle.mount_sound.specs.Sound.{IsSoundTree};
ghost use Rattle.run_core.specs.Course.{Course, then_line};
ghost use Rattle.run_core.specs.Play.{IsPlay};
ghost use Rattle.plain_machine.specs.Machine.{Plain, PlainActor};
ghost use Rattle.plain_machine.specs.Running.{IsPlainScript, nobody};
ghost use Rattle.plain_plays.specs.Apart.{AreApart};
ghost use Rattle.plain_plays.specs.Beginning.{bare_tree, first_machine};
ghost use Rattle.plain_plays.specs.OverStores.{TellsPlainly};
ghost use Rattle.plain_plays.specs.Foreign.{IsForeign, IsOfItem};
ghost use Rattle.plain_plays.specs.Saying.{BeginsPlainly, MetNoFault, SaysOfSome, SaysPlainly};
ghost use Rattle.plain_plays.specs.Stops.{StopsInTime};

/// A law: a play's lines are what the plain machine says, line by line, and the machine has at the end what the mount has. The script has no `turn` and no
/// `stop` lines, no call met a fault, and none was refused memory. The machine had what the mount had as the play began. Writers that earlier runs left open may
/// be there, and a recovery buries them as the machine's does; none of their ids is live in the mount's table. So it is of a mount over a store without rooms, whose
/// machine begins with the mark 1, and over any store with a sound tree there is such a machine. Over one without rooms each writer's id stands in one room,
/// and so to the end.
pub fn plays_are_plain()
    ensures over { (script : Script) (start end : State) (lines : List Line) (p : Plain)
        → FitsScript script
        → IsPlainScript script
        → BeginsPlainly script start p
        → IsPlay script start lines end
        → MetNoFault start end
        → SaysPlainly script p lines end }
    ensures begun { (script : Script) (times : Option (List ℕ)) (opened : Stored) (start end : State) (lines : List Line)
        → FitsScript script
        → IsPlainScript script
        → opened.tree ≡ Some bare_tree
        → IsMounted 0 times opened start
        → IsPlay script start lines end
        → MetNoFault start end
        → SaysPlainly script (first_machine (map nobody script.actors) times start.mount) lines end }
    ensures sound { (script : Script) (serial : ℕ) (times : Option (List ℕ)) (opened : Stored) (tree : Tree) (start end : State) (lines : List Line)
        → FitsScript script
        → IsPlainScript script
        → opened.tree ≡ Some tree
        → IsSoundTree tree
        → IsMounted serial times opened start
        → IsPlay script start lines end
        → MetNoFault start end
        → SaysOfSome script start lines end }
    ensures over_a_store { (script : Script) (times : Option (List ℕ)) (opened : Stored) (start end : State) (lines : List Line)
        → FitsScript script
        → IsMounted 0 times opened start
        → IsPlay script start lines end
        → MetNoFault start end
        → TellsPlainly script times opened lines end.store }
    ensures apart { (actors : List PlainActor) (times : Option (List ℕ)) (mark : ℕ) → AreApart (first_machine actors times mark) }
{}

/// A law: a stop comes in its call. An actor for which one is armed makes a statement. It makes fewer calls than the number of the stop, and none is broken off.
/// Or the call of this number is broken off after so many bytes, as the last one, and the line tells of the stop.
pub fn stops_come_in_their_call()
    ensures { (n number : ℕ) (next : Kept → Course) (kept : Kept) (stop : Stop) (statement : Statement) (calls : List Event) (line : Line) (left : Course)
        → kept.gone ≡ false
        → kept.armed ≡ Some stop
        → 1 ≤ stop.call
        → Finishes n (then_line number next (greeted_work kept statement)) calls line left
        → StopsInTime stop calls line.outcome }
{}

/// A law: a foreign name is damage before all else that a folder of droppings shows. The first name there that no item has is told, also where a writer has a
/// second index dropping before it.
pub fn foreign_names_are_told_first()
    ensures { (folder : Name) (before : List Name) (name : Name) (later : List Name) (scan : Scan)
        → AllByRecursion (IsOfItem folder) before
        → IsForeign folder name
        → scanned folder (before ++ name ∷ later) scan ≡ Err (damage (file_in folder name) 0) }
{}
