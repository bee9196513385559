//! The laws of the statements of an actor.
ghost use Rattle.std.specs.Prelude.{◌≤◌, ℕ};
ghost use Rattle.mount_model.specs.Safe.{IsSafeProcess};
ghost use Rattle.mount_model.specs.State.{State};
ghost use Rattle.mount_model.specs.Step.{IsStep};
ghost use Rattle.mount_sound.specs.Owed.{Permits};
ghost use Rattle.mount_sound.specs.Sound.{IsFine};
ghost use Rattle.script_lang.specs.declared.script.Statement.{Statement};
ghost use Rattle.actor_core.specs.declared.kept.Kept.{Kept};
ghost use Rattle.actor_core.specs.Statements.{work_of};
ghost use Rattle.run_core.specs.Coming.{ComesToLine};

/// A law: from a fine state an actor may make all calls of a statement, each after the replies to those before, whatever allowed calls others make before each of
/// them; so may its workers, each as a caller of its own. The actor's capacity is 1 to 4096 entries.
pub fn statements_are_always_allowed()
    ensures { (caller : ℕ) (kept : Kept) (statement : Statement) (state : State) → 1 ≤ kept.cap → kept.cap ≤ 4096 → IsFine state
        → IsSafeProcess IsStep Permits caller (work_of kept statement) state }
{}

/// A law: whatever is replied, and whatever its workers come to, a statement comes to its line.
pub fn statements_come_to_a_line()
    ensures { (kept : Kept) (statement : Statement) → ComesToLine (work_of kept statement) }
{}
