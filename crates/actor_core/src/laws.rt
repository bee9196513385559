//! Laws of what the statements of an actor ask.
ghost use Rattle.std.specs.Prelude.{◌≡◌, ◌≤◌, ℕ, true, All, List, Option};
ghost use Rattle.plfs_types.specs.Names.{IsLogicalName};
ghost use Rattle.script_lang.specs.declared.script.Statement.{Statement};
ghost use Rattle.script_lang.specs.declared.script.Statement.TheVariants.{Flatten, Recover, Trunc};
ghost use Rattle.flatten_core.specs.Flattening.{flatten_program};
ghost use Rattle.torn_tail.specs.Recovering.{recover_program};
ghost use Rattle.trunc_rename.specs.Truncating.{truncate_program};
ghost use Rattle.actor_core.specs.declared.kept.Kept.{Kept};
ghost use Rattle.actor_core.specs.declared.kept.Stop.{Stop as AStop};
ghost use Rattle.actor_core.specs.Along.{AsksAlong};
ghost use Rattle.actor_core.specs.Names.{logical_among};
ghost use Rattle.actor_core.specs.Statements.{is_harmless_statement, does, work_of};
ghost use Rattle.actor_core.specs.Owed.{WorkAsksOnly, IsHarmless};

/// A law: each call of a harmless statement, and of its workers, has its numbers in range and owes nothing of the mount's
/// state, whatever is replied. The actor's capacity is 1 to 4096 entries.
pub fn statements_owe_nothing()
    ensures { (kept : Kept) (statement : Statement) → 1 ≤ kept.cap → kept.cap ≤ 4096 → is_harmless_statement statement ≡ true → WorkAsksOnly IsHarmless (work_of kept statement) }
{}

/// A law: a truncate makes the calls of its program and no others, and so do a flattening and a recovery; after one that is
/// broken off they make none.
pub fn truncates_flattenings_and_recoveries_ask_along()
    ensures truncate { (kept : Kept) (stop : Option AStop) (name : List ℕ) (size : ℕ) → AsksAlong (truncate_program name size) (does kept stop (Trunc name size)) }
    ensures flatten { (kept : Kept) (stop : Option AStop) (name : List ℕ) → AsksAlong (flatten_program name) (does kept stop (Flatten name)) }
    ensures recover { (kept : Kept) (stop : Option AStop) (name : List ℕ) → AsksAlong (recover_program name) (does kept stop (Recover name)) }
{}

/// A law: whatever names are replied, those that a listing of all files tells are logical names.
pub fn listed_names_are_logical()
    ensures { (names : List (List ℕ)) → All IsLogicalName (logical_among names) }
{}
