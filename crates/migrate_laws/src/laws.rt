//! The laws of a migration.
ghost use Rattle.std.specs.Prelude.{ℕ, List, Ok};
ghost use Rattle.mount_model.specs.Safe.{IsSafe};
ghost use Rattle.mount_model.specs.Running.{asking, Runs};
ghost use Rattle.mount_model.specs.State.{State};
ghost use Rattle.mount_model.specs.History.{Event};
ghost use Rattle.mount_model.specs.Step.{IsStep};
ghost use Rattle.mount_sound.specs.Ledger.{Ledger};
ghost use Rattle.mount_sound.specs.Owed.{IsLawful, Permits};
ghost use Rattle.mount_sound.specs.Sound.{IsFine, IsSoundFor};
ghost use Rattle.migrate_core.specs.declared.migrated.Migrated.{Migrated};
ghost use Rattle.migrate_core.specs.Migrating.{migrate_program};
ghost use Rattle.migrate_laws.specs.Migrated.{HasMigrated};

/// A law: from a fine state a caller may make all calls of a migration, each after the replies to those before, whatever
/// allowed calls others make before each of them. So what it puts is the packed index of all entries of the writer.
pub fn a_migration_is_always_allowed()
    ensures { (caller : ℕ) (name : List ℕ) (state : State) → IsFine state → IsSafe IsStep Permits caller (asking (migrate_program name)) state }
{}

/// A law: who runs a migration that ends well, in a lawful history from a sound state and whatever others call meanwhile, packed in the container that had the
/// name when it was found, and left no writer out: each that had closed the file with entries, when the metadata were listed, has its packed index, or more
/// entries than one holds. Its counts are those of the packed indices that it made, and of the writers that are too long.
pub fn a_migration_leaves_no_writer_out()
    ensures { (caller : ℕ) (name : List ℕ) (issued : Ledger) (start : State) (events : List Event) (out : Migrated) → IsLawful start events → IsSoundFor issued start → Runs caller (migrate_program name) events (Ok out) → HasMigrated caller name start events out }
{}
