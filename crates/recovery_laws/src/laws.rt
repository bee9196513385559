//! The laws of a recovery.
ghost use Rattle.std.specs.Prelude.{◌≡◌, ◌≢◌, ℕ, List};
ghost use Rattle.index_entry.specs.Within.{within_log};
ghost use Rattle.mount_model.specs.Safe.{IsSafe};
ghost use Rattle.mount_model.specs.Running.{asking};
ghost use Rattle.mount_model.specs.State.{State};
ghost use Rattle.mount_model.specs.Step.{IsStep};
ghost use Rattle.mount_sound.specs.Owed.{Permits};
ghost use Rattle.mount_sound.specs.Sound.{IsFine};
ghost use Rattle.torn_tail.specs.Entries.{no_entries, checked};
ghost use Rattle.torn_tail.specs.Recovering.{recover_program};
ghost use Rattle.torn_tail.specs.Words.{Went, Run, breaks};
ghost use Rattle.recovery_laws.specs.Counting.{TellsOf};

/// A law: where none of the entries that the bytes of an index dropping tell breaks a rule, a recovery counts those of
/// them whose bytes the log has, up to the first one that ends past it, and what it keeps of them is what a metadata
/// dropping tells.
pub fn a_recovery_counts_what_the_log_has()
    ensures { (writer log count : ℕ) (bytes : List ℕ) (went : Went) (run : Run) → checked log count bytes (no_entries writer) ≡ (went, run) → went ≢ breaks
        → TellsOf writer run (within_log log count bytes) }
{}

/// A law: from a fine state a caller may make all calls of a recovery, each after the replies to those before, whatever
/// allowed calls others make before each of them. So it mends just what has landed, tells of just that, and buries no
/// writer that is live.
pub fn a_recovery_is_always_allowed()
    ensures { (caller : ℕ) (name : List ℕ) (state : State) → IsFine state → IsSafe IsStep Permits caller (asking (recover_program name)) state }
{}
