//! The laws of who holds a container.
ghost use Rattle.std.specs.Prelude.{ℕ, List};
ghost use Rattle.mount_model.specs.Safe.{IsSafe};
ghost use Rattle.mount_model.specs.Running.{asking};
ghost use Rattle.mount_model.specs.State.{State};
ghost use Rattle.mount_model.specs.Step.{IsStep};
ghost use Rattle.mount_sound.specs.Sound.{IsFine};
ghost use Rattle.trunc_rename.specs.Truncating.{truncate_program};
ghost use Rattle.trunc_rename.specs.Renaming.{rename_program};
ghost use Rattle.attr_flow.specs.Asking.{attr_program};
ghost use Rattle.mount_sound.specs.Owed.{Permits};

/// A law: from a fine state a caller may make all calls of a truncate, each after the replies to those before, whatever
/// allowed calls others make before each of them. So a truncate's stamp is above all that its container has.
pub fn a_truncate_is_always_allowed()
    ensures { (caller : ℕ) (name : List ℕ) (size : ℕ) (state : State) → IsFine state → IsSafe IsStep Permits caller (asking (truncate_program name size)) state }
{}

/// A law: the same of the calls of a rename.
pub fn a_rename_is_always_allowed()
    ensures { (caller : ℕ) (name to : List ℕ) (state : State) → IsFine state → IsSafe IsStep Permits caller (asking (rename_program name to)) state }
{}

/// A law: the same of the calls that tell of a file.
pub fn telling_of_a_file_is_always_allowed()
    ensures { (caller : ℕ) (name : List ℕ) (state : State) → IsFine state → IsSafe IsStep Permits caller (asking (attr_program name)) state }
{}
