//! The law of a flattening.
ghost use Rattle.std.specs.Prelude.{ℕ, List};
ghost use Rattle.mount_model.specs.Safe.{IsSafe};
ghost use Rattle.mount_model.specs.Running.{asking};
ghost use Rattle.mount_model.specs.State.{State};
ghost use Rattle.mount_model.specs.Step.{IsStep};
ghost use Rattle.mount_sound.specs.Owed.{Permits};
ghost use Rattle.mount_sound.specs.Sound.{IsFine};
ghost use Rattle.flatten_core.specs.Flattening.{flatten_program};

/// A law: from a fine state a caller may make all calls of a flattening, each after the replies to those before, whatever
/// allowed calls others make before each of them. So what it installs is right for its container, and of droppings that no
/// loss of power takes.
pub fn a_flattening_is_always_allowed()
    ensures { (caller : ℕ) (name : List ℕ) (state : State) → IsFine state → IsSafe IsStep Permits caller (asking (flatten_program name)) state }
{}
