//! The law that no call shows damage.
ghost use Rattle.std.specs.Prelude.{ℕ};
ghost use Rattle.mount_model.specs.declared.call.Ask.{Ask};
ghost use Rattle.mount_model.specs.declared.reply.Reply.{Reply};
ghost use Rattle.mount_model.specs.State.{State};
ghost use Rattle.mount_model.specs.Step.{IsStep};
ghost use Rattle.mount_sound.specs.Ledger.{Ledger};
ghost use Rattle.mount_sound.specs.Owed.{May};
ghost use Rattle.mount_sound.specs.Sound.{IsSoundFor};
ghost use Rattle.mount_undamaged.specs.Damage.{ShowsNoDamage};
ghost use Rattle.mount_sound.specs.Issued.{issued};

/// No step of a sound mount shows damage, whatever fault the store answers, where its caller owes no more than it meets.
pub fn a_sound_mount_shows_no_damage()
    ensures { (issued : Ledger) (old new : State) (caller : ℕ) (ask : Ask) (reply : Reply) → May old caller ask → IsStep old caller ask reply new → IsSoundFor issued old → ShowsNoDamage reply }
{}
