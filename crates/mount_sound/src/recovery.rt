//! Laws of what writers left that are gone.
ghost use Rattle.std.specs.Prelude.{◌≡◌, ℕ, Some};
ghost use Rattle.mount_model.specs.declared.call.Ask.{Ask};
ghost use Rattle.mount_model.specs.declared.reply.Reply.TheVariants.{Done};
ghost use Rattle.mount_model.specs.State.{State};
ghost use Rattle.mount_model.specs.Step.{IsStep};
ghost use Rattle.mount_sound.specs.Ledger.{Ledger};
ghost use Rattle.mount_sound.specs.Owed.{IsNotLive, May};
ghost use Rattle.mount_sound.specs.Recovered.{HasRecovered, recovers};
ghost use Rattle.mount_sound.specs.Sound.{IsSoundFor};

/// A call that inspects a writer, mends what it left or buries it is answered Done only where the writer isn't live.
pub fn only_the_dead_are_recovered()
    ensures { (old new : State) (caller writer : ℕ) (ask : Ask) → recovers ask.call ≡ Some writer → IsStep old caller ask Done new → IsNotLive old writer }
{}

/// Where a call of recovery is answered Done in a sound mount: a dropping that was synced is kept whole; an index dropping
/// that was mended is exactly the entries that had landed; the metadata dropping that was made is there; and who was
/// buried has no entry among the open writers.
pub fn what_recovery_leaves()
    ensures { (before : Ledger) (old new : State) (caller : ℕ) (ask : Ask) → IsSoundFor before old → May old caller ask → IsStep old caller ask Done new → HasRecovered ask.call new }
{}
