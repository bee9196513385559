//! Laws of rooms that callers hold.
ghost use Rattle.std.specs.Prelude.{◌≡◌, ℕ, List, Some};
ghost use Rattle.mount_model.specs.declared.call.Ask.{Ask};
ghost use Rattle.mount_model.specs.declared.call.Call.TheVariants.{Mark};
ghost use Rattle.mount_model.specs.declared.reply.Reply.TheVariants.{Marked};
ghost use Rattle.mount_model.specs.declared.row.Holder.{Holder};
ghost use Rattle.mount_model.specs.History.{Event};
ghost use Rattle.mount_model.specs.State.{State};
ghost use Rattle.mount_model.specs.Step.{IsStep};
ghost use Rattle.mount_model.specs.Table.{holder_of};
ghost use Rattle.mount_sound.specs.Excluding.{IsAboveAll, KeepOut};
ghost use Rattle.mount_sound.specs.Ledger.{Ledger};
ghost use Rattle.mount_sound.specs.Owed.{InRoom, IsLawful, May};
ghost use Rattle.mount_sound.specs.Sound.{IsSoundFor};

/// Along a lawful history of a sound mount nobody enters a room, and no writer of it writes, while a caller holds it.
pub fn holders_keep_writers_out()
    ensures { (before : Ledger) (start : State) (events : List Event) → IsLawful start events → IsSoundFor before start → KeepOut start events }
{}

/// The stamp of a truncate that was put is above that of each truncate that stood in its room, and of each entry that had
/// landed there.
pub fn a_truncate_comes_after_all()
    ensures { (before : Ledger) (old new : State) (caller holder size top stamp : ℕ) (ask : Ask) → IsSoundFor before old → May old caller ask → ask.call ≡ Mark holder size top → IsStep old caller ask (Marked stamp) new
        → (h : Holder) → holder_of caller holder old.table.holders ≡ Some h → InRoom old h.room (λ room. IsAboveAll room stamp) }
{}
