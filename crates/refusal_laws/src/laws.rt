//! The laws of refusals.
ghost use Rattle.std.specs.Prelude.{◌≡◌, ◌≢◌, ◌⊎◌, ℕ, None};
ghost use Rattle.mount_model.specs.declared.call.Ask.{Ask};
ghost use Rattle.mount_model.specs.declared.reply.Refusal.{Refusal};
ghost use Rattle.mount_model.specs.declared.reply.Reply.{Reply};
ghost use Rattle.mount_model.specs.declared.reply.Reply.TheVariants.{Fault, NoMemory, Refused};
ghost use Rattle.mount_model.specs.Replies.{IsAnswerTo};
ghost use Rattle.mount_model.specs.State.{State};
ghost use Rattle.mount_model.specs.Step.{IsStep};
ghost use Rattle.mount_sound.specs.Ledger.{Ledger};
ghost use Rattle.mount_sound.specs.Owed.{May};
ghost use Rattle.mount_sound.specs.Sound.{IsSoundFor};
ghost use Rattle.refusal_laws.specs.Reasons.{HasReason};

/// A law: where a sound mount refuses a call, the table or the tree has the reason, where its caller owes no more than it meets.
pub fn refusals_have_reasons()
    ensures { (issued : Ledger) (old new : State) (caller : ℕ) (ask : Ask) (why : Refusal) → May old caller ask → IsStep old caller ask (Refused why) new → IsSoundFor issued old → HasReason old caller ask.call why }
{}

/// A law: a sound mount does what a call asks, or refuses it for such a reason, where the call isn't broken off, the store doesn't fail and memory suffices.
pub fn calls_do_their_work()
    ensures { (issued : Ledger) (old new : State) (caller : ℕ) (ask : Ask) (reply : Reply) → May old caller ask → IsStep old caller ask reply new → IsSoundFor issued old → ask.stop ≡ None → reply ≢ Fault → reply ≢ NoMemory
        → IsAnswerTo ask.call reply ⊎ ((why : Refusal) × (reply ≡ Refused why) × HasReason old caller ask.call why) }
{}
