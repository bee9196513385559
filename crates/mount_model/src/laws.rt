//! Laws of every step of a mount.
ghost use Rattle.std.specs.Prelude.{◌≤◌, ℕ, List, Option};
ghost use Rattle.store_api.specs.Acts.{Stored};
ghost use Rattle.mount_model.specs.declared.call.Ask.{Ask};
ghost use Rattle.mount_model.specs.declared.reply.Reply.{Reply};
ghost use Rattle.mount_model.specs.State.{State};
ghost use Rattle.mount_model.specs.Step.{IsOwed, IsStep};
ghost use Rattle.mount_model.specs.Regular.{IsRegular};
ghost use Rattle.mount_model.specs.Places.{KeepsPlace};
ghost use Rattle.mount_model.specs.Replies.{FitsAsk, HasItsCause};
ghost use Rattle.mount_model.specs.Unchanged.{IsGivenUp, ChangesNothing};
ghost use Rattle.mount_model.specs.Mounting.{IsMounted};
ghost use Rattle.mount_model.specs.Stopping.{Stops};
ghost use Rattle.mount_model.specs.Stopped.{IsLeftBy};
ghost use Rattle.mount_model.specs.declared.call.Call.{Call};

/// A mount begins with a regular table.
pub fn mounting_is_regular()
    ensures { (serial : ℕ) (times : Option (List ℕ)) (opened : Stored) (new : State) → IsMounted serial times opened new → IsRegular new }
{}

/// Each step whose caller owes no more keeps the table regular, whatever the store answers.
pub fn regular_lasts()
    ensures { (old new : State) (caller : ℕ) (ask : Ask) (reply : Reply) → IsOwed ask → IsStep old caller ask reply new → IsRegular old → IsRegular new }
{}

/// No step changes where the mount stands: the store as it was at first, the marks' room, and the mount's mark.
pub fn place_lasts()
    ensures { (old new : State) (caller : ℕ) (ask : Ask) (reply : Reply) → IsStep old caller ask reply new → KeepsPlace old new }
{}

/// Each reply is one that its call has; a call that is broken off is answered so, or by want of memory.
pub fn replies_fit()
    ensures { (old new : State) (caller : ℕ) (ask : Ask) (reply : Reply) → IsStep old caller ask reply new → FitsAsk ask reply }
{}

/// Where a call is refused or wants memory, the tree that the store tells is as it was, and so is the table: only a writer
/// whose metadata dropping's room was told not to be there may only leave from then on.
pub fn a_refusal_changes_nothing()
    ensures { (old new : State) (caller : ℕ) (ask : Ask) (reply : Reply) → IsStep old caller ask reply new → IsGivenUp reply → ChangesNothing caller ask.call old reply new }
{}

/// The store's count of faults never falls, and a fault is answered only where it rose in this step.
pub fn faults_have_causes()
    ensures { (old new : State) (caller : ℕ) (ask : Ask) (reply : Reply) → IsStep old caller ask reply new → HasItsCause old new reply }
{}

/// What a stop leaves of tree and table, the call's own fault could leave, or want of memory, or nothing did; and then
/// its caller is at its end.
pub fn a_stop_is_a_fault_and_an_end()
    ensures { (old new : State) (caller k : ℕ) (call : Call) (reply : Reply) → Stops caller k call old reply new → IsLeftBy old caller call new }
{}

/// Mounting never lowers the store's count of faults.
pub fn mounting_lowers_no_count()
    ensures { (serial : ℕ) (times : Option (List ℕ)) (opened : Stored) (new : State) → IsMounted serial times opened new → opened.faults ≤ new.store.faults }
{}
