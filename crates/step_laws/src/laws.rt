//! The laws of steps and of mountings that are one.
ghost use Rattle.std.specs.Prelude.{◌≡◌, ◌≢◌, ℕ, ◌<◌, ◌-◌, ◌^◌, List, Option};
ghost use Rattle.store_api.specs.Acts.{Stored};
ghost use Rattle.mount_model.specs.declared.call.Ask.{Ask};
ghost use Rattle.mount_model.specs.declared.reply.Reply.{Reply};
ghost use Rattle.mount_model.specs.declared.reply.Reply.TheVariants.{NoMemory};
ghost use Rattle.mount_model.specs.declared.mount_trouble.MountTrouble.{MountTrouble};
ghost use Rattle.mount_model.specs.declared.mount_trouble.MountTrouble.TheVariants as trouble;
ghost use Rattle.mount_model.specs.State.{State};
ghost use Rattle.mount_model.specs.Step.{IsStep};
ghost use Rattle.mount_model.specs.Mounting.{IsMounted};
ghost use Rattle.mount_model.specs.Failing.{FailsToMount};
ghost use Rattle.step_laws.specs.Alike.{IsTold, TellsAll, FaultAlike};

/// A law: two steps of one state, for one caller and one question, give the same reply and the same state. The store
/// tells its tree, and the clock its times. The store faulted alike in both, its count of faults has not come to its
/// end, and neither was refused memory.
pub fn steps_are_one()
    ensures { (old : State) (caller : ℕ) (ask : Ask) (reply other : Reply) (new left : State)
        → TellsAll old
        → old.store.faults < 2 ^ 64 - 1
        → FaultAlike old.store new.store left.store
        → reply ≢ NoMemory
        → other ≢ NoMemory
        → IsStep old caller ask reply new
        → IsStep old caller ask other left
        → (reply ≡ other) × (new ≡ left) }
{}

/// A law: where the store of a mount tells its tree and the clock its times, they do so after each call that was not
/// refused memory.
pub fn told_mounts_stay_told()
    ensures { (old : State) (caller : ℕ) (ask : Ask) (reply : Reply) (new : State)
        → TellsAll old
        → old.store.faults < 2 ^ 64 - 1
        → reply ≢ NoMemory
        → IsStep old caller ask reply new
        → TellsAll new }
{}

/// A law: two mounts that were made of one store, with the same serial and times, are one, where the store tells its
/// tree.
pub fn mountings_are_one()
    ensures { (serial : ℕ) (times : Option (List ℕ)) (opened : Stored) (new left : State)
        → IsTold opened
        → IsMounted serial times opened new
        → IsMounted serial times opened left
        → new ≡ left }
{}

/// A law: over a store that tells its tree, mountings without a fault and with memory break off for one reason, and leave
/// one store. Where a mount is made of this store, none of them breaks off.
pub fn broken_mountings_are_one()
    ensures one { (opened left other : Stored) (why also : MountTrouble)
        → IsTold opened
        → opened.faults < 2 ^ 64 - 1
        → left.faults ≡ opened.faults
        → other.faults ≡ opened.faults
        → why ≢ trouble.NoMemory
        → also ≢ trouble.NoMemory
        → FailsToMount opened why left
        → FailsToMount opened also other
        → (why ≡ also) × (left ≡ other) }
    ensures none { (serial : ℕ) (times : Option (List ℕ)) (opened left : Stored) (why : MountTrouble) (new : State)
        → IsTold opened
        → opened.faults < 2 ^ 64 - 1
        → left.faults ≡ opened.faults
        → why ≢ trouble.NoMemory
        → IsMounted serial times opened new
        → FailsToMount opened why left
        → ⊥ }
{}
