//! The laws of plays that are one.
ghost use Rattle.std.specs.Prelude.{◌≡◌, ◌<◌, ◌-◌, ◌^◌, ℕ, List, Some, None};
ghost use Rattle.store_api.specs.Acts.{Stored};
ghost use Rattle.script_lang.specs.declared.line.Line.{Line};
ghost use Rattle.script_lang.specs.declared.script.Script.{Script};
ghost use Rattle.mount_model.specs.State.{State};
ghost use Rattle.mount_model.specs.Mounting.{IsMounted};
ghost use Rattle.mount_model.specs.declared.call.Call.{Call};
ghost use Rattle.mount_model.specs.declared.reply.Reply.{Reply};
ghost use Rattle.mount_model.specs.Program.{Program};
ghost use Rattle.lone_flow.specs.Driving.{Makes};
ghost use Rattle.run_core.specs.Play.{IsPlay};
ghost use Rattle.step_laws.specs.Alike.{IsTold, TellsAll, StillCounts};
ghost use Rattle.plfs_program.specs.Planned.{FaultPlan, KeepsTo};

/// A law: two plays of one script from one state have the same lines and lead to the same state, where both keep to one
/// plan of faults. The store tells its tree, the clock its times, and the counts of the store that is left have not come
/// to their end. So lines follow from script, tree, times and what faulted acts left.
pub fn a_play_is_a_function()
    ensures { (plan : FaultPlan) (script : Script) (start end other : State) (lines others : List Line)
        → TellsAll start
        → (play : IsPlay script start lines end)
        → (again : IsPlay script start others other)
        → KeepsTo plan start play.history
        → KeepsTo plan start again.history
        → StillCounts end.store
        → (lines ≡ others) × (end ≡ other) }
{}

/// A law: each play keeps to a plan, which has what its own acts left that faulted.
pub fn each_play_keeps_to_a_plan()
    ensures { (script : Script) (start end : State) (lines : List Line)
        → TellsAll start
        → (play : IsPlay script start lines end)
        → StillCounts end.store
        → (plan : FaultPlan) × KeepsTo plan start play.history }
{}

/// A law: the same of two plays on mounts that were made of one store, which told its tree, with the same times to come.
/// A mounting that was made had no fault, so the plan says nothing of it.
pub fn a_mounted_play_is_a_function()
    ensures { (plan : FaultPlan) (script : Script) (opened : Stored) (times : List ℕ) (start first end other : State) (lines others : List Line)
        → IsTold opened
        → IsMounted 0 (Some times) opened start
        → IsMounted 0 (Some times) opened first
        → (play : IsPlay script start lines end)
        → (again : IsPlay script first others other)
        → KeepsTo plan start play.history
        → KeepsTo plan first again.history
        → StillCounts end.store
        → (lines ≡ others) × (end ≡ other) }
{}

/// A law: two such plays from one state also have one history: the same calls in one order, with the same replies.
pub fn plays_are_one_history()
    ensures { (plan : FaultPlan) (script : Script) (start end other : State) (lines others : List Line)
        → TellsAll start
        → (play : IsPlay script start lines end)
        → (again : IsPlay script start others other)
        → KeepsTo plan start play.history
        → KeepsTo plan start again.history
        → StillCounts end.store
        → play.history ≡ again.history }
{}

/// A law: a play without a fault keeps to the plan that has none. So two plays of one script without a fault are one, on
/// mounts that were made of one store, which told its tree, with the same times to come.
pub fn faultless_plays_are_one()
    ensures keeps { (script : Script) (start end : State) (lines : List Line) → (play : IsPlay script start lines end) → end.store.faults ≡ start.store.faults → KeepsTo (λ number. None) start play.history }
    ensures one { (script : Script) (opened : Stored) (times : List ℕ) (start first end other : State) (lines others : List Line)
        → IsTold opened
        → opened.faults < 2 ^ 64 - 1
        → IsMounted 0 (Some times) opened start
        → IsMounted 0 (Some times) opened first
        → IsPlay script start lines end
        → IsPlay script first others other
        → end.store.faults ≡ opened.faults
        → other.store.faults ≡ opened.faults
        → (lines ≡ others) × (end ≡ other) }
{}

/// A law: two runs of one machine by a caller by itself, from one state and without a fault, end with one result and lead to
/// one state. The store tells its tree and the clock its times, and the count of faults has not come to its end.
pub fn lone_runs_are_one<R>()
    ensures { (program : Program Call Reply R) (start end other : State) (result told : R)
        → TellsAll start
        → start.store.faults < 2 ^ 64 - 1
        → Makes program start result end
        → Makes program start told other
        → end.store.faults ≡ start.store.faults
        → other.store.faults ≡ start.store.faults
        → (result ≡ told) × (end ≡ other) }
{}
