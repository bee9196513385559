//! A drain is driven by one caller, over the mount of its source and the store that is its target.
ghost use Rattle.std.specs.Prelude.{◌≡◌, ◌<◌, true, IfOk, OnErr, OnOk};
ghost use Rattle.store_api.specs.Acts.{Stored};
ghost use Rattle.store_api.specs.Owned.{step_given};
ghost use Rattle.mount_model.specs.Paths.{Name};
ghost use Rattle.mount_model.specs.State.{State};
ghost use Rattle.mount_model.specs.Step.{OwedBy};
ghost use Rattle.mount_sound.specs.Sound.{IsFine};
ghost use Rattle.drain_copy.specs.Machine.{drain_left, drain_standing};
ghost use Rattle.drain_copy.specs.Standing.{AwaitsAnswer, AwaitsReply, HasEnded, IsReady};
ghost use Rattle.drain_program.specs.Driven.{BeginsToDrain, DrainsTo};
ghost use Rattle.drain_program.specs.Stepping.{BreaksOff, GoesOnOrEnds, IsActed, IsCalled, NearsBy, WasActed, WasCalled};

use drain_copy::{Drain, DrainNext, DrainStuck, Drained};
use drain_laws::a_drain_is_always_allowed;
use edge_io::Clock;
use mount_core::Mount;
use mount_model::{Ask, Call};
use plfs_types::{LogicalName, NoMemory};
use std::alloc::Global;
use store_api::{OwnedStep, Store};

/// Makes a call at the source, as caller 0, and hands its reply on.
fn call_source<S: Store + Drop, C: Clock + Drop>(
    mount: &mut Mount<S, C>,
    drain: &mut Drain,
    call: Call,
) -> Result<(), NoMemory>
    requires awaits { AwaitsReply (drain_standing drain.old) }
    requires owed { OwedBy call }
    ensures called { OnOk result (IsCalled call (drain_standing drain.old) mount.old (drain_standing drain.new) mount.new) }
    ensures left { OnOk result (drain_left drain.new < drain_left drain.old) }
    ensures broken_off { OnErr result (WasCalled call mount.old mount.new) }
{
    let reply = mount.apply(0, &Ask { call, stop: None });
    drain.take_source(reply)
}

/// Makes a step at the target, and hands on what it told.
fn act_target<D: Store>(target: &mut D, drain: &mut Drain, step: OwnedStep) -> Result<(), NoMemory>
    requires awaits { AwaitsAnswer (drain_standing drain.old) }
    ensures acted { OnOk result (IsActed (step_given step) (drain_standing drain.old) (D.stored target.old) (drain_standing drain.new) (D.stored target.new)) }
    ensures left { OnOk result (drain_left drain.new < drain_left drain.old) }
    ensures broken_off { OnErr result (WasActed (step_given step) (D.stored target.old) (D.stored target.new)) }
{
    let told = target.act(&step.as_step());
    drain.take_target(told)
}

/// Asks what the drain wants next, and answers whether there was something.
#[tactic(auto, using(crate::proofs::StepLemmas::given_called, crate::proofs::StepLemmas::given_acted, crate::proofs::StepLemmas::given_over, crate::proofs::StepLemmas::broken_call, crate::proofs::StepLemmas::broken_act))]
fn ask_next<S: Store + Drop, D: Store, C: Clock + Drop>(
    mount: &mut Mount<S, C>,
    target: &mut D,
    drain: &mut Drain,
) -> Result<bool, NoMemory>
    requires ready { IsReady (drain_standing drain.old) }
    ensures asked { IfOk result (λ more. GoesOnOrEnds more (drain_standing drain.old) mount.old (D.stored target.old) (drain_standing drain.new) mount.new (D.stored target.new)) }
    ensures left { IfOk result (λ more. more ≡ true → drain_left drain.new < drain_left drain.old) }
    ensures broken_off { OnErr result (BreaksOff (drain_standing drain.old) mount.old (D.stored target.old) mount.new (D.stored target.new)) }
{
    match drain.next()? {
        DrainNext::Source(call) => {
            call_source(mount, drain, call)?;
            Ok(true)
        }
        DrainNext::Target(step) => {
            act_target(target, drain, step)?;
            Ok(true)
        }
        DrainNext::End => Ok(false),
    }
}

/// Asks for all that the drain wants, until it has ended.
#[tactic(auto, using(crate::proofs::StepLemmas::goes_nearer, crate::proofs::StepLemmas::ready_on, crate::proofs::StepLemmas::has_ended, crate::proofs::StepLemmas::began_to))]
fn ask_all<S: Store + Drop, D: Store, C: Clock + Drop>(
    mount: &mut Mount<S, C>,
    target: &mut D,
    drain: &mut Drain,
) -> Result<(), NoMemory>
    requires { IsReady (drain_standing drain.old) }
    ensures nearer { OnOk result ((name : Name) (start : State) (before : Stored) → NearsBy name start before (drain_standing drain.old) mount.old (D.stored target.old) → NearsBy name start before (drain_standing drain.new) mount.new (D.stored target.new)) }
    ensures ended { OnOk result (HasEnded (drain_standing drain.new)) }
    ensures broken_off { OnErr result ((name : Name) (start : State) (before : Stored) → NearsBy name start before (drain_standing drain.old) mount.old (D.stored target.old) → BeginsToDrain name start before mount.new (D.stored target.new)) }
{
    while ask_next(mount, target, drain)? {}
    Ok(())
}

/// Drains the container of this name, as caller 0 by itself: all calls of the drain at the source's mount, and all its steps at the
/// target. After `NoMemory` those that were made until then stand: a front of them, of which the last one may have been refused
/// memory.
#[tactic(auto, using(crate::proofs::StepLemmas::nears_first, crate::proofs::StepLemmas::drained_to))]
pub(crate) fn drive<S: Store + Drop, D: Store, C: Clock + Drop>(
    alloc: Global,
    mount: &mut Mount<S, C>,
    target: &mut D,
    name: LogicalName,
) -> Result<Result<Drained, DrainStuck>, NoMemory>
    requires { IsFine mount.old }
    ensures drained { IfOk result (λ outcome. DrainsTo name mount.old (D.stored target.old) outcome mount.new (D.stored target.new)) }
    ensures broken_off { OnErr result (BeginsToDrain name mount.old (D.stored target.old) mount.new (D.stored target.new)) }
{
    a_drain_is_always_allowed();
    let mut drain = Drain::new(alloc, name);
    match ask_all(mount, target, &mut drain) {
        Ok(()) => Ok(drain.out()),
        Err(error) => {
            drop(drain);
            Err(error)
        }
    }
}
