//! Calls of a mount through a pass of its turn.
ghost use Rattle.std.specs.Prelude.{◌≡◌, ◌<◌, true, false};
ghost use Rattle.turn_object.specs.Pass.{front, parts_of, start_of};
ghost use Rattle.mount_model.specs.Step.{OwedBy};
ghost use Rattle.mount_sound.specs.Owed.{OwesNothing};
ghost use Rattle.drain_copy.specs.Machine.{drain_left, drain_standing};
ghost use Rattle.drain_copy.specs.Standing.{HasEnded};
ghost use Rattle.drain_turn_tests.specs.Passing.{CanCall, MayDrainBy};

use drain_copy::{Drain, DrainNext};
use drain_laws::a_drain_is_always_allowed;
use edge_io::ListClock;
use mount_core::Mount;
use mount_model::{Ask, Call, Reply};
use plfs_types::LogicalName;
use std::alloc::Global;
use std::process::Abort;
use std::sync::Wait;
use store_api::Store;
use store_memory::MemoryStore;
use turn_object::{Pass, Turn};

/// The mount that threads use in turn.
pub(crate) type Source = Mount<MemoryStore, ListClock>;

// The number that a reply gives.
fn number_in(reply: Reply) -> u64 {
    match reply {
        Reply::Room { room } => room,
        Reply::Entered { writer } => writer,
        other => {
            drop(other);
            0
        }
    }
}

/// Makes a call for which nothing is owed, and gives the number that is replied.
#[tactic(auto, using(crate::proofs::Passes::may_make, crate::proofs::Passes::can_more))]
pub(crate) fn make<W: Wait>(rt: &W, turn: &Turn<Source>, pass: &mut Pass<Source>, call: Call) -> u64
    requires can { CanCall turn.now pass.old }
    requires nothing { OwesNothing call }
    requires numbers { OwedBy call }
    ensures can { CanCall turn.now pass.new }
    ensures parts { parts_of pass.new ≡ parts_of pass.old }
{
    let ask = Ask { call, stop: None };
    let reply = turn.call(rt, pass, &ask);
    drop(ask);
    number_in(reply)
}

// Asks for what the drain wants next, and answers whether there was something. Memory isn't refused to it.
#[tactic(auto, using(crate::proofs::Passes::may_call, crate::proofs::Passes::may_go_on, crate::proofs::Passes::may_go_on_told, crate::proofs::Passes::may_end, crate::proofs::Passes::is_ready, crate::proofs::Passes::can_more, drain_copy::proofs::DriveLemmas::given_call, drain_copy::proofs::DriveLemmas::given_step, drain_copy::proofs::DriveLemmas::given_end))]
fn ask_next<W: Wait + Abort>(
    rt: &W,
    turn: &Turn<Source>,
    pass: &mut Pass<Source>,
    target: &mut MemoryStore,
    drain: &mut Drain,
) -> bool
    requires can { CanCall turn.now pass.old }
    requires may { MayDrainBy (start_of turn.now) (front pass.old) (drain_standing drain.old) }
    ensures can { CanCall turn.now pass.new }
    ensures parts { parts_of pass.new ≡ parts_of pass.old }
    ensures may { MayDrainBy (start_of turn.now) (front pass.new) (drain_standing drain.new) }
    ensures left { result ≡ true → drain_left drain.new < drain_left drain.old }
    ensures ended { result ≡ false → HasEnded (drain_standing drain.new) }
{
    let Ok(next) = drain.next() else {
        panic!(rt; "no memory")
    };
    match next {
        DrainNext::Source(call) => {
            let ask = Ask { call, stop: None };
            let reply = turn.call(rt, pass, &ask);
            drop(ask);
            let Ok(()) = drain.take_source(reply) else {
                panic!(rt; "no memory")
            };
            true
        }
        DrainNext::Target(step) => {
            let told = target.act(&step.as_step());
            drop(step);
            let Ok(()) = drain.take_target(told) else {
                panic!(rt; "no memory")
            };
            true
        }
        DrainNext::End => false,
    }
}

/// Drains the container of this name, and gives how many entries were copied. Nothing breaks it off.
#[tactic(auto, using(crate::proofs::Passes::may_begin))]
pub(crate) fn drain_by<W: Wait + Abort>(
    rt: &W,
    alloc: Global,
    turn: &Turn<Source>,
    pass: &mut Pass<Source>,
    target: &mut MemoryStore,
    name: LogicalName,
) -> u128
    requires { CanCall turn.now pass.old }
    ensures can { CanCall turn.now pass.new }
    ensures parts { parts_of pass.new ≡ parts_of pass.old }
{
    a_drain_is_always_allowed();
    let mut drain = Drain::new(alloc, name);
    while ask_next(rt, turn, pass, target, &mut drain) {}
    let Ok(drained) = drain.out() else {
        panic!(rt; "the drain was stuck")
    };
    drained.entries
}
