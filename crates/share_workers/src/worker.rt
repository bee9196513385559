//! A worker of a reader.
ghost use Rattle.std.specs.Prelude.{◌≡◌, IfOk};
ghost use Rattle.mount_model.specs.Running.{asking};
ghost use Rattle.mount_model.specs.Standing.{ready};
ghost use Rattle.mount_model.specs.declared.call.Call.{Call as ACall};
ghost use Rattle.mount_model.specs.declared.reply.Reply.{Reply as AReply};
ghost use Rattle.mount_model.specs.Step.{IsStep};
ghost use Rattle.mount_sound.specs.Owed.{Permits};
ghost use Rattle.turn_object.specs.Front.{IsLegalFront};
ghost use Rattle.turn_object.specs.Pass.{start_of, front, ended_of, IsPassOf};
ghost use Rattle.mount_model.specs.Program.{Program};
ghost use Rattle.mount_model.specs.Safe.{PassSafe};
ghost use Rattle.share_workers.specs.Passes.{IsAfter};
ghost use Rattle.share_workers.specs.Workers.{HasBegun, HasRead, CanRead, Works};

use edge_io::{Clock, Gate};
use index_reader::{Share, ShareRead};
use mount_core::Mount;
use mount_model::{Ask, Flow, Stuck};
use plfs_types::NoMemory;
use std::mem;
use std::sync::Wait;
use store_api::Store;
use turn_object::{Pass, Turn};

/// What became of a worker's share.
#[derive(Drop)]
pub(crate) enum Part {
    ToRead(ShareRead),
    Read(Result<Share, Stuck>),
    /// Memory was refused.
    Lost,
}

/// A worker of a reader: its pass, its number, from 1, and its share. The type of its pass is a bare parameter, since only so it is seen to cross threads.
#[derive(Drop)]
pub(crate) struct Worker<P> {
    pub(crate) pass: P,
    pub(crate) number: u64,
    pub(crate) part: Part,
}

impl<P> Worker<P> {
    /// Its pass, and its share.
    pub(crate) fn apart(self) -> (P, Part)
        ensures pass { result.0 ≡ self.pass }
        ensures part { result.1 ≡ self.part }
    {
        let Worker {
            pass,
            number: _,
            part,
        } = self;
        (pass, part)
    }
}

/// Makes the calls of a machine, each after the gate, and gives its result. After `NoMemory` they are a front of those.
fn read_through<S: Store + Drop, C: Clock + Drop, F: Flow + Drop, G: Gate, W: Wait>(
    rt: &W,
    turn: &Turn<Mount<S, C>>,
    gate: &G,
    pass: &mut Pass<Mount<S, C>>,
    actor: u64,
    worker: u64,
    flow: F,
) -> Result<F::Out, NoMemory>
    requires pass { IsPassOf turn.now pass.old }
    requires known { IsLegalFront IsStep Permits (start_of turn.now) (front pass.old) }
    requires safe { (program : Program ACall AReply F.Out) × (F.standing flow ≡ ready program) × PassSafe IsStep Permits (start_of turn.now) (front pass.old) (asking program) }
    ensures after { IsAfter turn.now pass.old pass.new }
    ensures ended { ended_of pass.new ≡ ended_of pass.old }
    ensures begun { (program : Program ACall AReply F.Out) → F.standing flow ≡ ready program → HasBegun (front pass.old) (asking program) (front pass.new) }
    ensures read { IfOk result (λ out. (program : Program ACall AReply F.Out) → F.standing flow ≡ ready program → HasRead (front pass.old) (asking program) (front pass.new) out) }
{
    let mut machine = flow;
    let mut made: u64 = 0;
    while let Some(call) = machine.next()? {
        made = made.saturating_add(1);
        gate.before(actor, worker, made);
        let ask = Ask { call, stop: None };
        let reply = turn.call(rt, pass, &ask);
        drop(ask);
        machine.take(reply)?;
    }
    Ok(machine.out())
}

/// Reads its share.
pub(crate) fn work<S: Store + Drop, C: Clock + Drop, G: Gate, W: Wait>(
    rt: &W,
    turn: &Turn<Mount<S, C>>,
    gate: &G,
    actor: u64,
    worker: &mut Worker<Pass<Mount<S, C>>>,
)
    requires { CanRead turn.now worker.old }
    ensures { Works turn.now worker.old worker.new }
{
    let number = worker.number;
    match mem::replace(&mut worker.part, Part::Lost) {
        Part::ToRead(flow) => {
            if let Ok(result) = read_through(
                rt,
                turn,
                gate,
                &mut worker.pass,
                actor,
                number,
                flow,
            ) {
                worker.part = Part::Read(result);
            }
        }
        _ => unreachable!(),
    }
}
