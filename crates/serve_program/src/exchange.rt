//! Frames are answered until the source ends.
ghost use Rattle.std.specs.Prelude.{◌≤◌, length, List};
ghost use Rattle.mount_sound.specs.Sound.{IsFine};
ghost use Rattle.script_lang.specs.declared.script.ActorDecl.{ActorDecl};
ghost use Rattle.serve_core.specs.Making.{AreAtRest};
ghost use Rattle.serve_core.specs.Serving.{AreNew};
ghost use Rattle.frame_format.specs.Telling.{no_memory};
ghost use Rattle.serve_program.specs.Exchange.{HasExchanged, IsTold, StepsOn, StepsSo};

use crate::answering::answer_frame;
use edge_io::{Clock, Sink};
use frame_format::{Answer, Head};
use frame_streams::{Arrival, Frames, write_answer};
use mount_core::Mount;
use plfs_types::Bytes;
use serve_core::Client;
use std::alloc::Global;
use store_api::Store;

/// Why no further frame is answered.
#[derive(Clone, Copy)]
pub enum Stop {
    /// The source has no further byte.
    End,
    /// The source ended within a frame, a frame is longer than it may be, or a read failed.
    Unread,
    /// The sink failed, or took nothing of an answer.
    Unwritten,
    /// Memory was refused.
    NoMemory,
    /// 2^64 - 1 frames were answered.
    Spent,
}

// Tells that memory was refused for the request of this number, as far as the sink takes it.
fn tell_no_memory<O: Sink>(alloc: Global, out: &mut O, number: u64)
    ensures told { IsTold (no_memory number) (O.taking out.old) (O.taking out.new) }
{
    let answer = Answer::no_memory(alloc, number);
    let _ = write_answer(out, &answer);
}

// Answers a frame. None where further ones may follow.
fn step_on<S: Store + Drop, C: Clock + Drop, O: Sink>(
    alloc: Global,
    mount: &mut Mount<S, C>,
    clients: &mut [Client],
    out: &mut O,
    head: Head,
    payload: Bytes,
) -> Option<Stop>
    requires rest { AreAtRest clients.old }
    requires many { 256 ≤ length clients.old }
    requires fine { IsFine mount.old }
    ensures steps { StepsOn head payload clients.old mount.old (O.taking out.old) result clients.new mount.new (O.taking out.new) }
    ensures fine { IsFine mount.new }
{
    let Ok(answer) = answer_frame(alloc, mount, clients, head, payload) else {
        tell_no_memory(alloc, out, head.number);
        return Some(Stop::NoMemory);
    };
    match write_answer(out, &answer) {
        Ok(()) => None,
        Err(_) => Some(Stop::Unwritten),
    }
}

// Reads a frame and answers it. None where further ones may follow.
fn step<S: Store + Drop, C: Clock + Drop, I: Frames, O: Sink>(
    alloc: Global,
    mount: &mut Mount<S, C>,
    clients: &mut [Client],
    input: &mut I,
    out: &mut O,
) -> Option<Stop>
    requires rest { AreAtRest clients.old }
    requires many { 256 ≤ length clients.old }
    requires fine { IsFine mount.old }
    ensures steps { StepsSo clients.old mount.old (I.given input.old) (O.taking out.old) result clients.new mount.new (I.given input.new) (O.taking out.new) }
    ensures fine { IsFine mount.new }
{
    let Ok(arrival) = input.next(alloc) else {
        return Some(Stop::NoMemory);
    };
    match arrival {
        Arrival::Frame { head, payload } => step_on(alloc, mount, clients, out, head, payload),
        Arrival::End => Some(Stop::End),
        Arrival::Cut => Some(Stop::Unread),
        Arrival::Long { .. } => Some(Stop::Unread),
        Arrival::Failed => Some(Stop::Unread),
    }
}

/// Answers the frames of the source, one after the other, until it ends or something breaks that off.
pub(crate) fn exchange<S: Store + Drop, C: Clock + Drop, I: Frames, O: Sink>(
    alloc: Global,
    mount: &mut Mount<S, C>,
    clients: &mut [Client],
    input: &mut I,
    out: &mut O,
) -> Stop
    requires rest { AreAtRest clients.old }
    requires many { 256 ≤ length clients.old }
    requires fine { IsFine mount.old }
    ensures exchanged { (declared : List ActorDecl) → AreNew declared clients.old → HasExchanged declared mount.old (I.given input.old) (O.taking out.old) result clients.new mount.new (I.given input.new) (O.taking out.new) }
    ensures fine { IsFine mount.new }
{
    for _i in 0..u64::MAX {
        if let Some(stop) = step(alloc, mount, clients, input, out) {
            return stop;
        }
    }
    Stop::Spent
}
