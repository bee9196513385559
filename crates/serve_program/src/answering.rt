//! One frame is answered.
ghost use Rattle.std.specs.Prelude.{◌≤◌, ◌<◌, length, IfOk, OnErr};
ghost use Rattle.mount_sound.specs.Sound.{IsFine};
ghost use Rattle.serve_core.specs.Making.{AreAtRest};
ghost use Rattle.script_lang.specs.Ranges.{FitsStatement};
ghost use Rattle.serve_program.specs.Answering.{AnswersFrame, AnswersRequest, BreaksFrame, BreaksRequest};

use edge_io::Clock;
use frame_format::{Answer, Head, answer_of, request};
use mount_core::Mount;
use plfs_types::{Bytes, NoMemory};
use script_lang::Numbered;
use serve_core::{Client, serve};
use std::alloc::Global;
use store_api::Store;

// Makes the request, and tells its line.
fn answer_request<S: Store + Drop, C: Clock + Drop>(
    alloc: Global,
    mount: &mut Mount<S, C>,
    clients: &mut [Client],
    asked: Numbered,
) -> Result<Answer, NoMemory>
    requires rest { AreAtRest clients.old }
    requires there { asked.actor < length clients.old }
    requires fits { FitsStatement asked.statement }
    requires fine { IsFine mount.old }
    ensures answers { IfOk result (λ answer. AnswersRequest asked clients.old mount.old answer clients.new mount.new) }
    ensures broken { OnErr result (BreaksRequest asked clients.old mount.old clients.new mount.new) }
    ensures fine { IsFine mount.new }
{
    let line = serve(mount, clients, asked)?;
    let answer = answer_of(alloc, line)?;
    Ok(answer)
}

/// The answer to a frame: where it is a request, the client of its actor makes it, and the answer tells its line. Else nothing is done.
pub(crate) fn answer_frame<S: Store + Drop, C: Clock + Drop>(
    alloc: Global,
    mount: &mut Mount<S, C>,
    clients: &mut [Client],
    head: Head,
    payload: Bytes,
) -> Result<Answer, NoMemory>
    requires rest { AreAtRest clients.old }
    requires many { 256 ≤ length clients.old }
    requires fine { IsFine mount.old }
    ensures answers { IfOk result (λ answer. AnswersFrame head payload clients.old mount.old answer clients.new mount.new) }
    ensures broken { OnErr result (BreaksFrame head payload clients.old mount.old clients.new mount.new) }
    ensures fine { IsFine mount.new }
{
    match request(&head, payload) {
        Some(asked) => answer_request(alloc, mount, clients, asked),
        None => Ok(Answer::no_request(alloc, head.number)),
    }
}
