//! One machine is taken through the rows of a case, and what comes of it is told.
ghost use Rattle.std.specs.Prelude.{IfOk, IsTrue};
ghost use Rattle.mount_model.specs.Standing.{IsFresh, IsOver, rest_of};

use crate::outcomes::Tell;
use crate::replies::reply_of;
use crate::spelling::{parts, spell};
use mount_model::{Call, Flow, Reply};
use plfs_types::NoMemory;
use std::alloc::Global;
use test_lines::Line;

// The reply of the row to this call, of want of memory where that was met. What both are is put behind `shown`.
fn replied(alloc: Global, call: &Call, row: &str, shown: &mut Line) -> Reply {
    let (_, told) = parts(row, ':');
    spell(shown, call);
    shown.push(": ");
    shown.push(told);
    match reply_of(alloc, told) {
        Ok(Some(reply)) => {
            shown.push("\n");
            reply
        }
        Ok(None) => {
            shown.push(", which is no reply\n");
            Reply::Fault
        }
        Err(NoMemory) => Reply::NoMemory,
    }
}

/// Takes the machine through the replies of these rows, and says whether it then has an outcome: not where it asks for
/// fewer or more. Its calls, each with its reply, are put behind `shown`.
fn is_played<F: Flow>(
    alloc: Global,
    flow: &mut F,
    rows: &str,
    shown: &mut Line,
) -> Result<bool, NoMemory>
    requires { IsFresh (F.standing flow.old) }
    ensures { IfOk result (λ over. IsTrue over → IsOver (rest_of (F.standing flow.new))) }
{
    for row in rows.lines() {
        match flow.next()? {
            Some(call) => {
                let reply = replied(alloc, &call, row, shown);
                drop(call);
                flow.take(reply)?;
            }
            None => return Ok(false),
        }
    }
    match flow.next()? {
        Some(call) => {
            drop(call);
            Ok(false)
        }
        None => Ok(true),
    }
}

/// Shows what a machine makes of these rows: its calls and their replies, and how it ends where it then does.
pub(crate) fn show<F: Flow + Drop>(alloc: Global, mut flow: F, rows: &str, shown: &mut Line)
where
    F::Out: Tell + Drop,
    requires { IsFresh (F.standing flow) }
{
    match is_played(alloc, &mut flow, rows, shown) {
        Ok(true) => {
            let out = flow.out();
            shown.push("= ");
            out.tell(shown);
            drop(out);
        }
        Ok(false) => drop(flow),
        Err(NoMemory) => {
            drop(flow);
            shown.push("= no-memory");
        }
    }
}
