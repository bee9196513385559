//! How a machine is driven.
ghost use Rattle.std.specs.Prelude.{if◌then◌else◌};
ghost use Rattle.mount_model.specs.declared.call.Call.TheVariants.{Greet as AsksToGreet};
ghost use Rattle.mount_model.specs.Program.{done, ask};
ghost use Rattle.mount_model.specs.Standing.{ready};

use crate::cases::all_hold;
use mount_model::{Call, Flow, Reply};
use plfs_types::NoMemory;
use writer_flow::{CloseFlow, OpenWrite, SyncFlow, WriteFlow};

/// Greets once, and ends with a word.
#[derive(Drop)]
pub(crate) struct Greeter {
    pub(crate) is_answered: bool,
}

impl Flow for Greeter {
    type Out = u8;

    ghost standing = { λ m. if m.is_answered then ready (done 7) else ready (ask AsksToGreet (λ _. done 7)) };

    ghost left = { λ m. if m.is_answered then 0 else 1 };

    ghost frugal = { Unit {0} };

    fn next(&mut self) -> Result<Option<Call>, NoMemory> {
        if self.is_answered {
            Ok(None)
        } else {
            Ok(Some(Call::Greet))
        }
    }

    fn take(&mut self, reply: Reply) -> Result<(), NoMemory> {
        if let Reply::NoMemory = reply {
            return Err(NoMemory);
        }
        self.is_answered = true;
        Ok(())
    }

    fn out(self) -> u8 {
        7
    }
}

const CASES: &str = "\
greet
greet: fault
= answer 7

greet # want of memory ends a machine
greet: no-memory
= no-memory

sync 0
sync-log 4294967297: no-memory
= no-memory
";

fn cross<A: Send, B: Send, C: Send, D: Send>() {}

#[test]
fn machines_are_driven_through_their_bound_and_cross_threads(rt: HostRuntime) {
    cross::<OpenWrite, WriteFlow, SyncFlow, CloseFlow>();
    all_hold(&rt, rt.alloc(), CASES)
}
