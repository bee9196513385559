//! What a machine is.
ghost use Rattle.std.specs.Prelude.{◌≡◌, ◌≢◌, ◌<◌, ℕ, IfOk, IfSome, OnOk, IsOk, IsErr, Some};
ghost use Rattle.mount_model.specs.declared.call.Call.{Call as Asked};
ghost use Rattle.mount_model.specs.declared.reply.Reply.{Reply as Replied};
ghost use Rattle.mount_model.specs.declared.reply.Reply.TheVariants.{NoMemory as WantsMemory};
ghost use Rattle.mount_model.specs.Step.{OwedBy};
ghost use Rattle.mount_model.specs.Standing.{Standing, next_of, rest_of, replied, ready, Awaits, IsOver, over};

use crate::call::Call;
use crate::reply::Reply;
use plfs_types::NoMemory;

/// A machine gives the calls of its program, one after the other, each after the reply to the one before.
pub trait Flow {
    /// What it ends with.
    type Out;

    /// Where it stands in its program.
    ghost standing: { Self → Standing Asked Replied Self.Out };

    /// A bound on the calls that are left.
    ghost left: { Self → ℕ };

    /// That it takes no memory of its own.
    ghost frugal: { Type 0 } = { ⊥ };

    /// The next call, or None exactly where there is no further one. One that was given and is not answered yet is
    /// given again, but where it can't be, as a call that hands bytes over: then there is none before its reply.
    fn next(&mut self) -> Result<Option<Call>, NoMemory>
        ensures call { IfOk result (λ call. call ≡ next_of (standing self.old)) }
        ensures owed { IfOk result (λ call. IfSome call OwedBy) }
        ensures rest { OnOk result (rest_of (standing self.new) ≡ rest_of (standing self.old)) }

        // A call that is given again is the same one.
        ensures again { OnOk result (IfSome (next_of (standing self.new)) (λ call. next_of (standing self.old) ≡ Some call)) }
        ensures left { OnOk result (left self.new ≡ left self.old) }
        ensures memory { frugal → IsOk result };

    /// Goes on with the reply to the call that `next` gave. A reply of `NoMemory` ends the machine, and is answered
    /// so; any other one where the machine lacks memory itself.
    fn take(&mut self, reply: Reply) -> Result<(), NoMemory>
        requires { Awaits (rest_of (standing self.old)) }
        ensures goes_on { OnOk result (standing self.new ≡ ready (replied (rest_of (standing self.old)) reply)) }
        ensures left { OnOk result (left self.new < left self.old) }
        ensures no_memory { reply ≡ WantsMemory → IsErr result }
        ensures memory { frugal → reply ≢ WantsMemory → IsOk result };

    /// What it ends with, once `next` gave None. A machine that answered `NoMemory` has no result.
    fn out(self) -> Self::Out
        requires { IsOver (rest_of (standing self)) }
        ensures { rest_of (standing self) ≡ over result };
}
