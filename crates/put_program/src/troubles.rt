//! The laws of a copying that ended in trouble.
ghost use Rattle.std.specs.Prelude.{ℕ, Bool, Result};
ghost use Rattle.plfs_types.specs.Counts.{HasRisen};
ghost use Rattle.edge_io.specs.Source.{Given};
ghost use Rattle.mount_model.specs.Paths.{Name};
ghost use Rattle.mount_model.specs.State.{State};
ghost use Rattle.mount_model.specs.declared.stuck.Stuck.{Stuck};
ghost use Rattle.reader_laws.specs.Moments.{IsSoundAt, Moment};
ghost use Rattle.lone_flow.specs.Faults.{IsFault};
ghost use Rattle.trouble_laws.specs.Undamaged.{IsUndamaged};
ghost use Rattle.copy_core.specs.declared.copying.Copied.{Copied};
ghost use Rattle.copy_core.specs.Copying.{Copies};

use trouble_laws::a_statement_shows_no_damage;

/// A law: a copying ends in a fault only where the store's count of faults rose meanwhile, whatever the store tells.
pub fn a_fault_of_a_copying_is_the_stores()
    ensures { (name : Name) (host : ℕ) (over : Bool) (start : State) (old : Given) (told : Result Copied Stuck) (end : State) (new : Given) → Copies name host over start old told end new → IsFault told → HasRisen start.store.faults end.store.faults }
{}

/// A law: a copying from a sound state isn't told of damage, whatever fault the store answers.
pub fn a_copying_shows_no_damage()
    ensures { (name : Name) (host : ℕ) (over : Bool) (start : Moment) (old : Given) (told : Result Copied Stuck) (end : State) (new : Given) → IsSoundAt start → Copies name host over start.state old told end new → IsUndamaged told }
{
    a_statement_shows_no_damage();
}
