//! The laws of a drain's machine.
ghost use Rattle.std.specs.Prelude.{◌≡◌, ◌⊎◌, ℕ, List, Ok, Err, Some};
ghost use Rattle.std.specs.List.{AllByRecursion};
ghost use Rattle.plfs_types.specs.Counts.{HasRisen};
ghost use Rattle.store_api.specs.declared.tree.Tree.{Tree};
ghost use Rattle.store_api.specs.Acts.{Stored};
ghost use Rattle.mount_model.specs.Paths.{Name};
ghost use Rattle.mount_model.specs.State.{State};
ghost use Rattle.mount_sound.specs.Sound.{IsFine};
ghost use Rattle.mount_model.specs.declared.stuck.Stuck.TheVariants.{Fault};
ghost use Rattle.reader_laws.specs.Moments.{Moment, IsSoundAt};
ghost use Rattle.drain_copy.specs.declared.outcome.Drained.{Drained};
ghost use Rattle.drain_copy.specs.declared.outcome.DrainStuck.{DrainStuck};
ghost use Rattle.drain_copy.specs.declared.outcome.DrainStuck.TheVariants.{Source, Taken, TargetDamaged, TargetFault};
ghost use Rattle.drain_copy.specs.Asking.{ends};
ghost use Rattle.drain_copy.specs.Draining.{drain_program};
ghost use Rattle.drain_copy.specs.Planning.{nothing_drained};
ghost use Rattle.drain_copy.specs.Telling.{DrainsOn, Outcome};
ghost use Rattle.drain_sound.specs.Draining.{Happening, HoldsTarget, IsDraining, source_after, target_after};
ghost use Rattle.drain_laws.specs.Allowed.{MayDrain};
ghost use Rattle.drain_laws.specs.Drained.{HasDrained};
ghost use Rattle.drain_laws.specs.Driving.{AreMade, Drives, FindsRoom};
ghost use Rattle.drain_laws.specs.Ending.{HasAllSettled, HasOpenhosts, IsTaken, WhyEnded};
ghost use Rattle.drain_laws.specs.Faults.{EndsInFault, WasServed};
ghost use Rattle.drain_laws.specs.Gathered.{HasGathered, began_at, events_in, listed_at};
ghost use Rattle.drain_laws.specs.Keeping.{IsKeptBySource, IsLeftOf};
ghost use Rattle.drain_laws.specs.Reading.{AllReadBehind, HasNoBareLog};
ghost use Rattle.drain_laws.specs.Resting.{CopiesNothing, HasAll};
ghost use Rattle.drain_laws.specs.Showing.{ShowsSource};

use drain_sound::{a_drain_keeps_its_target, a_loss_keeps_the_target};

/// A law: from a fine state a caller may make all calls of a drain, each after the replies and answers before it, whatever lawful
/// calls others make before it and whatever the target tells. So what it syncs at the source stands there.
pub fn a_drain_is_always_allowed()
    ensures { (caller : ℕ) (name : Name) (state : State) → IsFine state → MayDrain caller (drain_program name) state }
{}

/// A law: a drain whose driver had memory ends in a fault only where a count of faults rose meanwhile, the source's or the target's.
pub fn a_fault_of_a_drain_is_a_stores()
    ensures { (caller : ℕ) (name : Name) (source : Moment) (store : Stored) (happened : List Happening) (outcome : Outcome) → AreMade source store happened → AllByRecursion (WasServed caller) happened → Drives caller (drain_program name) happened (ends outcome) → EndsInFault outcome
        → HasRisen source.state.store.faults (source_after source happened).state.store.faults ⊎ HasRisen store.faults (target_after store happened).faults }
{}

/// A law: it ends in a fault of its source only where the source's count rose meanwhile, and in one of its target only where the
/// target's did. So a fault of the target is told only where an act there answered that.
pub fn a_fault_is_told_of_the_store_that_failed()
    ensures source { (caller : ℕ) (name : Name) (source : Moment) (store : Stored) (happened : List Happening) → AreMade source store happened → AllByRecursion (WasServed caller) happened → Drives caller (drain_program name) happened (ends (Err (Source Fault)))
        → HasRisen source.state.store.faults (source_after source happened).state.store.faults }
    ensures target { (caller : ℕ) (name : Name) (source : Moment) (store : Stored) (happened : List Happening) → AreMade source store happened → AllByRecursion (WasServed caller) happened → Drives caller (drain_program name) happened (ends (Err TargetFault))
        → HasRisen store.faults (target_after store happened).faults }
{}

/// A law: who drives a drain over a target asks it for steps of a drain alone, whatever is replied and told, wherever it ends and
/// whatever lawful calls others make at the source. So the store holds a target at each moment, also after a loss of power.
pub fn a_driven_drain_keeps_its_target()
    ensures steps { (caller number : ℕ) (name : Name) (source : Moment) (store : Stored) (happened : List Happening) (left : DrainsOn) → IsSoundAt source → HoldsTarget source number name store → AreMade source store happened → FindsRoom caller number happened
        → Drives caller (drain_program name) happened left → IsDraining source number name store happened }
    ensures holds { (caller number : ℕ) (name : Name) (source : Moment) (store : Stored) (happened : List Happening) (left : DrainsOn) → IsSoundAt source → HoldsTarget source number name store → AreMade source store happened → FindsRoom caller number happened
        → Drives caller (drain_program name) happened left → HoldsTarget (source_after source happened) number name (target_after store happened) }
{
    a_drain_keeps_its_target();
}

/// A law: why a drain over a target ends before it is through. A store failed, or no container of the source had the name. Or a writer
/// that was settled at the target went on, or the target's container lacks the folder of those that have it open. So neither side
/// shows damage beyond that folder, whatever others call meanwhile, and no other call is refused.
pub fn a_drain_ends_for_a_reason()
    ensures { (caller number : ℕ) (name : Name) (source : Moment) (store : Stored) (happened : List Happening) (why : DrainStuck) → IsSoundAt source → HoldsTarget source number name store → AreMade source store happened → FindsRoom caller number happened
        → Drives caller (drain_program name) happened (ends (Err why)) → WhyEnded caller number name source store happened why }
{}

/// A law: a target whose container has the folder of those that have it open shows a drain no damage, and has it after the drain too,
/// wherever that ends.
pub fn a_target_shows_no_damage()
    ensures none { (caller number : ℕ) (name : Name) (source : Moment) (store : Stored) (happened : List Happening) (folder file : Name) (place : ℕ) → IsSoundAt source → HoldsTarget source number name store → HasOpenhosts name store → AreMade source store happened → FindsRoom caller number happened
        → Drives caller (drain_program name) happened (ends (Err (TargetDamaged folder file place))) → ⊥ }
    ensures lasts { (caller number : ℕ) (name : Name) (source : Moment) (store : Stored) (happened : List Happening) (left : DrainsOn) → IsSoundAt source → HoldsTarget source number name store → HasOpenhosts name store → AreMade source store happened → FindsRoom caller number happened
        → Drives caller (drain_program name) happened left → HasOpenhosts name (target_after store happened) }
{}

/// A law: a drain is taken only by a writer that has a metadata dropping at the target, with just so many entries there, and more at
/// the source. A drain that ends well had all at the target of each writer that was settled there.
pub fn a_drain_is_taken_by_one_that_went_on()
    ensures taken { (caller number : ℕ) (name : Name) (source : Moment) (store : Stored) (happened : List Happening) (writer there here : ℕ) → IsSoundAt source → HoldsTarget source number name store → AreMade source store happened → FindsRoom caller number happened
        → Drives caller (drain_program name) happened (ends (Err (Taken writer there here))) → IsTaken caller number name source store happened writer there here }
    ensures none { (caller number : ℕ) (name : Name) (source : Moment) (store : Stored) (happened : List Happening) (drained : Drained) → IsSoundAt source → HoldsTarget source number name store → AreMade source store happened → FindsRoom caller number happened
        → Drives caller (drain_program name) happened (ends (Ok drained)) → HasAllSettled source number name store }
{}

/// A law: where the drain ends well, the target's container has all entries that had landed at the source as it began, with their
/// bytes, and all truncates that stood there then.
pub fn a_drain_that_ends_well_has_copied()
    ensures { (caller number : ℕ) (name : Name) (source : Moment) (store : Stored) (happened : List Happening) (drained : Drained) → IsSoundAt source → HoldsTarget source number name store → AreMade source store happened → FindsRoom caller number happened
        → Drives caller (drain_program name) happened (ends (Ok drained)) → (after : Tree) × ((target_after store happened).tree ≡ Some after) × HasDrained source (source_after source happened) number name after }
{}

/// A law: so it has after a loss of power: no entry that was drained is lost, nor a byte or a truncate.
pub fn a_drained_target_keeps_it()
    ensures { (caller number : ℕ) (name : Name) (source : Moment) (store : Stored) (happened : List Happening) (drained : Drained) (tree : Tree) → IsSoundAt source → HoldsTarget source number name store → AreMade source store happened → FindsRoom caller number happened
        → Drives caller (drain_program name) happened (ends (Ok drained)) → IsLeftOf (target_after store happened) tree → HasDrained source (source_after source happened) number name tree }
{}

/// A law: where no log stands at the target without its index dropping, each Read of a log at the source begins exactly where the
/// target's log of that writer ends. So no byte is copied twice. And so it stands after the drain, wherever that ends.
pub fn a_drain_reads_behind_its_target()
    ensures behind { (caller number : ℕ) (name : Name) (source : Moment) (store : Stored) (happened : List Happening) (left : DrainsOn) → IsSoundAt source → HoldsTarget source number name store → HasNoBareLog name store → AreMade source store happened → FindsRoom caller number happened
        → Drives caller (drain_program name) happened left → AllReadBehind caller name store happened }
    ensures lasts { (caller number : ℕ) (name : Name) (source : Moment) (store : Stored) (happened : List Happening) (left : DrainsOn) → IsSoundAt source → HoldsTarget source number name store → HasNoBareLog name store → AreMade source store happened → FindsRoom caller number happened
        → Drives caller (drain_program name) happened left → HasNoBareLog name (target_after store happened) }
{}

/// A law: where the source keeps what the target has, so it does at each moment of a drain: each entry and its bytes are synced
/// there before they are copied. So no loss of power at the source takes what was drained.
pub fn a_drain_copies_what_is_kept()
    ensures { (caller number : ℕ) (name : Name) (source : Moment) (store : Stored) (happened : List Happening) (left : DrainsOn) → IsSoundAt source → HoldsTarget source number name store → IsKeptBySource source number name store → AreMade source store happened → FindsRoom caller number happened
        → Drives caller (drain_program name) happened left → IsKeptBySource (source_after source happened) number name (target_after store happened) }
{}

/// A law: where the drain ends well, every reader that is opened on a mount over the target, or over what a loss of power leaves of
/// it, sees the source as the drain gathered it: a cut that is admissible between its first call there and its listing of the
/// truncates, and the truncates of that listing.
pub fn a_drained_target_shows_the_source()
    ensures { (caller number : ℕ) (name : Name) (source : Moment) (store : Stored) (happened : List Happening) (drained : Drained) (tree : Tree) → IsSoundAt source → HoldsTarget source number name store → AreMade source store happened → FindsRoom caller number happened
        → Drives caller (drain_program name) happened (ends (Ok drained)) → IsLeftOf (target_after store happened) tree
        → (g : HasGathered caller number (events_in happened)) × ShowsSource (began_at source g) (listed_at source g) number name tree }
{
    a_loss_keeps_the_target();
}

/// A law: where the target has all that has landed at the source by the drain's end, the drain reads no log and syncs nothing
/// at the source, and writes no byte at the target. Where it ends well, it has drained nothing.
pub fn a_drain_without_news_copies_nothing()
    ensures nothing { (caller number : ℕ) (name : Name) (source : Moment) (store : Stored) (happened : List Happening) (left : DrainsOn) → IsSoundAt source → HoldsTarget source number name store → AreMade source store happened → FindsRoom caller number happened
        → HasAll (source_after source happened) number name store → Drives caller (drain_program name) happened left → CopiesNothing caller happened }
    ensures none { (caller number : ℕ) (name : Name) (source : Moment) (store : Stored) (happened : List Happening) (drained : Drained) → IsSoundAt source → HoldsTarget source number name store → AreMade source store happened → FindsRoom caller number happened
        → HasAll (source_after source happened) number name store → Drives caller (drain_program name) happened (ends (Ok drained)) → drained ≡ nothing_drained }
{}
