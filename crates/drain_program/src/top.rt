//! The whole of a drain: words, mount, work, output, status.
ghost use Rattle.std.specs.Prelude.{◌≡◌, ◌≢◌, ◌⊎◌, ℕ, List, Option, Some, option_map};
ghost use Rattle.plfs_types.specs.Counts.{HasRisen};
ghost use Rattle.plfs_types.specs.Names.{IsLogicalName};
ghost use Rattle.store_api.specs.declared.tree.Tree.{Tree};
ghost use Rattle.store_api.specs.Acts.{Stored};
ghost use Rattle.mount_model.specs.Paths.{Name};
ghost use Rattle.program_ends.specs.Outcomes.{IsDone};
ghost use Rattle.program_ends.specs.Ends.{ends_of};
ghost use Rattle.program_ends.specs.SoundTrees.{LeavesSoundTree, TellsSoundTree};
ghost use Rattle.drain_laws.specs.Ending.{HasOpenhosts};
ghost use Rattle.drain_laws.specs.Keeping.{IsLeftOf};
ghost use Rattle.drain_program.specs.Complete.{HadNoTrouble, WhyRefused};
ghost use Rattle.drain_program.specs.Course.{DrainCourse, DrainRun};
ghost use Rattle.drain_program.specs.Targets.{HasCopiedAll, HasSource, HasTarget, IsDrainable, ShowsAll};
ghost use Rattle.drain_program.specs.Words.{IsDrainCommand};

use crate::saying::drain_mounted;
use crate::words::DrainCommand;
use drain_laws::{
    a_drain_copies_what_is_kept, a_drain_ends_for_a_reason, a_drain_is_taken_by_one_that_went_on,
    a_drain_reads_behind_its_target, a_drain_that_ends_well_has_copied,
    a_drain_without_news_copies_nothing, a_drained_target_keeps_it,
    a_drained_target_shows_the_source, a_driven_drain_keeps_its_target,
    a_fault_of_a_drain_is_a_stores, a_target_shows_no_damage,
};
use drain_sound::{
    a_loss_keeps_the_target, a_target_lasts_to_the_next_mount, a_tree_without_it_is_a_target,
};
use edge_io::{Clock, Sink};
use mount_core::Mount;
use mount_sound::a_failed_mounting_leaves_a_sound_tree;
use plfs_types::{LogicalName, Word};
use program_ends::{USAGE, marks_are_why, say, say_unmounted};
use std::alloc::Global;
use store_api::Store;

/// What a drain leaves: both stores, and its status.
#[derive(Drop)]
pub struct DrainEnded<S, D> {
    /// The source's store.
    pub store: Option<S>,
    pub target: D,
    pub status: u8,
}

/// Both stores are handed back, with this status.
fn ends<S, D>(store: S, target: D, status: u8) -> DrainEnded<S, D>
    ensures store { result.store ≡ Some store }
    ensures target { result.target ≡ target }
    ensures status { result.status ≡ status }
{
    DrainEnded {
        store: Some(store),
        target,
        status,
    }
}

/// Mounts the source, and drains the container of this name.
#[inline(never)]
fn run<S: Store + Drop, D: Store, C: Clock + Drop, O: Sink>(
    alloc: Global,
    name: LogicalName,
    out: &mut O,
    store: S,
    target: D,
    clock: C,
) -> DrainEnded<S, D>
    requires { IsLogicalName name }
    ensures { DrainRun name (ends_of (C.times clock) (O.taking out.old) (O.taking out.new) (S.stored store) (option_map S.stored result.store)) (D.stored target) (D.stored result.target) result.status }
{
    a_tree_without_it_is_a_target();
    a_loss_keeps_the_target();
    a_target_lasts_to_the_next_mount();
    a_driven_drain_keeps_its_target();
    a_drain_that_ends_well_has_copied();
    a_fault_of_a_drain_is_a_stores();
    a_drain_reads_behind_its_target();
    a_drain_copies_what_is_kept();
    a_drained_target_keeps_it();
    a_drained_target_shows_the_source();
    a_drain_without_news_copies_nothing();
    a_drain_ends_for_a_reason();
    a_drain_is_taken_by_one_that_went_on();
    a_target_shows_no_damage();
    let mut target = target;
    match Mount::open(alloc, store, clock) {
        Ok(mount) => {
            let mut mount = mount;
            let status = drain_mounted(alloc, &mut mount, &mut target, name, out);
            ends(mount.close(), target, status)
        }
        Err((store, trouble)) => {
            let status = say_unmounted(alloc, out, trouble);
            ends(store, target, status)
        }
    }
}

/// Prints the usage line.
fn refuse<S: Store, D: Store, O: Sink>(out: &mut O, store: S, target: D) -> DrainEnded<S, D>
    ensures sound { TellsSoundTree (S.stored store) → LeavesSoundTree (option_map S.stored result.store) }
    ensures course { (words : List (List ℕ)) (times : Option (List ℕ)) → ((name : Name) → IsDrainCommand words name → ⊥)
        → DrainCourse words (ends_of times (O.taking out.old) (O.taking out.new) (S.stored store) (option_map S.stored result.store)) (D.stored target) (D.stored result.target) result.status }
{
    say(out, USAGE);
    ends(store, target, 2)
}

/// Drains a container of the source to a second store, the target: `drain NAME`, behind which may stand the word of the target's folder.
///
/// The source is mounted, and the calls of a drain are made there, by one caller by itself; its steps are made at the target. What the
/// target has is not copied again. It prints how many writers, entries and bytes it wrote, or `refused taken` of a writer that has
/// left at the target and has more entries at the source, or its trouble's line with number 0, of which nothing tells at which of
/// both it was. Other words print the usage line, and no act is made.
///
/// The status is 4 only where a count of faults has risen, the source's or the target's.
/// Where the source told a sound tree a sound tree is left there. Where moreover the target came from drains of this container alone,
/// it holds a target at each moment, which no loss of power takes, and so it is one for the next drain. Where then the status is 0, the
/// target's container has all entries that had landed in the source's, and the truncates that stood there. So it has after a loss of
/// power, and its readers see the source as the drain gathered it.
/// Over these stores, and over two that have no container of the name, the status is 1 only where no mount of the source has a number
/// left, the source has no such container, or a writer has left at the target and has more entries at the source.
/// Where besides that the target's container has the folder of those that have it open, the status is not 7. Where then no count of the
/// source, the target or the sink has risen, and the sink took something of each piece, it is 0, 1 or 3.
pub fn drain<S: Store + Drop, D: Store, C: Clock + Drop, O: Sink>(
    alloc: Global,
    words: &[Word],
    out: &mut O,
    store: S,
    target: D,
    clock: C,
) -> DrainEnded<S, D>
    ensures course { DrainCourse words.now (ends_of (C.times clock) (O.taking out.old) (O.taking out.new) (S.stored store) (option_map S.stored result.store)) (D.stored target) (D.stored result.target) result.status }
    ensures sound { TellsSoundTree (S.stored store) → LeavesSoundTree (option_map S.stored result.store) }
    ensures stays { (number : ℕ) (name : Name) → IsDrainCommand words.now name → HasSource number name (S.stored store) → HasTarget number name (S.stored store) (D.stored target)
        → (D.stored result.target ≡ D.stored target) ⊎ ((after : Stored) × (option_map S.stored result.store ≡ Some after) × HasTarget number name after (D.stored result.target)) }
    ensures cause { result.status ≡ 4 → (after : Stored) × (option_map S.stored result.store ≡ Some after) × (HasRisen (S.stored store).faults after.faults ⊎ HasRisen (D.stored target).faults (D.stored result.target).faults) }
    ensures copies { (number : ℕ) (name : Name) → IsDrainCommand words.now name → HasSource number name (S.stored store) → HasTarget number name (S.stored store) (D.stored target) → result.status ≡ 0 → HasCopiedAll number name (S.stored store) (D.stored result.target) }
    ensures shows { (number : ℕ) (name : Name) → IsDrainCommand words.now name → HasSource number name (S.stored store) → HasTarget number name (S.stored store) (D.stored target) → result.status ≡ 0
        → (tree : Tree) → IsLeftOf (D.stored result.target) tree → ShowsAll number name (S.stored store) tree }
    ensures refused { (number : ℕ) (name : Name) → IsDrainCommand words.now name → IsDrainable number name (S.stored store) (D.stored target) → result.status ≡ 1 → WhyRefused number name (S.stored store) (D.stored target) }
    ensures undamaged { (number : ℕ) (name : Name) → IsDrainCommand words.now name → IsDrainable number name (S.stored store) (D.stored target) → HasOpenhosts name (D.stored target) → result.status ≢ 7 }
    ensures complete { (number : ℕ) (name : Name) → IsDrainCommand words.now name → IsDrainable number name (S.stored store) (D.stored target) → HasOpenhosts name (D.stored target)
        → HadNoTrouble (ends_of (C.times clock) (O.taking out.old) (O.taking out.new) (S.stored store) (option_map S.stored result.store)) (D.stored target) (D.stored result.target) → IsDone result.status }
{
    a_failed_mounting_leaves_a_sound_tree();
    marks_are_why();
    match DrainCommand::read(words) {
        Some(command) => run(alloc, command.name, out, store, target, clock),
        None => refuse(out, store, target),
    }
}
