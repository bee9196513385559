//! The laws of a target of drains.
ghost use Rattle.std.specs.Prelude.{◌≡◌, ℕ, List, Option, Some, slice_get};
ghost use Rattle.std.specs.List.{AllByRecursion};
ghost use Rattle.plfs_types.specs.Names.{IsLogicalName};
ghost use Rattle.plfs_types.specs.declared.entries.Trunc.{Trunc};
ghost use Rattle.store_api.specs.declared.tree.Room.{Room};
ghost use Rattle.store_api.specs.declared.tree.Tree.{Tree};
ghost use Rattle.store_api.specs.Acts.{Stored};
ghost use Rattle.store_api.specs.Leaves.{MayLeave};
ghost use Rattle.store_api.specs.Loss.{Loses};
ghost use Rattle.store_api.specs.Step.{Step};
ghost use Rattle.store_laws.specs.Prefix.{IsPrefix};
ghost use Rattle.store_laws.specs.There.{IsFree};
ghost use Rattle.index_entry.specs.Spelling.{spelling_all};
ghost use Rattle.mount_model.specs.History.{Event, IsLegal, told_tree_after};
ghost use Rattle.mount_model.specs.Mounting.{IsMounted};
ghost use Rattle.mount_model.specs.Paths.{Name};
ghost use Rattle.mount_model.specs.State.{State};
ghost use Rattle.mount_sound.specs.Ledger.{Written, AreWritesOf, content, entries_in};
ghost use Rattle.mount_sound.specs.Owed.{IsLawful};
ghost use Rattle.mount_sound.specs.Sound.{IsSoundTree};
ghost use Rattle.reader_laws.specs.Gathering.{Gathered};
ghost use Rattle.reader_laws.specs.Moments.{Moment, IsSoundAt, moment_after};
ghost use Rattle.reader_laws.specs.GatheringOpening.{HasView};
ghost use Rattle.drain_sound.specs.Draining.{Happening, HoldsTarget, IsDraining, source_after, target_after};
ghost use Rattle.drain_sound.specs.Fronts.{IsSoundFront, IsTarget};
ghost use Rattle.drain_sound.specs.Kept.{IsKeptThere};
ghost use Rattle.drain_sound.specs.Steps.{IsDrainStep};
ghost use Rattle.drain_sound.specs.Views.{IsOfSource, MissesNothing, OnlyReads, StaysQuiet, mounted_there};

use mount_losses::a_lost_tree_is_sound;

/// An index dropping and a log that are the first bytes of what a writer issued are sound droppings, of the first of its
/// writes: of all whose entry and bytes are both there whole.
pub fn a_front_is_sound()
    ensures { (writer : ℕ) (issued : List Written) (index log : List ℕ) → AreWritesOf writer issued → IsPrefix index (spelling_all (entries_in issued)) → IsPrefix log (content issued) → IsSoundFront writer issued index log }
{}

/// A sound tree in which no container has the name is a target, so that a first drain may begin there.
pub fn a_tree_without_it_is_a_target()
    ensures { (source : Moment) (number : ℕ) (name : Name) (tree : Tree) → IsLogicalName name → IsSoundTree tree → IsFree tree name → IsTarget source number name tree }
{}

/// Whatever a step of a drain leaves of its target, made, faulted or broken off, is a target of drains of the same room, and
/// so a sound tree.
pub fn a_step_keeps_the_target()
    ensures { (source : Moment) (number : ℕ) (name : Name) (tree after : Tree) (step : Step) → IsSoundAt source
        → IsTarget source number name tree → IsDrainStep source number name tree step → MayLeave tree step after → IsTarget source number name after }
{}

/// So is what a loss of power leaves of it.
pub fn a_loss_keeps_the_target()
    ensures { (source : Moment) (number : ℕ) (name : Name) (tree lost : Tree) → IsTarget source number name tree → Loses tree lost → IsTarget source number name lost }
{
    a_lost_tree_is_sound();
}

/// A target stays one while the source goes on: whatever lawful calls are made there, answered, faulted or broken off.
pub fn a_target_lasts()
    ensures { (source : Moment) (number : ℕ) (name : Name) (tree : Tree) (events : List Event) → IsLawful source.state events → IsSoundAt source
        → IsTarget source number name tree → IsTarget (moment_after source events) number name tree }
{}

/// A target is one for the next mount of its source too, whatever account of the source's tree that begins with.
pub fn a_target_lasts_to_the_next_mount()
    ensures { (source : Moment) (number : ℕ) (name : Name) (tree left : Tree) (room : Room) (serial : ℕ) (times : Option (List ℕ)) (opened : Stored) (start : State)
        → IsSoundAt source → source.state.store.tree ≡ Some left → slice_get left.rooms number ≡ Some room
        → (sound : IsSoundTree left) → IsMounted serial times opened start → opened.tree ≡ Some left → IsTarget source number name tree → IsTarget (mounted_there sound start) number name tree }
{}

/// So it is where the source lost power in between, and kept what the target has: where each writer's files there reach no further
/// than the entries that the source's room keeps, with their bytes.
pub fn a_target_outlasts_a_loss_at_its_source()
    ensures { (source : Moment) (number : ℕ) (name : Name) (tree left lost : Tree) (there : Room) (serial : ℕ) (times : Option (List ℕ)) (opened : Stored) (start : State)
        → IsSoundAt source → source.state.store.tree ≡ Some left → slice_get left.rooms number ≡ Some there → Loses left lost
        → (sound : IsSoundTree lost) → IsMounted serial times opened start → opened.tree ≡ Some lost
        → ((n : ℕ) (room : Room) → slice_get tree.rooms n ≡ Some room → room.name ≡ name → IsKeptThere source number there room)
        → IsTarget source number name tree → IsTarget (mounted_there sound start) number name tree }
{}

/// A mounting over a target leaves one: it makes steps that a drain may make.
pub fn a_mounting_keeps_the_target()
    ensures { (source : Moment) (number : ℕ) (name : Name) (tree after : Tree) (serial : ℕ) (times : Option (List ℕ)) (opened : Stored) (start : State)
        → IsSoundAt source → IsTarget source number name tree → IsMounted serial times opened start → opened.tree ≡ Some tree → start.store.tree ≡ Some after → IsTarget source number name after }
{}

/// Calls that only read leave the tree of a mount over a target as it is, answered, faulted or broken off.
pub fn readers_keep_the_target()
    ensures { (source : Moment) (number : ℕ) (name : Name) (tree after : Tree) (start : State) (events : List Event) → IsTarget source number name tree → start.store.tree ≡ Some tree
        → IsLegal start events → AllByRecursion (λ (event : Event). OnlyReads event.ask.call) events → told_tree_after start events ≡ Some after → IsTarget source number name after }
{}

/// So a store that holds a target holds one at each moment of a drain, whatever its acts are answered, wherever it ends and
/// whatever is called at the source meanwhile, and a loss of power leaves one.
pub fn a_drain_keeps_its_target()
    ensures { (source : Moment) (number : ℕ) (name : Name) (store : Stored) (happened : List Happening) → IsSoundAt source → HoldsTarget source number name store → IsDraining source number name store happened
        → HoldsTarget (source_after source happened) number name (target_after store happened) }
{
    a_lost_tree_is_sound();
}

/// A reader of a mount over a target sees the plain file of a cut of the source, while nobody writes in the container there and no
/// truncate comes. Of each writer it counts no more than has landed at the source, and its truncates are the source's.
pub fn a_reader_there_sees_the_source()
    ensures { (source : Moment) (number : ℕ) (name : Name) (tree : Tree) (n : ℕ) (room : Room) (serial : ℕ) (times : Option (List ℕ)) (opened : Stored) (start : State) (events : List Event) (first : Moment) (cut : List Gathered) (truncs : List Trunc)
        → IsSoundAt source → (target : IsTarget source number name tree) → slice_get tree.rooms n ≡ Some room → room.name ≡ name
        → IsMounted serial times opened start → opened.tree ≡ Some tree → IsLawful start events
        → StaysQuiet (mounted_there target.sound start) (moment_after (mounted_there target.sound start) events) n
        → HasView first (moment_after (mounted_there target.sound start) events) n cut truncs
        → IsOfSource source number (moment_after (mounted_there target.sound start) events) cut truncs }
{}

/// A reader that is opened there after the mounting misses nothing that was copied: its cut counts of each writer no fewer
/// entries than the target has whole with their bytes, and it has each of the target's truncates.
pub fn a_reader_there_misses_nothing_copied()
    ensures { (source : Moment) (number : ℕ) (name : Name) (tree : Tree) (n : ℕ) (room : Room) (serial : ℕ) (times : Option (List ℕ)) (opened : Stored) (start : State) (before gathering : List Event) (cut : List Gathered) (truncs : List Trunc)
        → IsSoundAt source → (target : IsTarget source number name tree) → slice_get tree.rooms n ≡ Some room → room.name ≡ name
        → IsMounted serial times opened start → opened.tree ≡ Some tree → IsLawful start before → IsLawful (moment_after (mounted_there target.sound start) before).state gathering
        → HasView (moment_after (mounted_there target.sound start) before) (moment_after (moment_after (mounted_there target.sound start) before) gathering) n cut truncs
        → MissesNothing source number n room cut truncs }
{}
