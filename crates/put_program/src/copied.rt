//! The laws of a source that was copied.
ghost use Rattle.std.specs.Prelude.{◌≡◌, ℕ, Bool, true, Some, List, [], ◌∷◌, length, Ok, Result};
ghost use Rattle.std.specs.List.{AllByRecursion};
ghost use Rattle.edge_io.specs.Source.{Given};
ghost use Rattle.mount_model.specs.History.{Event};
ghost use Rattle.mount_model.specs.Paths.{Name};
ghost use Rattle.mount_model.specs.State.{State};
ghost use Rattle.mount_sound.specs.Owed.{IsLawful};
ghost use Rattle.mount_model.specs.declared.stuck.Stuck.{Stuck};
ghost use Rattle.index_reader.specs.declared.opened.OpenReader.{OpenReader};
ghost use Rattle.reader_laws.specs.Moments.{IsSoundAt, Moment, moment_after};
ghost use Rattle.reader_laws.specs.View.{view};
ghost use Rattle.reader_laws.specs.Opened.{HasOpenedIn};
ghost use Rattle.packing_laws.specs.Lasting.{HoldsWrites, IsLater};
ghost use Rattle.copy_core.specs.declared.copying.Copied.{Copied};
ghost use Rattle.copy_core.specs.Blocks.{joined};
ghost use Rattle.copy_core.specs.Copying.{BeginsToCopy, Copies};
ghost use Rattle.put_program.specs.Alone.{HasAlone};
ghost use Rattle.lone_flow.specs.Looking.{GreetsOrLooks};
ghost use Rattle.put_program.specs.Copied.{HasCopied, IsKeptCopy, copied_by};
ghost use Rattle.put_program.specs.Others.{LeavesOthersStill};
ghost use Rattle.put_program.specs.CopyingLawsSeen.{LaterReadersSee};
ghost use Rattle.put_program.specs.Shown.{IsStill};

use mount_losses::what_is_kept_stays_kept;

/// A law: where a copying told that it ended well, one writer wrote the bytes that were taken from the source, block by block in their order
/// from the file's first byte on. It counted them, and no loss of power takes one of these writes. No other write shows in the container:
/// it was new, or a truncate to nothing hides all that others had landed there.
pub fn a_copied_source_is_kept()
    ensures { (name : Name) (host : ℕ) (over : Bool) (start : Moment) (old : Given) (copied : Copied) (end : State) (new : Given) → IsSoundAt start
        → Copies name host over start.state old (Ok copied) end new → IsKeptCopy name start old copied end new }
{
    what_is_kept_stays_kept();
}

/// A law: each reader of that container that opens later has a cut that holds all these writes. So it is in the same mount and in every
/// later one, after stops and losses of power too.
pub fn later_readers_hold_a_copied_source()
    ensures { (name : Name) (blocks : List (List ℕ)) (id : ℕ) (start : Moment) (end : State) (mounts caller : ℕ) (now : Moment) (events : List Event) (reader : OpenReader) → IsSoundAt start
        → (c : HasCopied name blocks id start end) → IsLater mounts (copied_by start c) now → IsLawful now.state events → (o : HasOpenedIn caller now events reader) → c.writer.room ≡ reader.room
        → HoldsWrites (moment_after (moment_after now o.before) (o.first ∷ o.more)) o.cut c.writer c.writes }
{
    what_is_kept_stays_kept();
}

/// A law: a reader of that container that opens later, and has as many writes of this writer as there are blocks, no write of another
/// one and no truncate, sees just the bytes that were taken from the source.
pub fn a_reader_of_the_copy_alone_sees_the_source()
    ensures { (name : Name) (blocks : List (List ℕ)) (id : ℕ) (start : Moment) (end : State) (mounts caller : ℕ) (now : Moment) (events : List Event) (reader : OpenReader) → IsSoundAt start
        → (c : HasCopied name blocks id start end) → IsLater mounts (copied_by start c) now → IsLawful now.state events → (o : HasOpenedIn caller now events reader) → c.writer.room ≡ reader.room
        → HasAlone c.writer (length blocks) o.cut → reader.truncs ≡ [] → view (moment_after (moment_after now o.before) (o.first ∷ o.more)) o.cut reader.truncs ≡ joined blocks }
{
    what_is_kept_stays_kept();
}

/// A law: each reader of that container that opens later sees just the bytes that were taken from the source, where nothing has landed
/// there since and its truncates are the same. So it is in the same mount and in every later one, after stops and losses of power too.
/// Where the source ended, these are all bytes that it had.
pub fn later_readers_see_a_copied_source()
    ensures seen { (name : Name) (blocks : List (List ℕ)) (id : ℕ) (start : Moment) (end : State) → IsSoundAt start → (c : HasCopied name blocks id start end) → LaterReadersSee start c (joined blocks) }
    ensures whole { (name : Name) (start : Moment) (old : Given) (copied : Copied) (end : State) (new : Given) (bytes : List ℕ) → (k : IsKeptCopy name start old copied end new) → copied.is_whole ≡ true → old.left ≡ Some bytes → joined k.blocks ≡ bytes }
{
    what_is_kept_stays_kept();
}

/// A law: looks leave each container still. So a reader that opens while others only look sees a copy.
pub fn looks_leave_a_container_still()
    ensures { (m : Moment) (events : List Event) (room : ℕ) → IsSoundAt m → IsLawful m.state events → AllByRecursion (λ (e : Event). GreetsOrLooks e.ask.call) events → IsStill m (moment_after m events) room }
{}

/// A law: a copying leaves each container still that has another name. So it does where memory was refused in it.
pub fn a_copying_leaves_other_containers_still()
    ensures copied { (name : Name) (host : ℕ) (over : Bool) (start end : State) (old : Given) (told : Result Copied Stuck) (new : Given) → Copies name host over start old told end new → LeavesOthersStill name start end }
    ensures broken_off { (name : Name) (host : ℕ) (over : Bool) (start end : State) (old new : Given) → BeginsToCopy name host over start old end new → LeavesOthersStill name start end }
{}
