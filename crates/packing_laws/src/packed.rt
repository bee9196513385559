//! The laws of files that were packed.
ghost use Rattle.std.specs.Prelude.{◌≡◌, ℕ, List, ◌∷◌, Result, Ok};
ghost use Rattle.mount_model.specs.History.{Event};
ghost use Rattle.mount_model.specs.Paths.{Name};
ghost use Rattle.mount_model.specs.State.{State};
ghost use Rattle.mount_sound.specs.Ledger.{Written};
ghost use Rattle.mount_sound.specs.Owed.{IsLawful};
ghost use Rattle.index_reader.specs.declared.opened.OpenReader.{OpenReader};
ghost use Rattle.reader_laws.specs.Moments.{Dropping, IsSoundAt, Moment, moment_after};
ghost use Rattle.reader_laws.specs.Opened.{HasOpenedIn};
ghost use Rattle.pack_input.specs.declared.files.NamedFile.{NamedFile};
ghost use Rattle.lone_flow.specs.declared.packing.Packed.TheVariants.{All as AllPut};
ghost use Rattle.lone_flow.specs.Packing.{Packs};
ghost use Rattle.packing_laws.specs.Lasting.{HoldsWrites, IsLater, KeepsWrites};
ghost use Rattle.packing_laws.specs.Packed.{HasPacked, packed_by};

use mount_losses::what_is_kept_stays_kept;

/// A law: where a packing told that all files were put, a writer put their units one behind the other, each by one write. No loss
/// of power takes one of these writes.
pub fn packed_files_are_kept()
    ensures { (name : Name) (region : ℕ) (files : List NamedFile) (until : ℕ) (start : Moment) (end : State) → IsSoundAt start
        → Packs name region files start.state (Ok (AllPut until)) end → HasPacked name region files until start end }
{
    what_is_kept_stays_kept();
}

/// A law: writes that no loss of power takes stay so, along every lawful history of the mount, and in the mounts that follow,
/// each over the tree that was left or over what a loss of power left of it.
pub fn kept_writes_stay()
    ensures sound { (mounts : ℕ) (m now : Moment) (d : Dropping) (writes : List Written) → IsSoundAt m → IsLater mounts m now → KeepsWrites m d writes → IsSoundAt now }
    ensures kept { (mounts : ℕ) (m now : Moment) (d : Dropping) (writes : List Written) → IsSoundAt m → IsLater mounts m now → KeepsWrites m d writes → KeepsWrites now d writes }
{
    what_is_kept_stays_kept();
}

/// A law: each reader of that container that opens from then on has a cut that holds these writes.
pub fn later_readers_hold_kept_writes()
    ensures { (caller : ℕ) (m : Moment) (events : List Event) (reader : OpenReader) (d : Dropping) (writes : List Written) → IsSoundAt m → IsLawful m.state events
        → (o : HasOpenedIn caller m events reader) → d.room ≡ reader.room → KeepsWrites m d writes → HoldsWrites (moment_after (moment_after m o.before) (o.first ∷ o.more)) o.cut d writes }
{
    what_is_kept_stays_kept();
}

/// A law: where a packing told that all files were put, each reader of that container that opens later has a cut that holds all their
/// units. So it is in the same mount and in every later one, after stops and losses of power too.
pub fn later_readers_hold_packed_files()
    ensures { (name : Name) (region : ℕ) (files : List NamedFile) (until : ℕ) (start : Moment) (end : State) → IsSoundAt start → Packs name region files start.state (Ok (AllPut until)) end
        → (p : HasPacked name region files until start end) × ((mounts caller : ℕ) (now : Moment) (events : List Event) (reader : OpenReader) → IsLater mounts (packed_by start p) now → IsLawful now.state events
        → (o : HasOpenedIn caller now events reader) → p.writer.room ≡ reader.room → HoldsWrites (moment_after (moment_after now o.before) (o.first ∷ o.more)) o.cut p.writer p.put.writes) }
{
    what_is_kept_stays_kept();
}
