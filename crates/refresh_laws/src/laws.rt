//! The law of a refresh.
ghost use Rattle.std.specs.Prelude.{◌≡◌, ◌++◌, ℕ, List, Ok, Err};
ghost use Rattle.plfs_types.specs.declared.entries.Trunc.{Trunc};
ghost use Rattle.plain_file.specs.declared.parts.ReaderParts.{ReaderParts};
ghost use Rattle.mount_model.specs.Program.{AsksOnly};
ghost use Rattle.mount_model.specs.History.{Event, state_after};
ghost use Rattle.mount_sound.specs.Owed.{IsLawful};
ghost use Rattle.mount_model.specs.declared.stuck.Stuck.{Stuck};
ghost use Rattle.mount_model.specs.Running.{Runs};
ghost use Rattle.index_reader.specs.declared.listing.Listing.{Listing};
ghost use Rattle.index_reader.specs.declared.opened.OpenReader.{OpenReader};
ghost use Rattle.index_reader.specs.declared.sharing.Share.{Share};
ghost use Rattle.index_reader.specs.Opened.{reader_from};
ghost use Rattle.index_reader.specs.Opening.{scan_program};
ghost use Rattle.index_reader.specs.Sharing.{share_program};
ghost use Rattle.index_reader.specs.Truncs.{trunc_program};
ghost use Rattle.reader_laws.specs.Moments.{Moment, IsSoundAt, Grows, moment_after};
ghost use Rattle.reader_laws.specs.Gathering.{Gathered};
ghost use Rattle.reader_laws.specs.Failing.{FailsByStore, IsContainerAt};
ghost use Rattle.reader_laws.specs.Opened.{HasOpenReader};
ghost use Rattle.refresh_index.specs.declared.refreshing.RefreshOut.{RefreshOut};
ghost use Rattle.refresh_index.specs.Refreshing.{all_unpacked, refresh_program};
ghost use Rattle.refresh_laws.specs.Past.{BeginsPast};
ghost use Rattle.refresh_laws.specs.Refreshing.{HaveSameCounts, RefreshesAlone, IsRefreshOf, HasRefreshedIn, RefreshEnds};

/// A law: who has an open reader and later runs the programs of a refresh, and all end well, has what a reader of the same room has
/// that was opened in these events, whatever others call: a cut that lies between the caller's first call and its listing of
/// truncates and is not below the former one, with the truncates of then.
pub fn a_reader_refreshes()
    ensures { (caller : ℕ) (start end : Moment) (held : OpenReader) (former : List Gathered) (between events : List Event) (listing : Listing) (share : Share) (truncs : List Trunc) (new : OpenReader)
        → IsLawful end.state (between ++ events) → IsSoundAt end → HasOpenReader start end held former
        → RefreshesAlone caller events held listing share truncs → IsRefreshOf held listing share truncs new
        → HasRefreshedIn caller (moment_after end between) events former held new }
{}

/// A law: who has an open reader and later runs the whole program of a refresh has what a reader has that was opened in these
/// events, where it ends well. Else the reader is as it was, and the store's count of faults rose meanwhile, or memory was wanted:
/// a sound tree shows no damage.
pub fn a_refresh_is_an_opening()
    ensures { (caller : ℕ) (start end : Moment) (held : ReaderParts) (former : List Gathered) (between events : List Event) (out : RefreshOut)
        → IsLawful end.state (between ++ events) → IsSoundAt end → IsContainerAt end held.room → HasOpenReader start end (reader_from held) former
        → Runs caller (refresh_program held) events out → RefreshEnds caller (moment_after end between) events former held out }
{}

/// A law: so the reader is that of an opening: readers whose cuts have the same counts, and whose truncates are the same, have the
/// same pieces, size and covers, whenever each was opened or refreshed.
pub fn a_refreshed_reader_is_an_opened_one()
    ensures { (start end other : Moment) (events : List Event) (a b : OpenReader) (cut others : List Gathered)
        → IsLawful end.state events → IsSoundAt end → HasOpenReader start end a cut → HasOpenReader other (moment_after end events) b others
        → HaveSameCounts cut others → a.truncs ≡ b.truncs
        → (a.pieces ≡ b.pieces) × (a.size ≡ b.size) × (a.covers ≡ b.covers) }
{}

/// A law: a refresh shows no damage. Where one of its programs ends in trouble, whatever others call, the store's count of faults
/// rose meanwhile; of the room it is known that it is a container's.
pub fn a_refresh_fails_by_store()
    ensures scan { (caller room : ℕ) (m : Moment) (events : List Event) (why : Stuck)
        → IsSoundAt m → IsContainerAt m room → IsLawful m.state events → Runs caller (scan_program room) events (Err why) → FailsByStore caller m.state events why }
    ensures share { (caller : ℕ) (start end : Moment) (held : OpenReader) (former : List Gathered) (m : Moment) (scanning reading : List Event) (listing : Listing) (why : Stuck)
        → HasOpenReader start end held former → Grows end m → IsLawful m.state (scanning ++ reading) → IsSoundAt m → Runs caller (scan_program held.room) scanning (Ok listing)
        → Runs caller (share_program held.room (all_unpacked listing.droppings) held.covers) reading (Err why) → FailsByStore caller (state_after m.state scanning) reading why }
    ensures truncates { (caller room : ℕ) (m : Moment) (events : List Event) (why : Stuck)
        → IsLawful m.state events → IsSoundAt m → IsContainerAt m room → Runs caller (trunc_program room) events (Err why) → FailsByStore caller m.state events why }
{}

/// A law: a refresh only looks. Each Read of it is of a writer's index dropping, and begins behind the entries that are held of
/// that writer.
pub fn a_refresh_reads_tails()
    ensures { (held : ReaderParts) → AsksOnly (BeginsPast held) (refresh_program held) }
{}
