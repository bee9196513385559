//! The laws of a reader's machines.
ghost use Rattle.std.specs.Prelude.{◌≡◌, ◌++◌, ◌∷◌, [], ℕ, List, Ok, Err};
ghost use Rattle.std.specs.List.{All};
ghost use Rattle.plfs_types.specs.declared.entries.Cover.{Cover};
ghost use Rattle.plfs_types.specs.declared.entries.Trunc.{Trunc};
ghost use Rattle.plain_file.specs.File.{slice};
ghost use Rattle.read_plan.specs.Plan.{plan_of};
ghost use Rattle.mount_model.specs.History.{Event, state_after};
ghost use Rattle.mount_sound.specs.Owed.{IsLawful};
ghost use Rattle.mount_model.specs.declared.stuck.Stuck.{Stuck};
ghost use Rattle.mount_model.specs.Running.{Runs};
ghost use Rattle.mount_model.specs.FlowReplies.{Tries};
ghost use Rattle.index_reader.specs.declared.gathered.Gathered.{Gathered as Parts};
ghost use Rattle.index_reader.specs.declared.listing.Dropping.{Dropping as Listed};
ghost use Rattle.index_reader.specs.declared.listing.Listing.{Listing};
ghost use Rattle.index_reader.specs.declared.opened.OpenReader.{OpenReader};
ghost use Rattle.index_reader.specs.declared.sharing.Share.{Share};
ghost use Rattle.index_reader.specs.Gathered.{IsGatheredOf, IsJoinedOf};
ghost use Rattle.index_reader.specs.Reading.{read_program};
ghost use Rattle.index_reader.specs.Sharing.{share_program};
ghost use Rattle.index_reader.specs.Truncs.{trunc_program};
ghost use Rattle.reader_laws.specs.Moments.{Moment, IsSoundAt, IsNamed};
ghost use Rattle.reader_laws.specs.Seen.{calls_of};
ghost use Rattle.reader_laws.specs.Gathering.{Gathered, GathersAll};
ghost use Rattle.plfs_types.specs.Places.{IsAmong};
ghost use Rattle.reader_laws.specs.View.{view};
ghost use Rattle.reader_laws.specs.Sharing.{in_room, IsShareOf};
ghost use Rattle.reader_laws.specs.Listing.{HasListed, HasListedTruncs};
ghost use Rattle.reader_laws.specs.Opening.{Lists, Portion, shares_of, Work, portions_of, OpensAlone, OpensByWorkers};
ghost use Rattle.reader_laws.specs.Opened.{IsReaderOf, HasOpenReader, HasOpenedIn};
ghost use Rattle.reader_laws.specs.Failing.{FailsByStore, FailsOrLacks};
ghost use Rattle.reader_laws.specs.Troubled.{OpensInTrouble};

/// A law: who runs the program that lists a container, and ends well, has read the newest flattened index, if there was
/// one, and scanned the container; what it listed is what it read and found.
pub fn a_listing_is_a_scan()
    ensures { (caller : ℕ) (program : Tries Listing) (start : Moment) (events : List Event) (listing : Listing)
        → IsLawful start.state events → IsSoundAt start → Lists program → Runs caller program events (Ok listing)
        → HasListed listing (calls_of caller events) }
{}

/// A law: who runs the program of a share, and ends well, has gathered its droppings, and the share has their covers and
/// the pieces of what was gathered.
pub fn a_share_is_gathered()
    ensures { (caller room : ℕ) (start : Moment) (events : List Event) (ds : List Listed) (covers : List Cover) (share : Share)
        → IsLawful start.state events → IsSoundAt start → All (λ (d : Listed). IsNamed (in_room room d)) ds
        → Runs caller (share_program room ds covers) events (Ok share)
        → (gathered : List Gathered) × GathersAll gathered (calls_of caller events) × IsShareOf room ds covers gathered share }
{}

/// A law: who runs the program that lists truncates, and ends well, has listed them by one call.
pub fn truncates_are_listed()
    ensures { (caller room : ℕ) (start : Moment) (events : List Event) (truncs : List Trunc)
        → IsLawful start.state events → IsSoundAt start → Runs caller (trunc_program room) events (Ok truncs)
        → HasListedTruncs caller room events truncs }
{}

/// A law: who runs the programs of an opening, and all end well, has opened a reader: it has the file of a cut that lies
/// between the caller's first call and its listing of truncates, and of the truncates of then, whatever others call.
pub fn a_reader_opens()
    ensures { (caller : ℕ) (start : Moment) (events : List Event) (listing : Listing) (portions : List Portion) (truncs : List Trunc) (parts : Parts) (reader : OpenReader)
        → IsLawful start.state events → IsSoundAt start → OpensAlone caller events listing portions truncs
        → IsGatheredOf listing (shares_of portions) truncs parts → IsReaderOf parts reader
        → HasOpenedIn caller start events reader }
{}

/// A law: the same where workers read the portions, and their shares were joined or not.
pub fn a_reader_opens_by_workers()
    ensures each { (caller : ℕ) (start : Moment) (events : List Event) (listing : Listing) (works : List Work) (truncs : List Trunc) (parts : Parts) (reader : OpenReader)
        → IsLawful start.state events → IsSoundAt start → OpensByWorkers caller events listing works truncs
        → IsGatheredOf listing (shares_of (portions_of works)) truncs parts → IsReaderOf parts reader
        → HasOpenedIn caller start events reader }
    ensures joined { (caller : ℕ) (start : Moment) (events : List Event) (listing : Listing) (works : List Work) (share : Share) (truncs : List Trunc) (parts : Parts) (reader : OpenReader)
        → IsLawful start.state events → IsSoundAt start → OpensByWorkers caller events listing works truncs
        → IsJoinedOf (shares_of (portions_of works)) share → IsGatheredOf listing (share ∷ []) truncs parts → IsReaderOf parts reader
        → HasOpenedIn caller start events reader }
{}

/// A law: who reads from an open reader, whenever it does and whatever others call, gets the bytes of the file that the
/// reader has, or ends with a fault where the store's count of faults rose, and never with damage or a refusal.
pub fn an_open_reader_reads_its_file()
    ensures bytes { (caller : ℕ) (start end : Moment) (reader : OpenReader) (cut : List Gathered) (between reading : List Event) (at len : ℕ) (bytes : List ℕ)
        → IsLawful end.state (between ++ reading) → IsSoundAt end → HasOpenReader start end reader cut
        → Runs caller (read_program reader.room reader.hosts (plan_of reader.pieces reader.size at len)) reading (Ok bytes)
        → bytes ≡ slice (view end cut reader.truncs) at len }
    ensures trouble { (caller : ℕ) (start end : Moment) (reader : OpenReader) (cut : List Gathered) (between reading : List Event) (at len : ℕ) (why : Stuck)
        → IsLawful end.state (between ++ reading) → IsSoundAt end → HasOpenReader start end reader cut
        → Runs caller (read_program reader.room reader.hosts (plan_of reader.pieces reader.size at len)) reading (Err why)
        → FailsByStore caller (state_after end.state between) reading why }
{}

/// A law: where a share of what was listed, or the list of truncates behind it, ends in trouble, whenever it is read and
/// whatever others call, the store's count of faults rose meanwhile: it is no damage and no refusal.
pub fn shares_and_truncates_fail_by_store()
    ensures shares { (lister caller : ℕ) (program : Tries Listing) (start : Moment) (scanning between reading : List Event) (listing : Listing) (ds : List Listed) (why : Stuck)
        → IsLawful start.state (scanning ++ (between ++ reading)) → IsSoundAt start → Lists program → Runs lister program scanning (Ok listing)
        → All (λ (d : Listed). IsAmong d listing.droppings) ds → Runs caller (share_program listing.room ds listing.flat.covers) reading (Err why)
        → FailsByStore caller (state_after start.state (scanning ++ between)) reading why }
    ensures truncates { (lister caller : ℕ) (program : Tries Listing) (start : Moment) (scanning between reading : List Event) (listing : Listing) (why : Stuck)
        → IsLawful start.state (scanning ++ (between ++ reading)) → IsSoundAt start → Lists program → Runs lister program scanning (Ok listing)
        → Runs caller (trunc_program listing.room) reading (Err why)
        → FailsByStore caller (state_after start.state (scanning ++ between)) reading why }
{}

/// A law: where the program that lists a container ends in trouble, whatever others call, the store's count of faults rose
/// meanwhile, or no container has that name or number: it is no damage.
pub fn a_listing_fails_by_store()
    ensures { (caller : ℕ) (program : Tries Listing) (start : Moment) (events : List Event) (why : Stuck)
        → IsLawful start.state events → IsSoundAt start → Lists program → Runs caller program events (Err why)
        → FailsOrLacks caller start.state events why }
{}

/// A law: the opening of a reader shows no damage. Whichever of its programs ends in trouble, whoever runs it, whenever and
/// whatever others call, the store's count of faults rose in these events, or no container has that name or number.
pub fn an_opening_shows_no_damage()
    ensures { (lister caller : ℕ) (start : Moment) (events : List Event) (why : Stuck)
        → IsLawful start.state events → IsSoundAt start → OpensInTrouble lister caller events why
        → FailsOrLacks caller start.state events why }
{}

/// A law: readers of one cut and the same truncates have the same pieces, size and covers, whatever flattened index each
/// was opened with.
pub fn flattening_leaves_readers_the_same()
    ensures { (start other end : Moment) (a b : OpenReader) (cut : List Gathered)
        → HasOpenReader start end a cut → HasOpenReader other end b cut → a.truncs ≡ b.truncs
        → (a.pieces ≡ b.pieces) × (a.size ≡ b.size) × (a.covers ≡ b.covers) }
{}
