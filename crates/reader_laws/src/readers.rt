//! Laws of readers: what one that gathered so has, and what it answers, whatever other callers do.
ghost use Rattle.std.specs.Prelude.{◌≡◌, ◌≤◌, ◌+◌, ◌++◌, [], ◌∷◌, ℕ, List, length};
ghost use Rattle.std.specs.List.{All, Any};
ghost use Rattle.plfs_types.specs.declared.entries.Trunc.{Trunc};
ghost use Rattle.plain_file.specs.declared.pieces.Piece.{Piece};
ghost use Rattle.plain_file.specs.File.{plain_size, slice};
ghost use Rattle.plain_file.specs.Runs.{AreRuns, ArePieces};
ghost use Rattle.plain_file.specs.Size.{size_from};
ghost use Rattle.plain_file.specs.Sources.{newer_source, source_at};
ghost use Rattle.read_plan.specs.Plan.{plan_of};
ghost use Rattle.mount_model.specs.Paths.{log_path};
ghost use Rattle.mount_model.specs.State.{State};
ghost use Rattle.mount_model.specs.Step.{Answers};
ghost use Rattle.mount_model.specs.History.{Event};
ghost use Rattle.mount_sound.specs.Owed.{IsLawful};
ghost use Rattle.mount_model.specs.declared.call.Call.TheVariants.{Look};
ghost use Rattle.mount_model.specs.declared.call.Look.TheVariants.{Read};
ghost use Rattle.mount_model.specs.declared.reply.Reply.{Reply};
ghost use Rattle.mount_sound.specs.Ledger.{content, entries_in};
ghost use Rattle.reader_laws.specs.Moments.{Moment, IsSoundAt, moment_after, Dropping, issued_by, Grows};
ghost use Rattle.reader_laws.specs.Seen.{Asked, asked_in, calls_of, IsSeen};
ghost use Rattle.reader_laws.specs.Gathering.{Gathered, Gathers, CoversLanded, Share, GatherShares, AreShared, IsPrefixOf, IsAdmissible};
ghost use Rattle.reader_laws.specs.GatheringListing.{IsScan, AreFound, AreTruncsAt};
ghost use Rattle.plfs_types.specs.Places.{IsAmong};
ghost use Rattle.reader_laws.specs.Flats.{pieces_of};
ghost use Rattle.reader_laws.specs.View.{FollowsCovered, IsAboveCut, IsReadable, view, changes_in, writes_in, covered_in, tails_in, WritersRise};
ghost use Rattle.reader_laws.specs.Parts.{IsPartOf};
ghost use Rattle.reader_laws.specs.GatheringOpening.{IsOpening, IsSharedOpening, ReadsSo, HasView, HasOpened};
ghost use Rattle.reader_laws.specs.Bounds.{IsFlushedIn, IsSyncedIn};
ghost use Rattle.reader_laws.specs.GatheringFailing.{BytesOrTrouble};

/// A law: a caller that asked the lengths of an index dropping and its log, and read the whole
/// entries past covered ones that had landed at first, or that read the packed index in their place,
/// has the first writes that the writer issued, no fewer than had landed at first and no more than
/// had at last.
pub fn one_writer()
    ensures { (caller : ℕ) (start end : Moment) (gathered : Gathered) (asked : List Asked) → IsSeen caller start asked end → Gathers gathered asked → CoversLanded start gathered → IsPrefixOf start end gathered }
{}

/// A law: workers that gathered their shares have an admissible cut together, where what is covered
/// had landed at first.
pub fn workers_gather()
    ensures { (start : Moment) (events : List Event) (shares : List Share) (cut : List Gathered) → IsLawful start.state events → IsSoundAt start → GatherShares events shares → AreShared shares cut → All (CoversLanded start) cut → IsAdmissible start (moment_after start events) cut }
{}

/// A law: a scan finds droppings that stand, one a writer, and misses none that stood before it.
pub fn scan_finds()
    ensures { (caller room : ℕ) (start end : Moment) (asked : List Asked) (ds : List Dropping) → IsSeen caller start asked end → IsSoundAt end → IsScan room ds asked → AreFound start end room ds }
{}

/// A law: the cut of a reader lies between its first call and its listing of truncates and misses no
/// dropping that stood at first, its truncates are those of its listing, by rising stamp, and what
/// it gathered are the entries of its cut, but for covered ones.
pub fn reader_opens()
    ensures { (caller room : ℕ) (start : Moment) (gathering : List Event) (listing : Event) (later : List Event) (cut : List Gathered) (truncs : List Trunc)
        → IsLawful start.state (gathering ++ listing ∷ later) → IsSoundAt start → IsOpening room cut truncs (calls_of caller gathering) (asked_in listing)
        → HasView start (moment_after start gathering) room cut truncs }
{}

/// A law: the same of a reader whose workers gather between its scan and its listing of truncates.
pub fn shared_reader_opens()
    ensures { (caller room : ℕ) (start : Moment) (scanning gathering : List Event) (listing : Event) (later : List Event) (cut : List Gathered) (truncs : List Trunc)
        → IsLawful start.state (scanning ++ (gathering ++ listing ∷ later)) → IsSoundAt start → IsSharedOpening room cut truncs (calls_of caller scanning) gathering (asked_in listing)
        → HasView start (moment_after (moment_after start scanning) gathering) room cut truncs }
{}

/// A law: the entries that a reader gathered are valid, and no other entries have their bytes.
pub fn gathered_entries_are_readable()
    ensures { (end : Moment) (cut : List Gathered) → IsSoundAt end → All IsReadable (tails_in end cut) }
{}

/// A law: the issued entries that a cut's counts name follow, behind the covered ones, the rules of
/// a writer's entries: its id, rising stamps, and places in the log that go on from each other.
pub fn gathered_entries_are_in_order()
    ensures { (end : Moment) (cut : List Gathered) → IsSoundAt end → All (FollowsCovered end) cut }
{}

/// A law: no later event changes the plain file of a cut and its truncates.
pub fn view_stays()
    ensures { (start end : Moment) (events : List Event) (cut : List Gathered) (truncs : List Trunc) → IsLawful end.state events → IsSoundAt end → IsAdmissible start end cut → view (moment_after end events) cut truncs ≡ view end cut truncs }
{}

/// A law: each answer of who has a view is a slice of its plain file, whatever goes on before it and
/// between its calls.
pub fn view_is_answered()
    ensures { (caller room : ℕ) (start end : Moment) (cut : List Gathered) (truncs : List Trunc) (between reading rest : List Event) (at len : ℕ) (answer : List ℕ)
        → IsLawful end.state (between ++ (reading ++ rest)) → IsSoundAt end → HasView start end room cut truncs
        → ReadsSo end cut truncs at len (calls_of caller reading) answer → answer ≡ slice (view end cut truncs) at len }
{}

/// A law: each answer of an opened reader is a slice of the plain file of its cut and truncates, as
/// it still is at the history's end.
pub fn reader_answers()
    ensures { (caller room : ℕ) (start : Moment) (gathering : List Event) (listing : Event) (between reading rest : List Event) (cut : List Gathered) (truncs : List Trunc) (at len : ℕ) (answer : List ℕ)
        → IsLawful start.state (gathering ++ listing ∷ (between ++ (reading ++ rest))) → IsSoundAt start → IsOpening room cut truncs (calls_of caller gathering) (asked_in listing)
        → ReadsSo (moment_after start gathering) cut truncs at len (calls_of caller reading) answer
        → answer ≡ slice (view (moment_after start (gathering ++ listing ∷ (between ++ (reading ++ rest)))) cut truncs) at len }
{}

/// A law: the reader of an actor's list of calls has a view, from the place of the first call of its
/// opening to that of its listing of truncates.
pub fn actor_opens()
    ensures { (caller room : ℕ) (start : Moment) (events : List Event) (earlier : List Asked) (first : Asked) (more : List Asked) (listing : Asked) (rest : List Asked) (cut : List Gathered) (truncs : List Trunc)
        → IsLawful start.state events → IsSoundAt start → calls_of caller events ≡ earlier ++ first ∷ (more ++ listing ∷ rest) → IsOpening room cut truncs (first ∷ more) listing
        → (o : HasOpened caller start events earlier (first ∷ more) room cut truncs) × (asked_in o.listing ≡ listing) × (calls_of caller o.later ≡ rest) }
{}

/// A law: each answer of an actor's reader is a slice of one plain file, that of its cut and
/// truncates.
pub fn actor_reads()
    ensures { (caller room : ℕ) (start : Moment) (events : List Event) (earlier : List Asked) (first : Asked) (more : List Asked) (listing : Asked) (between reading rest : List Asked) (cut : List Gathered) (truncs : List Trunc) (at len : ℕ) (answer : List ℕ)
        → IsLawful start.state events → IsSoundAt start → calls_of caller events ≡ earlier ++ first ∷ (more ++ listing ∷ (between ++ (reading ++ rest))) → IsOpening room cut truncs (first ∷ more) listing
        → ReadsSo (moment_after start events) cut truncs at len reading answer → answer ≡ slice (view (moment_after start events) cut truncs) at len }
{}

/// A law: a reader has at least as many of a writer's entries as the writer was told, before the
/// reader's first call, to be synced.
pub fn synced_is_gathered()
    ensures { (first : Moment) (before : List Event) (end : Moment) (room : ℕ) (cut : List Gathered) (truncs : List Trunc) (d : Dropping) (count : ℕ)
        → IsLawful first.state before → IsSoundAt first → HasView (moment_after first before) end room cut truncs → d.room ≡ room → IsSyncedIn before d count
        → Any (λ (g : Gathered). (g.dropping ≡ d) × (count ≤ g.count)) cut }
{}

/// A law: a reader has at least as many of a writer's entries as the writer was told, before the
/// reader's first call, to be flushed.
pub fn flushed_is_gathered()
    ensures { (first : Moment) (before : List Event) (end : Moment) (room : ℕ) (cut : List Gathered) (truncs : List Trunc) (d : Dropping) (count : ℕ)
        → IsLawful first.state before → IsSoundAt first → HasView (moment_after first before) end room cut truncs → d.room ≡ room → IsFlushedIn before d count
        → Any (λ (g : Gathered). (g.dropping ≡ d) × (count ≤ g.count)) cut }
{}

/// A law: the truncates of a room at any moment from a reader's listing on are those that it listed,
/// and behind them such as have a stamp above every entry of its cut.
pub fn later_truncates_are_above()
    ensures { (start end : Moment) (events : List Event) (room : ℕ) (cut : List Gathered) (truncs later : List Trunc)
        → IsLawful end.state events → IsSoundAt end → HasView start end room cut truncs → AreTruncsAt (moment_after end events) room later
        → (more : List Trunc) × (later ≡ truncs ++ more) × All (IsAboveCut end cut) more }
{}

/// A law: the pieces of the flattened index that an opening read, if there was one, are those of the
/// entries of its cut that it covers.
pub fn an_opened_flattened_index_is_right()
    ensures alone { (caller room : ℕ) (start : Moment) (gathering : List Event) (listing : Event) (cut : List Gathered) (truncs : List Trunc)
        → IsLawful start.state gathering → IsSoundAt start → (opening : IsOpening room cut truncs (calls_of caller gathering) (asked_in listing))
        → ArePieces (covered_in (moment_after start gathering) cut) [] (pieces_of opening.flat) }
    ensures shared { (caller room : ℕ) (start : Moment) (scanning gathering : List Event) (listing : Event) (cut : List Gathered) (truncs : List Trunc)
        → IsLawful start.state scanning → IsLawful (moment_after start scanning).state gathering → IsSoundAt start
        → (opening : IsSharedOpening room cut truncs (calls_of caller scanning) gathering (asked_in listing))
        → ArePieces (covered_in (moment_after (moment_after start scanning) gathering) cut) [] (pieces_of opening.flat) }
{}

/// A law: a flattened index that is right for the entries that it covers changes no piece.
pub fn flattening_changes_nothing()
    ensures { (end : Moment) (room : ℕ) (cut : List Gathered) (flat tails merged : List Piece) → IsSoundAt end → WritersRise room cut
        → ArePieces (covered_in end cut) [] flat → ArePieces (tails_in end cut) [] tails
        → AreRuns merged → ((x : ℕ) → source_at merged x ≡ newer_source (source_at flat x) (source_at tails x)) → ArePieces (entries_in (writes_in end cut)) [] merged }
{}

/// A law: the pieces of a cut's entries and its truncates give the size of its plain file.
pub fn pieces_give_size()
    ensures { (end : Moment) (room : ℕ) (cut : List Gathered) (truncs : List Trunc) (pieces : List Piece) → IsSoundAt end → WritersRise room cut
        → ArePieces (entries_in (writes_in end cut)) [] pieces → plain_size (changes_in end cut truncs) ≡ size_from pieces truncs }
{}

/// A law: whenever an open reader reads bytes of its cut from a log, it gets them, or the store's
/// count of faults rose, or memory was wanting and nothing changed.
pub fn open_readers_fail_by_store()
    ensures { (start end moment : Moment) (room : ℕ) (cut : List Gathered) (truncs : List Trunc) (g : Gathered) (caller at len : ℕ) (reply : Reply) (after : State)
        → HasView start end room cut truncs → IsAmong g cut → Grows end moment → IsSoundAt moment → 1 ≤ len → at + len ≤ length (content (issued_by end g.dropping))
        → Answers moment.state caller (Look g.dropping.room (Read (log_path g.dropping.host g.dropping.writer) at len)) reply after
        → BytesOrTrouble (slice (content (issued_by end g.dropping)) at len) moment.state reply after }
{}

/// A law: each part of a reader's read is a hole, or bytes of the log of a writer of its cut, which
/// that writer had issued when the cut was made.
pub fn parts_lie_in_logs()
    ensures { (end : Moment) (cut : List Gathered) (truncs : List Trunc) (pieces : List Piece) (size at len : ℕ) → IsSoundAt end → ArePieces (entries_in (writes_in end cut)) truncs pieces → All (IsPartOf end cut) (plan_of pieces size at len) }
{}

/// A law: where no flattened index covers an entry, a reader gathers all entries of its cut.
pub fn without_covers_all_is_gathered()
    ensures { (end : Moment) (cut : List Gathered) → All (λ (g : Gathered). g.covered ≡ 0) cut → tails_in end cut ≡ entries_in (writes_in end cut) }
{}
