//! Laws of histories: what stays of earlier moments, what one caller sees, and what has landed.
ghost use Rattle.std.specs.Prelude.{◌≡◌, ◌≢◌, ◌≤◌, ◌∷◌, [], ◌++◌, ℕ, List, Some, length, take, drop};
ghost use Rattle.plfs_types.specs.declared.names.Path.{Path};
ghost use Rattle.mount_model.specs.Paths.{log_path};
ghost use Rattle.mount_model.specs.State.{State};
ghost use Rattle.mount_model.specs.Step.{Answers};
ghost use Rattle.mount_model.specs.History.{Event, state_after};
ghost use Rattle.mount_sound.specs.Excluding.{IsAboveAll};
ghost use Rattle.mount_sound.specs.Owed.{InRoom, IsLawful};
ghost use Rattle.mount_model.specs.declared.call.Call.TheVariants.{Flush, Look, SyncIndex};
ghost use Rattle.mount_model.specs.declared.call.Look.TheVariants.{Read};
ghost use Rattle.mount_model.specs.declared.reply.Reply.{Reply};
ghost use Rattle.mount_model.specs.declared.reply.Reply.TheVariants.{Flushed, Synced};
ghost use Rattle.mount_sound.specs.Issued.{issued};
ghost use Rattle.reader_laws.specs.Moments.{Moment, IsSoundAt, next_moment, moment_after, file_then, Dropping, IsNamed, HadTrunc, issued_by, landed, Grows};
ghost use Rattle.reader_laws.specs.Seen.{Asked, calls_of, IsSeen, IsPlaceOf};
ghost use Rattle.reader_laws.specs.Bounds.{IsOf, LandedAtLeast, AllSpareIndex};
ghost use Rattle.reader_laws.specs.GatheringFailing.{BytesOrTrouble};

/// A law: the moment after events has the state in which they end, and what was issued before them
/// or in them.
pub fn moments_follow_histories()
    ensures { (moment : Moment) (events : List Event) → ((moment_after moment events).state ≡ state_after moment.state events) × ((moment_after moment events).issued ≡ issued moment.issued moment.state events) }
{}

/// A law: at later moments of a lawful history each writer has issued no less and none of its
/// entries that had landed is lost, no log is shorter, flattened indices are as they were, and each
/// item stands that stood, but for entries of open writers and indices that were being written.
pub fn history_grows()
    ensures { (moment : Moment) (events : List Event) → IsLawful moment.state events → IsSoundAt moment → Grows moment (moment_after moment events) }
{}

/// A law: a caller sees its own calls in order, and all goes on between them.
pub fn caller_sees()
    ensures { (caller : ℕ) (moment : Moment) (events : List Event) → IsLawful moment.state events → IsSoundAt moment → IsSeen caller moment (calls_of caller events) (moment_after moment events) }
{}

/// A law: each call in a caller's list has its place in the history.
pub fn call_has_place()
    ensures { (caller : ℕ) (events : List Event) (before : List Asked) (asked : Asked) (after : List Asked) → calls_of caller events ≡ before ++ asked ∷ after → IsPlaceOf caller events before asked after }
{}

/// A law: what a flush told has landed, in the dropping that the table then has of the writer.
pub fn flush_lands()
    ensures { (moment : Moment) (event : Event) (writer told : ℕ) → IsLawful moment.state (event ∷ []) → IsSoundAt moment → event.ask.call ≡ Flush writer → event.reply ≡ Flushed told
        → (d : Dropping) × (d.writer ≡ writer) × IsOf event.after d × LandedAtLeast (next_moment moment event) d told }
{}

/// A law: what a sync told has landed, in the dropping that the table then has of the writer.
pub fn sync_lands()
    ensures { (moment : Moment) (event : Event) (writer told : ℕ) → IsLawful moment.state (event ∷ []) → IsSoundAt moment → event.ask.call ≡ SyncIndex writer → event.reply ≡ Synced told
        → (d : Dropping) × (d.writer ≡ writer) × IsOf event.after d × LandedAtLeast (next_moment moment event) d told }
{}

/// A law: no more of a writer has landed than it had issued when it was last flushed.
pub fn nothing_lands_unflushed()
    ensures { (moment : Moment) (events : List Event) (d : Dropping) → IsNamed d → IsLawful moment.state events → IsSoundAt moment → AllSpareIndex events d → landed (moment_after moment events) d ≤ length (issued_by moment d) }
{}

/// A law: a truncate that is there stays.
pub fn truncates_stay()
    ensures { (moment : Moment) (events : List Event) (room stamp size : ℕ) → IsLawful moment.state events → IsSoundAt moment → HadTrunc moment room stamp size → HadTrunc (moment_after moment events) room stamp size }
{}

/// A law: a truncate that is there after events, and was not before them, has a stamp above every
/// truncate of its room that was there before them, and every entry that had landed.
pub fn truncates_come_above()
    ensures { (moment : Moment) (events : List Event) (number stamp size : ℕ) → IsLawful moment.state events → IsSoundAt moment
        → (HadTrunc moment number stamp size → ⊥) → HadTrunc (moment_after moment events) number stamp size → InRoom moment.state number (λ room. IsAboveAll room stamp) }
{}

/// A law: a read of a container's file gives its bytes, or the store's count of faults rose, or
/// memory was wanting and nothing changed.
pub fn reads_fail_by_store()
    ensures { (moment : Moment) (caller room : ℕ) (path : Path) (at len : ℕ) (bytes : List ℕ) (reply : Reply) (after : State) → IsSoundAt moment → room ≢ moment.state.marks → file_then moment room path ≡ Some bytes
        → Answers moment.state caller (Look room (Read path at len)) reply after → BytesOrTrouble (take len (drop at bytes)) moment.state reply after }
{}
