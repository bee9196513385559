//! The laws of statements that come to their ends.
ghost use Rattle.std.specs.Prelude.{[], ◌≡◌, ◌≤◌, ℕ, List, None, Ok, Option, Result, Some, false, length, slice_get};
ghost use Rattle.std.specs.List.{AllByRecursion};
ghost use Rattle.actor_core.specs.declared.kept.Kept.{Kept};
ghost use Rattle.actor_core.specs.declared.kept.Stop.{Stop};
ghost use Rattle.actor_core.specs.Endings.{stopped, told_of};
ghost use Rattle.actor_core.specs.Names.{names_program};
ghost use Rattle.actor_core.specs.Opened.{reader_opened, reader_refreshed, without_reader};
ghost use Rattle.actor_core.specs.Stopping.{carried};
ghost use Rattle.actor_core.specs.Telling.{tells_of_file};
ghost use Rattle.actor_core.specs.Work.{finishes};
ghost use Rattle.attr_flow.specs.declared.attr.Attr.{Attr};
ghost use Rattle.flatten_core.specs.declared.flattening.Flattened.{Flattened};
ghost use Rattle.flatten_core.specs.Flattening.{flatten_program};
ghost use Rattle.mount_model.specs.declared.stuck.Stuck.{Stuck};
ghost use Rattle.mount_model.specs.Running.{Runs};
ghost use Rattle.reader_laws.specs.Moments.{IsSoundAt, Moment, moment_after};
ghost use Rattle.mount_model.specs.declared.row.Row.{Row};
ghost use Rattle.mount_model.specs.History.{Event};
ghost use Rattle.mount_model.specs.Mounting.{IsMounted};
ghost use Rattle.mount_model.specs.Paths.{Name};
ghost use Rattle.mount_sound.specs.Owed.{IsLawful, IsNotLive};
ghost use Rattle.index_reader.specs.declared.opened.OpenReader.{OpenReader};
ghost use Rattle.index_reader.specs.Opened.{parts_of};
ghost use Rattle.index_reader.specs.Reading.{read_program};
ghost use Rattle.outcomes.specs.Data.{bytes_of, length_of};
ghost use Rattle.outcomes.specs.Outcomes.{close_outcome, flatten_outcome, list_outcome, map_text, open_outcome, read_outcome, recover_outcome, rename_outcome, stat_outcome, sync_outcome, truncate_outcome, verify_outcome, write_outcome};
ghost use Rattle.plain_plays.specs.Asking.{read_in_program, tell_program};
ghost use Rattle.plain_plays.specs.Beginning.{HasMachine, bare_tree, first_machine};
ghost use Rattle.mount_model.specs.History.{AreBy};
ghost use Rattle.plain_plays.specs.Mirrors.{Mirrors};
ghost use Rattle.plain_plays.specs.Opens.{OpensOrNot};
ghost use Rattle.plain_plays.specs.Plainly.{ClosesPlainly, MirrorsOwn, SyncsPlainly, WritesPlainly};
ghost use Rattle.plain_plays.specs.Readers.{HasReader, IsUse, MirrorsReader, TakesOnReader};
ghost use Rattle.plain_plays.specs.Stepping.{HasActor, TakesStep, handle_in};
ghost use Rattle.plain_machine.specs.ByName.{dead};
ghost use Rattle.plain_machine.specs.Finding.{find};
ghost use Rattle.plain_machine.specs.Machine.{Plain, PlainActor, PlainReader, PlainRoom, PlainWriter};
ghost use Rattle.read_plan.specs.Plan.{plan_of};
ghost use Rattle.refresh_index.specs.declared.refreshing.RefreshOut.{RefreshOut};
ghost use Rattle.refresh_index.specs.Refreshing.{refresh_program};
ghost use Rattle.plain_plays.specs.Served.{ClosesWell, EndsAsItMay, EndsWell, GoesWell, HasOpen};
ghost use Rattle.plain_plays.specs.Tops.{TruncatesAbove};
ghost use Rattle.script_lang.specs.declared.script.ActorDecl.{ActorDecl};
ghost use Rattle.script_lang.specs.declared.script.Data.{Data};
ghost use Rattle.script_lang.specs.declared.line.Outcome.TheVariants.{Map as Mapped, ReaderClosed, Refused};
ghost use Rattle.script_lang.specs.declared.line.Why.TheVariants.{AlreadyOpen, NotOpen};
ghost use Rattle.script_lang.specs.declared.script.Statement.{Statement};
ghost use Rattle.script_lang.specs.declared.script.Statement.TheVariants.{Close, Flatten, Ls, Map, Open, Rclose, Read, Recover, Refresh, Rename, Ropen, Stat, Sync, Trunc, Verify, Write};
ghost use Rattle.store_api.specs.Acts.{Stored};
ghost use Rattle.torn_tail.specs.declared.recovering.Recovered.{Recovered};
ghost use Rattle.torn_tail.specs.Recovering.{recover_program};
ghost use Rattle.trunc_rename.specs.Renaming.{rename_program};
ghost use Rattle.trunc_rename.specs.Truncating.{truncate_program};
ghost use Rattle.writer_flow.specs.Closing.{close_program};
ghost use Rattle.writer_flow.specs.declared.handle.WriterHandle.{WriterHandle};
ghost use Rattle.writer_flow.specs.declared.handle.WriterOut.{WriterOut};
ghost use Rattle.writer_flow.specs.Opening.{open_program};
ghost use Rattle.writer_flow.specs.Syncing.{sync_program};
ghost use Rattle.writer_flow.specs.Writing.{write_program};

/// A law: an open writer is served. A sync and a close end well, and a close puts its metadata dropping and leaves. A write ends well, unless it would end too far or no stamp is left, which
/// alone are reasons to refuse it. Its caller met no fault and had memory, and its handle tells of its buffer. Others may call whatever they may.
pub fn open_writers_are_served()
    ensures syncs { (m : Moment) (me : ℕ) (handle : WriterHandle) (row : Row) (events : List Event) (out : WriterOut) → IsSoundAt m → IsLawful m.state events → GoesWell me events → HasOpen me handle.writer row m.state
        → handle.pending ≡ length row.pending.entries → Runs me (sync_program handle) events out → EndsWell out.result }
    ensures writes { (m : Moment) (me : ℕ) (handle : WriterHandle) (row : Row) (at : ℕ) (block : List ℕ) (events : List Event) (out : WriterOut) → IsSoundAt m → IsLawful m.state events → GoesWell me events → HasOpen me handle.writer row m.state
        → handle.pending ≡ length row.pending.entries → handle.cap ≡ row.pending.capacity → Runs me (write_program handle at block) events out → EndsAsItMay row at (length block) out.result }
    ensures closes { (m : Moment) (me : ℕ) (handle : WriterHandle) (row : Row) (events : List Event) (out : WriterOut) → IsSoundAt m → IsLawful m.state events → GoesWell me events → HasOpen me handle.writer row m.state
        → handle.pending ≡ length row.pending.entries → handle.closing ≡ false → Runs me (close_program handle) events out → ClosesWell me handle.writer events out }
{}

/// A law: an opening ends with an open writer, or no serial was left, or the container that it found or made let nobody in. The writer is a new one of a plain
/// machine. Its caller met no fault and had memory. So another writer that is open is no reason to refuse it.
pub fn openings_are_served()
    ensures { (m : Moment) (me : ℕ) (name : Name) (host cap : ℕ) (events : List Event) (out : Result WriterHandle Stuck) → IsSoundAt m → IsLawful m.state events → GoesWell me events → Runs me (open_program name host cap) events out → OpensOrNot m me name host cap events out }
{}

/// A law: a truncate that is made has the next stamp above the greatest in its container, by the clock's time as it was made. That greatest stamp is the one of a
/// truncate or of an entry that has landed, or 0. Its caller met no fault and had memory.
pub fn truncates_take_the_next_stamp()
    ensures { (m : Moment) (me : ℕ) (name : Name) (size : ℕ) (events : List Event) (stamp : ℕ) → IsSoundAt m → IsLawful m.state events → GoesWell me events → Runs me (truncate_program name size) events (Ok stamp) → TruncatesAbove m me name events stamp }
{}

/// A law: a writer goes on as one of a plain machine. Where an open writer is that of the machine, by its writes and by how many have landed, a sync leaves it as the
/// machine's sync does. A write does as well: it has the machine's stamp, or its refusal. A close tells the number of its writes, and leaves. Its caller met no
/// fault and had memory. Others may call whatever they may.
pub fn writers_are_plain()
    ensures syncs { (m : Moment) (me number : ℕ) (w : PlainWriter) (handle : WriterHandle) (events : List Event) (out : WriterOut) → IsLawful m.state events → GoesWell me events → MirrorsOwn me number handle w m → Runs me (sync_program handle) events out → SyncsPlainly m me number w events out }
    ensures writes { (m : Moment) (me number : ℕ) (w : PlainWriter) (handle : WriterHandle) (at : ℕ) (block : List ℕ) (events : List Event) (out : WriterOut) → IsLawful m.state events → GoesWell me events → MirrorsOwn me number handle w m
        → Runs me (write_program handle at block) events out → WritesPlainly m me number w at block events out }
    ensures closes { (m : Moment) (me number : ℕ) (w : PlainWriter) (handle : WriterHandle) (events : List Event) (out : WriterOut) → IsLawful m.state events → GoesWell me events → MirrorsOwn me number handle w m → Runs me (close_program handle) events out → ClosesPlainly me w events out }
{}

/// A law: a statement on a writer is one step of the plain machine. Where the machine has what the mount has, an opening, a write of some bytes, a sync and a
/// close have the machine's outcome, and the machine has then what the mount has. The writers of all other actors are as before. Its caller met no fault and had
/// memory, and nobody else called.
pub fn writer_statements_are_steps()
    ensures opens { (m : Moment) (me : ℕ) (p : Plain) (actor : PlainActor) (declared : ActorDecl) (name : Name) (events : List Event) (out : Result WriterHandle Stuck) → IsLawful m.state events → GoesWell me events → AreBy me events → Mirrors m p → HasActor m me p None actor
        → Runs me (open_program name declared.host declared.cap) events out → TakesStep m me declared actor p (Open name) (open_outcome out) (moment_after m events) (handle_in out) }
    ensures writes { (m : Moment) (me : ℕ) (p : Plain) (handle : WriterHandle) (actor : PlainActor) (declared : ActorDecl) (at : ℕ) (content : Data) (events : List Event) (out : WriterOut) → IsLawful m.state events → GoesWell me events → AreBy me events → Mirrors m p → HasActor m me p (Some handle) actor
        → 1 ≤ length (bytes_of content) → Runs me (write_program handle at (bytes_of content)) events out → TakesStep m me declared actor p (Write at content) (write_outcome at (length (bytes_of content)) out.result) (moment_after m events) out.handle }
    ensures syncs { (m : Moment) (me : ℕ) (p : Plain) (handle : WriterHandle) (actor : PlainActor) (declared : ActorDecl) (events : List Event) (out : WriterOut) → IsLawful m.state events → GoesWell me events → AreBy me events → Mirrors m p → HasActor m me p (Some handle) actor
        → Runs me (sync_program handle) events out → TakesStep m me declared actor p Sync (sync_outcome out.result) (moment_after m events) out.handle }
    ensures closes { (m : Moment) (me : ℕ) (p : Plain) (handle : WriterHandle) (actor : PlainActor) (declared : ActorDecl) (events : List Event) (out : WriterOut) → IsLawful m.state events → GoesWell me events → AreBy me events → Mirrors m p → HasActor m me p (Some handle) actor
        → Runs me (close_program handle) events out → TakesStep m me declared actor p Close (close_outcome out.result) (moment_after m events) out.handle }
{}

/// A law: a statement that lists all files is a step of the plain machine, which it leaves as it was. It names the files of the machine's rooms, in byte order. Its
/// caller met no fault and had memory, and nobody else called.
pub fn listings_are_steps()
    ensures { (m : Moment) (me : ℕ) (p : Plain) (handle : Option WriterHandle) (actor : PlainActor) (declared : ActorDecl) (events : List Event) (out : Result (List Name) Stuck) → IsLawful m.state events → GoesWell me events → AreBy me events → Mirrors m p → HasActor m me p handle actor
        → Runs me names_program events out → TakesStep m me declared actor p Ls (list_outcome out) (moment_after m events) handle }
{}

/// A law: a truncate and a rename are steps of the plain machine. They have its outcome, also where they are refused: as of no file, held, busy by the least writer
/// that has the room open, of a name that is taken, too far, or of spent ids or stamps. The stamp of a truncate is the next one above the greatest in its room.
/// The machine has then what the mount has, and the writers of all actors are as before. The caller met no fault and had memory, and nobody else called.
pub fn truncates_and_renames_are_steps()
    ensures truncates { (m : Moment) (me : ℕ) (p : Plain) (handle : Option WriterHandle) (actor : PlainActor) (declared : ActorDecl) (name : Name) (size : ℕ) (events : List Event) (out : Result ℕ Stuck) → IsLawful m.state events → GoesWell me events → AreBy me events → Mirrors m p → HasActor m me p handle actor
        → Runs me (truncate_program name size) events out → TakesStep m me declared actor p (Trunc name size) (truncate_outcome out) (moment_after m events) handle }
    ensures renames { (m : Moment) (me : ℕ) (p : Plain) (handle : Option WriterHandle) (actor : PlainActor) (declared : ActorDecl) (name to : Name) (events : List Event) (out : Result (Unit {0}) Stuck) → IsLawful m.state events → GoesWell me events → AreBy me events → Mirrors m p → HasActor m me p handle actor
        → Runs me (rename_program name to) events out → TakesStep m me declared actor p (Rename name to) (rename_outcome out) (moment_after m events) handle }
{}

/// A law: a statement that tells of a file is a step of the plain machine, which it leaves as it was. It tells the size, the bytes of each writer and of all of
/// them, and the truncates, of what has landed in the machine's room; or that there is no such file. That is so where nobody has the file open, by the names that
/// writers left, and where somebody has, by their indices. Its caller met no fault and had memory, and nobody else called. An actor's statement makes just these
/// calls, with its armed stop among them.
pub fn tellings_are_steps()
    ensures steps { (m : Moment) (me : ℕ) (p : Plain) (handle : Option WriterHandle) (actor : PlainActor) (declared : ActorDecl) (name : Name) (events : List Event) (out : Result Attr Stuck) → IsLawful m.state events → GoesWell me events → AreBy me events → Mirrors m p → HasActor m me p handle actor
        → Runs me (tell_program name) events out → TakesStep m me declared actor p (Stat name) (stat_outcome out) (moment_after m events) handle }
    ensures calls { (kept : Kept) (stop : Option Stop) (name : Name) → tells_of_file kept stop name ≡ carried (tell_program name) stop (λ left result. finishes (told_of kept result)) (finishes (stopped kept)) }
{}

/// A law: a statement on a reader is a step of the plain machine. Where an actor's reader is that of the machine, a read, a comparison, a map, a refresh and a
/// close have the machine's outcome, and the actor has then what the machine gives it. So has one that opens a reader, and reads the shares by itself. Without a
/// reader all but that one are refused, and with one it is. A reader stays that of the machine, whatever is called. The caller met no fault and had memory, and
/// nobody else called.
pub fn reader_statements_are_steps()
    ensures opens { (m : Moment) (me : ℕ) (p : Plain) (handle : Option WriterHandle) (actor : PlainActor) (declared : ActorDecl) (name : Name) (workers : ℕ) (kept : Kept) (events : List Event) (out : Result OpenReader Stuck) → IsLawful m.state events → GoesWell me events → AreBy me events → Mirrors m p → HasActor m me p handle actor → kept.reader ≡ None → actor.reader ≡ None → 1 ≤ workers
        → Runs me (read_in_program name workers) events out → TakesOnReader m me declared actor p (Ropen name workers) (reader_opened kept out).outcome (moment_after m events) handle (reader_opened kept out).kept.reader }
    ensures second { (m : Moment) (me : ℕ) (p : Plain) (handle : Option WriterHandle) (actor : PlainActor) (declared : ActorDecl) (reader : OpenReader) (file : PlainReader) (name : Name) (workers : ℕ) → Mirrors m p → HasActor m me p handle actor → actor.reader ≡ Some file → MirrorsReader m reader file
        → TakesOnReader m me declared actor p (Ropen name workers) (Refused AlreadyOpen) m handle (Some reader) }
    ensures reads { (m : Moment) (me : ℕ) (p : Plain) (handle : Option WriterHandle) (actor : PlainActor) (declared : ActorDecl) (reader : OpenReader) (file : PlainReader) (at len : ℕ) (events : List Event) (out : Result (List ℕ) Stuck) → IsLawful m.state events → GoesWell me events → AreBy me events → Mirrors m p → HasActor m me p handle actor → actor.reader ≡ Some file → MirrorsReader m reader file
        → Runs me (read_program reader.room reader.hosts (plan_of reader.pieces reader.size at len)) events out → TakesOnReader m me declared actor p (Read at len) (read_outcome at out) (moment_after m events) handle (Some reader) }
    ensures verifies { (m : Moment) (me : ℕ) (p : Plain) (handle : Option WriterHandle) (actor : PlainActor) (declared : ActorDecl) (reader : OpenReader) (file : PlainReader) (at : ℕ) (content : Data) (events : List Event) (out : Result (List ℕ) Stuck) → IsLawful m.state events → GoesWell me events → AreBy me events → Mirrors m p → HasActor m me p handle actor → actor.reader ≡ Some file → MirrorsReader m reader file
        → Runs me (read_program reader.room reader.hosts (plan_of reader.pieces reader.size at (length_of content))) events out → TakesOnReader m me declared actor p (Verify at content) (verify_outcome at content out) (moment_after m events) handle (Some reader) }
    ensures maps { (m : Moment) (me : ℕ) (p : Plain) (handle : Option WriterHandle) (actor : PlainActor) (declared : ActorDecl) (reader : OpenReader) (file : PlainReader) → Mirrors m p → HasActor m me p handle actor → actor.reader ≡ Some file → MirrorsReader m reader file
        → TakesOnReader m me declared actor p Map (Mapped (map_text reader.pieces)) m handle (Some reader) }
    ensures refreshes { (m : Moment) (me : ℕ) (p : Plain) (handle : Option WriterHandle) (actor : PlainActor) (declared : ActorDecl) (kept : Kept) (reader : OpenReader) (file : PlainReader) (events : List Event) (out : RefreshOut) → IsLawful m.state events → GoesWell me events → AreBy me events → Mirrors m p → HasActor m me p handle actor → actor.reader ≡ Some file → MirrorsReader m reader file
        → Runs me (refresh_program (parts_of reader)) events out → TakesOnReader m me declared actor p Refresh (reader_refreshed (without_reader kept) out).outcome (moment_after m events) handle (reader_refreshed (without_reader kept) out).kept.reader }
    ensures closes { (m : Moment) (me : ℕ) (p : Plain) (handle : Option WriterHandle) (actor : PlainActor) (declared : ActorDecl) (reader : OpenReader) (file : PlainReader) → Mirrors m p → HasActor m me p handle actor → actor.reader ≡ Some file → MirrorsReader m reader file
        → TakesOnReader m me declared actor p Rclose ReaderClosed m handle None }
    ensures without { (m : Moment) (me : ℕ) (p : Plain) (handle : Option WriterHandle) (actor : PlainActor) (declared : ActorDecl) (statement : Statement) → Mirrors m p → HasActor m me p handle actor → IsUse statement → actor.reader ≡ None
        → TakesOnReader m me declared actor p statement (Refused NotOpen) m handle None }
    ensures stays { (m : Moment) (events : List Event) (reader : Option OpenReader) (file : Option PlainReader) → IsLawful m.state events → HasReader m reader file → HasReader (moment_after m events) reader file }
{}

/// A law: a recovery is a step of the plain machine, where none of the room's dead writers is live under its id. A held room is let go, and the line says that a hold
/// was ended. Of another one the dead writers are buried, and the line tells how many writes of each have landed; the others are told as alive. Both are by rising
/// id. The machine's room is without the dead ones then. So is a recovery of a file that isn't there. The caller met no fault and had memory, and nobody else
/// called.
pub fn recoveries_are_steps()
    ensures { (m : Moment) (me : ℕ) (p : Plain) (handle : Option WriterHandle) (actor : PlainActor) (declared : ActorDecl) (name : Name) (events : List Event) (out : Result Recovered Stuck) → IsLawful m.state events → GoesWell me events → AreBy me events → Mirrors m p → HasActor m me p handle actor
        → ((number : ℕ) (room : PlainRoom) → find p name ≡ Some number → slice_get p.rooms number ≡ Some room → AllByRecursion (λ (w : PlainWriter). IsNotLive m.state w.id) (dead room)) → Runs me (recover_program name) events out
        → TakesStep m me declared actor p (Recover name) (recover_outcome out) (moment_after m events) handle }
{}

/// A law: a flattening is a step of the plain machine. Its id is the next one. The line has as many pieces as what has landed in the machine's room comes to,
/// truncates aside, and how many writes of each writer have landed there. The machine has one serial more then, and else is as it was. Without such a file, or
/// where no serial is left, it is refused and nothing changes. Its caller met no fault and had memory, and nobody else called.
pub fn flattenings_are_steps()
    ensures { (m : Moment) (me : ℕ) (p : Plain) (handle : Option WriterHandle) (actor : PlainActor) (declared : ActorDecl) (name : Name) (events : List Event) (out : Result Flattened Stuck) → IsLawful m.state events → GoesWell me events → AreBy me events → Mirrors m p → HasActor m me p handle actor
        → Runs me (flatten_program name) events out → TakesStep m me declared actor p (Flatten name) (flatten_outcome out) (moment_after m events) handle }
{}

/// A law: a machine begins with a mount. A mount over a store without rooms has what the machine has that has the room of the marks alone, whatever its actors.
/// Beside any mount at a sound moment is a machine that has what it has, as long as nobody holds a room. So there is one as a mount begins over any sound tree:
/// its rooms have the truncates of the containers, and a writer for each that left something there.
pub fn machines_begin_with_mounts()
    ensures bare { (times : Option (List ℕ)) (opened : Stored) (m : Moment) (actors : List PlainActor) → opened.tree ≡ Some bare_tree → IsMounted 0 times opened m.state → IsSoundAt m → Mirrors m (first_machine actors times m.state.mount) }
    ensures beside { (m : Moment) (actors : List PlainActor) → IsSoundAt m → m.state.table.holders ≡ [] → HasMachine m actors }
{}
