//! The laws of the lines of a play.
ghost use Rattle.std.specs.Prelude.{List};
ghost use Rattle.mount_model.specs.State.{State};
ghost use Rattle.mount_sound.specs.Sound.{IsClean, IsFine};
ghost use Rattle.reader_laws.specs.Moments.{Moment, IsSoundAt};
ghost use Rattle.script_lang.specs.declared.line.Line.{Line};
ghost use Rattle.script_lang.specs.declared.script.Script.{Script};
ghost use Rattle.script_lang.specs.Ranges.{FitsScript};
ghost use Rattle.run_core.specs.Play.{IsPlay, IsRight};
ghost use Rattle.headline_laws.specs.Counting.{CountWrites};
ghost use Rattle.headline_laws.specs.Readers.{PlayShows, ReadersShow};
ghost use Rattle.headline_laws.specs.Undamaged.{AreUndamaged};

/// A law: where the lines of a script are right, from a sound state on, those of each reader show one plain file, in whatever order the actors call, and so does
/// each line that tells of a file. The line of a refresh shows a later file of the same container, with all writes and truncates of the former one, which the
/// reader has from then on; where the store fails, the reader has the former one still. The line of a truncate, of a rename, of a flattening or of a recovery
/// shows what was done to the container, and one that refuses a truncate or a rename as of no such file, as busy, as held, as one that exists or for want of a stamp shows that it was
/// so. So do the lines of a play that began in a state that is fine and clean. They also show what each actor's writer wrote, synced and closed: the line of an
/// opening names the writer that was entered, that of a write the one Write that was answered with its stamp, and the number of a sync or a close is that of the
/// writer's writes that were answered, which the mount told as synced by then. So a reader whose first call comes later misses none of them.
pub fn readers_show_one_file()
    ensures right { (script : Script) (start : Moment) (lines : List Line) (end : State) → FitsScript script → IsSoundAt start → (right : IsRight script start.state lines end) → ReadersShow script start lines end right }
    ensures played { (script : Script) (start : State) (lines : List Line) (end : State) → FitsScript script → IsFine start → IsClean start → (play : IsPlay script start lines end) → PlayShows script start lines end play }
{}

/// A law: no statement of a script finds a damaged item in a tree that was sound as the script began, whatever fault the store answers and in whatever
/// order the actors call. So a line that tells of damage tells of a tree that something else damaged.
pub fn no_line_is_damaged()
    ensures right { (script : Script) (start : State) (lines : List Line) (end : State) → FitsScript script → IsFine start → IsClean start → IsRight script start lines end → AreUndamaged lines }
    ensures played { (script : Script) (start : State) (lines : List Line) (end : State) → FitsScript script → IsFine start → IsClean start → IsPlay script start lines end → AreUndamaged lines }
{}

/// A law: where the lines of a script are right, from a state on that is fine and clean, the number that a sync or a close of an actor tells is that of the
/// actor's lines since its last opening of a writer that tell of a write with a stamp. So it is of the lines of a play.
pub fn syncs_count_what_was_written()
    ensures right { (script : Script) (start : State) (lines : List Line) (end : State) → FitsScript script → IsFine start → IsClean start → IsRight script start lines end → CountWrites script lines }
    ensures played { (script : Script) (start : State) (lines : List Line) (end : State) → FitsScript script → IsFine start → IsClean start → IsPlay script start lines end → CountWrites script lines }
{}
