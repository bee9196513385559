//! The laws of an engine's answers.
ghost use Rattle.std.specs.Prelude.{◌≡◌, ◌<◌, ◌++◌, ℕ, true, List};
ghost use Rattle.edge_io.specs.Source.{Given};
ghost use Rattle.store_api.specs.Acts.{Stored};
ghost use Rattle.store_api.specs.declared.tree.Tree.{Tree};
ghost use Rattle.script_lang.specs.declared.line.Line.{Line};
ghost use Rattle.script_lang.specs.declared.script.Numbered.{Numbered};
ghost use Rattle.headline.specs.Run.{IsLine, Told, surely_before};
ghost use Rattle.program_ends.specs.Ends.{Ends};
ghost use Rattle.serve_program.specs.Running.{Runs};
ghost use Rattle.serve_program.specs.Words.{actors_on};
ghost use Rattle.serving_laws.specs.Served.{EndsWell, HasServed, KeepsItsWord, SeesTrees, Serves, seen_of};

/// A law: an engine that ended with the status 0, 5 or 6 served what it was asked for, and then each client closed its writer.
pub fn what_ended_so_was_served()
    ensures { (host : ℕ) (given given_after : Given) (e : Ends) (status : ℕ) → Runs (actors_on host) given given_after e status → EndsWell status → HasServed host given given_after e }
{}

/// A law: where the store told a sound tree before and tells one after, the lines of what was served keep their word. A reader's line counts of each writer
/// all writes that a sync or a close told before. All answers of the reader are those of one plain file, of the first writes of each writer.
pub fn what_was_served_keeps_its_word()
    ensures { (host : ℕ) (given given_after : Given) (e : Ends) (asked : List Numbered) (lines more : List Line) (left : Stored) (before after : Tree)
        → Serves host given given_after e asked lines more → SeesTrees e before left after → KeepsItsWord (seen_of host e asked (lines ++ more) before left after) }
{}

/// A law: of two requests the one that came first ended before the other began. So what a sync told is in the cut of each reader that is opened later.
pub fn requests_are_made_in_their_order()
    ensures { (host : ℕ) (e : Ends) (asked : List Numbered) (lines : List Line) (left : Stored) (before after : Tree) (s t : Told)
        → IsLine (seen_of host e asked lines before left after) s → IsLine (seen_of host e asked lines before left after) t → s.place < t.place → surely_before (seen_of host e asked lines before left after) s t ≡ true }
{}
