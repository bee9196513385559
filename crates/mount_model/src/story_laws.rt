//! The laws of stories, for any object.
ghost use Rattle.std.specs.Prelude.{◌≡◌, ℕ, Bool, List, [], ◌∷◌, ◌++◌, length};
ghost use Rattle.std.specs.List.{All};
ghost use Rattle.turn_object.specs.declared.history.Entry.{Entry};
ghost use Rattle.turn_object.specs.declared.front.Front.{Front};
ghost use Rattle.turn_object.specs.History.{StartsWith};
ghost use Rattle.turn_object.specs.Ended.{as_ended};
ghost use Rattle.turn_object.specs.Front.{KeepsIn, IsLegalFront};
ghost use Rattle.turn_object.specs.Calls.{MayAsk, IsCalled};
ghost use Rattle.mount_model.specs.Program.{Program, followed_by, done, ask};
ghost use Rattle.mount_model.specs.Process.{Process, leads_to, pauses, tells, asks, shares};
ghost use Rattle.mount_model.specs.Calls.{AreCallsOf, AreCallsOfEach};
ghost use Rattle.mount_model.specs.MakesCalls.{one_history, MakesCalls, IsStory};
ghost use Rattle.mount_model.specs.Safe.{PassSafe, PassSafeProcess};
ghost use Rattle.mount_model.specs.Going.{IsNewTo, HasJoined, HasMade, HasGone};
ghost use Rattle.mount_model.specs.Players.{Player, player, HasPlayed, processes_of, told_by};
ghost use Rattle.mount_model.specs.OneThread.{Differ, PlayAlone};
ghost use Rattle.mount_model.specs.Performers.{Performer, NoneAhead, numbers_of, left_of, told_by_each};
ghost use Rattle.mount_model.specs.InTurns.{WrittenOrder, statements_of, InTurns};
ghost use Rattle.mount_model.specs.Closing.{HasAll};

use turn_object::Object;

/// A law: the calls of a program that is followed by another are its own calls, and then the other's.
pub fn programs_follow_each_other<O: Object, First, Next>()
    ensures both { (p : Program O.Ask O.Reply First) (next : First → Program O.Ask O.Reply Next) (first rest : List (Entry O.Ask O.Reply O)) (value : First) (result : Next)
        → AreCallsOf p first value
        → AreCallsOf (next value) rest result
        → AreCallsOf (followed_by p next) (first ++ rest) result }
    ensures in_two { (p : Program O.Ask O.Reply First) (next : First → Program O.Ask O.Reply Next) (calls : List (Entry O.Ask O.Reply O)) (result : Next)
        → AreCallsOf (followed_by p next) calls result
        → (first rest : List (Entry O.Ask O.Reply O)) × (value : First) × (calls ≡ first ++ rest) × AreCallsOf p first value × AreCallsOf (next value) rest result }
{}

/// A law: what is safe for a pass it may ask, and after the call what follows is safe for it, whatever others called before it. It stays safe while the pass
/// only sees more.
pub fn a_safe_pass_may_ask<O: Object, Share, Line>()
    ensures may { (start : O) (v : Front O.Ask O.Reply O) (question : O.Ask) (next : O.Reply → Process O.Ask O.Reply Share Line)
        → PassSafeProcess O.step O.may start v (asks question next)
        → MayAsk O.may start v question }
    ensures goes_on { (start : O) (v w : Front O.Ask O.Reply O) (question : O.Ask) (reply : O.Reply) (next : O.Reply → Process O.Ask O.Reply Share Line)
        → KeepsIn v.seen v.mine
        → IsCalled O.step O.may start v question reply w
        → IsLegalFront O.step O.may start w
        → PassSafeProcess O.step O.may start v (asks question next)
        → PassSafeProcess O.step O.may start w (next reply) }
    ensures sees { (start : O) (v w : Front O.Ask O.Reply O) (p : Process O.Ask O.Reply Share Line)
        → StartsWith w.seen v.seen
        → w.mine ≡ v.mine
        → KeepsIn v.seen v.mine
        → IsLegalFront O.step O.may start w
        → PassSafeProcess O.step O.may start v p
        → PassSafeProcess O.step O.may start w p }
{}

/// A law: how a pass goes on in its process: with a call, with a line, with the whole of a program, and with one such step after another.
pub fn a_pass_goes_on<O: Object, Share, Line, Value>()
    ensures call { (start : O) (v w : Front O.Ask O.Reply O) (question : O.Ask) (reply : O.Reply) (next : O.Reply → Process O.Ask O.Reply Share Line)
        → KeepsIn v.seen v.mine
        → IsCalled O.step O.may start v question reply w
        → HasGone v (asks question next) w (next reply) [] }
    ensures line { (v : Front O.Ask O.Reply O) (line : Line) (p : Process O.Ask O.Reply Share Line) → HasGone v (tells line p) v p (line ∷ []) }
    ensures program { (v w : Front O.Ask O.Reply O) (p : Program O.Ask O.Reply Value) (value : Value) (next : Value → Process O.Ask O.Reply Share Line)
        → HasMade v p w (done value)
        → HasGone v (leads_to p next) w (next value) [] }
    ensures one_after_another { (v u w : Front O.Ask O.Reply O) (p q r : Process O.Ask O.Reply Share Line) (first second : List Line)
        → HasGone v p u q first
        → HasGone u q w r second
        → HasGone v p w r (first ++ second) }
{}

/// A law: workers whose passes were split from an actor's and joined into it take the actor on, as their results say; and what follows is safe. An actor that
/// does without workers goes on by itself.
pub fn workers_take_a_pass_on<O: Object, Share, Line>()
    ensures gone { (start : O) (v w : Front O.Ask O.Reply O) (programs : List (Program O.Ask O.Reply Share)) (next : List Share → Process O.Ask O.Reply Share Line)
        (alone : Process O.Ask O.Reply Share Line) (calls : List (List (Entry O.Ask O.Reply O))) (results : List Share)
        → IsLegalFront O.step O.may start v
        → IsLegalFront O.step O.may start w
        → HasJoined v w calls
        → w.parts ≡ v.parts
        → AreCallsOfEach programs calls results
        → All (IsNewTo v.seen) calls
        → HasGone v (shares programs next alone) w (next results) [] }
    ensures safe { (start : O) (v w : Front O.Ask O.Reply O) (programs : List (Program O.Ask O.Reply Share)) (next : List Share → Process O.Ask O.Reply Share Line)
        (alone : Process O.Ask O.Reply Share Line) (calls : List (List (Entry O.Ask O.Reply O))) (results : List Share)
        → IsLegalFront O.step O.may start v
        → IsLegalFront O.step O.may start w
        → HasJoined v w calls
        → AreCallsOfEach programs calls results
        → PassSafeProcess O.step O.may start v (shares programs next alone)
        → PassSafeProcess O.step O.may start w (next results) }
    ensures alone { (v w : Front O.Ask O.Reply O) (programs : List (Program O.Ask O.Reply Share)) (next : List Share → Process O.Ask O.Reply Share Line)
        (alone q : Process O.Ask O.Reply Share Line) (lines : List Line)
        → HasGone v alone w q lines
        → HasGone v (shares programs next alone) w q lines }
{}

/// A law: an actor whose pass has seen what all had called goes through a phase up to a pause, and has then played one phase more, of which the block is what all
/// called in it.
pub fn a_phase_takes_a_player_on<O: Object, Share, Line>()
    ensures { (start : O) (process left next : Process O.Ask O.Reply Share Line) (lines told : List Line) (v w : Front O.Ask O.Reply O)
        (history block : List (Entry O.Ask O.Reply O)) (blocks : List (List (Entry O.Ask O.Reply O)))
        → HasPlayed O.step O.may start history blocks (player process v left lines)
        → v.seen ≡ history
        → HasGone v left w (pauses next) told
        → IsLegalFront O.step O.may start w
        → PassSafeProcess O.step O.may start w next
        → StartsWith (history ++ block) w.seen
        → HasPlayed O.step O.may start (history ++ block) (blocks ++ block ∷ []) (player process w next (lines ++ told)) }
{}

/// A law: where the passes of all actors, who have played to their end, were joined into one that has made no call and has all parts, what it has seen is a story
/// of these actors: it happens from the object as the turn was made, and makes their calls and no others.
pub fn players_make_the_calls<O: Object, Share, Line>()
    ensures { (start : O) (main : Front O.Ask O.Reply O) (blocks : List (List (Entry O.Ask O.Reply O))) (players : List (Player O.Ask O.Reply O Share Line))
        → HasAll O.step O.may start main blocks players
        → IsStory O.step O.may start (processes_of players) (told_by players) main.seen }
{}

/// A law: actors on one thread that play their processes under different numbers, while nobody else calls, make the calls of these processes.
pub fn actors_on_one_thread_make_the_calls<O: Object, Share, Line>()
    ensures { (processes : List (Process O.Ask O.Reply Share Line)) (numbers : List ℕ) (blocks : List (List (Entry O.Ask O.Reply O))) (lines : List (List Line))
        → PlayAlone processes numbers blocks lines
        → MakesCalls processes (one_history blocks) lines }
{}

/// A law: actors on one thread that take the written turns of each phase under different numbers, and then carry what is unfinished to its end in written order,
/// make the calls of their processes, and each tells the lines of its statements: one line a statement. Calls that are free take no turn.
pub fn written_turns_make_the_calls<O: Object, Share, Line>()
    ensures calls { (is_free : O.Ask → Bool) (phases : List WrittenOrder) (actors : List (Performer O.Ask O.Reply Share Line)) (history : List (Entry O.Ask O.Reply O)) (lines : List Line)
        → Differ (numbers_of actors)
        → NoneAhead actors
        → InTurns is_free phases actors history lines
        → MakesCalls (left_of actors) history (told_by_each 0 actors (statements_of phases) lines) }
    ensures long { (is_free : O.Ask → Bool) (phases : List WrittenOrder) (actors : List (Performer O.Ask O.Reply Share Line)) (history : List (Entry O.Ask O.Reply O)) (lines : List Line)
        → InTurns is_free phases actors history lines
        → length lines ≡ length (statements_of phases) }
{}
