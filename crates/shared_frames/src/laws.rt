//! Laws of shared frames.
ghost use Rattle.std.specs.Prelude.{◌≡◌, ◌<◌, ◌≤◌, ◌+◌, ◌^◌, ◌++◌, ℕ, List, [], None, length, take, option_map};
ghost use Rattle.frame_format.specs.Asking.{request_of};
ghost use Rattle.frame_format.specs.Telling.{FitsAnswer, answer_bytes};
ghost use Rattle.frame_format.specs.declared.answering.Answer.{Answer};
ghost use Rattle.frame_format.specs.declared.head.Head.{Head};
ghost use Rattle.shared_frames.specs.Answers.{missing};
ghost use Rattle.shared_frames.specs.Exchanging.{Exchanging, Runs};
ghost use Rattle.shared_frames.specs.Placing.{actor_at, moved, placed};

/// A law: no two actors of processes are one actor of the engine.
pub fn places_share_no_actor()
    ensures { (place other actor another : ℕ) → actor < 16 → another < 16 → actor_at place actor ≡ actor_at other another → (place ≡ other) × (actor ≡ another) }
{}

/// A law: a frame with an actor that the process has asks for the same statement as before, of the engine's actor, and with the same number. With any
/// other actor it is no request.
pub fn a_placed_request_is_the_same_of_another_actor()
    ensures same { (place : ℕ) (head : Head) (payload : List ℕ) → place < 16 → head.actor < 16 → request_of (placed place head) payload ≡ option_map (moved place) (request_of head payload) }
    ensures none { (place : ℕ) (head : Head) (payload : List ℕ) → 16 ≤ head.actor → request_of (placed place head) payload ≡ None }
{}

/// A law: of a front of an answer some bytes are missing, and none behind its end. Of all of it none are.
pub fn answers_are_cut_at_their_ends()
    ensures front { (answer : Answer) (n : ℕ) → FitsAnswer answer → length answer.payload < 2 ^ 64 → n < length (answer_bytes answer) → (1 ≤ missing (take n (answer_bytes answer))) × (n + missing (take n (answer_bytes answer)) ≤ length (answer_bytes answer)) }
    ensures whole { (answer : Answer) → FitsAnswer answer → length answer.payload < 2 ^ 64 → missing (answer_bytes answer) ≡ 0 }
{}

/// A law: the n-th answer goes to the process from which the n-th frame came. What is owed are the others.
pub fn answers_go_to_those_who_asked()
    ensures { (start end : Exchanging) (asked told : List ℕ) → start.owed ≡ [] → Runs start asked told end → asked ≡ told ++ end.owed }
{}
