//! Laws of the two formats.
ghost use Rattle.std.specs.Prelude.{◌≡◌};
ghost use Rattle.script_lang.specs.declared.script.Numbered.{Numbered};
ghost use Rattle.frame_format.specs.Heads.{FitsHead};
ghost use Rattle.frame_format.specs.Requests.{IsRequest, head_of, request_bytes};
ghost use Rattle.frame_format.specs.Telling.{FitsAnswer, answer_bytes};
ghost use Rattle.frame_format.specs.declared.answering.Answer.{Answer};

/// A law: no bytes are two requests.
pub fn requests_are_told_apart()
    ensures { (one other : Numbered) → IsRequest one → IsRequest other → FitsHead (head_of one) → FitsHead (head_of other) → request_bytes one ≡ request_bytes other → one ≡ other }
{}

/// A law: no bytes are two answers.
pub fn answers_are_told_apart()
    ensures { (one other : Answer) → FitsAnswer one → FitsAnswer other → answer_bytes one ≡ answer_bytes other → one ≡ other }
{}
