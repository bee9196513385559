//! A law of plays.
ghost use Rattle.std.specs.Prelude.{List};
ghost use Rattle.mount_model.specs.State.{State};
ghost use Rattle.script_lang.specs.declared.line.Line.{Line};
ghost use Rattle.script_lang.specs.declared.script.Script.{Script};
ghost use Rattle.run_core.specs.Play.{IsPlay, IsRight};

/// A law: the lines of a play are right.
pub fn a_play_is_right()
    ensures { (script : Script) (start : State) (lines : List Line) (end : State) → IsPlay script start lines end → IsRight script start lines end }
{}
