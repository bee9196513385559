//! Laws of the line that bytes break at.
ghost use Rattle.std.specs.Prelude.{◌≡◌, ℕ, List, All};
ghost use Rattle.script_lang.specs.declared.line.Line.{Line};
ghost use Rattle.report_text.specs.Read.{BreaksAtLine};
ghost use Rattle.report_text.specs.Text.{text_of};
ghost use Rattle.report_text.specs.Widths.{IsLine};

/// A law: bytes break at one line at most.
pub fn one_break()
    ensures { (bytes : List ℕ) (a b : ℕ) → BreaksAtLine bytes a → BreaksAtLine bytes b → a ≡ b }
{}

/// A law: the text of lines breaks nowhere.
pub fn lines_break_nowhere()
    ensures { (lines : List Line) (number : ℕ) → All IsLine lines → ¬ BreaksAtLine (text_of lines) number }
{}
