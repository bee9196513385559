//! The words of `plfs_check`.
ghost use Rattle.std.specs.Prelude.{◌∷◌, [], IfNone, IfSome};
ghost use Rattle.check_program.specs.Words.{IsCheckCommand};
ghost use Rattle.check_program.specs.declared.words.CheckCommand.{CheckCommand as Asked};

use plfs_types::{LogicalName, Word};

/// Which rooms are checked.
#[derive(Clone, Copy)]
pub enum CheckCommand {
    /// All of them.
    All,
    /// The container of this name.
    One { name: LogicalName },
}

/// The command of one word.
fn named(word: &Word) -> Option<CheckCommand>
    ensures found { IfSome result (IsCheckCommand (word.now ∷ [])) }
    ensures none { IfNone result ((command : Asked) → IsCheckCommand (word.now ∷ []) command → ⊥) }
{
    match LogicalName::read(word.as_bytes()) {
        Some(name) => Some(CheckCommand::One { name }),
        None => None,
    }
}

impl CheckCommand {
    /// The command that these words are, or None exactly where they are none.
    pub fn read(words: &[Word]) -> Option<CheckCommand>
        ensures found { IfSome result (IsCheckCommand words.now) }
        ensures none { IfNone result ((command : Asked) → IsCheckCommand words.now command → ⊥) }
    {
        match words {
            [] => Some(CheckCommand::All),
            [word] => named(word),
            _ => None,
        }
    }
}
