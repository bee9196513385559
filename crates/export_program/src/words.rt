//! The words of an export.
ghost use Rattle.std.specs.Prelude.{◌≡◌, ◌↔◌, IfNone, IfSome, IsTrue, codes};
ghost use Rattle.export_program.specs.Words.{IsExportCommand};
ghost use Rattle.export_program.specs.declared.words.ExportCommand.{ExportCommand as Asked};

use plfs_types::Word;
use program_ends::is_over;

/// A command that writes each file out into a folder: whether one that is there is written over.
#[derive(Clone, Copy)]
pub struct ExportCommand {
    pub over: bool,
}

/// Whether a word is the verb.
fn is_export(word: &Word) -> bool
    ensures { IsTrue result ↔ (word.now ≡ codes "export") }
{
    word.as_bytes() == b"export".as_slice()
}

impl ExportCommand {
    /// The command that these words are, or None exactly where they are none. The folder is the second word.
    pub fn read(words: &[Word]) -> Option<ExportCommand>
        ensures found { IfSome result (IsExportCommand words.now) }
        ensures none { IfNone result ((command : Asked) → IsExportCommand words.now command → ⊥) }
    {
        match words {
            [verb, _] if is_export(verb) => Some(ExportCommand { over: false }),
            [verb, _, option] if is_export(verb) && is_over(option) => {
                Some(ExportCommand { over: true })
            }
            _ => None,
        }
    }
}
