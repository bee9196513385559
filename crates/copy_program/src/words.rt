//! The words of `plfs_copy`.
ghost use Rattle.std.specs.Prelude.{◌≡◌, ◌<◌, ◌↔◌, ◌∷◌, [], ℕ, Bool, IfNone, IfSome, IsTrue, codes};
ghost use Rattle.copy_program.specs.Words.{AreOptions, IsCopyCommand, IsImportCommand};
ghost use Rattle.copy_program.specs.declared.words.CopyCommand.{CopyCommand as Asked};
ghost use Rattle.copy_program.specs.declared.words.ImportCommand.{ImportCommand as ImportAsked};

use plfs_types::{LogicalName, Word};
use program_ends::{host_of, is_over};

/// A command.
#[derive(Clone, Copy)]
pub enum CopyCommand {
    /// Puts the source into the file of this name, by a writer of this host. A file that is there is written over only where that is said.
    Put {
        name: LogicalName,
        host: u32,
        over: bool,
    },
    /// Writes a file out.
    Get {
        name: LogicalName,
    },
}

/// A command that puts each file of a folder into the file of its name: of which host the writers are, and whether a file that is there
/// is written over.
#[derive(Clone, Copy)]
pub struct ImportCommand {
    pub host: u32,
    pub over: bool,
}

/// Of which host the writer is, and whether a file may be written over.
#[derive(Clone, Copy)]
struct Options {
    host: u32,
    over: bool,
}

/// What one word behind a name says.
fn one_option(word: &Word) -> Option<Options>
    ensures found { IfSome result (λ o. AreOptions (word.now ∷ []) o.host o.over) }
    ensures none { IfNone result ((host : ℕ) (over : Bool) → AreOptions (word.now ∷ []) host over → ⊥) }
{
    if let Some(host) = host_of(word) {
        return Some(Options { host, over: false });
    }
    if is_over(word) {
        return Some(Options {
            host: 0,
            over: true,
        });
    }
    None
}

/// What two words behind a name say.
fn two_options(first: &Word, second: &Word) -> Option<Options>
    ensures found { IfSome result (λ o. AreOptions (first.now ∷ second.now ∷ []) o.host o.over) }
    ensures none { IfNone result ((host : ℕ) (over : Bool) → AreOptions (first.now ∷ second.now ∷ []) host over → ⊥) }
{
    if !is_over(second) {
        return None;
    }
    match host_of(first) {
        Some(host) => Some(Options { host, over: true }),
        None => None,
    }
}

/// What the words behind a name say.
fn options_of(words: &[Word]) -> Option<Options>
    ensures found { IfSome result (λ o. AreOptions words.now o.host o.over) }
    ensures none { IfNone result ((host : ℕ) (over : Bool) → AreOptions words.now host over → ⊥) }
{
    match words {
        [] => Some(Options {
            host: 0,
            over: false,
        }),
        [word] => one_option(word),
        [first, second] => two_options(first, second),
        _ => None,
    }
}

/// Whether a word is the verb that puts.
fn is_put(word: &Word) -> bool
    ensures { IsTrue result ↔ (word.now ≡ codes "put") }
{
    word.as_bytes() == b"put".as_slice()
}

/// Whether a word is the verb that gets.
fn is_get(word: &Word) -> bool
    ensures { IsTrue result ↔ (word.now ≡ codes "get") }
{
    word.as_bytes() == b"get".as_slice()
}

/// The command of the verb that puts, behind which stand this name and these words.
fn put_of(name: LogicalName, options: &[Word]) -> Option<CopyCommand>
    ensures found { IfSome result (IsCopyCommand (codes "put" ∷ name ∷ options.now)) }
    ensures none { IfNone result ((command : Asked) → IsCopyCommand (codes "put" ∷ name ∷ options.now) command → ⊥) }
{
    match options_of(options) {
        Some(o) => Some(CopyCommand::Put {
            name,
            host: o.host,
            over: o.over,
        }),
        None => None,
    }
}

/// The command of the verb that gets, behind which stand this name and these words.
fn get_of(name: LogicalName, options: &[Word]) -> Option<CopyCommand>
    ensures found { IfSome result (IsCopyCommand (codes "get" ∷ name ∷ options.now)) }
    ensures none { IfNone result ((command : Asked) → IsCopyCommand (codes "get" ∷ name ∷ options.now) command → ⊥) }
{
    if options.is_empty() {
        return Some(CopyCommand::Get { name });
    }
    None
}

/// The command of a verb, behind which stand this name and these words.
fn command_of(verb: &Word, name: LogicalName, options: &[Word]) -> Option<CopyCommand>
    ensures found { IfSome result (IsCopyCommand (verb.now ∷ name ∷ options.now)) }
    ensures none { IfNone result ((command : Asked) → IsCopyCommand (verb.now ∷ name ∷ options.now) command → ⊥) }
{
    if is_put(verb) {
        return put_of(name, options);
    }
    if is_get(verb) {
        return get_of(name, options);
    }
    None
}

impl CopyCommand {
    /// The command that these words are, or None exactly where they are none.
    pub fn read(words: &[Word]) -> Option<CopyCommand>
        ensures found { IfSome result (IsCopyCommand words.now) }
        ensures none { IfNone result ((command : Asked) → IsCopyCommand words.now command → ⊥) }
    {
        let [verb, name, options @ ..] = words else {
            return None;
        };
        match LogicalName::read(name.as_bytes()) {
            Some(name) => command_of(verb, name, options),
            None => None,
        }
    }
}

/// Whether a word is the verb that puts the files of a folder.
fn is_import(word: &Word) -> bool
    ensures { IsTrue result ↔ (word.now ≡ codes "import") }
{
    word.as_bytes() == b"import".as_slice()
}

impl ImportCommand {
    /// The command that these words are, or None exactly where they are none. The folder is the second word.
    pub fn read(words: &[Word]) -> Option<ImportCommand>
        ensures found { IfSome result (IsImportCommand words.now) }
        ensures none { IfNone result ((command : ImportAsked) → IsImportCommand words.now command → ⊥) }
    {
        let [verb, _, options @ ..] = words else {
            return None;
        };
        if !is_import(verb) {
            return None;
        }
        match options_of(options) {
            Some(o) => Some(ImportCommand {
                host: o.host,
                over: o.over,
            }),
            None => None,
        }
    }
}
