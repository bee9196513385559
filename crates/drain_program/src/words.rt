//! The words of a drain.
ghost use Rattle.std.specs.Prelude.{◌≡◌, ◌↔◌, ℕ, List, IfNone, IfSome, IsTrue, codes};
ghost use Rattle.plfs_types.specs.Names.{IsLogicalName};
ghost use Rattle.drain_program.specs.Words.{IsDrainCommand};

use plfs_types::{LogicalName, Word};

/// A drain of the container of this name.
#[derive(Clone, Copy)]
pub struct DrainCommand {
    pub name: LogicalName,
}

/// Whether a word is the verb that drains.
fn is_drain(word: &Word) -> bool
    ensures { IsTrue result ↔ (word.now ≡ codes "drain") }
{
    word.as_bytes() == b"drain".as_slice()
}

/// The drain of the verb, behind which stands this name.
fn drain_of(verb: &Word, name: &Word) -> Option<DrainCommand>
    ensures found { IfSome result (λ command. (verb.now ≡ codes "drain") × (name.now ≡ command.name) × IsLogicalName command.name) }
    ensures none { IfNone result (verb.now ≡ codes "drain" → IsLogicalName name.now → ⊥) }
{
    if !is_drain(verb) {
        return None;
    }
    match LogicalName::read(name.as_bytes()) {
        Some(name) => Some(DrainCommand { name }),
        None => None,
    }
}

impl DrainCommand {
    /// The drain that these words are, or None exactly where they are none. Behind the name may stand the word of the target's folder.
    pub fn read(words: &[Word]) -> Option<DrainCommand>
        ensures found { IfSome result (λ command. IsDrainCommand words.now command.name) }
        ensures none { IfNone result ((name : List ℕ) → IsDrainCommand words.now name → ⊥) }
    {
        match words {
            [verb, name] => drain_of(verb, name),
            [verb, name, _folder] => drain_of(verb, name),
            _ => None,
        }
    }
}
