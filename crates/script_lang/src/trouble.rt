//! Why bytes are no script.
use std::alloc::{AllocError, AllocFailed};
use std::error::Error;
use std::fmt;

/// A kind of fault, in the order in which a line is looked at: `Number`, `Name` and `Data` have one place in it,
/// where the leftmost argument decides, and `Long` comes before all others.
#[derive(Clone, Copy, Debug, PartialEq, Eq)]
pub enum Kind {
    /// A word is empty.
    Spaces,
    /// An actor is not declared, or a declaration has a malformed or doubled name, is late or is one too many.
    Actor,
    /// There is no such statement.
    Word,
    /// The number of words is wrong.
    Count,
    /// A number is outside its rule.
    Number,
    /// A file's name is outside its rule.
    Name,
    /// Data is outside its rule.
    Data,
    /// The lengths of the `read` lines so far sum to more than 2^28.
    Reads,
    /// The script has more than 2^20 bytes.
    Long,
}

impl fmt::Display for Kind {
    ghost use Rattle.std.specs.Prelude.{Some};
    ghost use Rattle.script_lang.specs.Messages.{kind_text};

    ghost output = { λ kind. Some (kind_text kind) };

    fn fmt<W: fmt::Write>(&self, f: &mut fmt::Formatter<W>) -> fmt::Result {
        f.write_str(match self {
            Kind::Spaces => "a word is empty",
            Kind::Actor =>
                "the actor isn't declared, or its declaration is malformed, doubled, late or one too many",
            Kind::Word => "there is no such statement",
            Kind::Count => "the number of words is wrong",
            Kind::Number => "a number is malformed or out of range",
            Kind::Name => "a file's name is malformed",
            Kind::Data => "data is malformed",
            Kind::Reads => "the reads so far ask for more than 2^28 bytes",
            Kind::Long => "the script has more than 2^20 bytes",
        })
    }
}

/// Why there is no script.
#[derive(Clone, Copy, Debug, PartialEq, Eq)]
pub enum ScriptTrouble {
    /// The first fault: its line, from 1, and its kind. Line 0 has the fault of a script that is too long.
    Fault { line: u64, kind: Kind },
    /// Memory was refused.
    NoMemory,
}

impl fmt::Display for ScriptTrouble {
    ghost use Rattle.std.specs.Prelude.{Some};
    ghost use Rattle.script_lang.specs.Messages.{trouble_text};

    ghost output = { λ trouble. Some (trouble_text trouble) };

    fn fmt<W: fmt::Write>(&self, f: &mut fmt::Formatter<W>) -> fmt::Result {
        match self {
            ScriptTrouble::Fault { line, kind } => write!(f, "line {line}: {kind}"),
            ScriptTrouble::NoMemory => f.write_str("memory was refused"),
        }
    }
}

impl Error for ScriptTrouble {}

impl From<AllocError> for ScriptTrouble {
    ghost use Rattle.std.specs.Prelude.{◌≡◌};
    ghost use Rattle.script_lang.specs.declared.trouble.ScriptTrouble.TheVariants.{NoMemory};

    ghost from_gives = { λ _ trouble. trouble ≡ NoMemory };

    fn from(_: AllocError) -> Self {
        ScriptTrouble::NoMemory
    }
}

impl<T: Drop> From<AllocFailed<T>> for ScriptTrouble {
    ghost use Rattle.std.specs.Prelude.{◌≡◌};
    ghost use Rattle.script_lang.specs.declared.trouble.ScriptTrouble.TheVariants.{NoMemory};

    ghost from_gives = { λ _ trouble. trouble ≡ NoMemory };

    fn from(_: AllocFailed<T>) -> Self {
        ScriptTrouble::NoMemory
    }
}

impl From<plfs_types::NoMemory> for ScriptTrouble {
    ghost use Rattle.std.specs.Prelude.{◌≡◌};
    ghost use Rattle.script_lang.specs.declared.trouble.ScriptTrouble.TheVariants.{NoMemory};

    ghost from_gives = { λ _ trouble. trouble ≡ NoMemory };

    fn from(_: plfs_types::NoMemory) -> Self {
        ScriptTrouble::NoMemory
    }
}
