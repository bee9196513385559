//! Why bytes are no list of files.
/// A kind of fault, in the order in which they are looked for.
#[derive(Clone, Copy, PartialEq, Eq)]
pub enum Kind {
    /// The input has more than 2^20 bytes.
    Long,
    /// A word is empty.
    Spaces,
    /// There are not two words.
    Count,
    /// The first word is no logical name.
    Name,
    /// The second word is neither a dash nor an even number of lower-case digits.
    Data,
}

/// Why there are no files.
#[derive(Clone, Copy, PartialEq, Eq)]
pub enum InputTrouble {
    /// The first fault: its line, from 1, and its kind. An input that is too long has it in line 0.
    Fault { line: u64, kind: Kind },
    /// Memory was refused.
    NoMemory,
}

impl From<plfs_types::NoMemory> for InputTrouble {
    ghost use Rattle.std.specs.Prelude.{◌≡◌};
    ghost use Rattle.pack_input.specs.declared.trouble.InputTrouble.TheVariants.{NoMemory};

    ghost from_gives = { λ _ trouble. trouble ≡ NoMemory };

    fn from(_: plfs_types::NoMemory) -> Self {
        InputTrouble::NoMemory
    }
}
