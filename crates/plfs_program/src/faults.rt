//! The line of a script that has a fault.
ghost use Rattle.std.specs.Prelude.{◌≡◌, IfOk};
ghost use Rattle.plfs_program.specs.Faults.{kind_word, fault_line};

use itoa::Buffer;
use plfs_types::NoMemory;
use script_lang::Kind;
use std::alloc::Global;

// The word of a kind of fault.
fn kind_word(kind: Kind) -> &'static [u8]
    ensures { result.now ≡ kind_word kind }
{
    match kind {
        Kind::Spaces => b"spaces",
        Kind::Actor => b"actor",
        Kind::Word => b"word",
        Kind::Count => b"count",
        Kind::Number => b"number",
        Kind::Name => b"name",
        Kind::Data => b"data",
        Kind::Reads => b"reads",
        Kind::Long => b"long",
    }
}

/// The line that tells a fault: `script`, the number of the script's line and the word of the kind.
pub(crate) fn fault_line(alloc: Global, line: u64, kind: Kind) -> Result<Vec<u8>, NoMemory>
    ensures { IfOk result (λ text. text.items ≡ fault_line line kind) }
{
    let mut buffer = Buffer::new();
    let mut text = Vec::from_slice(alloc, b"script ")?;
    text.extend_from_slice(buffer.format(line).as_bytes())?;
    text.push(b' ')?;
    text.extend_from_slice(kind_word(kind))?;
    text.push(b'\n')?;
    Ok(text)
}
