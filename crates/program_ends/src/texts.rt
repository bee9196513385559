//! Texts are put together, and printed.
ghost use Rattle.std.specs.Prelude.{◌≡◌, ◌⊎◌, ◌++◌, OnOk};
ghost use Rattle.std.specs.Fmt.{decimal};
ghost use Rattle.program_ends.specs.Reported.{IsReported};

use crate::output::write_out;
use edge_io::Sink;
use itoa::Buffer;
use plfs_types::NoMemory;

/// A word and a number more.
pub fn push_number(text: &mut Vec<u8>, word: &[u8], number: u128) -> Result<(), NoMemory>
    ensures { OnOk result (text.new.items ≡ text.old.items ++ (word.now ++ decimal number)) }
{
    let mut buffer = Buffer::new();
    text.extend_from_slice(word)?;
    text.extend_from_slice(buffer.format(number).as_bytes())?;
    Ok(())
}

/// Writes this text, and answers this status where all of it was taken, and else 6. It wants no memory.
pub fn say_text<O: Sink>(out: &mut O, text: &[u8], status: u8) -> u8
    ensures reported { IsReported text.now status (O.taking out.old) (O.taking out.new) result }
    ensures told { (result ≡ status) ⊎ (result ≡ 6) }
{
    match write_out(out, text) {
        Ok(()) => status,
        Err(_) => 6,
    }
}
