//! Which commands read the input, and its reading, which comes before any folder is touched.
ghost use Rattle.std.specs.Prelude.{◌≡◌, ◌+◌, [], true, false, take, option_map, IfOk, IfSome};
ghost use Rattle.plfs.specs.Streams.{copies_the_input, reads_the_input, writes_a_file};

use command_line::Command;
use copy_program::CopyCommand;
use plfs_types::MAX_SCRIPT;
use std::alloc::Global;
use std::io::{self, Read};

// Whether the command reads standard input.
fn reads_the_input(command: &Command) -> bool
    ensures { result ≡ reads_the_input command.now }
{
    match command {
        Command::Run | Command::Play | Command::Pack { .. } => true,
        Command::Gen { .. }
        | Command::Cat { .. }
        | Command::Stat { .. }
        | Command::Map { .. }
        | Command::Flatten { .. }
        | Command::Recover { .. }
        | Command::Migrate { .. }
        | Command::Unpack { .. }
        | Command::Names { .. }
        | Command::Trunc { .. }
        | Command::Rename { .. }
        | Command::Ls => false,
    }
}

/// Whether the command of `plfs_copy` copies standard input.
pub fn copies_the_input(command: &CopyCommand) -> bool
    ensures { result ≡ copies_the_input command.now }
{
    matches!(command, CopyCommand::Put { .. })
}

/// Whether the command writes the bytes of a file, and no lines.
pub fn writes_a_file(command: &Command) -> bool
    ensures { result ≡ writes_a_file command.now }
{
    matches!(command, Command::Cat { .. } | Command::Unpack { .. })
}

/// The bytes of the input, up to one more than a script can have, where the command reads it. No byte is read else.
#[inline(never)]
pub fn read_input<R: Read + Drop>(
    alloc: Global,
    reader: R,
    command: &Command,
) -> io::Result<Vec<u8>>
    ensures none { reads_the_input command.now ≡ false → IfOk result (λ input. input.items ≡ []) }
    ensures bytes { reads_the_input command.now ≡ true → IfOk result (λ input. IfSome (option_map (take (MAX_SCRIPT + 1)) (R.remaining reader)) (λ read. input.items ≡ read)) }
{
    if !reads_the_input(command) {
        return Ok(Vec::new(alloc));
    }
    read_front(alloc, reader)
}

// The bytes of a reader, up to one more than a script can have. All of their room is made at once, so that they aren't moved as they grow.
fn read_front<R: Read + Drop>(alloc: Global, reader: R) -> io::Result<Vec<u8>>
    ensures bytes { IfOk result (λ input. IfSome (option_map (take (MAX_SCRIPT + 1)) (R.remaining reader)) (λ read. input.items ≡ read)) }
{
    let mut input = Vec::with_capacity(alloc, MAX_SCRIPT + 1)?;
    reader.take(MAX_SCRIPT as u64 + 1).read_to_end(&mut input)?;
    Ok(input)
}
