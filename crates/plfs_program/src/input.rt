//! The input, read to its end or to its limit.
ghost use Rattle.std.specs.Prelude.{◌≡◌, ◌≤◌, ◌+◌, ◌^◌, vec_len, IfOk, OnOk, IsErrOf};
ghost use Rattle.edge_io.specs.Source.{Given};
ghost use Rattle.plfs_types.specs.Counts.{HasRisen};
ghost use Rattle.plfs_program.specs.Input.{IsWholeInput, HasMore};

use edge_io::{Failed, Source};
use plfs_types::{MAX_SCRIPT, NoMemory};
use std::alloc::{AllocError, Global};

// How many bytes one read asks for at most.
const PIECE: usize = 1 << 16;

/// Why there is no input.
#[derive(Clone, Copy)]
pub enum NoInput {
    /// A read failed.
    Failed,
    /// Memory was refused.
    NoMemory,
}

impl From<Failed> for NoInput {
    ghost use Rattle.std.specs.Prelude.{◌≡◌};
    ghost use Rattle.plfs_program.specs.declared.input.NoInput.TheVariants as variant;

    ghost from_gives = { λ _ why. why ≡ variant.Failed };

    fn from(_: Failed) -> Self {
        NoInput::Failed
    }
}

impl From<AllocError> for NoInput {
    ghost use Rattle.std.specs.Prelude.{◌≡◌};
    ghost use Rattle.plfs_program.specs.declared.input.NoInput.TheVariants.{NoMemory};

    ghost from_gives = { λ _ why. why ≡ NoMemory };

    fn from(_: AllocError) -> Self {
        NoInput::NoMemory
    }
}

/// The input of a command, which is read at once.
pub trait Input {
    /// The bytes it has left, where it tells them, and its count of faults.
    ghost given: { Self → Given };

    /// Hands over the bytes left, up to one more than a script can have.
    ///
    /// `Failed` comes only where the count of faults rose, and `NoMemory` only where it did not.
    fn rest(&mut self, alloc: Global) -> Result<Vec<u8>, NoInput>
        ensures whole { IfOk result (λ bytes. IsWholeInput (2 ^ 20 + 1) bytes.items (given self.old) (given self.new)) }
        ensures cause { IsErrOf result NoInput.Failed → HasRisen (given self.old).faults (given self.new).faults }
        ensures hungry { IsErrOf result NoInput.NoMemory → (given self.new).faults ≡ (given self.old).faults };
}

/// Each source is an input, whose bytes are copied.
impl<I: Source> Input for I {
    ghost given = { I.given };

    fn rest(&mut self, alloc: Global) -> Result<Vec<u8>, NoInput> {
        read_source(alloc, self)
    }
}

// Reads a source to its end, or to one byte past the limit of a script.
fn read_source<I: Source>(alloc: Global, input: &mut I) -> Result<Vec<u8>, NoInput>
    ensures whole { IfOk result (λ bytes. IsWholeInput (2 ^ 20 + 1) bytes.items (I.given input.old) (I.given input.new)) }
    ensures cause { IsErrOf result NoInput.Failed → HasRisen (I.given input.old).faults (I.given input.new).faults }
    ensures hungry { IsErrOf result NoInput.NoMemory → (I.given input.new).faults ≡ (I.given input.old).faults }
{
    let mut bytes = Vec::new(alloc);
    let mut buffer = piece_buffer(alloc)?;
    while bytes.len() <= MAX_SCRIPT {
        let count = read_piece(&mut buffer, &mut bytes, input)?;
        if count == 0 {
            break;
        }
    }
    Ok(bytes)
}

// Room for the bytes of one read.
fn piece_buffer(alloc: Global) -> Result<Vec<u8>, AllocError>
    ensures { IfOk result (λ buffer. vec_len buffer ≡ 2 ^ 16) }
{
    vec![in alloc; 0; PIECE]
}

// One read, whose bytes go behind those that are there.
fn read_piece<I: Source>(
    buffer: &mut Vec<u8>,
    bytes: &mut Vec<u8>,
    input: &mut I,
) -> Result<usize, NoInput>
    requires size { vec_len buffer.old ≡ 2 ^ 16 }
    requires room { vec_len bytes.old ≤ 2 ^ 20 }
    ensures size { vec_len buffer.new ≡ 2 ^ 16 }
    ensures more { IfOk result (λ n. HasMore n bytes.old.items bytes.new.items (I.given input.old) (I.given input.new)) }
    ensures limit { OnOk result (vec_len bytes.new ≤ 2 ^ 20 + 1) }
    ensures faults { OnOk result ((I.given input.new).faults ≡ (I.given input.old).faults) }
    ensures cause { IsErrOf result NoInput.Failed → HasRisen (I.given input.old).faults (I.given input.new).faults }
    ensures hungry { IsErrOf result NoInput.NoMemory → (I.given input.new).faults ≡ (I.given input.old).faults }
{
    let room = PIECE.min(MAX_SCRIPT + 1 - bytes.len());
    let into = &mut buffer[..room];
    let count = input.read(into)?;
    bytes.extend_from_slice(&into[..count])?;
    Ok(count)
}
