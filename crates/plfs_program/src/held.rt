//! An input whose bytes were read before.
ghost use Rattle.std.specs.Prelude.{◌≡◌, ◌+◌, ◌^◌, IfOk};
ghost use Rattle.plfs_program.specs.Input.{IsWholeInput, held};

use crate::input::{Input, NoInput};
use plfs_types::MAX_SCRIPT;
use std::alloc::{AllocError, Global};
use std::marker::Model;
use std::mem;

/// Bytes that were read before. They are handed on as they are, without a copy.
///
/// In contracts it is the list of its bytes.
#[derive(Drop)]
pub struct HeldInput {
    bytes: Vec<u8>,
}

impl Model for HeldInput {
    ghost use Rattle.std.specs.Prelude.{ℕ, List};

    ghost Value = { List ℕ };

    ghost view = { λ input. input.bytes.items };
}

impl HeldInput {
    /// An input of these bytes.
    pub fn new(bytes: Vec<u8>) -> HeldInput
        ensures { result ≡ bytes.items }
    {
        HeldInput { bytes }
    }
}

// Takes the front of the bytes, up to one more than a script can have. What stands behind it, mostly nothing, is left there.
fn take_front(bytes: &mut Vec<u8>) -> Result<Vec<u8>, AllocError>
    ensures { IfOk result (λ front. IsWholeInput (2 ^ 20 + 1) front.items (held bytes.old.items) (held bytes.new.items)) }
{
    let limit = (MAX_SCRIPT + 1).min(bytes.len());
    let behind = bytes.split_off(limit)?;
    Ok(mem::replace(bytes, behind))
}

/// It never fails.
impl Input for HeldInput {
    ghost given = { held };

    fn rest(&mut self, _alloc: Global) -> Result<Vec<u8>, NoInput> {
        Ok(take_front(&mut self.bytes)?)
    }
}
