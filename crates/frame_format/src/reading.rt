//! Requests.
ghost use Rattle.std.specs.Prelude.{◌≡◌, Some, IfSome};
ghost use Rattle.script_lang.specs.declared.script.Numbered.{Numbered as ANumbered};
ghost use Rattle.script_lang.specs.Ranges.{FitsStatement};
ghost use Rattle.frame_format.specs.Asking.{request_of};
ghost use Rattle.frame_format.specs.Requests.{IsRequest, head_of, payload_of};

use crate::asking::asked;
use crate::head::Head;
use plfs_types::Bytes;
use script_lang::Numbered;

/// How many actors there are.
pub const ACTORS: u64 = 256;

fn made(head: &Head, payload: Bytes) -> Option<Numbered>
    ensures { result ≡ request_of head.now payload }
{
    if head.actor < ACTORS && head.len == payload.as_slice().len() as u64 {
        let statement = asked(head.kind, head.place, head.extent, payload)?;
        return Some(Numbered {
            line: head.number,
            actor: head.actor,
            statement,
        });
    }
    None
}

/// The request that the head and the bytes behind it are, or None exactly where they are none.
pub fn request(head: &Head, payload: Bytes) -> Option<Numbered>
    // What is read is a request, of this head and these bytes.
    ensures found { IfSome result (λ asked. IsRequest asked × (head.now ≡ head_of asked) × (payload ≡ payload_of asked)) }
    // Each request of this head and these bytes is read.
    ensures only { (asked : ANumbered) → IsRequest asked → head.now ≡ head_of asked → payload ≡ payload_of asked → result ≡ Some asked }
    // Its numbers and data are in their ranges.
    ensures fits { IfSome result (λ asked. FitsStatement asked.statement) }
{
    made(head, payload)
}
