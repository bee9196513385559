//! The next call of each part of a refresh, and the part once it was given.
ghost use Rattle.std.specs.Prelude.{◌≡◌, true, Some, IfOk, IfSome};
ghost use Rattle.mount_model.specs.Standing.{next_of, rest_of};
ghost use Rattle.mount_model.specs.Composed.{is_awaiting};
ghost use Rattle.mount_model.specs.Step.{OwedBy};
ghost use Rattle.index_reader.specs.OpenStages.{open_standing};
ghost use Rattle.refresh_index.specs.Parts.{parted, parts_left, IsPartUnderway};

use crate::held::Held;
use crate::parts::Part;
use gather_flow::Gathering;
use index_reader::{OpenRead, look_on};
use mount_model::{Call, Flow};
use plfs_types::NoMemory;

/// The next call of the listing.
pub(crate) fn give_look(scan: OpenRead, held: Held) -> Result<(Part, Option<Call>), NoMemory>
    requires { is_awaiting (rest_of (open_standing scan)) ≡ true }
    ensures call { IfOk result (λ given. given.1 ≡ next_of (parted (Part.Listing scan held))) }
    ensures owed { IfOk result (λ given. IfSome given.1 OwedBy) }
    ensures rest { IfOk result (λ given. rest_of (parted given.0) ≡ rest_of (parted (Part.Listing scan held))) }
    ensures again { IfOk result (λ given. IfSome (next_of (parted given.0)) (λ call. next_of (parted (Part.Listing scan held)) ≡ Some call)) }
    ensures left { IfOk result (λ given. parts_left given.0 ≡ parts_left (Part.Listing scan held)) }
    ensures underway { IfOk result (λ given. IsPartUnderway given.0) }
{
    match look_on(scan) {
        Ok((scan, asked)) => Ok((Part::Listing { scan, held }, asked)),
        Err(why) => {
            drop(held);
            Err(why)
        }
    }
}

/// The next call of the gathering.
pub(crate) fn give_call(
    call: Option<Call>,
    gathering: Gathering,
    held: Held,
) -> (Part, Option<Call>)
    requires { IsPartUnderway (Part.Gathering call gathering held) }
    ensures call { result.1 ≡ next_of (parted (Part.Gathering call gathering held)) }
    ensures owed { IfSome result.1 OwedBy }
    ensures rest { rest_of (parted result.0) ≡ rest_of (parted (Part.Gathering call gathering held)) }
    ensures again { IfSome (next_of (parted result.0)) (λ asked. next_of (parted (Part.Gathering call gathering held)) ≡ Some asked) }
    ensures left { parts_left result.0 ≡ parts_left (Part.Gathering call gathering held) }
    ensures underway { IsPartUnderway result.0 }
{
    let given = Part::Gathering {
        call: None,
        gathering,
        held,
    };
    (given, call)
}
