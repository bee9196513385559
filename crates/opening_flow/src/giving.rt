//! The next call of each part of an opening, and the part once it was given.
ghost use Rattle.std.specs.Prelude.{◌≡◌, true, Some, IfOk, IfSome};
ghost use Rattle.mount_model.specs.Standing.{next_of, rest_of};
ghost use Rattle.mount_model.specs.Composed.{is_awaiting};
ghost use Rattle.mount_model.specs.Step.{OwedBy};
ghost use Rattle.index_reader.specs.OpenStages.{open_standing};
ghost use Rattle.opening_flow.specs.Parts.{parted, parts_left, IsPartUnderway};

use crate::parts::Part;
use gather_flow::Gathering;
use index_reader::{OpenRead, look_on};
use mount_model::{Call, Flow};
use plfs_types::NoMemory;

/// The next call of the listing.
pub(crate) fn give_look(scan: OpenRead, workers: u32) -> Result<(Part, Option<Call>), NoMemory>
    requires { is_awaiting (rest_of (open_standing scan)) ≡ true }
    ensures call { IfOk result (λ given. given.1 ≡ next_of (parted (Part.Listing scan workers))) }
    ensures owed { IfOk result (λ given. IfSome given.1 OwedBy) }
    ensures rest { IfOk result (λ given. rest_of (parted given.0) ≡ rest_of (parted (Part.Listing scan workers))) }
    ensures again { IfOk result (λ given. IfSome (next_of (parted given.0)) (λ call. next_of (parted (Part.Listing scan workers)) ≡ Some call)) }
    ensures left { IfOk result (λ given. parts_left given.0 ≡ parts_left (Part.Listing scan workers)) }
    ensures underway { IfOk result (λ given. IsPartUnderway given.0) }
{
    let (scan, asked) = look_on(scan)?;
    Ok((Part::Listing { scan, workers }, asked))
}

/// The next call of the gathering.
pub(crate) fn give_call(call: Option<Call>, gathering: Gathering) -> (Part, Option<Call>)
    requires { IsPartUnderway (Part.Gathering call gathering) }
    ensures call { result.1 ≡ next_of (parted (Part.Gathering call gathering)) }
    ensures owed { IfSome result.1 OwedBy }
    ensures rest { rest_of (parted result.0) ≡ rest_of (parted (Part.Gathering call gathering)) }
    ensures again { IfSome (next_of (parted result.0)) (λ asked. next_of (parted (Part.Gathering call gathering)) ≡ Some asked) }
    ensures left { parts_left result.0 ≡ parts_left (Part.Gathering call gathering) }
    ensures underway { IsPartUnderway result.0 }
{
    let given = Part::Gathering {
        call: None,
        gathering,
    };
    (given, call)
}
