//! The next call of each part of a whole flattening, and the part once it was given.
ghost use Rattle.std.specs.Prelude.{◌≡◌, true, Some, IfOk, IfSome};
ghost use Rattle.mount_model.specs.Standing.{ready, next_of, rest_of};
ghost use Rattle.mount_model.specs.Composed.{is_awaiting};
ghost use Rattle.mount_model.specs.Step.{OwedBy};
ghost use Rattle.index_reader.specs.OpenStages.{open_standing};
ghost use Rattle.flatten_core.specs.Parts.{parted, parts_left, IsPartUnderway};
ghost use Rattle.flatten_core.specs.Stages.{IsUnderway, installing};
ghost use Rattle.flatten_core.specs.StartStages.{starting};

use crate::flattening::Flattened;
use crate::parts::Part;
use crate::stages::Stage as Ending;
use crate::starting::{Stage as Beginning, Started};
use gather_flow::Gathering;
use index_reader::{OpenRead, look_on};
use mount_model::{Call, Flow};
use plfs_types::NoMemory;

/// The next call of the beginning.
pub(crate) fn give_start(stage: Beginning) -> (Part, Option<Call>)
    requires { is_awaiting (rest_of (ready (starting stage))) ≡ true }
    ensures call { result.1 ≡ next_of (parted (Part.Beginning stage)) }
    ensures owed { IfSome result.1 OwedBy }
    ensures part { result.0 ≡ Part.Beginning stage }
{
    let same = stage;
    let asked = same.call();
    (Part::Beginning(stage), asked)
}

/// The next call of the listing.
pub(crate) fn give_look(scan: OpenRead, started: Started) -> Result<(Part, Option<Call>), NoMemory>
    requires { is_awaiting (rest_of (open_standing scan)) ≡ true }
    ensures call { IfOk result (λ given. given.1 ≡ next_of (parted (Part.Listing scan started))) }
    ensures owed { IfOk result (λ given. IfSome given.1 OwedBy) }
    ensures rest { IfOk result (λ given. rest_of (parted given.0) ≡ rest_of (parted (Part.Listing scan started))) }
    ensures again { IfOk result (λ given. IfSome (next_of (parted given.0)) (λ call. next_of (parted (Part.Listing scan started)) ≡ Some call)) }
    ensures left { IfOk result (λ given. parts_left given.0 ≡ parts_left (Part.Listing scan started)) }
    ensures underway { IfOk result (λ given. IsPartUnderway given.0) }
{
    let (scan, asked) = look_on(scan)?;
    Ok((Part::Listing { scan, started }, asked))
}

/// The next call of the gathering.
pub(crate) fn give_call(
    call: Option<Call>,
    gathering: Gathering,
    started: Started,
) -> (Part, Option<Call>)
    requires { IsPartUnderway (Part.Gathering call gathering started) }
    ensures call { result.1 ≡ next_of (parted (Part.Gathering call gathering started)) }
    ensures owed { IfSome result.1 OwedBy }
    ensures rest { rest_of (parted result.0) ≡ rest_of (parted (Part.Gathering call gathering started)) }
    ensures again { IfSome (next_of (parted result.0)) (λ asked. next_of (parted (Part.Gathering call gathering started)) ≡ Some asked) }
    ensures left { parts_left result.0 ≡ parts_left (Part.Gathering call gathering started) }
    ensures underway { IsPartUnderway result.0 }
{
    let given = Part::Gathering {
        call: None,
        gathering,
        started,
    };
    (given, call)
}

/// The next call of the end.
pub(crate) fn give_end(
    stage: Ending,
    started: Started,
    told: Flattened,
) -> Result<(Part, Option<Call>), NoMemory>
    requires underway { IsUnderway stage }
    requires awaits { is_awaiting (rest_of (installing started.room started.flat stage)) ≡ true }
    ensures call { IfOk result (λ given. given.1 ≡ next_of (parted (Part.Ending stage started told))) }
    ensures owed { IfOk result (λ given. IfSome given.1 OwedBy) }
    ensures rest { IfOk result (λ given. rest_of (parted given.0) ≡ rest_of (parted (Part.Ending stage started told))) }
    ensures again { IfOk result (λ given. IfSome (next_of (parted given.0)) (λ call. next_of (parted (Part.Ending stage started told)) ≡ Some call)) }
    ensures left { IfOk result (λ given. parts_left given.0 ≡ parts_left (Part.Ending stage started told)) }
    ensures underway { IfOk result (λ given. IsPartUnderway given.0) }
{
    let (stage, asked) = stage.give(started.room, started.flat)?;
    let part = Part::Ending {
        stage,
        started,
        told,
    };
    Ok((part, asked))
}
