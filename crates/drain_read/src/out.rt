//! Machines whose call is out.
ghost use Rattle.std.specs.Prelude.{◌≡◌, true};
ghost use Rattle.mount_model.specs.Composed.{is_awaiting};
ghost use Rattle.mount_model.specs.Standing.{rest_of};
ghost use Rattle.index_reader.specs.OpenStages.{open_standing};
ghost use Rattle.index_reader.specs.Stages.{tail_standing};
ghost use Rattle.index_reader.specs.TruncStages.{trunc_standing};

use index_reader::{OpenRead, TailFlow, TruncRead};

/// A listing whose call is out.
#[derive(Drop)]
pub(crate) struct Scan {
    pub(crate) scan: OpenRead,
    ghost awaits: { is_awaiting (rest_of (open_standing scan)) ≡ true },
}

/// A dropping that is read, and whose call is out.
#[derive(Drop)]
pub(crate) struct TailOut {
    pub(crate) flow: TailFlow,
    ghost awaits: { is_awaiting (rest_of (tail_standing flow)) ≡ true },
}

/// A listing of truncates whose call is out.
#[derive(Drop)]
pub(crate) struct TruncsOut {
    pub(crate) flow: TruncRead,
    ghost awaits: { is_awaiting (rest_of (trunc_standing flow)) ≡ true },
}
