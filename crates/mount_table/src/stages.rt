//! The stages in which a writer may make a call.
ghost use Rattle.std.specs.Prelude.{◌≡◌};
ghost use Rattle.mount_model.specs.Table.{rank as rank_of};
ghost use Rattle.mount_table.specs.Stages.{allowed};

use mount_model::Stage;

/// The stages in which a writer may make a call.
#[derive(Clone, Copy)]
pub enum Stages {
    Only(Stage),
    /// Open, or asked for its metadata dropping before.
    Closable,
    /// All but the last.
    Live,
}

impl Stages {
    /// Whether the stage is one of these.
    pub fn has(self, stage: Stage) -> bool
        ensures { result ≡ allowed self stage }
    {
        match self {
            Stages::Only(wanted) => rank(stage) == rank(wanted),
            Stages::Closable => rank(stage) == 4 || rank(stage) == 5,
            Stages::Live => rank(stage) < 6,
        }
    }
}

/// How far a stage is.
fn rank(stage: Stage) -> u8
    ensures { result ≡ rank_of stage }
{
    match stage {
        Stage::Entered => 0,
        Stage::Floored => 1,
        Stage::Housed => 2,
        Stage::Indexed => 3,
        Stage::Open => 4,
        Stage::Closing => 5,
        Stage::Dead => 6,
    }
}
